//! The next multiple of a number, in 32 bits.

ghost use Rattle.std.specs.Prelude.{◌≡◌, ◌^◌, ◌≤◌, IfNone, IfSome};
ghost use Rattle.ir_model.specs.Layout as layout;

/// The least multiple of a step that is not below a number; 0 where the step is 0. None where that multiple passes 32 bits.
pub fn rounded_up(number: u32, step: u32) -> Option<u32>
    ensures value { IfSome result (λ n. n ≡ layout.rounded_up number step) }
    ensures none { IfNone result (2 ^ 32 ≤ layout.rounded_up number step) }
{
    if step == 0 {
        return Some(0);
    }
    let filled = u64::from(number) + (u64::from(step) - 1);
    u32::try_from(filled / u64::from(step) * u64::from(step)).ok()
}
