//! How many bytes and words the globals of a region fill, in 32 bits.

ghost use Rattle.std.specs.Prelude.{◌≡◌, ◌^◌, ◌≤◌, ◌⊎◌, IfNone, IfSome};
ghost use Rattle.ir_model.specs.Layout as layout;
ghost use Rattle.ir_model.specs.Resolved.{global_at};
ghost use Rattle.ir_program.specs.Seen.{program_of};
ghost use Rattle.plan_model.specs.Blocks as blocks;
ghost use Rattle.plan_model.specs.TableSize as table_size;
ghost use Rattle.plan_sizes.specs.Passing.{Passes};

use ir_model::extent::Extent;
use ir_model::rounding::rounded_up;
use ir_program::program::Program;

/// The size and the alignment of a global, in bytes, by its number; those of no bytes where the program has no such global.
pub fn extent_of(program: &Program, global: u32) -> Extent
    ensures size { result.size ≡ (global_at (program_of program.now) global).shape.size }
    ensures align { result.align ≡ (global_at (program_of program.now) global).shape.align }
{
    match program.globals.as_slice().get(global as usize) {
        Some(variable) => Extent {
            size: variable.storage.size,
            align: variable.storage.align,
        },
        None => Extent { size: 0, align: 1 },
    }
}

/// The bytes of a region of these globals, each at the next multiple of its alignment behind those before it.
#[tactic(auto, unfolding(plan_model::specs::Blocks::region_bytes))]
pub fn region_bytes(program: &Program, globals: &[u32]) -> Option<u32>
    ensures value { IfSome result (λ n. n ≡ blocks.region_bytes (program_of program.now) globals.now) }
    ensures none { IfNone result (Passes (program_of program.now) 0 globals.now) }
{
    let mut at = 0;
    for global in globals {
        let extent = extent_of(program, *global);
        at = rounded_up(at, extent.align)?.checked_add(extent.size)?;
    }
    Some(at)
}

/// How many words of four bytes fill a block of these globals.
pub fn words_in(program: &Program, globals: &[u32]) -> Option<u32>
    ensures value { IfSome result (λ n. n ≡ table_size.words_in (program_of program.now) globals.now) }
    ensures none { IfNone result (Passes (program_of program.now) 0 globals.now ⊎ (2 ^ 32 ≤ layout.rounded_up (blocks.region_bytes (program_of program.now) globals.now) 4)) }
{
    let bytes = region_bytes(program, globals)?;
    Some(rounded_up(bytes, 4)? / 4)
}
