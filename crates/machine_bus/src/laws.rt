//! Laws of the definitions: functions without a body, whose contract is the law.

ghost use Rattle.std.specs.Prelude.{◌≡◌, ◌≢◌, ◌↔◌, ℕ, ◌+◌, ◌-◌, ◌%◌, ◌<◌, ◌≤◌, List, length, slice_get, Some};
ghost use Rattle.machine_protection.specs.Protection.{IsAccessWidth};
ghost use Rattle.machine_bus.specs.Access.{further, Fits, HoldsBytes};
ghost use Rattle.machine_bus.specs.Bus.{put_at};
ghost use Rattle.machine_devices.specs.Input.{taken};
ghost use Rattle.machine_bus.specs.Locations.{Location, InRam, InFlash, InWindow, Nowhere, location};
ghost use Rattle.machine_devices.specs.Rules.{ObeysRules};
ghost use Rattle.machine_devices.specs.declared.image.Image.{Image};
ghost use Rattle.machine_devices.specs.declared.image.Window.{Window};

use base_words::laws::bytes_after_write;

/// The location of the first byte of an aligned access decides for all its bytes: they lie one after
/// another behind it, in the same memory or window, and there is none exactly where no memory and
/// no window holds them all.
#[tactic(auto, using(crate::proofs::Placed::access_rules))]
pub fn accesses()
    ensures bytes { (i : Image) (a w j : ℕ) → ObeysRules i → IsAccessWidth w → a % w ≡ 0 → j < w →
        location i (a + j) ≡ further j (location i a) }
    ensures fits { (i : Image) (a w : ℕ) → ObeysRules i → IsAccessWidth w → a % w ≡ 0 →
        Fits (location i a) w i }
    ensures nowhere { (i : Image) (a w : ℕ) → ObeysRules i → IsAccessWidth w → a % w ≡ 0 →
        (location i a ≡ Nowhere) ↔ ¬ (HoldsBytes i a w) }
{}

/// The addresses of RAM, of flash and of each window lead to it.
#[tactic(auto, using(crate::proofs::Addresses::place_rules))]
pub fn places()
    ensures ram { (i : Image) (a : ℕ) → i.ram_base ≤ a → a < i.ram_base + i.ram_size →
        location i a ≡ InRam (a - i.ram_base) }
    ensures flash { (i : Image) (a : ℕ) → ObeysRules i →
        i.flash_base ≤ a → a < i.flash_base + length i.flash →
        location i a ≡ InFlash (a - i.flash_base) }
    ensures window { (i : Image) (a k : ℕ) (w : Window) → ObeysRules i →
        slice_get i.windows k ≡ Some w → w.base ≤ a → a < w.base + w.size →
        location i a ≡ InWindow k (a - w.base) }
    ensures monitor { (i : Image) → ObeysRules i → i.monitor ≢ 0 →
        location i i.monitor ≡ InRam (i.monitor - i.ram_base) }
{}

/// The places of RAM and of flash are exactly the addresses that lie so many bytes behind their base. In the mebibyte
/// of flash nothing but flash is mapped.
pub fn offsets()
    ensures ram { (i : Image) (a o : ℕ) →
        (location i a ≡ InRam o) ↔ ((i.ram_base + o ≡ a) × (o < i.ram_size)) }
    ensures flash { (i : Image) (a o : ℕ) → ObeysRules i →
        (location i a ≡ InFlash o) ↔ ((i.flash_base + o ≡ a) × (o < length i.flash)) }
    ensures alone { (i : Image) (a : ℕ) → ObeysRules i →
        i.flash_base ≤ a → a < i.flash_base + 0x100000 → location i a ≢ Nowhere →
        location i a ≡ InFlash (a - i.flash_base) }
{}

/// A store leaves RAM as long as it was, and a load leaves as many queues as there were.
#[tactic(auto, using(crate::proofs::Lengths::length_rules))]
pub fn lengths()
    ensures ram { (p : Location) (w v : ℕ) (ram : List ℕ) → length (put_at p w v ram) ≡ length ram }
    ensures queues { (queues : List (List ℕ)) (k : ℕ) → length (taken queues k) ≡ length queues }
{
    bytes_after_write();
}
