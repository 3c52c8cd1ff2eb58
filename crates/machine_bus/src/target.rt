//! Where an address leads.

ghost use Rattle.std.specs.Prelude.{◌≡◌, ◌%◌, ◌≤◌, length};
ghost use Rattle.machine_protection.specs.Protection.{IsAccessWidth};
ghost use Rattle.machine_bus.specs.Access.{Fits};
ghost use Rattle.machine_bus.specs.Locations as places;
ghost use Rattle.machine_devices.specs.Rules.{ObeysRules};
ghost use Rattle.machine_bus.specs.Targets.{place_of};

use machine_devices::image::{Image, Window};

/// Where an address leads.
#[derive(Clone, Copy)]
pub(crate) enum Target {
    /// Into RAM.
    Ram(u32),
    /// Into flash.
    Flash(u32),
    /// Into a window.
    Window {
        /// Its number.
        periph: u32,
        /// How many bytes behind its base.
        offset: u32,
    },
    /// To nothing.
    Nowhere,
}

fn is_inside(base: u32, size: usize, addr: u32) -> bool
    ensures { result ≡ places.inside base size addr }
{
    addr >= base && ((addr - base) as usize) < size
}

#[tactic(auto, using(crate::proofs::Searches::window_rules))]
fn find_window(windows: &[Window], addr: u32) -> Target
    requires { length windows.now ≤ 64 }
    ensures { place_of result ≡ places.find_window windows.now 0 addr }
{
    for (k, window) in windows.iter().enumerate() {
        if is_inside(window.base, window.size as usize, addr) {
            return Target::Window {
                periph: k as u32,
                offset: addr - window.base,
            };
        }
    }
    Target::Nowhere
}

/// Where an address leads.
#[tactic(auto, unfolding(crate::specs::Locations::location))]
pub(crate) fn find(image: &Image, addr: u32) -> Target
    requires { ObeysRules image.now }
    ensures { place_of result ≡ places.location image.now addr }
{
    if is_inside(image.ram_base, image.ram_size as usize, addr) {
        return Target::Ram(addr - image.ram_base);
    }
    if is_inside(image.flash_base, image.flash.len(), addr) {
        return Target::Flash(addr - image.flash_base);
    }
    find_window(image.windows.as_slice(), addr)
}

/// Where an aligned access leads, with all its bytes.
#[tactic(auto, using(crate::proofs::Placed::place_fits))]
pub(crate) fn find_access(image: &Image, addr: u32, width: u8) -> Target
    requires rules { ObeysRules image.now }
    requires width { IsAccessWidth width }
    requires aligned { addr % width ≡ 0 }
    ensures place { place_of result ≡ places.location image.now addr }
    ensures fits { Fits (place_of result) width image.now }
{
    find(image, addr)
}
