//! The tables of an image that the compiler made.

ghost use Rattle.std.specs.Prelude.{◌≡◌, IfOk};
ghost use Rattle.machine_devices.specs.Rules.{ObeysRules};
ghost use Rattle.monitor_program.specs.TheCode.{monitor_code};
ghost use Rattle.monitor_model.specs.Sound.{Sound};
ghost use Rattle.monitor_audit.specs.Answers.{own_tables};

use machine_devices::image::Image;
use monitor_audit::{Audited, audited_tables};
use monitor_model::Tables;
use std::alloc::{AllocError, Global};

/// The tables in the flash of a sound image.
pub(crate) fn sound_tables(alloc: Global, image: &Image) -> Result<Tables, AllocError>
    requires rules { ObeysRules image.now }
    requires sound { Sound monitor_code image.now (own_tables image.now) }
    ensures { IfOk result (λ tables. tables ≡ own_tables image.now) }
{
    match audited_tables(alloc, image)? {
        Audited::Sound(tables) => Ok(tables),
        Audited::Unsound(_) => unreachable!(),
    }
}
