//! The checks in their order.

ghost use Rattle.std.specs.Prelude.{◌≡◌, ◌<◌, ◌^◌, None, length, IfOk};
ghost use Rattle.machine_devices.specs.Rules.{ObeysRules};
ghost use Rattle.monitor_model.specs.Checks as checks;
ghost use Rattle.monitor_model.specs.Sound.{first_failure};
ghost use Rattle.monitor_program.specs.TheCode.{monitor_code};
ghost use Rattle.monitor_audit.specs.declared.answer.Audit.TheVariants.{Yes};
ghost use Rattle.monitor_audit.specs.Answers.{own_tables, failure_of, IsAudited, IsAudit, IsConfinedWhereYes};

use crate::answer::{Audit, Audited, FailedCheck};
use crate::{
    Found, code_fault, find_tables, header_fault, inits_fault, lends_fault, regions_fault,
    sites_fault,
};
use machine_devices::image::Image;
use monitor_code::page::page;
use monitor_model::{AuditCheck, Tables};
use monitor_sound::promises::sound_images_are_confined;
use std::alloc::{AllocError, Global};

/// The first check that fails, where that of the header and that of the tables do not.
fn failure_behind(
    alloc: Global,
    image: &Image,
    tables: &Tables,
) -> Result<Option<FailedCheck>, AllocError>
    requires rules { ObeysRules image.now }
    requires header { checks.header_fails image.now ≡ None }
    requires own { tables.now ≡ own_tables image.now }
    requires tables { checks.tables_fail image.now tables.now ≡ None }
    ensures { IfOk result (λ failed. first_failure monitor_code image.now (own_tables image.now) ≡ failure_of failed) }
{
    let page = page(alloc, tables)?;
    if let Some(at) = code_fault(&page, image.flash.as_slice(), image.flash_base) {
        return Ok(Some(FailedCheck {
            check: AuditCheck::Code,
            at,
        }));
    }
    if let Some(at) = regions_fault(image, tables) {
        return Ok(Some(FailedCheck {
            check: AuditCheck::Regions,
            at,
        }));
    }
    if let Some(at) = sites_fault(tables) {
        return Ok(Some(FailedCheck {
            check: AuditCheck::Sites,
            at,
        }));
    }
    if let Some(at) = lends_fault(tables) {
        return Ok(Some(FailedCheck {
            check: AuditCheck::Lends,
            at,
        }));
    }
    if let Some(at) = inits_fault(image, tables) {
        return Ok(Some(FailedCheck {
            check: AuditCheck::Inits,
            at,
        }));
    }
    Ok(None)
}

/// The tables by which an image is sound, or the first check that fails.
///
/// # Errors
///
/// Only for want of memory.
pub fn audited_tables(alloc: Global, image: &Image) -> Result<Audited, AllocError>
    requires { ObeysRules image.now }
    ensures { IfOk result (IsAudited image.now) }
{
    if let Some(at) = header_fault(image) {
        return Ok(Audited::Unsound(FailedCheck {
            check: AuditCheck::Header,
            at,
        }));
    }
    match find_tables(alloc, image)? {
        Found::Tables(tables) => match failure_behind(alloc, image, &tables)? {
            Some(failed) => Ok(Audited::Unsound(failed)),
            None => Ok(Audited::Sound(tables)),
        },
        Found::Fault(at) => Ok(Audited::Unsound(FailedCheck {
            check: AuditCheck::Tables,
            at,
        })),
    }
}

/// The yes to an image with these tables.
fn yes(tables: &Tables) -> Audit
    requires compartments { length tables.now.comps < 2 ^ 32 }
    requires sites { length tables.now.sites < 2 ^ 32 }
    ensures { result ≡ Yes (length tables.now.comps) (length tables.now.sites) }
{
    Audit::Yes {
        compartments: tables.comps.len() as u32,
        sites: tables.sites.len() as u32,
    }
}

/// Whether an image is sound: its flash has the monitor's code with tables of which none of the seven checks fails. A sound
/// image is confined by these tables, whoever made it.
///
/// # Errors
///
/// Only for want of memory.
pub fn audit(alloc: Global, image: &Image) -> Result<Audit, AllocError>
    requires { ObeysRules image.now }
    ensures answer { IfOk result (IsAudit image.now) }
    ensures confined { IfOk result (IsConfinedWhereYes image.now) }
{
    sound_images_are_confined();
    match audited_tables(alloc, image)? {
        Audited::Sound(tables) => Ok(yes(&tables)),
        Audited::Unsound(failed) => Ok(Audit::No {
            check: failed.check,
            at: failed.at,
        }),
    }
}
