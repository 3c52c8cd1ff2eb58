//! Laws of the tables: functions that do nothing, whose contract is the law.

ghost use Rattle.image_promises.specs.Sites.{LendsPass, SitesPass, TargetsAreThere};

use crate::promises::code;
use code_model::laws::compartments;
use image_model::laws::counts;
use ir_laws::limits::sizes;
use ir_laws::typing::places as typed_places;
use plan_layout_laws::{flash, places, ram};

/// The check of lent locals passes: each has 1 to 65,536 bytes.
pub fn lends()
    ensures { LendsPass }
{
    sizes();
}

/// The check of sites passes: each has 1 to 64 targets, all of them in the list, and each target and `main` is an odd entry in the code
/// of its compartment.
pub fn sites()
    ensures { SitesPass }
{
    code();
    compartments();
    counts();
    typed_places();
}

/// The record of a crossing site has each function that the needs say may be called there: the monitor finds its compartment by its
/// entry.
pub fn targets()
    ensures { TargetsAreThere }
{
    flash();
    ram();
    places();
    code();
    counts();
    typed_places();
}
