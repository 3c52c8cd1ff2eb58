//! Laws of the flash of planned images: functions that do nothing, whose contract is the law.

ghost use Rattle.image_promises.specs.CodeInFlash.{CodeIsExact, CodeLies, CodePasses, MainIsMoved, PageIsExact, StubIsPlaced};

use crate::flash::flash_has;
use crate::promises::code as placed;
use code_effects::laws::items;
use code_lower_laws::laws::{compartments as branches, typed_functions};
use code_model::laws::{compartments, sites, sizes};
use image_model::laws::counts;
use ir_laws::limits::windows;
use ir_laws::typing::places as typed_places;
use machine_thumb::laws::{decoding_undoes_encoding, first_halfword_shows_length};
use monitor_program::code_size::page_is_full;
use plan_layout_laws::{flash, places, ram};

/// The page of the tables stands in flash with no byte cut, so the check of the code of a planned image does not fail.
pub fn page()
    ensures exact { PageIsExact }
    ensures passes { CodePasses }
{
    flash();
    ram();
    places();
    flash_has();
    page_is_full();
    first_halfword_shows_length();
}

/// The two words that start-up begins with are read back as the entry of `main` and its compartment.
pub fn main_words()
    ensures { MainIsMoved }
{
    flash();
    ram();
    places();
    counts();
    compartments();
    page_is_full();
    decoding_undoes_encoding();
    placed();
    typed_places();
    page();
}

/// The leave stub stands at an even address, which is a word with bit 0 set too.
pub fn stub()
    ensures { StubIsPlaced }
{
    flash();
    ram();
    places();
    page_is_full();
}

/// Each compartment's block begins with its code, of which no byte is cut. So the pieces of that code stand at their places, where the
/// image obeys the rules of images.
pub fn code()
    ensures exact { CodeIsExact }
    ensures lies { CodeLies }
{
    flash();
    ram();
    places();
    counts();
    compartments();
    page_is_full();
    placed();
    typed_places();
    windows();
    sizes();
    sites();
    typed_functions();
    branches();
    first_halfword_shows_length();
    flash_has();
    items();
}
