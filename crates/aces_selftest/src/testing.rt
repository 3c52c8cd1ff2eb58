//! A self-test: the numbers of the image, and both runs.

ghost use Rattle.std.specs.Prelude.{◌≡◌, ◌≤◌, IfOk};
ghost use Rattle.ir_model.specs.Plain.{firmware_of};
ghost use Rattle.ir_generator.specs.Made.{made};
ghost use Rattle.aces_selftest.specs.Answers.{IsTestImage};
ghost use Rattle.aces_selftest.specs.Tested.{IsTested};

use crate::machines::MachineCount;
use crate::runs::{machine_limit, run_image, run_source};
use crate::sources::SourceCount;
use crate::tables::sound_tables;
use image_promises::audits::answers;
use image_promises::images::sound;
use ir_generator::tape::tape;
use ir_model::checked::Checked;
use machine_devices::image::Image;
use monitor_laws::images::sound_images_are_placed;
use std::alloc::{AllocError, Global};

/// What a self-test finds.
pub(crate) struct Tested {
    pub(crate) functions: usize,
    pub(crate) compartments: usize,
    pub(crate) sites: usize,
    pub(crate) source: SourceCount,
    pub(crate) image: MachineCount,
}

impl Drop for Tested {
    fn drop(self) {
        let Tested {
            functions: _,
            compartments: _,
            sites: _,
            source: _,
            image: _,
        } = self;
    }
}

/// Runs the source and the image of the firmware of a seed and a size.
pub(crate) fn test(
    alloc: Global,
    seed: u32,
    size: u32,
    firmware: &Checked,
    image: &Image,
) -> Result<Tested, AllocError>
    requires most { size ≤ 200 }
    requires firmware { firmware_of firmware.now ≡ made seed size }
    requires image { IsTestImage seed size image.now }
    ensures { IfOk result (IsTested seed size image.now) }
{
    sound();
    answers();
    sound_images_are_placed();
    let tables = sound_tables(alloc, image)?;
    let source = run_source(alloc, firmware, tape(alloc, seed, size)?)?;
    let limit = machine_limit(source.count.steps, tables.words.len());
    let machine = run_image(alloc, image, tape(alloc, seed, size)?, limit)?;
    Ok(Tested {
        functions: source.functions,
        compartments: tables.comps.len(),
        sites: tables.sites.len(),
        source: source.count,
        image: machine,
    })
}
