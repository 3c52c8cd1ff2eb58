//! The promises of sound images. Each function is a law and does nothing.

ghost use Rattle.monitor_model.specs.MonitorCode.{MonitorCode};
ghost use Rattle.monitor_program.specs.TheCode.{monitor_code};
ghost use Rattle.monitor_model.specs.Invariant.{Invariant};
ghost use Rattle.monitor_model.specs.Law.{Law};
ghost use Rattle.monitor_model.specs.Setting.{setting_of};
ghost use Rattle.monitor_sound.specs.Accesses.{StubStands};
ghost use Rattle.monitor_program.specs.Page.{stub_address};
ghost use Rattle.monitor_model.specs.Promises.{
  OfSoundImages,
  RangesAreApart,
  HandlersKeepTheLaw,
  LawsConfine,
  SoundImagesAreConfined,
  LawsServeSimulation,
  AccessesHaveTheirEffect,
};

use crate::accesses::accesses_have_their_effect;
use crate::calls::laws_serve_simulation;
use machine_model::running::instructions;
use monitor_confined::handlers::laws_confine;
use monitor_confined::runs::handlers_confine;
use monitor_handlers::faults::faults_keep_the_law;
use monitor_handlers::svc::svc_keeps_the_law;
use monitor_laws::images::{images_start, sound_images_are_placed};
use monitor_program::code_size::page_is_full;

/// Both handlers keep the monitor's law on every sound image: each comes to its outcome.
pub fn handlers_keep_the_law()
    ensures { HandlersKeepTheLaw monitor_code }
{
    svc_keeps_the_law();
    faults_keep_the_law();
}

/// The monitor's law gives on a sound image what confinement asks of both handlers, whatever the monitor's code is.
pub fn sound_laws_confine()
    ensures { (code : MonitorCode) → LawsConfine code }
{
    sound_images_are_placed();
    laws_confine();
}

/// Every sound image is confined: from whatever a reset leaves, for every recorded input, and whatever code its compartments execute.
pub fn sound_images_are_confined()
    ensures { SoundImagesAreConfined monitor_code }
{
    handlers_keep_the_law();
    sound_images_are_placed();
    images_start();
    handlers_confine();
    sound_laws_confine();
}

/// The access law holds on every sound image.
pub fn sound_accesses_have_their_effect()
    ensures { AccessesHaveTheirEffect monitor_code }
{
    handlers_keep_the_law();
    sound_images_are_placed();
    instructions();
    page_is_full();
    accesses_have_their_effect();
}

/// The monitor's law and start-up's give the law that a simulation takes, on every sound image whose ranges with initial words
/// do not meet.
pub fn sound_laws_serve_simulation()
    ensures { LawsServeSimulation monitor_code }
{
    sound_images_are_placed();
    instructions();
    page_is_full();
    laws_serve_simulation();
}

/// So every sound image whose ranges with initial words do not meet has the law that a simulation takes.
pub fn sound_images_serve_simulation()
    ensures { OfSoundImages monitor_code (λ i t. RangesAreApart t.inits → Law (setting_of monitor_code i t) (Invariant i t)) }
{
    handlers_keep_the_law();
    images_start();
    sound_laws_serve_simulation();
}

/// The leave stub stands where the tables say.
pub fn stubs_stand()
    ensures { OfSoundImages monitor_code (λ i t. StubStands i t (stub_address t)) }
{
    sound_images_are_placed();
    instructions();
    page_is_full();
}
