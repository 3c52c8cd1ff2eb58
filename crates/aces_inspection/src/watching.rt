//! `watch`: an image, run up to an access of one address.

ghost use Rattle.std.specs.Prelude.{◌≡◌, ◌≤◌, ℕ, Bool, Some, Ok, length};
ghost use Rattle.aces_words.specs.Requests.{Watch as ToWatch, IsAddress, address_of, file_limit};
ghost use Rattle.aces_reports.specs.Ends.{status_of};
ghost use Rattle.base_outside.specs.Sinks.{sink};
ghost use Rattle.aces_files.specs.CarriesOut.{CarriesOut};
ghost use Rattle.aces_files.specs.Effects.{Does};
ghost use Rattle.aces_files.specs.Known.{Held};
ghost use Rattle.machine_output.specs.Watches.{accesses};
ghost use Rattle.machine_output.specs.Watching.{pause_status};
ghost use Rattle.aces_inspection.specs.Answers.{WatchAnswer, AnswerToWatch};

use aces_files::loading::{Both, image_of, load_both, tape_of};
use aces_files::run::FILL;
use aces_reports::{Done, Failure};
use base_events::event::Event;
use base_outside::{Files, Sink};
use machine_model::state::End;
use machine_output::watching::{is_access, print_watched};
use machine_watch::callback::Watch;
use machine_watch::session::{Pause, Session};
use std::alloc::Global;

/// Runs an image on a tape for at most so many machine steps, up to and with the first access of an address, and prints the events and
/// the end. The address stands as it was written.
pub fn watch<'a, F: Files, O: Sink>(
    alloc: Global,
    image: &'a str,
    tape: &'a str,
    steps: u32,
    address: &'a str,
    files: &mut F,
    out: &mut O,
) -> Result<Done, Failure<'a>>
    requires { IsAddress address.now }
    ensures { CarriesOut (AnswerToWatch image.now tape.now steps address.now) F.Files files.old files.new
        (ToWatch image.now tape.now steps address.now) (sink O.Sink out.old) (sink O.Sink out.new) result }
{
    let both = load_both(alloc, files, image, tape)?;
    watch_texts(alloc, image, tape, &both, steps, address, out)
}

/// The same on the bytes of both files. No file is touched.
fn watch_texts<'a, O: Sink>(
    alloc: Global,
    image: &'a str,
    tape: &'a str,
    both: &Both,
    steps: u32,
    address: &'a str,
    out: &mut O,
) -> Result<Done, Failure<'a>>
    requires few { length both.now.second.items ≤ file_limit }
    requires address { IsAddress address.now }
    ensures { (told : Bool) (held : Held) (reads writes : ℕ) → Does
        (WatchAnswer image.now tape.now steps address.now both.now.first.items both.now.second.items) (ToWatch image.now tape.now steps address.now)
        (record { told = told; held = held; read_faults = reads; write_faults = writes; out = sink O.Sink out.old })
        (record { told = told; held = held; read_faults = reads; write_faults = writes; out = sink O.Sink out.new })
        result }
{
    let read = image_of(alloc, image, both.first.as_slice())?;
    let windows = read.windows.as_slice();
    let words = tape_of(alloc, tape, both.second.as_slice(), windows)?;
    let address = address_read(address);
    let is_watched = |event: &Event| -> bool
        ensures { result ≡ accesses windows.entry.now address event.now }
    { is_access(windows, address, event) };
    let mut session = Session::start(alloc, &read, words, FILL, Watch::new(is_watched))?;
    match print_watched(&mut session, &read, address, steps, out) {
        Ok(pause) => Ok(done(pause)),
        Err(_) => Err(Failure::Unprinted),
    }
}

/// The number that an address is written as.
fn address_read(word: &str) -> u32
    requires { IsAddress word.now }
    ensures { Some result ≡ address_of word.now }
{
    aces_words::address(word).unwrap()
}

/// The outcome of a run's pause.
fn done(pause: Pause) -> Done
    ensures { status_of (Ok result) ≡ pause_status pause }
{
    match pause {
        Pause::Ended(End::Halt(1..) | End::Stop { .. }) => Done::RunFailed,
        Pause::Hit(_) | Pause::Ended(_) => Done::Completed,
    }
}
