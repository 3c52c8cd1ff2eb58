//! A watched run of a machine that reads a word of its device and writes it back, until there is none. Its steps were counted by hand.

ghost use Rattle.std.specs.Prelude.{◌≡◌, IfOk, length};
ghost use Rattle.std.specs.Fn.{FnReturnsAt};
ghost use Rattle.machine_devices.specs.Rules.{ObeysRules, IsWindow};
ghost use Rattle.machine_watch.specs.Answers.{AnswersEqually};

use base_events::event::Event;
use base_lists::ListVec;
use base_names::is_name;
use base_words::memory::write_words;
use machine_devices::image::{Image, Window};
use machine_devices::tape::Tape;
use machine_model::state::End;
use machine_watch::callback::Watch;
use machine_watch::session::{Pause, Session};
use std::alloc::{AllocError, Global};
use std::process::Abort;
use std::test::Fail;

/// The window PORT of 32 bytes at 0x40000000.
fn port(rt: &impl Abort, alloc: Global) -> Result<Window, AllocError>
    ensures { IfOk result IsWindow }
{
    let name = Vec::from_slice(alloc, b"PORT")?;
    assert!(rt; is_name(&name));
    Ok(Window {
        name: ListVec::new(name),
        base: 0x4000_0000,
        size: 32,
    })
}

/// 64 bytes of flash at 0, 1 KiB of RAM and one window. The program stands at 0x10.
fn board(rt: &impl Abort, alloc: Global) -> Result<Image, AllocError>
    ensures rules { IfOk result ObeysRules }
    ensures windows { IfOk result (λ image. length image.windows ≡ 1) }
{
    let mut flash = vec![in alloc; 0u8; 64]?;
    write_words(flash.as_mut_slice(), 0, &[0x2000_0400, 0x11]);
    write_words(
        flash.as_mut_slice(),
        0x10,
        &[
            0x079B_2301, // MOVS r3, #1; LSLS r3, r3, #30
            0x605C_681C, // at 0x14: LDR r4, [r3]; STR r4, [r3, #4]
            0x0000_E7FC, // B 0x14
        ],
    );
    let mut windows = Vec::new(alloc);
    windows.push(port(rt, alloc)?)?;
    Ok(Image {
        flash_base: 0,
        flash: ListVec::new(flash),
        ram_base: 0x2000_0000,
        ram_size: 1024,
        monitor: 0,
        stack_base: 0,
        stack_size: 0,
        regions: 8,
        closed: false,
        windows: ListVec::new(windows),
    })
}

/// The load of a word.
const fn load_event(value: u32) -> Event {
    Event {
        compartment: 0,
        periph: 0,
        offset: 0,
        width: 4,
        write: false,
        value,
    }
}

/// The store that writes it back.
const fn store_event(value: u32) -> Event {
    Event {
        compartment: 0,
        periph: 0,
        offset: 4,
        width: 4,
        write: true,
        value,
    }
}

/// Runs on, and compares the answer, the one or two events that are given, and the steps so far.
fn goes<F: Fn(&Event) -> bool + Drop>(
    rt: &impl Abort,
    watched: &mut Session<F>,
    limit: u64,
    pause: Pause,
    given: [Option<Event>; 2],
    taken: u64,
)
    requires callable { F.IsAlwaysCallable watched.old.callback }
    requires equally { AnswersEqually (FnReturnsAt F.Fn watched.old.callback) }
    ensures { watched.new.callback ≡ watched.old.callback }
{
    assert!(rt; limit < 1_000_000 && watched.step_count() < 1_000_000);
    let mut first = None;
    let mut second = None;
    let answer = watched.go(
        limit,
        &mut |event: &Event| {
            if first.is_none() {
                first = Some(*event);
            } else {
                second = Some(*event);
            }
        },
    );
    assert!(rt; answer == pause);
    assert!(rt; [first, second] == given);
    assert_eq!(rt; watched.step_count(), taken);
}

#[test]
fn pauses_at_each_store(rt: HostRuntime) -> Result<(), Fail> {
    let image = board(&rt, rt.alloc())?;
    let mut tape = Tape::empty(rt.alloc(), 1)?;
    tape.push(0, 10)?;
    tape.push(0, 40)?;
    tape.push(0, 33)?;
    let stores = |event: &Event| -> bool
        ensures { result ≡ event.now.write }
    { event.write };
    let mut watched = Session::start(rt.alloc(), &image, tape, 0xA5, Watch::new(stores))?;
    let first = [Some(load_event(10)), Some(store_event(10))];
    goes(
        &rt,
        &mut watched,
        200_000,
        Pause::Hit(store_event(10)),
        first,
        4,
    );
    let second = [Some(load_event(40)), Some(store_event(40))];
    goes(
        &rt,
        &mut watched,
        200_000,
        Pause::Hit(store_event(40)),
        second,
        7,
    );
    goes(
        &rt,
        &mut watched,
        0,
        Pause::Ended(End::Limit),
        [None, None],
        7,
    );
    let loads = [Some(load_event(33)), None];
    goes(&rt, &mut watched, 2, Pause::Ended(End::Limit), loads, 9);
    let stores = [Some(store_event(33)), None];
    goes(
        &rt,
        &mut watched,
        1,
        Pause::Hit(store_event(33)),
        stores,
        10,
    );
    let end = Pause::Ended(End::InputEnd);
    goes(&rt, &mut watched, 200_000, end, [None, None], 12);
    goes(&rt, &mut watched, 200_000, end, [None, None], 12);
    goes(&rt, &mut watched, 0, end, [None, None], 12);
    Ok(())
}
