//! A machine that runs on from pause to pause.

ghost use Rattle.std.specs.Prelude.{◌≡◌, ◌+◌, ◌<◌, ◌^◌, length, IfOk};
ghost use Rattle.std.specs.Fn.{FnReturnsAt, CalledAt};
ghost use Rattle.machine_devices.specs.Rules.{ObeysRules};
ghost use Rattle.machine_model.specs.Run as runs;
ghost use Rattle.machine_watch.specs.Answers.{AnswersEqually};
ghost use Rattle.machine_watch.specs.Watched.{IsWatched};

use crate::callback::Watch;
use base_events::event::Event;
use machine_devices::image::Image;
use machine_devices::tape::Tape;
use machine_emulator::{Machine, Step};
use machine_model::state::End;
use std::alloc::{AllocError, Global};
use std::marker::Model;

/// Why a run pauses.
#[derive(Clone, Copy, PartialEq, Eq)]
pub enum Pause {
    /// The watch answered true on this event, which is the last of the run so far.
    Hit(Event),
    /// It ended, or so many steps ran.
    Ended(End),
}

/// A machine with a watch, and the number of its steps so far. Only `start` takes memory.
#[derive(Drop)]
pub struct Session<F: Fn(&Event) -> bool + Drop> {
    machine: Machine,
    taken: u64,
    watch: Watch<F>,
}

impl<F: Fn(&Event) -> bool + Drop> Model for Session<F> {
    ghost use Rattle.machine_watch.specs.Sessions.{SessionState};

    ghost Value = { SessionState F };

    ghost view = { λ s. record { machine = s.machine; taken = s.taken; callback = s.watch.callback } };
}

impl<F: Fn(&Event) -> bool + Drop> Session<F> {
    /// The machine at reset, with a watch. RAM holds the fill byte, and the windows give the words of the tape.
    ///
    /// # Errors
    ///
    /// There is no memory for the machine.
    pub fn start(
        alloc: Global,
        image: &Image,
        tape: Tape,
        fill: u8,
        watch: Watch<F>,
    ) -> Result<Session<F>, AllocError>
        requires rules { ObeysRules image.now }
        requires queues { length tape ≡ length image.now.windows }
        requires callable { F.IsAlwaysCallable watch.callback }
        requires equally { AnswersEqually (FnReturnsAt F.Fn watch.callback) }
        ensures { IfOk result (λ session. session ≡ record {
          machine = record { image = image.now; state = runs.start image.now tape fill };
          taken = 0;
          callback = watch.callback;
        }) }
    {
        let machine = Machine::start(alloc, image, tape, fill)?;
        Ok(Session {
            machine,
            taken: 0,
            watch,
        })
    }

    /// Runs at most so many steps, up to and with the first whose event the watch answers true on, and calls back
    /// once with each event of these steps, in order. Takes no memory.
    pub fn go<G: FnMut(&Event)>(&mut self, n: u64, each: &mut G) -> Pause
        requires callable { F.IsAlwaysCallable self.old.callback }
        requires equally { AnswersEqually (FnReturnsAt F.Fn self.old.callback) }
        requires range { self.old.taken + n < 2 ^ 64 }
        requires each { G.IsAlwaysCallable each.old }
        ensures { IsWatched (FnReturnsAt F.Fn self.old.callback) (λ f e g. CalledAt G.FnMut f e tt g)
            n self.old self.new each.old each.new result }
    {
        let mut accept = |_event: &Event| true;
        match self.machine.run(0, &mut accept) {
            End::Limit => {}
            end => return Pause::Ended(end),
        }
        for _step in 0..n {
            self.taken += 1;
            match self.machine.step() {
                Step::Ran => {}
                Step::Event(event) => {
                    give(each, &event);
                    if self.watch.ask(&event) {
                        return Pause::Hit(event);
                    }
                }
                Step::Ended(end) => return Pause::Ended(end),
            }
        }
        Pause::Ended(End::Limit)
    }

    /// The number of machine steps so far.
    pub fn step_count(&self) -> u64
        ensures { result ≡ self.now.taken }
    {
        self.taken
    }

    /// Goes on with another watch. Takes no memory.
    pub fn change(self, watch: Watch<F>) -> Session<F>
        requires callable { F.IsAlwaysCallable watch.callback }
        requires equally { AnswersEqually (FnReturnsAt F.Fn watch.callback) }
        ensures { result ≡ record self { callback = watch.callback } }
    {
        Session {
            machine: self.machine,
            taken: self.taken,
            watch,
        }
    }
}

/// Gives an event to a callback, which may be called again.
fn give<G: FnMut(&Event)>(each: &mut G, event: &Event)
    requires { G.IsAlwaysCallable each.old }
    ensures called { CalledAt G.FnMut each.old event.now tt each.new }
    ensures callable { G.IsAlwaysCallable each.new }
{
    each(event);
}
