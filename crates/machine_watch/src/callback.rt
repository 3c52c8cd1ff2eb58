//! Callbacks that are asked of each event of a run.

ghost use Rattle.std.specs.Prelude.{◌≡◌};
ghost use Rattle.std.specs.Fn.{FnReturnsAt};
ghost use Rattle.machine_watch.specs.Answers.{AnswersEqually};

use base_events::event::Event;

/// A callback that says of each event whether a run shall pause there.
#[derive(Drop)]
pub struct Watch<F: Fn(&Event) -> bool + Drop> {
    /// The callback.
    pub callback: F,
}

impl<F: Fn(&Event) -> bool + Drop> Watch<F> {
    /// A watch by a callback that may always be called, and answers equal events equally.
    pub fn new(callback: F) -> Watch<F>
        requires callable { F.IsAlwaysCallable callback }
        requires equally { AnswersEqually (FnReturnsAt F.Fn callback) }
        ensures { result.callback ≡ callback }
    {
        Watch { callback }
    }

    /// What the callback answers. Takes no memory.
    pub fn ask(&self, e: &Event) -> bool
        requires callable { F.IsAlwaysCallable self.now.callback }
        requires equally { AnswersEqually (FnReturnsAt F.Fn self.now.callback) }
        ensures { FnReturnsAt F.Fn self.now.callback e.now result }
    {
        (self.callback)(e)
    }
}
