//! Laws of the machine: functions without a body, whose contract is the law.

ghost use Rattle.std.specs.Prelude.{ℕ, ◌≡◌, ◌+◌, List, [], ◌++◌, Some};
ghost use Rattle.base_words.specs.Runs.{run, events};
ghost use Rattle.machine_devices.specs.declared.image.Image.{Image};
ghost use Rattle.machine_model.specs.declared.state.End.{End};
ghost use Rattle.machine_model.specs.State.{State, PermissionTest, calm};
ghost use Rattle.machine_model.specs.Step.{turn, step, event};
ghost use Rattle.machine_model.specs.Run.{after, events_after};
ghost use Rattle.machine_model.specs.Code.{next, event_of};
ghost use Rattle.machine_model.specs.Ends.{StepsEndOrGoOn};
ghost use Rattle.machine_model.specs.AccessLaw.{AllowedStepsAreFree};
ghost use Rattle.machine_model.specs.Locality.{StepsReadWhatTheyList};
ghost use Rattle.machine_model.specs.Confinement.{EventsAreListed, FetchesArePermittedAlways, FlashIsNeverWritten};

/// A machine that has ended stays as it is: its steps change nothing, store and load nothing and have no event,
/// and runs of them change nothing.
pub fn ended_machines()
    ensures step { (j : PermissionTest) (i : Image) (s : State) (e : End) →
        s.ending ≡ Some e → turn j i s ≡ calm s }
    ensures run { (j : PermissionTest) (i : Image) (n : ℕ) (s : State) (e : End) →
        s.ending ≡ Some e → run (next j i) n s ≡ s }
    ensures events { (j : PermissionTest) (i : Image) (n : ℕ) (s : State) (e : End) →
        s.ending ≡ Some e → events (next j i) (event_of j i) n s ≡ [] }
{}

/// A step that ends the machine does nothing else: the state is the same but for the end, which is the machine's own,
/// and the step has no event, store or load.
pub fn steps_end_or_go_on()
    ensures { StepsEndOrGoOn }
{}

/// The machine after `m + n` steps is the one `n` steps after the one after `m`, and the events of these steps are
/// those of the first `m` and then those of the other `n`. Once ended, it stays as it is and has no further events.
pub fn runs_from_start()
    ensures state { (i : Image) (queues : List (List ℕ)) (fill m n : ℕ) →
        after i queues fill (m + n) ≡ run (step i) n (after i queues fill m) }
    ensures events { (i : Image) (queues : List (List ℕ)) (fill m n : ℕ) →
        events_after i queues fill (m + n) ≡
        events_after i queues fill m ++ events (step i) (event i) n (after i queues fill m) }
    ensures state_after_end { (i : Image) (queues : List (List ℕ)) (fill m n : ℕ) (e : End) →
        (after i queues fill m).ending ≡ Some e →
        after i queues fill (m + n) ≡ after i queues fill m }
    ensures events_after_end { (i : Image) (queues : List (List ℕ)) (fill m n : ℕ) (e : End) →
        (after i queues fill m).ending ≡ Some e →
        events_after i queues fill (m + n) ≡ events_after i queues fill m }
{}

/// The access law: a step whose every access is permitted is the step of a machine without protection.
pub fn access_law()
    ensures { AllowedStepsAreFree }
{}

/// The event of a step is one of the accesses that the step lists, at a place of a window; so an unprivileged step
/// makes events only where it may store or load. And a fetch that is not permitted is a fault.
pub fn listed_accesses()
    ensures events { EventsAreListed }
    ensures fetches { FetchesArePermittedAlways }
{}

/// On an image that obeys the rules no store of any step leads to flash, whatever is permitted; flash is no part of
/// the state, so it stays.
pub fn flash_stays()
    ensures { FlashIsNeverWritten }
{}

/// The lists of a step are complete also for what it reads: on any other RAM of the same size that agrees on the
/// halfwords fetched, on the listed loads and on the compartment word of an event, the step makes the same stores,
/// loads and event, leads to the same state but for RAM, and writes the same bytes there and no others. Where a
/// machine stops for what an instruction loaded, the words that it asked for count as its loads.
pub fn listed_reads()
    ensures { StepsReadWhatTheyList }
{}
