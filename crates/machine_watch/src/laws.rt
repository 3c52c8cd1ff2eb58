//! Laws of watched runs.

ghost use Rattle.std.specs.Fn.{CalledAt};
ghost use Rattle.machine_watch.specs.Watched.{PiecesJoin};

use base_events::event::Event;

/// The pieces that calls of `go` run join to a piece of the plain run, also where other watches are taken in between.
pub fn pieces_join<F: Fn(&Event) -> bool + Drop, G: FnMut(&Event)>()
    ensures { PiecesJoin F (λ f e g. CalledAt G.FnMut f e tt g) }
{}
