//! Pairs that may be joined, and the cheapest of them.

ghost use Rattle.std.specs.Prelude.{◌≡◌};
ghost use Rattle.plan_graph.specs.Choices.{cheaper};

/// Two data regions or two covers, by their places, and what their join costs.
#[derive(Clone, Copy)]
pub(crate) struct Choice {
    /// The place of the first.
    pub(crate) first: usize,
    /// The place of the second, behind the first.
    pub(crate) second: usize,
    /// What the join costs.
    pub(crate) cost: u64,
}

/// The one of less cost, and the earlier where both cost as much.
pub(crate) fn cheaper(best: Option<Choice>, choice: Choice) -> Option<Choice>
    ensures { result ≡ cheaper best choice }
{
    match best {
        Some(best) => {
            if choice.cost < best.cost {
                Some(choice)
            } else {
                Some(best)
            }
        }
        None => Some(choice),
    }
}
