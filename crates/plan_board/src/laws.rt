//! What holds of boards' texts: a function that does nothing, whose contract is the law.

ghost use Rattle.plan_board.specs.Laws.{BoardsAreOne, BoardsAreNotRefused};

/// A text describes one board at most, and one that describes a board is refused for want of memory alone.
pub fn boards_are_one()
    ensures one { BoardsAreOne }
    ensures read { BoardsAreNotRefused }
{}
