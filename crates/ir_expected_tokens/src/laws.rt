//! Laws of the definitions: functions that do nothing, whose contract is the law.

ghost use Rattle.ir_expected_tokens.specs.Laws.{FaultsAreStuck, ExpectedMayStand, EndsMayStand, TextsHaveNoLines};

/// Where a text has a syntax fault, the lines tell the token that stands there; and the tokens that are expected somewhere are
/// exactly those that may stand there. Nothing is told of a firmware's text.
pub fn places()
    ensures faults { FaultsAreStuck }
    ensures expected { ExpectedMayStand }
    ensures ends { EndsMayStand }
    ensures texts { TextsHaveNoLines }
{}
