//! Laws of what is told: functions that do nothing, whose contract is the law.

ghost use Rattle.aces_explain.specs.Texts.{TextsAreOne};

use plan_graph::laws::final_graph_is_one;

/// There is one text at most on a refusal, since there is one final graph.
pub fn one_text()
    ensures { TextsAreOne }
{
    final_graph_is_one();
}
