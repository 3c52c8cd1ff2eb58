//! Graphs of compartments and regions, and their joins.

ghost use Rattle.example_plan.specs.ControlGraph.{ComputesGraph};
ghost use Rattle.example_plan.specs.ClosedLoop.{ComputesClosedGraph};
ghost use Rattle.example_plan.specs.FiveGlobals.{ComputesJoins};
ghost use Rattle.example_plan.specs.NearWindows.{ComputesCovers};

/// The graph of a control loop on an open board and on a closed one, in which nothing is joined.
pub fn control_loop()
    ensures open { ComputesGraph }
    ensures closed { ComputesClosedGraph }
{}

/// Five globals of five sets of writers, of which two are joined on a board with four slots and none with twelve.
pub fn five_globals()
    ensures { ComputesJoins }
{}

/// Windows of peripherals that are joined, until the covers of a compartment find room.
pub fn near_windows()
    ensures { ComputesCovers }
{}
