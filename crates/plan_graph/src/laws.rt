//! What holds of merging.

ghost use Rattle.std.specs.Prelude.{◌≡◌, ℕ, ◌≤◌, ◌<◌, ◌+◌, [], length, get_or};
ghost use Rattle.ir_model.specs.Resolved.{Program};
ghost use Rattle.plan_model.specs.declared.needs.Needs.{Needs};
ghost use Rattle.plan_model.specs.declared.groups.Groups.{Groups};
ghost use Rattle.plan_model.specs.declared.graph.Graph.{Graph};
ghost use Rattle.plan_model.specs.declared.graph.Final.{Final};
ghost use Rattle.plan_model.specs.FinalGraph.{IsFinal, IsMerged};
ghost use Rattle.plan_model.specs.Regions.{regions_used};
ghost use Rattle.plan_graph.specs.Fitting.{WindowsFit};

/// Joins come to an end: where the windows of peripherals lie within 32 bits of addresses, there is a final graph.
pub fn final_graph_is_there()
    ensures { (p : Program) (n : Needs) (g : Groups) (slots : ℕ) → WindowsFit p → (f : Final) × IsFinal p n g slots f }
{}

/// There is no other one.
pub fn final_graph_is_one()
    ensures { (p : Program) (slots : ℕ) (g : Graph) (f h : Final) → IsMerged p slots g f → IsMerged p slots g h → f ≡ h }
{}

/// Each of its compartments has at most as many data regions and covers as there are slots.
pub fn final_graph_fits_slots()
    ensures { (p : Program) (slots : ℕ) (g : Graph) (f : Final) → 2 ≤ slots → IsMerged p slots g f → (c : ℕ) → c < f.groups.count → length (regions_used f.regions c) + length (get_or f.covers c []) ≤ slots }
{}
