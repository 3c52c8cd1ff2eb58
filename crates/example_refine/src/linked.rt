//! What the linker promises, of images that were worked out by hand.

ghost use Rattle.example_refine.specs.Applied.{RefinesByLaw};
ghost use Rattle.example_refine.specs.Source.{IsItsSource};
ghost use Rattle.example_refine.specs.TwoCompartments.{AreItsNeeds, IsLinkedBuild};

/// Two compartments of a closed board, one of which lends a local to the other.
pub fn two_compartments()
    ensures source { IsItsSource }
    ensures needs { AreItsNeeds }
    ensures linked { IsLinkedBuild }
    ensures refines { RefinesByLaw }
{
    code_effects::laws::items();
    refine::laws::refinement();
}
