//! What the code of each template does: functions that do nothing, whose contract is the law.

ghost use Rattle.std.specs.Prelude.{ℕ, List, Option};
ghost use Rattle.machine_devices.specs.declared.image.Image.{Image};
ghost use Rattle.machine_model.specs.State.{PermissionTest};
ghost use Rattle.ir_model.specs.Resolved.{NumberedFunc};
ghost use Rattle.code_model.specs.declared.places.Places.{Places};
ghost use Rattle.code_effects.specs.Points.{Point, RunsJoin, RunsFit};
ghost use Rattle.code_effects.specs.Items.{ItemsStand};
ghost use Rattle.code_effects.specs.Functions.{FunctionsStand};
ghost use Rattle.code_effects.specs.Compartments.{CompartmentsStand};
ghost use Rattle.code_effects.specs.Numbers.{NumberEffects};
ghost use Rattle.code_effects.specs.Comparisons.{ComparisonEffects};
ghost use Rattle.code_effects.specs.Addresses.{AddressEffects, OffsetsAgree};
ghost use Rattle.code_effects.specs.Sources.{SourceEffects};
ghost use Rattle.code_effects.specs.Accesses.{LoadEffects, StoreEffects, AccessesHaveWidths};
ghost use Rattle.code_effects.specs.Branches.{BranchEffects};
ghost use Rattle.code_effects.specs.Calls.{CallEffects, CrossingEffects, ReturnedEffects};
ghost use Rattle.code_effects.specs.Entry.{EntryEffects};
ghost use Rattle.code_effects.specs.Returns.{ReturnEffects};

/// One run behind another; and what every step keeps of a state.
pub fn runs()
    ensures join { RunsJoin }
    ensures fit { RunsFit }
{
    machine_model::running::shapes();
}

/// Pieces of an assembly, and each part of them, stand where flash has their bytes.
pub fn items()
    ensures { ItemsStand }
{}

/// The code of each place of a function, one behind the other, stands where the function's code stands.
pub fn functions()
    ensures { FunctionsStand }
{}

/// Each function of a compartment stands at its entry where the compartment's code stands, and labels lead to the blocks.
pub fn compartments()
    ensures { CompartmentsStand }
{
    code_model::laws::sizes();
}

/// Numbers, copies, and operations on two numbers.
pub fn numbers()
    ensures { (j : PermissionTest) (i : Image) (g : NumberedFunc) (q : Places) (labels : List (Option ℕ)) (site : Option ℕ) (p : Point) (o n : ℕ) →
        NumberEffects j i g q labels site p o n }
{}

/// Comparisons: the code gives what the source gives.
pub fn comparisons()
    ensures { (j : PermissionTest) (i : Image) (g : NumberedFunc) (q : Places) (labels : List (Option ℕ)) (site : Option ℕ) (p : Point) (o n : ℕ) →
        ComparisonEffects j i g q labels site p o n }
{
    base_words::laws::comparisons();
}

/// Addresses, elements and fields; and offsets in an object are added as the source adds them.
pub fn addresses()
    ensures effects { (j : PermissionTest) (i : Image) (g : NumberedFunc) (q : Places) (labels : List (Option ℕ)) (site : Option ℕ) (p : Point) (o n : ℕ) →
        AddressEffects j i g q labels site p o n }
    ensures agree { OffsetsAgree }
{}

/// The code of an instruction that sets a register leads to the frame with the word of the source's value in it.
pub fn sources()
    ensures { (j : PermissionTest) (i : Image) (g : NumberedFunc) (q : Places) (labels : List (Option ℕ)) (site : Option ℕ) (p : Point) (o n : ℕ) →
        SourceEffects j i g q labels site p o n }
{
    base_words::laws::comparisons();
}

/// Loads and stores in RAM, flash and windows, of each width; and the halves before and behind an access that a handler makes.
pub fn accesses()
    ensures loads { (j : PermissionTest) (i : Image) (g : NumberedFunc) (q : Places) (labels : List (Option ℕ)) (site : Option ℕ) (p : Point) (o n : ℕ) →
        LoadEffects j i g q labels site p o n }
    ensures stores { (j : PermissionTest) (i : Image) (g : NumberedFunc) (q : Places) (labels : List (Option ℕ)) (site : Option ℕ) (p : Point) (o n : ℕ) →
        StoreEffects j i g q labels site p o n }
    ensures widths { AccessesHaveWidths }
{}

/// Jumps and branches.
pub fn branches()
    ensures { (j : PermissionTest) (i : Image) (g : NumberedFunc) (q : Places) (labels : List (Option ℕ)) (first : ℕ) (p : Point) (o n : ℕ) →
        BranchEffects j i g q labels first p o n }
{
    base_words::laws::comparisons();
}

/// Calls and indirect calls: within a compartment up to the callee's entry, across up to the SVC, and from the return on.
pub fn calls()
    ensures within { (j : PermissionTest) (i : Image) (g : NumberedFunc) (q : Places) (labels : List (Option ℕ)) (p : Point) (o n : ℕ) →
        CallEffects j i g q labels p o n }
    ensures across { (j : PermissionTest) (i : Image) (g : NumberedFunc) (q : Places) (labels : List (Option ℕ)) (p : Point) (o n : ℕ) →
        CrossingEffects j i g q labels p o n }
    ensures returned { (j : PermissionTest) (i : Image) (g : NumberedFunc) (q : Places) (labels : List (Option ℕ)) (p : Point) (o n : ℕ) →
        ReturnedEffects j i g q labels p o n }
{}

/// A function's entry: its frame, and up to the SVC of each lend.
pub fn entry()
    ensures { (j : PermissionTest) (i : Image) (g : NumberedFunc) (q : Places) (labels : List (Option ℕ)) (p : Point) (o to : ℕ) →
        EntryEffects j i g q labels p o to }
{}

/// A return: the SVC for each lent local, and from behind the last of them to the caller.
pub fn returns()
    ensures { (j : PermissionTest) (i : Image) (g : NumberedFunc) (q : Places) (labels : List (Option ℕ)) (first : ℕ) (p : Point) (o at : ℕ) →
        ReturnEffects j i g q labels first p o at }
{}
