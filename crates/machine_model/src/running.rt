//! Running code: what the instructions in memory do. Each function is a law and does nothing.

ghost use Rattle.std.specs.Prelude.{◌≡◌, ℕ, ◌+◌, ◌*◌, ◌%◌, ◌^◌, ◌<◌, ◌≤◌, List, length, Bool};
ghost use Rattle.base_words.specs.declared.conditions.Flags.{Flags};
ghost use Rattle.base_words.specs.Bytes.{write_all};
ghost use Rattle.machine_devices.specs.declared.image.Image.{Image};
ghost use Rattle.machine_model.specs.declared.state.CoreRegisters.{CoreRegisters as Core};
ghost use Rattle.machine_model.specs.State.{PermissionTest};
ghost use Rattle.machine_model.specs.Exceptions.{frame_at, frame_of, unstacked};
ghost use Rattle.machine_model.specs.Stack.{words_at, cut_words, AreWords};
ghost use Rattle.machine_model.specs.Resumed.{resumed, TellsThread, saved_of};
ghost use Rattle.machine_model.specs.Shape.{StepsKeepShape, RunsKeepShape};
ghost use Rattle.machine_model.specs.CodeBytes.{BytesAreCode};
ghost use Rattle.machine_model.specs.Running.{
  StepsAreActs,
  CodeMayRun,
  CodeHasParts,
  StandingCodeHasParts,
  SizesAddUp,
  SizesAreEven,
  RunsGoOn,
  EachLive,
  ActSteps,
  ExceptionSteps,
};
ghost use Rattle.machine_model.specs.EntryFrame.{OpenFramesAreWords};
ghost use Rattle.machine_model.specs.Turns.{WholeTurns};
ghost use Rattle.machine_model.specs.Accessed.{TransfersHaveWidths, NothingStops, SystemRegistersAreReached, FramesAreAligned};
ghost use Rattle.machine_model.specs.InstructionEffects.{
  EachWorks,
  RegisterSteps,
  BranchSteps,
  StackSteps,
  TransferSteps,
  SpecialSteps,
  ThreadSteps,
};

/// An instruction that stands at the program counter is performed, steps make up runs, and flash that holds the
/// bytes of instructions is code.
pub fn instructions()
    ensures performed { StepsAreActs }
    ensures by_act { EachLive ActSteps }
    ensures of_exceptions { EachLive ExceptionSteps }
    ensures by_turn { EachLive WholeTurns }
    ensures in_runs { (j : PermissionTest) (i : Image) → RunsGoOn j i }
    ensures may_run { CodeMayRun }
    ensures has_parts { CodeHasParts }
    ensures stands_by_parts { StandingCodeHasParts }
    ensures sizes { SizesAddUp }
    ensures even_sizes { SizesAreEven }
    ensures from_bytes { BytesAreCode }
{}

/// The steps of the instructions that generated code and the monitor are made of.
pub fn templates()
    ensures of_registers { EachWorks RegisterSteps }
    ensures of_branches { EachWorks BranchSteps }
    ensures of_stack { EachWorks StackSteps }
    ensures of_transfers { EachWorks TransferSteps }
    ensures of_special { EachWorks SpecialSteps }
    ensures of_threads { EachWorks ThreadSteps }
{}

/// What an exception entry pushes (PushStack, B1.5.6) is read as it was, and taken back by the return (PopStack,
/// B1.5.8) it is the thread again. A frame that is open lies in RAM, with its words one behind the other.
pub fn frames()
    ensures pushed { (vs : List ℕ) (o : ℕ) (ram : List ℕ) → o + 4 * length vs ≤ length ram →
        words_at (length vs) o (write_all 4 o vs ram) ≡ cut_words vs }
    ensures read_back { (c : Core) (ret o : ℕ) (ram : List ℕ) → AreWords (saved_of c) → ret < 2 ^ 32 → o + 32 ≤ length ram →
        words_at 8 o (write_all 4 o (frame_of c ret) ram) ≡ frame_of c ret }
    ensures taken_back { (c h : Core) (ret : ℕ) → c.sp % 4 ≡ 0 → 36 ≤ c.sp → c.sp < 2 ^ 32 →
        unstacked c.on_psp h (frame_at c.sp) (frame_of c ret) ≡ resumed c h ret }
    ensures of_thread { (f : Flags) (pad : Bool) → TellsThread f pad }
    ensures in_ram { OpenFramesAreWords }
{}

/// Every step keeps the number of registers, regions and bytes, the stack pointers multiples of 4, and numbers words;
/// so they are in every run from reset.
pub fn shapes()
    ensures of_steps { StepsKeepShape }
    ensures of_runs { RunsKeepShape }
{}

/// Each load and each store of the instruction table asks for an access of its width, at the address of its form, and
/// a load puts the value into its register behind zeros or its sign (A7.7).
pub fn transfers()
    ensures { (next : ℕ) (c : Core) → TransfersHaveWidths next c }
{}

/// What the tests let through to a place where nothing lies stops the machine with `Bus`, whatever is accessed; a
/// privileged access of the word of a system register reaches it; and a frame begins at a multiple of 8.
pub fn accesses()
    ensures of_nothing { NothingStops }
    ensures of_system { SystemRegistersAreReached }
    ensures of_frames { FramesAreAligned }
{}
