//! Runs of the source of a firmware.

ghost use Rattle.std.specs.Prelude.{◌≡◌, ◌-◌, ◌^◌, ◌<◌, IfOk, OnErr, OnOk};
ghost use Rattle.ir_laws.specs.Laws.{HasOrderedFrames};
ghost use Rattle.ir_model.specs.Step.{source_turn, source_step};
ghost use Rattle.ir_program.specs.Seen.{program_of};
ghost use Rattle.ir_run.specs.Acts.{IsCall};
ghost use Rattle.ir_run.specs.Elements.{HasSmallElements};
ghost use Rattle.ir_run.specs.Runs.{IsAnswer, HasMade};
ghost use Rattle.ir_run.specs.Phases.{state_of};

use crate::outcome::{SourceEnd, SourceStep};
use crate::parts::Parts;
use crate::reads::{FramePlace, spots};
use crate::starting::initial_parts;
use crate::turn::turn;
use base_lists::ListVec;
use ir_laws::runs::{moves, registers, values};
use ir_laws::typing::places;
use ir_laws::{events, frames};
use ir_program::program::Program;
use ir_program::value::Value;
use machine_devices::tape::Tape;
use std::alloc::{AllocError, Global};
use std::marker::Model;

/// How far a run is.
#[derive(Drop)]
enum Phase {
    /// It goes on.
    Running(Parts),
    /// It has ended.
    Ended(SourceEnd),
}

// One instruction or block end of a run, or the end that it has come to.
#[tactic(auto, unfolding(ir_model::specs::Step::source_turn))]
fn go_on(
    alloc: Global,
    program: &Program,
    compartments: &[u32],
    phase: &mut Phase,
) -> Result<SourceStep, AllocError>
    requires ordered { HasOrderedFrames (state_of phase.old) }
    requires small { HasSmallElements (program_of program.now) (state_of phase.old) }
    requires few { HasMade (2 ^ 64 - 1) (state_of phase.old) }
    ensures says { IfOk result (λ answer. IsAnswer (source_turn (program_of program.now) compartments.now (state_of phase.old)) answer) }
    ensures goes { OnOk result (state_of phase.new ≡ source_step (program_of program.now) compartments.now (state_of phase.old)) }
    ensures err { OnErr result (state_of phase.new ≡ state_of phase.old) }
    ensures memory { OnErr result (IsCall (source_turn (program_of program.now) compartments.now (state_of phase.old))) }
{
    let answer = match phase {
        Phase::Running(parts) => turn(alloc, program, compartments, parts)?,
        Phase::Ended(end) => SourceStep::Ended(*end),
    };
    if let SourceStep::Ended(end) = answer {
        *phase = Phase::Ended(end);
    }
    Ok(answer)
}

/// A run of the source of a firmware on recorded device input, one instruction or block end a step.
pub struct SourceRun<'a> {
    alloc: Global,
    program: &'a Program<'a>,
    compartments: ListVec<u32>,
    phase: Phase,
    taken: u64,
}

impl Drop for SourceRun<'_> {
    fn drop(self) {
        let SourceRun {
            alloc: _,
            program: _,
            compartments: _,
            phase: _,
            taken: _,
        } = self;
    }
}

impl<'a> Model for SourceRun<'a> {
    ghost use Rattle.ir_program.specs.Seen.{program_of};
    ghost use Rattle.ir_run.specs.Runs.{RunState, IsRun};
    ghost use Rattle.ir_run.specs.Phases.{state_of};

    ghost Value = { RunState };

    ghost use Rattle.std.specs.Coded.{codes};
    ghost use Rattle.ir_run.specs.Codes.{coded_type, coded_row, coded_outcome};

    ghost coded = { Prim.hlevel (coded_type, coded_row, coded_outcome, codes) };

    ghost view = { λ r. record { program = program_of r.program.now; compartments = r.compartments; state = state_of r.phase; taken = r.taken } };

    ghost invariant = { λ r. IsRun (record { program = program_of r.program.now; compartments = r.compartments; state = state_of r.phase; taken = r.taken }) };
}

impl<'a> SourceRun<'a> {
    ghost use Rattle.std.specs.Prelude.{map};
    ghost use Rattle.ir_model.specs.State as state;
    ghost use Rattle.ir_model.specs.Step.{source_turn};
    ghost use Rattle.ir_program.specs.Seen.{program_of};
    ghost use Rattle.ir_program.specs.Values.{value_of};
    ghost use Rattle.ir_run.specs.Acts.{IsCall};
    ghost use Rattle.ir_run.specs.Reads.{spot_of, frames_of, registers_of};
    ghost use Rattle.ir_model.specs.Checked.{IsChecked};
    ghost use Rattle.ir_run.specs.Runs.{IsStep, AnswersDeclared};

    /// The run of a firmware with numbers for its names, with the compartment of each of its functions, and the words that
    /// each peripheral gives: `main` is entered.
    ///
    /// # Errors
    ///
    /// There is no memory for it.
    pub fn start(
        alloc: Global,
        program: &'a Program<'a>,
        compartments: Vec<u32>,
        tape: Tape,
    ) -> Result<SourceRun<'a>, AllocError>
        requires { IsChecked (program_of program.now) }
        ensures { IfOk result (λ run. run ≡ record {
          program = program_of program.now;
          compartments = compartments.items;
          state = state.start (program_of program.now) tape;
          taken = 0;
        }) }
    {
        let parts = initial_parts(alloc, program, tape)?;
        frames();
        Ok(SourceRun {
            alloc,
            program,
            compartments: ListVec::new(compartments),
            phase: Phase::Running(parts),
            taken: 0,
        })
    }

    /// One instruction or block end. A run that has ended answers its end again. Where there is no memory, the run is
    /// as before.
    ///
    /// # Errors
    ///
    /// It calls a function, and there is no memory for that.
    pub fn step(&mut self) -> Result<SourceStep, AllocError>
        requires { self.old.taken < 2 ^ 64 - 1 }
        ensures step { IfOk result (λ answer. IsStep self.old answer self.new) }
        ensures declared { IfOk result (AnswersDeclared self.old.program) }
        ensures err { OnErr result (self.new ≡ self.old) }
        ensures memory { OnErr result (IsCall (source_turn self.old.program self.old.compartments self.old.state)) }
    {
        frames();
        events();
        places();
        values();
        registers();
        moves();
        let answer = go_on(
            self.alloc,
            self.program,
            self.compartments.as_slice(),
            &mut self.phase,
        )?;
        self.taken += 1;
        Ok(answer)
    }

    /// How many steps were answered so far.
    pub fn step_count(&self) -> u64
        ensures { result ≡ self.now.taken }
    {
        self.taken
    }

    /// The firmware that is run, with numbers for its names.
    pub fn program(&self) -> &Program<'a>
        ensures { program_of result.now ≡ self.now.program }
    {
        self.program
    }

    /// Where each frame stands, the running one first. There is no frame where the run has ended.
    ///
    /// # Errors
    ///
    /// There is no memory for it.
    pub fn spots(&self) -> Result<Vec<FramePlace>, AllocError>
        ensures { IfOk result (λ spots. spots.items ≡ map spot_of (frames_of self.now.state)) }
    {
        match &self.phase {
            Phase::Running(parts) => spots(self.alloc, parts),
            Phase::Ended(_) => Ok(Vec::new(self.alloc)),
        }
    }

    /// What the registers of the running frame hold, by their numbers. There is no register where the run has ended.
    pub fn registers(&self) -> &[Value]
        ensures { map value_of result.now ≡ registers_of (frames_of self.now.state) }
    {
        match &self.phase {
            Phase::Running(parts) => parts.top.regs.as_slice(),
            Phase::Ended(_) => &[],
        }
    }
}
