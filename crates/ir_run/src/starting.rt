//! The first state of a run.

ghost use Rattle.std.specs.Prelude.{◌≡◌, map, IfOk};
ghost use Rattle.ir_model.specs.Resolved.{NumberedGlobal};
ghost use Rattle.ir_model.specs.State as state;
ghost use Rattle.ir_model.specs.Plain.{struct_of};
ghost use Rattle.ir_model.specs.Layout.{known};
ghost use Rattle.ir_program.specs.Values.{value_of};
ghost use Rattle.ir_program.specs.Parts.{variable_of, cell_count, global_count};
ghost use Rattle.ir_program.specs.Seen.{program_of};
ghost use Rattle.ir_run.specs.States.{running_of};

use crate::below::Below;
use crate::contents::Contents;
use crate::entering::{first_contents, new_frame};
use crate::parts::Parts;
use ir_layouts::table::Layouts;
use ir_program::program::{Program, Variable};
use machine_devices::tape::Tape;
use std::alloc::{AllocError, Global};

fn initial_contents<'a>(
    alloc: Global,
    layouts: &Layouts<'a>,
    variables: &[Variable<'a>],
) -> Result<Contents, AllocError>
    requires { map global_count variables.now ≡ map cell_count (map (variable_of (known (map struct_of layouts.now))) variables.now) }
    ensures { IfOk result (λ gs. map (map value_of) gs ≡ map (λ (o : NumberedGlobal). o.init) (map (variable_of (known (map struct_of layouts.now))) variables.now)) }
{
    let mut objects = Vec::new(alloc);
    for i in 0..variables.len() {
        let variable = &variables[i];
        let first = variable.init.as_slice();
        let values = first_contents(alloc, layouts, &variable.storage, first)?;
        objects.push(values)?;
    }
    Ok(Contents::new(objects))
}

/// The first state of a run: `main` is entered, and the peripherals give the words of the tape.
///
/// # Errors
///
/// There is no memory for it.
#[tactic(auto, unfolding(ir_model::specs::State::start))]
pub fn initial_parts(alloc: Global, program: &Program, tape: Tape) -> Result<Parts, AllocError>
    ensures { IfOk result (λ s. running_of s ≡ state.start (program_of program.now) tape) }
{
    let top = new_frame(alloc, program, program.main, 0, &[])?;
    let globals = initial_contents(alloc, &program.layouts, program.globals.as_slice())?;
    Ok(Parts {
        top,
        below: Below::new(alloc),
        globals,
        tape,
        newest: 0,
    })
}
