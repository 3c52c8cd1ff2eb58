//! Frames of functions that are entered.

ghost use Rattle.std.specs.Prelude.{◌≡◌, map, IfOk};
ghost use Rattle.std.proofs.Math.ListN.{get_or};
ghost use Rattle.ir_model.specs.Types.{type_of};
ghost use Rattle.ir_model.specs.Resolve.{zero_of};
ghost use Rattle.ir_model.specs.State as state;
ghost use Rattle.ir_program.specs.Values.{value_of};
ghost use Rattle.ir_program.specs.Storages.{shape_of};
ghost use Rattle.ir_model.specs.Plain.{struct_of};
ghost use Rattle.ir_model.specs.Layout.{known};
ghost use Rattle.ir_cells.specs.Cells.{lent_types, types_of};
ghost use Rattle.ir_program.specs.Parts.{routine_of, local_counts, cell_counts};
ghost use Rattle.ir_program.specs.Seen.{program_of};
ghost use Rattle.ir_run.specs.Acts.{frame_of};
ghost use Rattle.ir_run.specs.Counts.{HasCount, HaveCounts};

use crate::contents::{Contents, Values};
use crate::frame::Frame;
use ir_cells::put_cell_types;
use ir_layouts::table::Layouts;
use ir_model::types::Ty;
use ir_program::program::{Program, Routine, Storage};
use ir_program::types::zero;
use ir_program::value::Value;
use std::alloc::{AllocError, Global};

// What a register holds when its function is entered.
fn initial(args: &[Value], ty: &Ty, register: usize) -> Value
    ensures { value_of result ≡ get_or (map value_of args.now) register (zero_of (type_of ty.now)) }
{
    if register < args.len() {
        args[register]
    } else {
        zero(ty)
    }
}

fn entered(alloc: Global, args: &[Value], types: &[&Ty]) -> Result<Values, AllocError>
    ensures { IfOk result (λ vs. map value_of vs ≡ state.entered (map value_of args.now) (map (λ t. type_of t.now) types.now)) }
{
    let mut values = Vec::new(alloc);
    for i in 0..types.len() {
        let value = initial(args, types[i], i);
        values.push(value)?;
    }
    Ok(Values::new(values))
}

// The types of the cells of an object.
fn cell_types<'a>(
    alloc: Global,
    layouts: &Layouts<'a>,
    storage: &Storage<'a>,
) -> Result<Vec<&'a Ty>, AllocError>
    requires { HasCount (known (map struct_of layouts.now)) storage.now }
    ensures { IfOk result (λ ts. lent_types ts.items ≡ types_of (shape_of (known (map struct_of layouts.now)) storage.now).cells) }
{
    let mut types = Vec::new(alloc);
    put_cell_types(layouts, storage.ty, storage.cells as usize, &mut types)?;
    Ok(types)
}

/// What the cells of an object hold before they are written; the first of them hold these values.
///
/// # Errors
///
/// There is no memory for them.
pub fn first_contents<'a>(
    alloc: Global,
    layouts: &Layouts<'a>,
    storage: &Storage<'a>,
    first: &[Value],
) -> Result<Values, AllocError>
    requires { HasCount (known (map struct_of layouts.now)) storage.now }
    ensures { IfOk result (λ vs. map value_of vs ≡ state.entered (map value_of first.now) (types_of (shape_of (known (map struct_of layouts.now)) storage.now).cells)) }
{
    let types = cell_types(alloc, layouts, storage)?;
    entered(alloc, first, types.as_slice())
}

fn zero_locals<'a>(
    alloc: Global,
    layouts: &Layouts<'a>,
    locals: &[Storage<'a>],
) -> Result<Contents, AllocError>
    requires { HaveCounts (known (map struct_of layouts.now)) locals.now }
    ensures { IfOk result (λ ls. map (map value_of) ls ≡ map state.zero_local (map (shape_of (known (map struct_of layouts.now))) locals.now)) }
{
    let mut objects = Vec::new(alloc);
    for i in 0..locals.len() {
        let cells = first_contents(alloc, layouts, &locals[i], &[])?;
        objects.push(cells)?;
    }
    Ok(Contents::new(objects))
}

fn routine_frame<'a>(
    alloc: Global,
    layouts: &Layouts<'a>,
    routine: &Routine<'a>,
    func: u16,
    number: u64,
    args: &[Value],
) -> Result<Frame, AllocError>
    requires { local_counts routine.now ≡ cell_counts (routine_of (known (map struct_of layouts.now)) routine.now) }
    ensures { IfOk result (λ f. frame_of f ≡ record { func = func; block = 0; place = 0; number = number; regs = state.entered (map value_of args.now) (routine_of (known (map struct_of layouts.now)) routine.now).regs; locals = map state.zero_local (routine_of (known (map struct_of layouts.now)) routine.now).locals }) }
{
    let regs = entered(alloc, args, routine.registers.as_slice())?;
    let locals = zero_locals(alloc, layouts, routine.locals.as_slice())?;
    Ok(Frame {
        func,
        block: 0,
        place: 0,
        number,
        regs,
        locals,
    })
}

/// The frame of a function that is entered with these arguments.
///
/// # Errors
///
/// There is no memory for it.
pub fn new_frame(
    alloc: Global,
    program: &Program,
    func: u16,
    number: u64,
    args: &[Value],
) -> Result<Frame, AllocError>
    ensures { IfOk result (λ f. frame_of f ≡ state.frame_of (program_of program.now) func number (map value_of args.now)) }
{
    let routines = program.funcs.as_slice();
    let place = usize::from(func);
    if place < routines.len() {
        return routine_frame(
            alloc,
            &program.layouts,
            &routines[place],
            func,
            number,
            args,
        );
    }
    Ok(Frame {
        func,
        block: 0,
        place: 0,
        number,
        regs: Values::new(Vec::new(alloc)),
        locals: Contents::new(Vec::new(alloc)),
    })
}
