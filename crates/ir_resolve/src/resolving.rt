//! Checked firmwares with numbers for their names.

ghost use Rattle.std.specs.Prelude.{◌≡◌, ◌≤◌, map, length, IfOk};
ghost use Rattle.ir_model.specs.Layout.{known};
ghost use Rattle.ir_model.specs.Plain.{firmware_of, func_of, struct_of};
ghost use Rattle.ir_model.specs.Canonical.{IsWithinLimits};
ghost use Rattle.ir_model.specs.Typing.{IsTyped};
ghost use Rattle.ir_model.specs.TextLimits.{file_limit};
ghost use Rattle.base_names.specs.Numbers.{number_of};
ghost use Rattle.ir_model.specs.Resolve as definition;
ghost use Rattle.ir_program.specs.Parts.{variable_of, span_of, routine_of, cell_count, cell_counts, global_count, local_counts};
ghost use Rattle.ir_program.specs.Seen.{program_of};
ghost use Rattle.ir_resolve.specs.Scopes.{scope_of, AreFew, AreSmallGlobals, AreSmallFuncs};

use crate::names::Scope;
use crate::routines::{all_funcs, file_numbers, routines};
use crate::scope::named_scope;
use crate::variables::variables;
use base_lists::ListVec;
use ir_laws::limits::sizes;
use ir_model::checked::Checked;
use ir_model::firmware::{Firmware, Func};
use ir_program::program::{Program, Routine, Span, Variable};
use std::alloc::{AllocError, Global};

fn spans(alloc: Global, firmware: &Firmware) -> Result<ListVec<Span>, AllocError>
    ensures { IfOk result (λ ws. map span_of ws ≡ map definition.window_of firmware.now.periphs) }
{
    let mut spans = Vec::new(alloc);
    for periph in firmware.periphs.as_slice() {
        spans.push(Span {
            base: periph.base,
            size: periph.size,
        })?;
    }
    Ok(ListVec::new(spans))
}

/// What a program has beside the layouts of its structs.
struct Parts<'a> {
    globals: ListVec<Variable<'a>>,
    periphs: ListVec<Span>,
    funcs: ListVec<Routine<'a>>,
    files: ListVec<u32>,
    main: u16,
}

/// The parts of the program of a firmware that has these names and these functions.
fn numbered<'a>(
    alloc: Global,
    scope: &Scope<'a>,
    firmware: &'a Firmware,
    sources: &[&'a Func],
) -> Result<Parts<'a>, AllocError>
    requires few { AreFew scope.now }
    requires files { length firmware.now.files ≤ file_limit }
    requires globals { AreSmallGlobals (known (map struct_of scope.now.layouts)) firmware.now.globals }
    requires funcs { AreSmallFuncs (known (map struct_of scope.now.layouts)) sources.now }
    ensures globals { IfOk result (λ p. map (variable_of (known (map struct_of scope.now.layouts))) p.globals ≡ map (definition.resolved_global (scope_of scope.now)) (firmware_of firmware.now).globals) }
    ensures cells { IfOk result (λ p. map global_count p.globals ≡ map cell_count (map (definition.resolved_global (scope_of scope.now)) (firmware_of firmware.now).globals)) }
    ensures periphs { IfOk result (λ p. map span_of p.periphs ≡ map definition.window_of firmware.now.periphs) }
    ensures funcs { IfOk result (λ p. map (routine_of (known (map struct_of scope.now.layouts))) p.funcs ≡ map (definition.resolved_func (scope_of scope.now)) (map (λ f. func_of f.now) sources.now)) }
    ensures locals { IfOk result (λ p. map local_counts p.funcs ≡ map cell_counts (map (definition.resolved_func (scope_of scope.now)) (map (λ f. func_of f.now) sources.now))) }
    ensures files { IfOk result (λ p. p.files ≡ definition.files_from 0 (firmware_of firmware.now).files) }
    ensures main { IfOk result (λ p. p.main ≡ number_of scope.now.funcs definition.main_name) }
{
    let main = scope.funcs.find_or_len(b"main") as u16;
    let files = file_numbers(alloc, firmware)?;
    let periphs = spans(alloc, firmware)?;
    let globals = variables(alloc, scope, firmware)?;
    let funcs = routines(alloc, scope, sources)?;
    Ok(Parts {
        globals,
        periphs,
        funcs,
        files,
        main,
    })
}

#[tactic(auto, unfolding(ir_model::specs::Resolve::resolve))]
fn resolved(alloc: Global, firmware: &Firmware) -> Result<Program<'_>, AllocError>
    requires within { IsWithinLimits (firmware_of firmware.now) }
    requires typed { IsTyped (firmware_of firmware.now) }
    ensures exact { IfOk result (λ p. program_of p ≡ definition.resolve (firmware_of firmware.now)) }
{
    let sources = all_funcs(alloc, firmware)?;
    let scope = named_scope(alloc, firmware, sources.as_slice())?;
    sizes();
    let Parts {
        globals,
        periphs,
        funcs,
        files,
        main,
    } = numbered(alloc, &scope, firmware, sources.as_slice())?;
    Ok(Program {
        layouts: scope.into_layouts(),
        globals,
        periphs,
        funcs,
        files,
        main,
    })
}

/// The firmware with numbers for its names: a name means the first that has it.
///
/// # Errors
///
/// There is no memory for it.
pub fn resolve(alloc: Global, firmware: &Checked) -> Result<Program<'_>, AllocError>
    ensures exact { IfOk result (λ p. program_of p ≡ definition.resolve (firmware_of firmware.now)) }
{
    resolved(alloc, firmware.firmware())
}
