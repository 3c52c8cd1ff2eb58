//! All lines.

ghost use Rattle.std.specs.Prelude.{◌≡◌, ◌++◌, IfOk, OnOk};
ghost use Rattle.ir_program.specs.Seen.{program_of};
ghost use Rattle.ir_model.specs.Checked.{IsChecked};
ghost use Rattle.plan_report.specs.Subjects.{subject_of};
ghost use Rattle.image_symbols.specs.FunctionLines as functions_of;
ghost use Rattle.image_symbols.specs.Symbols as definition;
ghost use Rattle.image_symbols.specs.Made.{AreMade};

use crate::code_lines::put_code;
use crate::data_lines::{put_blocks, put_globals, put_windows};
use crate::function_lines::{functions, put_functions};
use crate::monitor_lines::put_monitor;
use crate::rising::Lying;
use crate::site_lines::put_sites;
use crate::table_parts::put_tables;
use image_linker::{LinkParts, link_parts};
use plan_report::subject::Subject;
use plan_report::text::Text;
use std::alloc::{AllocError, Global};

fn put_all(
    alloc: Global,
    text: &mut Text,
    subject: &Subject<'_>,
    parts: &LinkParts,
    all: &[Lying],
) -> Result<(), AllocError>
    requires made { AreMade subject.now parts.now }
    requires all { all.now ≡ functions_of.functions (subject_of subject.now) }
    ensures { OnOk result (text.new ≡ text.old ++ definition.symbols_with parts.now.tables (subject_of subject.now)) }
{
    put_monitor(alloc, text, &parts.tables)?;
    put_tables(text, &parts.tables)?;
    put_functions(text, subject, parts, all)?;
    put_blocks(text, subject)?;
    put_globals(alloc, text, subject, parts)?;
    put_windows(alloc, text, subject, parts)?;
    put_sites(alloc, text, subject, parts)?;
    put_code(text, subject, parts, all)
}

/// The lines by what the image is made of.
fn lines_of(alloc: Global, subject: &Subject<'_>, parts: &LinkParts) -> Result<Vec<u8>, AllocError>
    requires { AreMade subject.now parts.now }
    ensures { IfOk result (λ lines. lines.items ≡ definition.symbols (subject_of subject.now)) }
{
    let all = functions(alloc, subject, parts)?;
    let mut text = Text::new(alloc);
    put_all(alloc, &mut text, subject, parts, &all)?;
    Ok(text.into_bytes())
}

/// What is where in the image of a firmware on a board, line by line.
///
/// # Errors
///
/// There is no memory for it. This is also the answer where the plan is none of this firmware on this board.
pub fn symbols(alloc: Global, subject: &Subject<'_>) -> Result<Vec<u8>, AllocError>
    requires { IsChecked (program_of subject.now.program.now) }
    ensures { IfOk result (λ lines. lines.items ≡ definition.symbols (subject_of subject.now)) }
{
    let parts = link_parts(
        alloc,
        subject.program,
        subject.needs,
        subject.graph,
        subject.plan,
        subject.board,
    )?;
    lines_of(alloc, subject, &parts)
}
