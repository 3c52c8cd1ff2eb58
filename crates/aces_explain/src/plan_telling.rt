//! What is told of a firmware that has no plan for a board.

ghost use Rattle.std.specs.Prelude.{◌≡◌, ◌++◌, length, IfOk, OnOk};
ghost use Rattle.ir_model.specs.Plain.{firmware_of};
ghost use Rattle.ir_program.specs.Seen.{program_of};
ghost use Rattle.plan_model.specs.Boards.{IsBoard, slots_of};
ghost use Rattle.code_model.specs.Planned.{sizes_of};
ghost use Rattle.aces_explain.specs.PlanTold as told;

use crate::flash::put_flash;
use crate::plan_rules::{denied_rule, put_flash_rule, put_limit, put_ram_rule};
use crate::ram::put_ram;
use crate::room_lines::{put_room, put_rule};
use ir_model::firmware::Firmware;
use ir_program::program::Program;
use plan::PlanningRefusal;
use plan::planner::final_graph;
use plan_denials::Meeting;
use plan_layout::refusal::{Lack, Memory};
use plan_model::graph::Final;
use plan_model::groups::Groups;
use plan_model::limits::LimitKind;
use plan_model::needs::Needs;
use plan_model::plan::{Board, Sizes};
use plan_report::meeting_text;
use plan_report::text::Text;
use plan_sizes::sizes;
use std::alloc::{AllocError, Global};

/// What is told of a limit.
fn limit_told(alloc: Global, which: LimitKind, count: u32) -> Result<Vec<u8>, AllocError>
    ensures { IfOk result (λ text. text.items ≡ told.limit_told which count) }
{
    let mut text = Text::new(alloc);
    put_limit(&mut text, which, count)?;
    Ok(text.into_bytes())
}

/// Puts what is told of an address that is denied, by the text on it.
fn put_denied(text: &mut Text, meets: &[u8], meeting: Meeting) -> Result<(), AllocError>
    ensures { OnOk result (text.new ≡ text.old ++ told.denied_text meets.now meeting) }
{
    text.put(b"deny: ")?;
    text.put(meets)?;
    text.put(b"\n")?;
    put_rule(text, denied_rule(meeting.asked))
}

/// What is told of an address that is denied.
fn denied_told(
    alloc: Global,
    firmware: &Firmware,
    board: &Board,
    meeting: Meeting,
) -> Result<Vec<u8>, AllocError>
    ensures { IfOk result (λ text. text.items ≡ told.denied_told (firmware_of firmware.now) board.now meeting) }
{
    let meets = meeting_text(alloc, firmware, board, meeting)?;
    let mut text = Text::new(alloc);
    put_denied(&mut text, &meets, meeting)?;
    Ok(text.into_bytes())
}

/// What is told of flash that has no room.
fn flash_told(alloc: Global, sizes: &Sizes, lack: Lack) -> Result<Vec<u8>, AllocError>
    ensures { IfOk result (λ text. text.items ≡ told.flash_told sizes.now lack) }
{
    let mut text = Text::new(alloc);
    put_room(&mut text, lack)?;
    put_flash(alloc, &mut text, sizes)?;
    put_flash_rule(&mut text)?;
    Ok(text.into_bytes())
}

/// What is told of RAM that has no room.
fn ram_told(
    alloc: Global,
    firmware: &Firmware,
    program: &Program,
    graph: &Final,
    board: &Board,
    lack: Lack,
) -> Result<Vec<u8>, AllocError>
    ensures { IfOk result (λ text. text.items ≡ told.ram_told (firmware_of firmware.now) (program_of program.now) graph.now board.now lack) }
{
    let mut text = Text::new(alloc);
    put_room(&mut text, lack)?;
    put_ram(alloc, &mut text, firmware, program, graph, board.stack)?;
    put_ram_rule(&mut text, board.lowest)?;
    Ok(text.into_bytes())
}

/// What is told of flash that has no room for the blocks of the final graph.
fn flash_of_final(
    alloc: Global,
    program: &Program,
    needs: &Needs,
    groups: Groups,
    board: &Board,
    lack: Lack,
) -> Result<Vec<u8>, AllocError>
    requires board { IsBoard board.now }
    requires needs { length groups.of ≡ length needs.now.funcs }
    requires each { length groups.of ≡ length program.now.funcs }
    ensures { IfOk result (λ text. told.IsToldOfFinal (program_of program.now) needs.now groups board.now (λ f. told.flash_told (sizes_of (program_of program.now) needs.now f (slots_of board.now)) lack) text.items) }
{
    let count = board.slots();
    let graph = final_graph(alloc, program, needs, groups, count)?;
    let sizes = sizes(alloc, program, needs, &graph, count)?;
    flash_told(alloc, &sizes, lack)
}

/// What is told of RAM that has no room for the blocks of the final graph.
fn ram_of_final(
    alloc: Global,
    firmware: &Firmware,
    program: &Program,
    needs: &Needs,
    groups: Groups,
    board: &Board,
    lack: Lack,
) -> Result<Vec<u8>, AllocError>
    requires board { IsBoard board.now }
    requires needs { length groups.of ≡ length needs.now.funcs }
    ensures { IfOk result (λ text. told.IsToldOfFinal (program_of program.now) needs.now groups board.now (λ f. told.ram_told (firmware_of firmware.now) (program_of program.now) f board.now lack) text.items) }
{
    let graph = final_graph(alloc, program, needs, groups, board.slots())?;
    ram_told(alloc, firmware, program, &graph, board, lack)
}

/// What is told of a memory that has no room for the blocks of the final graph.
fn room_told(
    alloc: Global,
    firmware: &Firmware,
    program: &Program,
    needs: &Needs,
    groups: Groups,
    board: &Board,
    lack: Lack,
) -> Result<Vec<u8>, AllocError>
    requires board { IsBoard board.now }
    requires needs { length groups.of ≡ length needs.now.funcs }
    requires each { length groups.of ≡ length program.now.funcs }
    ensures { IfOk result (λ text. told.IsRoomTold (firmware_of firmware.now) (program_of program.now) needs.now groups board.now lack lack.memory text.items) }
{
    match lack.memory {
        Memory::Flash => flash_of_final(alloc, program, needs, groups, board, lack),
        Memory::Ram => ram_of_final(alloc, firmware, program, needs, groups, board, lack),
    }
}

/// What is told of a firmware that planning refused: why, the blocks of the final graph where a memory has no room for them, and
/// the rule. Each function has a need and a compartment.
///
/// # Errors
///
/// There is no memory for it, or was none for the plan.
pub fn refusal_told(
    alloc: Global,
    firmware: &Firmware,
    program: &Program,
    needs: &Needs,
    groups: Groups,
    board: &Board,
    refusal: PlanningRefusal,
) -> Result<Vec<u8>, AllocError>
    requires board { IsBoard board.now }
    requires needs { length groups.of ≡ length needs.now.funcs }
    requires each { length groups.of ≡ length program.now.funcs }
    ensures { IfOk result (λ text. told.IsRefusalTold (firmware_of firmware.now) (program_of program.now) needs.now groups board.now refusal text.items) }
{
    match refusal {
        PlanningRefusal::NoMemory => Err(AllocError),
        PlanningRefusal::Limit { which, count } => limit_told(alloc, which, count),
        PlanningRefusal::Denied(meeting) => denied_told(alloc, firmware, board, meeting),
        PlanningRefusal::Room(lack) => {
            room_told(alloc, firmware, program, needs, groups, board, lack)
        }
    }
}
