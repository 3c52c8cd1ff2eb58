//! A board, from the text that describes it.

ghost use Rattle.std.specs.Prelude.{◌≡◌, None, Ok, IfOk, IfErr, OnOk};
ghost use Rattle.toml.specs.View.{table_view};
ghost use Rattle.plan_model.specs.Boards.{IsBoard};
ghost use Rattle.plan_board.specs.Fields.{board_of};
ghost use Rattle.plan_board.specs.Denied.{denied_of};
ghost use Rattle.plan_board.specs.Extra.{extra_of};
ghost use Rattle.plan_board.specs.Reading.{with_denied, IsFurther, IsReadIn, IsFaultIn, IsRead, IsFault};

use crate::extra::further;
use crate::fault::BoardFault;
use base_lists::ListVec;
use plan_model::plan::Board;
use std::alloc::Global;
use toml::Table;

/// The board of a document that may have further keys.
fn fields_of(alloc: Global, document: &Table) -> Result<Board, BoardFault>
    ensures ok { IfOk result (λ board. with_denied (board_of (table_view document.now)) (denied_of (table_view document.now)) ≡ Ok board) }
    ensures refused { IfErr result (IsFaultIn (table_view document.now)) }
{
    let board = crate::fields::board_of(alloc, document)?;
    let denied = crate::denied::denied_of(alloc, document)?;
    Ok(Board { denied, ..board })
}

/// Refuses the first further key of a document.
fn refuse_further(alloc: Global, document: &Table) -> Result<(), BoardFault>
    ensures none { OnOk result (extra_of (table_view document.now) ≡ None) }
    ensures refused { IfErr result (IsFurther (table_view document.now)) }
{
    match further(document) {
        None => Ok(()),
        Some(key) => Err(BoardFault::Extra(ListVec::new(key.path(alloc)?))),
    }
}

/// The board of a document without further keys.
fn read_document(alloc: Global, document: &Table) -> Result<Board, BoardFault>
    ensures read { IfOk result (IsReadIn (table_view document.now)) }
    ensures refused { IfErr result (IsFaultIn (table_view document.now)) }
{
    let board = fields_of(alloc, document)?;
    refuse_further(alloc, document)?;
    Ok(board)
}

/// The board that a text describes: a TOML document with the tables `flash`, `ram` and, if it likes, `mpu` and `deny`, which have the
/// keys that `Key` names and no others.
///
/// # Errors
///
/// The text is none, for the first test that fails, or there is no memory to read it.
pub fn read_board(alloc: Global, text: &[u8]) -> Result<Board, BoardFault>
    ensures read { IfOk result (IsRead text.now) }
    ensures board { IfOk result IsBoard }
    ensures refused { IfErr result (IsFault text.now) }
{
    match toml::table_from_slice(alloc, text) {
        Ok(document) => read_document(alloc, &document),
        Err(fault) if fault.is_memory() => Err(BoardFault::NoMemory),
        Err(_) => Err(BoardFault::NotToml),
    }
}
