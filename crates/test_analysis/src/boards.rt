//! Boards, and texts that are none, as text.

use anyhow::Result;
use plan_board::fault::BoardFault;
use plan_board::read_board;
use plan_model::Denied;
use plan_model::plan::{Board, Lowest};
use std::alloc::Global;

fn board_of(alloc: Global, board: &Board) -> Result<String> {
    let Board {
        flash_base,
        flash_size,
        ram_base,
        ram_size,
        stack,
        lowest,
        regions,
        closed,
        denied,
    } = board;
    let first = match lowest {
        Lowest::Largest => "",
        Lowest::Stack => " lowest",
    };
    let line = format!(in alloc;
        "flash {flash_base:#010x} {flash_size} ram {ram_base:#010x} {ram_size} stack {stack}{first} regions {regions} closed {closed}"
    )?;
    let denied = denied_of(alloc, denied.as_slice())?;
    let line = format!(in alloc; "{line}{denied}\n")?;
    Ok(line)
}

/// What a board denies, each range behind its name.
fn denied_of(alloc: Global, ranges: &[Denied]) -> Result<String> {
    let mut text = String::new(alloc);
    for range in ranges {
        let Denied { name, base, size } = range;
        let range = format!(in alloc; " deny {name} {base:#010x} {size}")?;
        text.push_str(range.as_str())?;
    }
    Ok(text)
}

/// The board that a text describes, or why it is none.
pub(crate) fn board_line(alloc: Global, bytes: &[u8]) -> Result<String> {
    let line = match read_board(alloc, bytes) {
        Ok(board) => return board_of(alloc, &board),
        Err(BoardFault::NoMemory) => String::from_str(alloc, "out of memory\n")?,
        Err(BoardFault::NotToml) => String::from_str(alloc, "not toml\n")?,
        Err(BoardFault::Missing(key)) => format!(in alloc; "missing {key}\n")?,
        Err(BoardFault::Kind(key)) => format!(in alloc; "kind {key}\n")?,
        Err(BoardFault::Range(key)) => format!(in alloc; "range {key}\n")?,
        Err(BoardFault::DeniedKind(path)) => {
            let path = String::from_utf8(path.into_vec())?;
            format!(in alloc; "kind {path}\n")?
        }
        Err(BoardFault::DeniedRange(path)) => {
            let path = String::from_utf8(path.into_vec())?;
            format!(in alloc; "range {path}\n")?
        }
        Err(BoardFault::Extra(path)) => {
            let path = String::from_utf8(path.into_vec())?;
            format!(in alloc; "extra {path}\n")?
        }
    };
    Ok(line)
}
