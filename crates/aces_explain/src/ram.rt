//! The blocks of RAM, as they are told.

ghost use Rattle.std.specs.Prelude.{◌≡◌, ◌++◌, map, flat_map, OnOk};
ghost use Rattle.ir_model.specs.Plain.{firmware_of};
ghost use Rattle.ir_program.specs.Seen.{program_of};
ghost use Rattle.plan_layout.specs.Filling.{use_seen, block_seen};
ghost use Rattle.plan_model.specs.Regions.{region_at};
ghost use Rattle.aces_explain.specs.Blocks as told;

use ir_model::firmware::Firmware;
use ir_program::program::Program;
use plan_layout::ram::{Purpose, UsedBlock, falling_blocks};
use plan_model::graph::Final;
use plan_report::naming;
use plan_report::text::Text;
use std::alloc::{AllocError, Global};

/// Puts the names of the globals of a block, and how many of its bytes are used.
fn put_globals(
    text: &mut Text,
    firmware: &Firmware,
    word: &[u8],
    globals: &[u32],
    bytes: u32,
) -> Result<(), AllocError>
    ensures { OnOk result (text.new ≡ text.old ++ told.globals_text (firmware_of firmware.now) word.now globals.now bytes) }
{
    text.put(word)?;
    naming::put_globals(text, firmware, globals)?;
    text.put(b", ")?;
    text.put_decimal(u64::from(bytes))?;
    text.put(b" bytes")
}

/// The globals of a data region; none for an absent one.
fn globals_of(graph: &Final, region: u32) -> &[u32]
    ensures { result.now ≡ (region_at graph.now.regions region).globals }
{
    match graph.regions.as_slice().get(region as usize) {
        None => &[],
        Some(found) => found.globals.as_slice(),
    }
}

/// Puts what a block is for.
fn put_use(
    text: &mut Text,
    firmware: &Firmware,
    graph: &Final,
    purpose: Purpose,
    bytes: u32,
) -> Result<(), AllocError>
    ensures { OnOk result (text.new ≡ text.old ++ told.use_text (firmware_of firmware.now) graph.now (use_seen purpose) bytes) }
{
    match purpose {
        Purpose::Stack => text.put(b"stack"),
        Purpose::Monitor => text.put(b"monitor"),
        Purpose::Region(region) => {
            put_globals(text, firmware, b"data", globals_of(graph, region), bytes)
        }
        Purpose::Unwritten => {
            put_globals(
                text,
                firmware,
                b"unwritten",
                graph.unwritten.as_slice(),
                bytes,
            )
        }
    }
}

/// Puts the line of a block.
fn put_block(
    text: &mut Text,
    firmware: &Firmware,
    graph: &Final,
    block: UsedBlock,
) -> Result<(), AllocError>
    ensures { OnOk result (text.new ≡ text.old ++ told.ram_line (firmware_of firmware.now) graph.now (block_seen block)) }
{
    text.put(b"block ")?;
    text.put_decimal(u64::from(block.size))?;
    text.put(b" for ")?;
    put_use(text, firmware, graph, block.purpose, block.bytes)?;
    text.put(b"\n")
}

/// Puts the lines of blocks.
fn put_blocks(
    text: &mut Text,
    firmware: &Firmware,
    graph: &Final,
    blocks: &[UsedBlock],
) -> Result<(), AllocError>
    ensures { OnOk result (text.new ≡ text.old ++ flat_map (told.ram_line (firmware_of firmware.now) graph.now) (map block_seen blocks.now)) }
{
    for i in 0..blocks.len() {
        put_block(text, firmware, graph, blocks[i])?;
    }
    Ok(())
}

/// Puts the lines of the blocks of RAM, the largest first.
pub(crate) fn put_ram(
    alloc: Global,
    text: &mut Text,
    firmware: &Firmware,
    program: &Program,
    graph: &Final,
    stack: u32,
) -> Result<(), AllocError>
    ensures { OnOk result (text.new ≡ text.old ++ told.ram_lines (firmware_of firmware.now) (program_of program.now) graph.now stack) }
{
    let blocks = falling_blocks(alloc, program, graph, stack)?;
    put_blocks(text, firmware, graph, &blocks)
}
