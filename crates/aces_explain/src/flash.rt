//! The blocks of flash, as they are told.

ghost use Rattle.std.specs.Prelude.{◌≡◌, ◌++◌, flat_map, IfOk, OnOk};
ghost use Rattle.std.specs.Fmt.{decimal};
ghost use Rattle.plan_model.specs.FlashPlacement.{flash_blocks};
ghost use Rattle.aces_explain.specs.Blocks as told;

use plan_layout::flash::all_blocks;
use plan_model::plan::Sizes;
use plan_report::text::Text;
use std::alloc::{AllocError, Global};

/// A block of flash.
#[derive(Clone, Copy)]
pub struct FlashBlock {
    /// Its number: 0 of the tables', and one more than the compartment's of a block of code.
    pub number: usize,
    /// How many bytes it has.
    pub size: u64,
}

/// The blocks of these sizes, with their numbers.
fn numbered_blocks(alloc: Global, sizes: &[u64]) -> Result<Vec<FlashBlock>, AllocError>
    ensures { IfOk result (λ blocks. blocks.items ≡ told.numbered sizes.now) }
{
    let mut blocks = Vec::new(alloc);
    for number in 0..sizes.len() {
        blocks.push(FlashBlock {
            number,
            size: sizes[number],
        })?;
    }
    Ok(blocks)
}

/// Blocks in falling order of size.
fn falling(mut blocks: Vec<FlashBlock>) -> Result<Vec<FlashBlock>, AllocError>
    ensures { IfOk result (λ falling. falling.items ≡ told.falling_flash blocks.items) }
{
    blocks.sort_by(|a, b| b.size.cmp(&a.size))?;
    Ok(blocks)
}

/// Puts a text and a number.
fn put_numbered(text: &mut Text, words: &[u8], number: usize) -> Result<(), AllocError>
    ensures { OnOk result (text.new ≡ text.old ++ (words.now ++ decimal number)) }
{
    text.put(words)?;
    text.put_decimal(number as u64)
}

/// Puts what the block of a number is for.
fn put_use(text: &mut Text, number: usize) -> Result<(), AllocError>
    ensures { OnOk result (text.new ≡ text.old ++ told.flash_use number) }
{
    if number == 0 {
        return text.put(b"tables");
    }
    put_numbered(text, b"code of compartment ", number - 1)
}

/// Puts the line of a block.
fn put_block(text: &mut Text, block: FlashBlock) -> Result<(), AllocError>
    ensures { OnOk result (text.new ≡ text.old ++ told.flash_line block) }
{
    text.put(b"block ")?;
    text.put_decimal(block.size)?;
    text.put(b" for ")?;
    put_use(text, block.number)?;
    text.put(b"\n")
}

/// Puts the lines of blocks.
fn put_blocks(text: &mut Text, blocks: &[FlashBlock]) -> Result<(), AllocError>
    ensures { OnOk result (text.new ≡ text.old ++ flat_map told.flash_line blocks.now) }
{
    for i in 0..blocks.len() {
        put_block(text, blocks[i])?;
    }
    Ok(())
}

/// The blocks of flash, the largest first.
fn falling_all(alloc: Global, sizes: &Sizes) -> Result<Vec<FlashBlock>, AllocError>
    ensures { IfOk result (λ blocks. blocks.items ≡ told.falling_flash (told.numbered (flash_blocks sizes.now))) }
{
    let all = all_blocks(alloc, sizes)?;
    falling(numbered_blocks(alloc, &all)?)
}

/// Puts the lines of the blocks of flash, the largest first.
pub(crate) fn put_flash(alloc: Global, text: &mut Text, sizes: &Sizes) -> Result<(), AllocError>
    ensures { OnOk result (text.new ≡ text.old ++ told.flash_lines sizes.now) }
{
    let blocks = falling_all(alloc, sizes)?;
    put_blocks(text, &blocks)
}
