//! Reading the files of a command.

ghost use Rattle.std.specs.Prelude.{◌≡◌, ◌≤◌, length, None, IfOk, IfErr, OnOk};
ghost use Rattle.machine_image.specs.Text.{IsText};
ghost use Rattle.machine_devices.specs.Tape as tapes;
ghost use Rattle.aces_words.specs.Requests.{file_origin, firmware_origin, file_limit, firmware_limit};
ghost use Rattle.plan_model.specs.Boards.{IsBoard};
ghost use Rattle.plan_board.specs.Reading as boards;
ghost use Rattle.aces_files.specs.Contents.{IsNoImage, IsNoTape, IsNoBoard};
ghost use Rattle.aces_files.specs.Loads.{IsContentFailure, IsRead, IsNotRead, AreRead, AreNotRead};

use crate::failure::content_failure;
use aces_reports::{Failure, Fault};
use base_outside::{Files, ReadRefusal, read_whole};
use ir_model::text_limits::TEXT_LIMIT;
use machine_devices::image::{Image, Window};
use machine_devices::tape::Tape;
use plan_board::read_board;
use plan_model::plan::Board;
use std::alloc::Global;

/// How many bytes an image, a tape or a board may have.
const FILE_LIMIT: u32 = 16_777_216;

/// The bytes of two files.
pub struct Both {
    /// Those of the first.
    pub first: Vec<u8>,
    /// Those of the second.
    pub second: Vec<u8>,
}

impl Drop for Both {
    fn drop(self) {
        let Both {
            first: _,
            second: _,
        } = self;
    }
}

/// The bytes of an image, of a tape or of a board.
pub fn load<'a, F: Files>(
    alloc: Global,
    files: &mut F,
    name: &'a str,
) -> Result<Vec<u8>, Failure<'a>>
    ensures few { IfOk result (λ bytes. length bytes.items ≤ file_limit) }
    ensures read { IfOk result (λ bytes. IsRead F.Files files.old files.new (file_origin name.now) bytes.items) }
    ensures unread { IfErr result (IsNotRead F.Files files.old files.new (file_origin name.now)) }
{
    load_within(alloc, files, name, FILE_LIMIT)
}

/// The bytes of a firmware.
pub fn load_firmware<'a, F: Files>(
    alloc: Global,
    files: &mut F,
    name: &'a str,
) -> Result<Vec<u8>, Failure<'a>>
    ensures few { IfOk result (λ bytes. length bytes.items ≤ firmware_limit) }
    ensures read { IfOk result (λ bytes. IsRead F.Files files.old files.new (firmware_origin name.now) bytes.items) }
    ensures unread { IfErr result (IsNotRead F.Files files.old files.new (firmware_origin name.now)) }
{
    load_within(alloc, files, name, TEXT_LIMIT)
}

/// The bytes of an image and of a tape.
pub fn load_both<'a, F: Files>(
    alloc: Global,
    files: &mut F,
    image: &'a str,
    tape: &'a str,
) -> Result<Both, Failure<'a>>
    ensures few { IfOk result (λ both. length both.second.items ≤ file_limit) }
    ensures read { IfOk result (λ both. AreRead F.Files files.old files.new (file_origin image.now) (file_origin tape.now) both.first.items both.second.items) }
    ensures unread { IfErr result (AreNotRead F.Files files.old files.new (file_origin image.now) (file_origin tape.now)) }
{
    load_two(alloc, files, image, FILE_LIMIT, tape, FILE_LIMIT)
}

/// The bytes of a firmware, and of a board or of a tape.
pub fn load_firmware_and<'a, F: Files>(
    alloc: Global,
    files: &mut F,
    firmware: &'a str,
    other: &'a str,
) -> Result<Both, Failure<'a>>
    ensures firmware_few { IfOk result (λ both. length both.first.items ≤ firmware_limit) }
    ensures other_few { IfOk result (λ both. length both.second.items ≤ file_limit) }
    ensures read { IfOk result (λ both. AreRead F.Files files.old files.new (firmware_origin firmware.now) (file_origin other.now) both.first.items both.second.items) }
    ensures unread { IfErr result (AreNotRead F.Files files.old files.new (firmware_origin firmware.now) (file_origin other.now)) }
{
    load_two(alloc, files, firmware, TEXT_LIMIT, other, FILE_LIMIT)
}

/// The bytes of two files, each of which may have so many, and of which the second is read behind the first.
pub fn load_two<'a, F: Files>(
    alloc: Global,
    files: &mut F,
    first: &'a str,
    first_limit: u32,
    second: &'a str,
    second_limit: u32,
) -> Result<Both, Failure<'a>>
    ensures first_few { IfOk result (λ both. length both.first.items ≤ first_limit) }
    ensures second_few { IfOk result (λ both. length both.second.items ≤ second_limit) }
    ensures read { IfOk result (λ both. AreRead F.Files files.old files.new (record { name = first.now; limit = first_limit }) (record { name = second.now; limit = second_limit }) both.first.items both.second.items) }
    ensures unread { IfErr result (AreNotRead F.Files files.old files.new (record { name = first.now; limit = first_limit }) (record { name = second.now; limit = second_limit })) }
{
    let front = load_within(alloc, files, first, first_limit)?;
    let behind = load_within(alloc, files, second, second_limit)?;
    Ok(Both {
        first: front,
        second: behind,
    })
}

/// The bytes of a file that may have so many.
fn load_within<'a, F: Files>(
    alloc: Global,
    files: &mut F,
    name: &'a str,
    limit: u32,
) -> Result<Vec<u8>, Failure<'a>>
    ensures few { IfOk result (λ bytes. length bytes.items ≤ limit) }
    ensures read { IfOk result (λ bytes. IsRead F.Files files.old files.new (record { name = name.now; limit = limit }) bytes.items) }
    ensures unread { IfErr result (IsNotRead F.Files files.old files.new (record { name = name.now; limit = limit })) }
{
    match read_whole(alloc, files, name, u64::from(limit)) {
        Ok(bytes) => Ok(bytes),
        Err(ReadRefusal::TooLong) => Err(Failure::Refused {
            name,
            fault: Fault::TooLarge { limit },
        }),
        Err(ReadRefusal::Failed) => Err(Failure::Unread { name }),
        Err(ReadRefusal::NoMemory) => Err(Failure::NoMemory),
    }
}

/// The image of which these bytes of a file are the text.
pub fn image_of<'a>(alloc: Global, name: &'a str, bytes: &[u8]) -> Result<Image, Failure<'a>>
    ensures ok { IfOk result (λ i. IsText i bytes.now) }
    ensures err { IfErr result (λ e. IsContentFailure (IsNoImage bytes.now) name.now e) }
{
    match machine_image::read(alloc, bytes) {
        Ok(image) => Ok(image),
        Err(fault) => Err(content_failure(name, Fault::Image(fault))),
    }
}

/// The tape for these windows of which the bytes of a file are the text.
pub fn tape_of<'a>(
    alloc: Global,
    name: &'a str,
    text: &[u8],
    windows: &[Window],
) -> Result<Tape, Failure<'a>>
    requires { length text.now ≤ file_limit }
    ensures faultless { OnOk result (tapes.first_fault text.now windows.now ≡ None) }
    ensures ok { IfOk result (λ tape. tape ≡ tapes.queues_of text.now windows.now) }
    ensures err { IfErr result (λ e. IsContentFailure (IsNoTape windows.now text.now) name.now e) }
{
    match Tape::read(alloc, text, windows) {
        Ok(tape) => Ok(tape),
        Err(fault) => Err(content_failure(name, Fault::Tape(fault))),
    }
}

/// The board that these bytes of a file describe.
pub fn board_of<'a>(alloc: Global, name: &'a str, text: &[u8]) -> Result<Board, Failure<'a>>
    ensures ok { IfOk result (boards.IsRead text.now) }
    ensures board { IfOk result IsBoard }
    ensures err { IfErr result (λ e. IsContentFailure (IsNoBoard text.now) name.now e) }
{
    match read_board(alloc, text) {
        Ok(board) => Ok(board),
        Err(fault) => Err(content_failure(name, Fault::Board(fault))),
    }
}
