//! The rule behind each fault.

ghost use Rattle.std.specs.Prelude.{◌≡◌};
ghost use Rattle.aces_explain.specs.RuleTexts as rules;

use ir_model::check::{CheckKind, CheckPlace};
use ir_model::token::{Excess, TextLimit};

/// The rule of UTF-8.
pub(crate) fn utf8_rule() -> &'static [u8]
    ensures { result.now ≡ rules.utf8_rule }
{
    b"a text is UTF-8, and letters beyond ASCII stand in comments alone"
}

/// The syntax rule.
pub(crate) fn syntax_rule() -> &'static [u8]
    ensures { result.now ≡ rules.syntax_rule }
{
    b"a text has structs, peripherals, globals and files in this order, and each token where the grammar has it"
}

/// A limit's rule.
fn limit_rule(which: TextLimit) -> &'static [u8]
    ensures { result.now ≡ rules.limit_rule which }
{
    match which {
        TextLimit::Name => b"a word has at most 64 bytes",
        TextLimit::Struct => b"a text has at most 256 structs",
        TextLimit::Field => b"a struct has at most 64 fields",
        TextLimit::Depth => b"a type stands in at most 7 others, each in the one before",
        TextLimit::Array => b"an array has from 1 to 65536 elements",
        TextLimit::Cell => b"a global has at most 65536 first values",
        TextLimit::Periph => b"a text has at most 64 peripherals",
        TextLimit::Global => b"a text has at most 1024 globals",
        TextLimit::File => b"a text has at most 1024 files",
        TextLimit::Function => b"the files of a text have at most 1024 functions, all together",
        TextLimit::Param => {
            b"a function has at most 4 parameters, a call 4 arguments, and fn 4 types between its brackets"
        }
        TextLimit::Register => b"a function has at most 120 registers, its parameters counted",
        TextLimit::Local => b"a function has at most 64 locals",
        TextLimit::Block => b"a function has at most 1024 blocks",
        TextLimit::Instruction => {
            b"a function has at most 16384 instructions, ends of blocks not counted"
        }
    }
}

/// The rule of an excess.
pub(crate) fn excess_rule(excess: Excess) -> &'static [u8]
    ensures { result.now ≡ rules.excess_rule excess }
{
    match excess {
        Excess::TooWide => b"a number is from -2147483648 to 4294967295",
        Excess::Passes(which) => limit_rule(which),
    }
}

/// The rule of a missing name, by the place.
fn unknown_rule(place: &CheckPlace) -> &'static [u8]
    ensures { result.now ≡ rules.unknown_rule place.now }
{
    match place {
        CheckPlace::Struct(_) => {
            b"a struct in a type is declared, and earlier where it stands behind no * and in no fn"
        }
        CheckPlace::Global(_) => {
            b"a struct in a type is declared, addr has a global or a peripheral, and fn a function"
        }
        CheckPlace::Func(_) => b"a struct in a type is declared",
        CheckPlace::Inst { .. } => {
            b"registers and labels are those of the function, addr has a local, a peripheral or a global, and call and faddr have a function"
        }
        CheckPlace::Periph(_) | CheckPlace::File(_) | CheckPlace::Whole => b"a name is declared",
    }
}

/// The rule of a repeated name, by the place.
fn twice_rule(place: &CheckPlace) -> &'static [u8]
    ensures { result.now ≡ rules.twice_rule place.now }
{
    match place {
        CheckPlace::Struct(_) =>
            b"the names of structs differ, and those of the fields of a struct",
        CheckPlace::Periph(_) | CheckPlace::Global(_) => {
            b"the names of peripherals, globals and functions differ, all together"
        }
        CheckPlace::File(_) => b"the names of files differ",
        CheckPlace::Func(_) => {
            b"the names of peripherals, globals and functions differ, all together; in a function those of parameters, locals and registers, all together, and those of labels"
        }
        CheckPlace::Inst { .. } | CheckPlace::Whole => b"names differ",
    }
}

/// The rule of ill-typed items, by the place.
fn type_rule(place: &CheckPlace) -> &'static [u8]
    ensures { result.now ≡ rules.type_rule place.now }
{
    match place {
        CheckPlace::Func(_) => {
            b"the type of a parameter, a result or a register is u32, a pointer or a function"
        }
        CheckPlace::Inst { .. } => {
            b"operands and results have the types that the instruction asks for"
        }
        CheckPlace::Struct(_)
        | CheckPlace::Periph(_)
        | CheckPlace::Global(_)
        | CheckPlace::File(_)
        | CheckPlace::Whole => { b"types fit" }
    }
}

/// The rule of a check that fails.
pub(crate) fn check_rule(kind: &CheckKind, place: &CheckPlace) -> &'static [u8]
    ensures { result.now ≡ rules.check_rule kind.now place.now }
{
    match kind {
        CheckKind::Unknown(_) => unknown_rule(place),
        CheckKind::Twice(_) => twice_rule(place),
        CheckKind::IllTyped => type_rule(place),
        CheckKind::NoMain => {
            b"one function is called main, and it has no parameter and no result"
        }
        CheckKind::BadWindow => {
            b"a peripheral's size is a power of two from 32 to 65536, and its base a multiple of it from 0x40000000 to 0x5fffffff"
        }
        CheckKind::WindowOverlap => b"two peripherals have no address in common",
        CheckKind::BadInit => {
            b"a global has no more first values than cells, and each fits its cell: a number its width, addr and fn its type"
        }
        CheckKind::ObjectTooLarge =>
            b"a struct, a global and a local have at most 65536 bytes each",
        CheckKind::FrameTooLarge { .. } => {
            b"a frame has at most 992 bytes: 4 for each parameter, each register and the return address, and the locals, each in whole words, rounded up to a multiple of 8"
        }
    }
}
