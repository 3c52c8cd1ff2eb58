//! What is expected where a token passes a limit.

ghost use Rattle.std.specs.Prelude.{◌≡◌, ◌++◌, OnOk};
ghost use Rattle.aces_explain.specs.Expected as expected;

use ir_model::text_limits::{
    ARRAY_LIMIT, BLOCK_LIMIT, CELL_LIMIT, DEPTH_LIMIT, FIELD_LIMIT, FILE_LIMIT, FUNCTION_LIMIT,
    GLOBAL_LIMIT, INSTRUCTION_LIMIT, LOCAL_LIMIT, PARAMETER_LIMIT, PERIPH_LIMIT, REGISTER_LIMIT,
    STRUCT_LIMIT, WORD_LIMIT,
};
use ir_model::token::{Excess, TextLimit};
use plan_report::text::Text;
use std::alloc::AllocError;

/// How much a limit allows.
fn most(which: TextLimit) -> u64
    ensures { result ≡ expected.most which }
{
    match which {
        TextLimit::Name => WORD_LIMIT as u64,
        TextLimit::Struct => STRUCT_LIMIT as u64,
        TextLimit::Field => FIELD_LIMIT as u64,
        TextLimit::Depth => u64::from(DEPTH_LIMIT),
        TextLimit::Array => ARRAY_LIMIT,
        TextLimit::Cell => CELL_LIMIT as u64,
        TextLimit::Periph => PERIPH_LIMIT as u64,
        TextLimit::Global => GLOBAL_LIMIT as u64,
        TextLimit::File => FILE_LIMIT as u64,
        TextLimit::Function => FUNCTION_LIMIT as u64,
        TextLimit::Param => PARAMETER_LIMIT as u64,
        TextLimit::Register => REGISTER_LIMIT as u64,
        TextLimit::Local => LOCAL_LIMIT as u64,
        TextLimit::Block => BLOCK_LIMIT as u64,
        TextLimit::Instruction => INSTRUCTION_LIMIT as u64,
    }
}

/// The words before a limit.
fn from(which: TextLimit) -> &'static [u8]
    ensures { result.now ≡ expected.from which }
{
    match which {
        TextLimit::Array => b"from 1 to ",
        TextLimit::Name
        | TextLimit::Struct
        | TextLimit::Field
        | TextLimit::Depth
        | TextLimit::Cell
        | TextLimit::Periph
        | TextLimit::Global
        | TextLimit::File
        | TextLimit::Function
        | TextLimit::Param
        | TextLimit::Register
        | TextLimit::Local
        | TextLimit::Block
        | TextLimit::Instruction => b"at most ",
    }
}

/// The word behind a limit.
fn things(which: TextLimit) -> &'static [u8]
    ensures { result.now ≡ expected.things which }
{
    match which {
        TextLimit::Name => b" bytes",
        TextLimit::Struct => b" structs",
        TextLimit::Field => b" fields",
        TextLimit::Depth => b" types, each in the one before",
        TextLimit::Array => b" elements",
        TextLimit::Cell => b" first values",
        TextLimit::Periph => b" peripherals",
        TextLimit::Global => b" globals",
        TextLimit::File => b" files",
        TextLimit::Function => b" functions",
        TextLimit::Param => b" parameters, arguments or types",
        TextLimit::Register => b" registers, parameters counted",
        TextLimit::Local => b" locals",
        TextLimit::Block => b" blocks",
        TextLimit::Instruction => b" instructions",
    }
}

/// Puts how much a limit allows.
fn put_most(text: &mut Text, which: TextLimit) -> Result<(), AllocError>
    ensures { OnOk result (text.new ≡ text.old ++ expected.excess_expected (Excess.Passes which)) }
{
    text.put(from(which))?;
    text.put_decimal(most(which))?;
    text.put(things(which))
}

/// Puts what is expected where a token passes this.
fn put_excess(text: &mut Text, excess: Excess) -> Result<(), AllocError>
    ensures { OnOk result (text.new ≡ text.old ++ expected.excess_expected excess) }
{
    match excess {
        Excess::TooWide => text.put(b"from -2147483648 to 4294967295"),
        Excess::Passes(which) => put_most(text, which),
    }
}

/// Puts the line `expected`.
///
/// # Errors
///
/// There is no memory for it.
pub(crate) fn put_expected(text: &mut Text, excess: Excess) -> Result<(), AllocError>
    ensures { OnOk result (text.new ≡ text.old ++ expected.expected_line excess) }
{
    text.put(b"expected ")?;
    put_excess(text, excess)?;
    text.put(b"\n")
}
