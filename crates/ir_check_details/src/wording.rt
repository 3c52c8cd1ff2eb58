//! The words of the lines.

ghost use Rattle.std.specs.Prelude.{◌≡◌, ◌++◌, OnOk};
ghost use Rattle.std.specs.Fmt.{decimal};
ghost use Rattle.machine_lines.specs.Lines.{hexadecimal};
ghost use Rattle.ir_model.specs.Types.{type_of, result_of, Pointer};
ghost use Rattle.ir_check_details.specs.Words as words;

use ir_model::token::Mark;
use ir_model::types::Ty;
use ir_printer::tokens::put_mark;
use ir_printer::types::put_type;
use machine_lines::numbers::{decimal_digits, hexadecimal_digits};
use std::alloc::AllocError;

/// Puts these bytes behind those that are there.
pub(crate) fn put(out: &mut Vec<u8>, bytes: &[u8]) -> Result<(), AllocError>
    ensures { OnOk result (out.new.items ≡ out.old.items ++ bytes.now) }
{
    out.extend_from_slice(bytes)?;
    Ok(())
}

/// Puts the decimal digits of a number.
pub(crate) fn put_decimal(out: &mut Vec<u8>, number: u32) -> Result<(), AllocError>
    ensures { OnOk result (out.new.items ≡ out.old.items ++ decimal number) }
{
    put(out, decimal_digits(u64::from(number)).as_slice())
}

/// Puts the decimal digits of a count.
pub(crate) fn put_count(out: &mut Vec<u8>, count: usize) -> Result<(), AllocError>
    ensures { OnOk result (out.new.items ≡ out.old.items ++ decimal count) }
{
    put(out, decimal_digits(count as u64).as_slice())
}

/// Puts so many hexadecimal digits of a number.
pub(crate) fn put_hexadecimal(out: &mut Vec<u8>, count: u8, number: u32) -> Result<(), AllocError>
    ensures { OnOk result (out.new.items ≡ out.old.items ++ hexadecimal count number) }
{
    put(out, hexadecimal_digits(count, number).as_slice())
}

/// Puts the line of what was found, by its words.
pub(crate) fn put_found(out: &mut Vec<u8>, found: &[u8]) -> Result<(), AllocError>
    ensures { OnOk result (out.new.items ≡ out.old.items ++ words.found found.now) }
{
    put(out, b"found ")?;
    put(out, found)?;
    put(out, b"\n")
}

/// Puts the line of a name that was found with its type.
pub(crate) fn put_found_typed(out: &mut Vec<u8>, name: &[u8], ty: &Ty) -> Result<(), AllocError>
    ensures { OnOk result (out.new.items ≡ out.old.items ++ words.found_typed name.now (type_of ty.now)) }
{
    put(out, b"found ")?;
    put(out, name)?;
    put(out, b":")?;
    put_type(out, ty)?;
    put(out, b"\n")
}

/// Puts the line of a number of bytes that was found.
pub(crate) fn put_found_bytes(out: &mut Vec<u8>, bytes: u32) -> Result<(), AllocError>
    ensures { OnOk result (out.new.items ≡ out.old.items ++ words.found_bytes bytes) }
{
    put(out, b"found ")?;
    put_decimal(out, bytes)?;
    put(out, b" bytes")?;
    put(out, b"\n")
}

/// Puts the line of what was expected, by its words.
pub(crate) fn put_expected(out: &mut Vec<u8>, expected: &[u8]) -> Result<(), AllocError>
    ensures { OnOk result (out.new.items ≡ out.old.items ++ words.expected expected.now) }
{
    put(out, b"expected ")?;
    put(out, expected)?;
    put(out, b"\n")
}

/// Puts the line of a type that was expected.
pub(crate) fn put_expected_type(out: &mut Vec<u8>, ty: &Ty) -> Result<(), AllocError>
    ensures { OnOk result (out.new.items ≡ out.old.items ++ words.expected_type (type_of ty.now)) }
{
    put(out, b"expected")?;
    put_type(out, ty)?;
    put(out, b"\n")
}

/// Puts the line that a pointer to a type was expected.
pub(crate) fn put_expected_pointer(out: &mut Vec<u8>, target: &Ty) -> Result<(), AllocError>
    ensures { OnOk result (out.new.items ≡ out.old.items ++ words.expected_type (Pointer (type_of target.now))) }
{
    put(out, b"expected")?;
    put_mark(out, Mark::Star)?;
    put_type(out, target)?;
    put(out, b"\n")
}

/// Puts the line of a result that was expected, or that none was.
pub(crate) fn put_expected_result(out: &mut Vec<u8>, outcome: &Option<Ty>) -> Result<(), AllocError>
    ensures { OnOk result (out.new.items ≡ out.old.items ++ words.expected_result (result_of outcome.now)) }
{
    match outcome {
        None => put_expected(out, b"nothing"),
        Some(ty) => put_expected_type(out, ty),
    }
}
