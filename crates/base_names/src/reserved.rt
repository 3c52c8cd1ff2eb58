//! The reserved words of the firmware language. Each is spelled here alone: the definitions and the code that reads
//! and prints cite these constants.

// The words that open a declaration.

/// Opens a struct.
pub const STRUCT: &[u8] = b"struct";
/// Opens a peripheral.
pub const PERIPH: &[u8] = b"periph";
/// Opens a global that is never written.
pub const CONST: &[u8] = b"const";
/// Opens a global that may be written.
pub const GLOBAL: &[u8] = b"global";
/// Opens a file.
pub const FILE: &[u8] = b"file";
/// Opens a function.
pub const FUNC: &[u8] = b"func";
/// Opens a local.
pub const LOCAL: &[u8] = b"local";
/// Opens a register.
pub const REG: &[u8] = b"reg";

// The words that open an instruction or stand in one.

/// A pointer to a local, a global or a peripheral.
pub const ADDR: &[u8] = b"addr";
/// A function as a value.
pub const FADDR: &[u8] = b"faddr";
/// A pointer to an element.
pub const ELEM: &[u8] = b"elem";
/// A pointer to a field.
pub const FIELD: &[u8] = b"field";
/// The value of a cell.
pub const LOAD: &[u8] = b"load";
/// Writes a cell.
pub const STORE: &[u8] = b"store";
/// Calls a function by its name.
pub const CALL: &[u8] = b"call";
/// Calls the function in a register.
pub const ICALL: &[u8] = b"icall";
/// Ends a block: goes to another.
pub const JUMP: &[u8] = b"jump";
/// Ends a block: goes to one of two.
pub const BRANCH: &[u8] = b"branch";
/// Ends a block: returns.
pub const RET: &[u8] = b"ret";

// The words that open a type.

/// Opens the type of a function.
pub const FN: &[u8] = b"fn";
/// Numbers of 8 bits.
pub const U8: &[u8] = b"u8";
/// Numbers of 16 bits.
pub const U16: &[u8] = b"u16";
/// Numbers of 32 bits.
pub const U32: &[u8] = b"u32";

// The words of the operations.

/// The sum.
pub const ADD: &[u8] = b"add";
/// The difference.
pub const SUB: &[u8] = b"sub";
/// The product.
pub const MUL: &[u8] = b"mul";
/// The unsigned quotient.
pub const UDIV: &[u8] = b"udiv";
/// The signed quotient.
pub const SDIV: &[u8] = b"sdiv";
/// What the unsigned quotient leaves.
pub const UREM: &[u8] = b"urem";
/// What the signed quotient leaves.
pub const SREM: &[u8] = b"srem";
/// Bits of both.
pub const AND: &[u8] = b"and";
/// Bits of either.
pub const OR: &[u8] = b"or";
/// Bits of one alone.
pub const XOR: &[u8] = b"xor";
/// Bits of the first that are not in the second.
pub const BIC: &[u8] = b"bic";
/// The first shifted left.
pub const SHL: &[u8] = b"shl";
/// The first shifted right, with zeros before it.
pub const SHR: &[u8] = b"shr";
/// The first shifted right, with its sign before it.
pub const SAR: &[u8] = b"sar";

// The words of the comparisons.

/// Equal.
pub const EQ: &[u8] = b"eq";
/// Not equal.
pub const NE: &[u8] = b"ne";
/// Less, unsigned.
pub const ULT: &[u8] = b"ult";
/// Less or equal, unsigned.
pub const ULE: &[u8] = b"ule";
/// Less, signed.
pub const SLT: &[u8] = b"slt";
/// Less or equal, signed.
pub const SLE: &[u8] = b"sle";

/// The words that open a declaration.
pub const DECLARATION_WORDS: [&[u8]; 8] = [STRUCT, PERIPH, CONST, GLOBAL, FILE, FUNC, LOCAL, REG];

/// The words that open an instruction or stand in one.
pub const INSTRUCTION_WORDS: [&[u8]; 11] = [
    ADDR, FADDR, ELEM, FIELD, LOAD, STORE, CALL, ICALL, JUMP, BRANCH, RET,
];

/// The words that open a type.
pub const TYPE_WORDS: [&[u8]; 4] = [FN, U8, U16, U32];

/// The words of the operations.
pub const OPERATION_WORDS: [&[u8]; 14] = [
    ADD, SUB, MUL, UDIV, SDIV, UREM, SREM, AND, OR, XOR, BIC, SHL, SHR, SAR,
];

/// The words of the comparisons.
pub const COMPARISON_WORDS: [&[u8]; 6] = [EQ, NE, ULT, ULE, SLT, SLE];
