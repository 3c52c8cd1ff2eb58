//! The reserved words and the marks, and how each is spelled.

ghost use Rattle.std.specs.Prelude.{◌≡◌};
ghost use Rattle.ir_model.specs.Tokens.{keyword_bytes, mark_bytes, operation_bytes, comparison_bytes};

use base_names::reserved;
use ir_model::firmware::{BinOp, CmpOp};
use ir_model::token::{Keyword, Mark};

/// Every keyword.
pub const KEYWORDS: [Keyword; 23] = [
    Keyword::Struct,
    Keyword::Periph,
    Keyword::Const,
    Keyword::Global,
    Keyword::File,
    Keyword::Func,
    Keyword::Local,
    Keyword::Reg,
    Keyword::Addr,
    Keyword::Faddr,
    Keyword::Elem,
    Keyword::Field,
    Keyword::Load,
    Keyword::Store,
    Keyword::Call,
    Keyword::Icall,
    Keyword::Jump,
    Keyword::Branch,
    Keyword::Ret,
    Keyword::Fn,
    Keyword::U8,
    Keyword::U16,
    Keyword::U32,
];

/// Every operation.
pub const OPERATIONS: [BinOp; 14] = [
    BinOp::Add,
    BinOp::Sub,
    BinOp::Mul,
    BinOp::Udiv,
    BinOp::Sdiv,
    BinOp::Urem,
    BinOp::Srem,
    BinOp::And,
    BinOp::Or,
    BinOp::Xor,
    BinOp::Bic,
    BinOp::Shl,
    BinOp::Shr,
    BinOp::Sar,
];

/// Every comparison.
pub const COMPARISONS: [CmpOp; 6] = [
    CmpOp::Eq,
    CmpOp::Ne,
    CmpOp::Ult,
    CmpOp::Ule,
    CmpOp::Slt,
    CmpOp::Sle,
];

/// The spelling of a keyword.
pub fn keyword_text(keyword: Keyword) -> &'static [u8]
    ensures { result.now ≡ keyword_bytes keyword }
{
    match keyword {
        Keyword::Struct => reserved::STRUCT,
        Keyword::Periph => reserved::PERIPH,
        Keyword::Const => reserved::CONST,
        Keyword::Global => reserved::GLOBAL,
        Keyword::File => reserved::FILE,
        Keyword::Func => reserved::FUNC,
        Keyword::Local => reserved::LOCAL,
        Keyword::Reg => reserved::REG,
        Keyword::Addr => reserved::ADDR,
        Keyword::Faddr => reserved::FADDR,
        Keyword::Elem => reserved::ELEM,
        Keyword::Field => reserved::FIELD,
        Keyword::Load => reserved::LOAD,
        Keyword::Store => reserved::STORE,
        Keyword::Call => reserved::CALL,
        Keyword::Icall => reserved::ICALL,
        Keyword::Jump => reserved::JUMP,
        Keyword::Branch => reserved::BRANCH,
        Keyword::Ret => reserved::RET,
        Keyword::Fn => reserved::FN,
        Keyword::U8 => reserved::U8,
        Keyword::U16 => reserved::U16,
        Keyword::U32 => reserved::U32,
    }
}

/// The spelling of a mark.
pub fn mark_text(mark: Mark) -> &'static [u8]
    ensures { result.now ≡ mark_bytes mark }
{
    match mark {
        Mark::OpenBrace => b"{",
        Mark::CloseBrace => b"}",
        Mark::Open => b"(",
        Mark::Close => b")",
        Mark::OpenSquare => b"[",
        Mark::CloseSquare => b"]",
        Mark::Comma => b",",
        Mark::Colon => b":",
        Mark::Equal => b"=",
        Mark::Star => b"*",
        Mark::Arrow => b"->",
    }
}

/// The spelling of an operation.
pub fn operation_text(op: BinOp) -> &'static [u8]
    ensures { result.now ≡ operation_bytes op }
{
    match op {
        BinOp::Add => reserved::ADD,
        BinOp::Sub => reserved::SUB,
        BinOp::Mul => reserved::MUL,
        BinOp::Udiv => reserved::UDIV,
        BinOp::Sdiv => reserved::SDIV,
        BinOp::Urem => reserved::UREM,
        BinOp::Srem => reserved::SREM,
        BinOp::And => reserved::AND,
        BinOp::Or => reserved::OR,
        BinOp::Xor => reserved::XOR,
        BinOp::Bic => reserved::BIC,
        BinOp::Shl => reserved::SHL,
        BinOp::Shr => reserved::SHR,
        BinOp::Sar => reserved::SAR,
    }
}

/// The spelling of a comparison.
pub fn comparison_text(op: CmpOp) -> &'static [u8]
    ensures { result.now ≡ comparison_bytes op }
{
    match op {
        CmpOp::Eq => reserved::EQ,
        CmpOp::Ne => reserved::NE,
        CmpOp::Ult => reserved::ULT,
        CmpOp::Ule => reserved::ULE,
        CmpOp::Slt => reserved::SLT,
        CmpOp::Sle => reserved::SLE,
    }
}
