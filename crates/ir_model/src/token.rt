//! The words and marks of a firmware text that are no names, and the limits that a text keeps.

/// A reserved word that is neither an operation nor a comparison.
#[derive(Clone, Copy)]
pub enum Keyword {
    /// `struct`
    Struct,
    /// `periph`
    Periph,
    /// `const`
    Const,
    /// `global`
    Global,
    /// `file`
    File,
    /// `func`
    Func,
    /// `local`
    Local,
    /// `reg`
    Reg,
    /// `addr`
    Addr,
    /// `faddr`
    Faddr,
    /// `elem`
    Elem,
    /// `field`
    Field,
    /// `load`
    Load,
    /// `store`
    Store,
    /// `call`
    Call,
    /// `icall`
    Icall,
    /// `jump`
    Jump,
    /// `branch`
    Branch,
    /// `ret`
    Ret,
    /// `fn`
    Fn,
    /// `u8`
    U8,
    /// `u16`
    U16,
    /// `u32`
    U32,
}

/// A mark.
#[derive(Clone, Copy)]
pub enum Mark {
    /// `{`
    OpenBrace,
    /// `}`
    CloseBrace,
    /// `(`
    Open,
    /// `)`
    Close,
    /// `[`
    OpenSquare,
    /// `]`
    CloseSquare,
    /// `,`
    Comma,
    /// `:`
    Colon,
    /// `=`
    Equal,
    /// `*`
    Star,
    /// `->`
    Arrow,
}

/// A place in a text.
#[derive(Clone, Copy, Debug)]
pub struct Pos {
    /// The line, from 1.
    pub line: u32,
    /// The column in bytes, from 1.
    pub col: u32,
}

/// What a firmware text may not have too much of.
#[derive(Clone, Copy, Debug)]
pub enum TextLimit {
    /// More than 64 bytes of a word.
    Name,
    /// More than 256 structs.
    Struct,
    /// More than 64 fields of a struct.
    Field,
    /// A type in more than 7 others.
    Depth,
    /// An array's length outside 1 to 65,536.
    Array,
    /// More than 65,536 cells of a global.
    Cell,
    /// More than 64 peripherals.
    Periph,
    /// More than 1,024 globals.
    Global,
    /// More than 1,024 files.
    File,
    /// More than 1,024 functions, over all files.
    Function,
    /// More than 4 parameters, arguments, or types between the brackets of `fn`.
    Param,
    /// More than 120 registers of a function, together with its parameters.
    Register,
    /// More than 64 locals of a function.
    Local,
    /// More than 1,024 blocks of a function.
    Block,
    /// More than 16,384 instructions of a function.
    Instruction,
}

/// Why a text is refused at a token that may stand in its place.
#[derive(Clone, Copy)]
pub enum Excess {
    /// A number greater than 2^32 - 1, or less than -2^31.
    TooWide,
    /// More than a limit allows.
    Passes(TextLimit),
}
