//! The grammar of a firmware's text, as a table: with what each part of it may begin, and what is expected behind that.

ghost use Rattle.std.specs.Prelude.{◌≡◌};
ghost use Rattle.ir_expected_tokens.specs.Grammar as table;

use ir_grammar::vocabulary::{keyword_text, mark_text};
use ir_model::token::{Keyword, Mark};

/// Tokens that the grammar does not tell apart, or the end of the text.
#[derive(Clone, Copy)]
pub enum Class {
    /// A word that is not reserved.
    Name,
    /// A number.
    Number,
    /// The word of an operation.
    Operation,
    /// The word of a comparison.
    Comparison,
    /// Another reserved word.
    Key(Keyword),
    /// A mark.
    Mark(Mark),
    /// The end of the text.
    End,
}

/// A part of the grammar.
#[derive(Clone, Copy)]
pub enum Part {
    /// Structs.
    Structs,
    /// The fields of a struct behind its first.
    MoreFields,
    /// Peripherals.
    Periphs,
    /// Globals.
    Globals,
    /// The first values of a global.
    Init,
    /// A first value of a global.
    Cell,
    /// The first values behind the first.
    MoreCells,
    /// Files.
    Files,
    /// The functions of a file.
    Funcs,
    /// The parameters of a function.
    Params,
    /// The parameters behind the first.
    MoreParams,
    /// What a function gives.
    Gives,
    /// The locals of a function.
    Locals,
    /// The registers of a function.
    Regs,
    /// The first block of a function.
    Block,
    /// The blocks behind the first.
    Blocks,
    /// The instructions of a block.
    Insts,
    /// The end of a block.
    BlockEnd,
    /// The register that `ret` gives. It has no row of its own: the colon tells it from the label of the next block.
    Result,
    /// What a register gets.
    Value,
    /// The arguments of a call.
    Args,
    /// The arguments behind the first.
    MoreArgs,
    /// A type.
    Type,
    /// The types of the parameters of a function.
    Types,
    /// The types behind the first.
    MoreTypes,
}

/// What may be expected: a token, or a part of the grammar.
#[derive(Clone, Copy)]
pub enum Symbol {
    /// A token of this class.
    Token(Class),
    /// A part.
    Part(Part),
}

/// A token with which a part may begin, and what is expected behind it, in order.
pub type Row = (Class, &'static [Symbol]);

const NAME: Symbol = Symbol::Token(Class::Name);

const NUMBER: Symbol = Symbol::Token(Class::Number);

const GLOBAL: Symbol = Symbol::Token(Class::Key(Keyword::Global));

const OPEN_BRACE: Symbol = Symbol::Token(Class::Mark(Mark::OpenBrace));

const CLOSE_BRACE: Symbol = Symbol::Token(Class::Mark(Mark::CloseBrace));

const OPEN: Symbol = Symbol::Token(Class::Mark(Mark::Open));

const CLOSE: Symbol = Symbol::Token(Class::Mark(Mark::Close));

const CLOSE_SQUARE: Symbol = Symbol::Token(Class::Mark(Mark::CloseSquare));

const COMMA: Symbol = Symbol::Token(Class::Mark(Mark::Comma));

const COLON: Symbol = Symbol::Token(Class::Mark(Mark::Colon));

const EQUAL: Symbol = Symbol::Token(Class::Mark(Mark::Equal));

const STRUCTS: Symbol = Symbol::Part(Part::Structs);

const MORE_FIELDS: Symbol = Symbol::Part(Part::MoreFields);

const PERIPHS: Symbol = Symbol::Part(Part::Periphs);

const GLOBALS: Symbol = Symbol::Part(Part::Globals);

const INIT: Symbol = Symbol::Part(Part::Init);

const CELL: Symbol = Symbol::Part(Part::Cell);

const MORE_CELLS: Symbol = Symbol::Part(Part::MoreCells);

const FILES: Symbol = Symbol::Part(Part::Files);

const FUNCS: Symbol = Symbol::Part(Part::Funcs);

const PARAMS: Symbol = Symbol::Part(Part::Params);

const MORE_PARAMS: Symbol = Symbol::Part(Part::MoreParams);

const GIVES: Symbol = Symbol::Part(Part::Gives);

const LOCALS: Symbol = Symbol::Part(Part::Locals);

const REGS: Symbol = Symbol::Part(Part::Regs);

const BLOCK: Symbol = Symbol::Part(Part::Block);

const BLOCKS: Symbol = Symbol::Part(Part::Blocks);

const INSTS: Symbol = Symbol::Part(Part::Insts);

const BLOCK_END: Symbol = Symbol::Part(Part::BlockEnd);

const RESULT: Symbol = Symbol::Part(Part::Result);

const VALUE: Symbol = Symbol::Part(Part::Value);

const ARGS: Symbol = Symbol::Part(Part::Args);

const MORE_ARGS: Symbol = Symbol::Part(Part::MoreArgs);

const TYPE: Symbol = Symbol::Part(Part::Type);

const TYPES: Symbol = Symbol::Part(Part::Types);

const MORE_TYPES: Symbol = Symbol::Part(Part::MoreTypes);

/// What is expected where a text begins.
pub const START: &[Symbol] = &[STRUCTS, PERIPHS, GLOBALS, FILES, Symbol::Token(Class::End)];

/// The rows of `Structs`.
pub const STRUCTS_ROWS: &[Row] = &[(
    Class::Key(Keyword::Struct),
    &[
        NAME,
        OPEN_BRACE,
        NAME,
        COLON,
        TYPE,
        MORE_FIELDS,
        CLOSE_BRACE,
        STRUCTS,
    ],
)];

/// The rows of `MoreFields`.
pub const MORE_FIELDS_ROWS: &[Row] = &[(
    Class::Mark(Mark::Comma),
    &[NAME, COLON, TYPE, MORE_FIELDS],
)];

/// The rows of `Periphs`.
pub const PERIPHS_ROWS: &[Row] = &[(
    Class::Key(Keyword::Periph),
    &[NAME, NUMBER, NUMBER, PERIPHS],
)];

/// The rows of `Globals`.
pub const GLOBALS_ROWS: &[Row] = &[
    (
        Class::Key(Keyword::Const),
        &[GLOBAL, NAME, COLON, TYPE, INIT, GLOBALS],
    ),
    (
        Class::Key(Keyword::Global),
        &[NAME, COLON, TYPE, INIT, GLOBALS],
    ),
];

/// The rows of `Init`.
pub const INIT_ROWS: &[Row] = &[(
    Class::Mark(Mark::Equal),
    &[OPEN_BRACE, CELL, MORE_CELLS, CLOSE_BRACE],
)];

/// The rows of `Cell`.
pub const CELL_ROWS: &[Row] = &[
    (Class::Number, &[]),
    (Class::Key(Keyword::Fn), &[NAME]),
    (Class::Key(Keyword::Addr), &[NAME]),
];

/// The rows of `MoreCells`.
pub const MORE_CELLS_ROWS: &[Row] = &[(Class::Mark(Mark::Comma), &[CELL, MORE_CELLS])];

/// The rows of `Files`.
pub const FILES_ROWS: &[Row] = &[(
    Class::Key(Keyword::File),
    &[NAME, OPEN_BRACE, FUNCS, CLOSE_BRACE, FILES],
)];

/// The rows of `Funcs`.
pub const FUNCS_ROWS: &[Row] = &[(
    Class::Key(Keyword::Func),
    &[
        NAME,
        OPEN,
        PARAMS,
        CLOSE,
        GIVES,
        OPEN_BRACE,
        LOCALS,
        REGS,
        BLOCK,
        BLOCKS,
        CLOSE_BRACE,
        FUNCS,
    ],
)];

/// The rows of `Params`.
pub const PARAMS_ROWS: &[Row] = &[(Class::Name, &[COLON, TYPE, MORE_PARAMS])];

/// The rows of `MoreParams`.
pub const MORE_PARAMS_ROWS: &[Row] = &[(
    Class::Mark(Mark::Comma),
    &[NAME, COLON, TYPE, MORE_PARAMS],
)];

/// The rows of `Gives`.
pub const GIVES_ROWS: &[Row] = &[(Class::Mark(Mark::Arrow), &[TYPE])];

/// The rows of `Locals`.
pub const LOCALS_ROWS: &[Row] = &[(Class::Key(Keyword::Local), &[NAME, COLON, TYPE, LOCALS])];

/// The rows of `Regs`.
pub const REGS_ROWS: &[Row] = &[(Class::Key(Keyword::Reg), &[NAME, COLON, TYPE, REGS])];

/// The rows of `Block`.
pub const BLOCK_ROWS: &[Row] = &[(Class::Name, &[COLON, INSTS, BLOCK_END])];

/// The rows of `Blocks`.
pub const BLOCKS_ROWS: &[Row] = &[(Class::Name, &[COLON, INSTS, BLOCK_END, BLOCKS])];

/// The rows of `Insts`.
pub const INSTS_ROWS: &[Row] = &[
    (Class::Name, &[EQUAL, VALUE, INSTS]),
    (Class::Key(Keyword::Store), &[NAME, COMMA, NAME, INSTS]),
    (Class::Key(Keyword::Call), &[NAME, OPEN, ARGS, CLOSE, INSTS]),
    (
        Class::Key(Keyword::Icall),
        &[NAME, OPEN, ARGS, CLOSE, INSTS],
    ),
];

/// The rows of `BlockEnd`.
pub const BLOCK_END_ROWS: &[Row] = &[
    (Class::Key(Keyword::Jump), &[NAME]),
    (Class::Key(Keyword::Branch), &[NAME, NAME, NAME]),
    (Class::Key(Keyword::Ret), &[RESULT]),
];

/// The rows of `Result`.
pub const RESULT_ROWS: &[Row] = &[];

/// The rows of `Value`.
pub const VALUE_ROWS: &[Row] = &[
    (Class::Number, &[]),
    (Class::Name, &[]),
    (Class::Operation, &[NAME, COMMA, NAME]),
    (Class::Comparison, &[NAME, COMMA, NAME]),
    (Class::Key(Keyword::Addr), &[NAME]),
    (Class::Key(Keyword::Faddr), &[NAME]),
    (Class::Key(Keyword::Elem), &[NAME, COMMA, NAME]),
    (Class::Key(Keyword::Field), &[NAME, COMMA, NAME]),
    (Class::Key(Keyword::Load), &[NAME]),
    (Class::Key(Keyword::Call), &[NAME, OPEN, ARGS, CLOSE]),
    (Class::Key(Keyword::Icall), &[NAME, OPEN, ARGS, CLOSE]),
];

/// The rows of `Args`.
pub const ARGS_ROWS: &[Row] = &[(Class::Name, &[MORE_ARGS])];

/// The rows of `MoreArgs`.
pub const MORE_ARGS_ROWS: &[Row] = &[(Class::Mark(Mark::Comma), &[NAME, MORE_ARGS])];

/// The rows of `Type`.
pub const TYPE_ROWS: &[Row] = &[
    (Class::Key(Keyword::U8), &[]),
    (Class::Key(Keyword::U16), &[]),
    (Class::Key(Keyword::U32), &[]),
    (Class::Mark(Mark::Star), &[TYPE]),
    (Class::Mark(Mark::OpenSquare), &[NUMBER, CLOSE_SQUARE, TYPE]),
    (Class::Name, &[]),
    (Class::Key(Keyword::Fn), &[OPEN, TYPES, CLOSE, GIVES]),
];

/// The rows of `Types`.
pub const TYPES_ROWS: &[Row] = &[
    (Class::Key(Keyword::U8), &[MORE_TYPES]),
    (Class::Key(Keyword::U16), &[MORE_TYPES]),
    (Class::Key(Keyword::U32), &[MORE_TYPES]),
    (Class::Mark(Mark::Star), &[TYPE, MORE_TYPES]),
    (
        Class::Mark(Mark::OpenSquare),
        &[NUMBER, CLOSE_SQUARE, TYPE, MORE_TYPES],
    ),
    (Class::Name, &[MORE_TYPES]),
    (
        Class::Key(Keyword::Fn),
        &[OPEN, TYPES, CLOSE, GIVES, MORE_TYPES],
    ),
];

/// The rows of `MoreTypes`.
pub const MORE_TYPES_ROWS: &[Row] = &[(Class::Mark(Mark::Comma), &[TYPE, MORE_TYPES])];

/// The rows of a part: with what it may begin, in the order of the grammar.
pub fn rows(part: Part) -> &'static [Row]
    ensures { table.listed (λ more. more.now) result.now ≡ table.rows part }
{
    match part {
        Part::Structs => STRUCTS_ROWS,
        Part::MoreFields => MORE_FIELDS_ROWS,
        Part::Periphs => PERIPHS_ROWS,
        Part::Globals => GLOBALS_ROWS,
        Part::Init => INIT_ROWS,
        Part::Cell => CELL_ROWS,
        Part::MoreCells => MORE_CELLS_ROWS,
        Part::Files => FILES_ROWS,
        Part::Funcs => FUNCS_ROWS,
        Part::Params => PARAMS_ROWS,
        Part::MoreParams => MORE_PARAMS_ROWS,
        Part::Gives => GIVES_ROWS,
        Part::Locals => LOCALS_ROWS,
        Part::Regs => REGS_ROWS,
        Part::Block => BLOCK_ROWS,
        Part::Blocks => BLOCKS_ROWS,
        Part::Insts => INSTS_ROWS,
        Part::BlockEnd => BLOCK_END_ROWS,
        Part::Result => RESULT_ROWS,
        Part::Value => VALUE_ROWS,
        Part::Args => ARGS_ROWS,
        Part::MoreArgs => MORE_ARGS_ROWS,
        Part::Type => TYPE_ROWS,
        Part::Types => TYPES_ROWS,
        Part::MoreTypes => MORE_TYPES_ROWS,
    }
}

/// Whether a part may be missing.
pub fn may_be_missing(part: Part) -> bool
    ensures { result ≡ table.may_be_missing part }
{
    match part {
        Part::Cell | Part::Block | Part::BlockEnd | Part::Value | Part::Type => false,
        Part::Structs
        | Part::MoreFields
        | Part::Periphs
        | Part::Globals
        | Part::Init
        | Part::MoreCells
        | Part::Files
        | Part::Funcs
        | Part::Params
        | Part::MoreParams
        | Part::Gives
        | Part::Locals
        | Part::Regs
        | Part::Blocks
        | Part::Insts
        | Part::Result
        | Part::Args
        | Part::MoreArgs
        | Part::Types
        | Part::MoreTypes => true,
    }
}

/// The word by which a class is told.
pub fn class_word(class: Class) -> &'static [u8]
    ensures { result.now ≡ table.class_word class }
{
    match class {
        Class::Name => b"name",
        Class::Number => b"number",
        Class::Operation => b"operation",
        Class::Comparison => b"comparison",
        Class::Key(keyword) => keyword_text(keyword),
        Class::Mark(mark) => mark_text(mark),
        Class::End => b"end",
    }
}

/// Whether two classes are the same.
pub fn is_class(class: Class, other: Class) -> bool
    ensures { result ≡ table.is_class class other }
{
    class_word(class) == class_word(other)
}
