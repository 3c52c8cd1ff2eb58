//! The limits of a firmware's text: how much of each there may be at most.

/// The bytes of a text.
pub const TEXT_LIMIT: u32 = 4_194_304;

/// The bytes of a word.
pub const WORD_LIMIT: usize = 64;

/// The structs of a firmware.
pub const STRUCT_LIMIT: usize = 256;

/// The fields of a struct.
pub const FIELD_LIMIT: usize = 64;

/// The peripherals of a firmware.
pub const PERIPH_LIMIT: usize = 64;

/// The globals of a firmware.
pub const GLOBAL_LIMIT: usize = 1024;

/// The cells of a global.
pub const CELL_LIMIT: usize = 65_536;

/// The elements of an array.
pub const ARRAY_LIMIT: u64 = 65_536;

/// How deep types stand, each in the one before it.
pub const DEPTH_LIMIT: u32 = 8;

/// The files of a firmware.
pub const FILE_LIMIT: usize = 1024;

/// The functions of all files.
pub const FUNCTION_LIMIT: usize = 1024;

/// The parameters of a function, and the arguments of a call.
pub const PARAMETER_LIMIT: usize = 4;

/// The registers of a function, together with its parameters.
pub const REGISTER_LIMIT: usize = 120;

/// The locals of a function.
pub const LOCAL_LIMIT: usize = 64;

/// The blocks of a function.
pub const BLOCK_LIMIT: usize = 1024;

/// The instructions of a function.
pub const INSTRUCTION_LIMIT: usize = 16_384;
