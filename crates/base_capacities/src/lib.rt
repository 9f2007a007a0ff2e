// Document 01's capacities by name, and the shape of an object's rows in its lent buffers.
#![tactic(auto)]

// The longest source and the longest name, in bytes.
pub const SOURCE_BYTES: usize = 262144;

pub const NAME_BYTES: usize = 64;

// Rows of an object's tables.
pub const BLOCKS: usize = 64;

pub const LABELS: usize = 1024;

pub const RELOCATIONS: usize = 1024;

// The most words that an object has: every address below IO_START.
pub const WORDS: usize = 65024;

// The first address of the devices, where a block may end and none may go on.
pub const IO_START: u32 = 0xfe00;

// How many addresses, and how many values of a word, there are.
pub const ADDRESSES: u32 = 0x10000;

// Cells of a row: a block's start and length; a label's address, flag, name's start and length; a relocation's address and label row.
pub const BLOCK_CELLS: usize = 2;

pub const LABEL_CELLS: usize = 4;

pub const RELOCATION_CELLS: usize = 2;

// Where a row has what it has: a row begins with its address.
pub const BLOCK_LENGTH: usize = 1;

pub const LABEL_ADDRESS: usize = 0;

pub const LABEL_FLAG: usize = 1;

pub const NAME_START: usize = 2;

pub const NAME_LENGTH: usize = 3;

pub const RELOCATION_LABEL: usize = 1;

// A label's flag: its address is defined, or it is external.
pub const DEFINED: u32 = 0;

pub const EXTERNAL: u32 = 1;

// A word's mark: unset, or set.
pub const UNSET: u8 = 0;

pub const SET: u8 = 1;

// Cells of each table that pass one fills: rows of symbols and of relocations, each with a name's start and length.
pub const PASS1_CELLS: usize = 4096;

// Cells of the places of .orig that pass two keeps, a row to a block.
pub const ORIG_CELLS: usize = 128;
