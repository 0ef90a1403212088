// The rows of document 01's table of kinds. A slot without an object has the row NONE. They are
// numbers and no enum: a kind is a word of a lent slot, compared as it lies there. So are a type, 0
// to 2, and a coroutine's state, 0 to 4.
pub const NONE: u64 = 0;

pub const STRING: u64 = 1;

pub const INTEGER: u64 = 2;

pub const CELL: u64 = 3;

pub const ERROR: u64 = 4;

pub const BOX: u64 = 5;

pub const ARRAY: u64 = 6;

pub const MAP: u64 = 7;

pub const STRUCT: u64 = 8;

pub const FUNCTION: u64 = 9;

pub const ITERATOR: u64 = 10;

pub const COROUTINE: u64 = 11;

// In a row's place: a dead reference.
pub const DEAD: u64 = 15;
