// Numbers that stand in several places: bounds of a heap, words of a slot, parts of a reference.

// The most slots and cells of a heap.
pub const SLOTS_MAX: u64 = 65536;

pub const CELLS_MAX: usize = 1048576;

// Words of a slot's header, and of its scalars.
pub const SLOT_WORDS: usize = 8;

// A reference is half * SPAN + slot, with half = HALF + tag.
pub const SPAN: u64 = 4294967296;

pub const HALF: u64 = 65536;

// The tag is a generation below GENERATIONS, with BOX_FLAG more for a box.
pub const GENERATIONS: u64 = 32768;

pub const LAST_GENERATION: u64 = GENERATIONS - 1;

pub const BOX_FLAG: u64 = GENERATIONS;

// Halves of references end here; those of boxes start at BOX_HALF.
pub const BOX_HALF: u64 = HALF + BOX_FLAG;

pub const HALF_END: u64 = BOX_HALF + GENERATIONS;
