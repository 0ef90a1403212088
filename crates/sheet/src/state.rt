// What the program holds: the memory lent to the heap, and the heap with the roots given so far.
ghost use Rattle.sheet.specs.Whole.{Whole, whole-prop};

use heap::Heap;
use layout::ReadLayout;

// What a heap of 256 slots and 2,048 cells is lent.
#[derive(Drop)]
pub(crate) struct Buffers {
    pub(crate) slots: [u64; 2048],
    pub(crate) scalars: [u64; 2048],
    pub(crate) list: [u64; 256],
    pub(crate) directory: [u64; 512],
    pub(crate) cells: [u64; 2048],
    pub(crate) marks: [u8; 256],
    pub(crate) order: [u32; 512],
}

// A heap over its buffers, and the roots given so far: the first `count` of 64.
#[derive(Drop)]
pub(crate) struct Sheet<'a> {
    pub(crate) heap: Heap,
    pub(crate) buffers: Buffers,
    pub(crate) layout: ReadLayout<'a>,
    pub(crate) roots: [u64; 64],
    pub(crate) count: usize,
    pub(crate) ghost whole: { Whole heap buffers count } by { whole-prop heap buffers count },
}
