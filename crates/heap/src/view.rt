// A heap as the readings see it: its record and its lent buffers, with what holds of them between
// calls.
ghost use Rattle.heap.specs.State.{state};
ghost use Rattle.heap.specs.Good.{Good};
ghost use Rattle.heap.specs.GoodOnce.{good-prop};

use crate::Heap;

// A change takes the lists one by one: a struct of `&mut` lists would ask for lists that it does not
// change, which C lends as const.
#[derive(Clone, Copy)]
pub struct HeapView<'a> {
    pub heap: Heap,
    pub slots: &'a [u64],
    pub scalars: &'a [u64],
    pub list: &'a [u64],
    pub directory: &'a [u64],
    pub cells: &'a [u64],
    pub ghost good: { Good (state heap slots.now scalars.now list.now directory.now cells.now) } by { good-prop (state heap slots.now scalars.now list.now directory.now cells.now) },
}
