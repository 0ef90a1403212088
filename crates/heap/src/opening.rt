// Opening a heap over the lent buffers.
ghost use Rattle.std.specs.Prelude.{◌≡◌, [], ◌≤◌, length};
ghost use Rattle.heap_slots.specs.Limits.{SLOTS_MAX};
ghost use Rattle.heap.specs.State.{state};
ghost use Rattle.model.specs.Opening.{between, sizes_fit};
ghost use Rattle.heap.specs.Opens.{Opens, beside, new_heap, opening_of, room_for, weights_fit};

use crate::{Heap, Refusal};
use account::Account;
use heap_slots::limits;
use model::Weights;

#[tactic(auto, using(std::proofs::lemmas::Bool::Decides::nat_tests))]
fn weight_fits(w: u64) -> bool
    ensures { result ≡ between 1 w 4096 }
{
    (1..=4096).contains(&w)
}

#[tactic(auto, using(std::proofs::lemmas::Bool::Decides::nat_tests))]
fn weights_fit(w: Weights) -> bool
    ensures { result ≡ weights_fit w }
{
    weight_fits(w.slot)
        && weight_fits(w.entry)
        && weight_fits(w.iterator)
        && weight_fits(w.coroutine)
        && weight_fits(w.frame)
}

// Document 01's ranges: 1 to 65,536 slots, 0 to 1,048,576 cells, weights 1 to 4,096.
#[tactic(auto, using(std::proofs::lemmas::Bool::Decides::nat_tests), unfolding(model::specs::Opening::sizes_fit))]
fn sizes_fit(size: u64, cells: usize, weights: Weights) -> bool
    ensures { result ≡ sizes_fit (opening_of size cells 0 weights []) }
{
    (1..=limits::SLOTS_MAX).contains(&size) && cells <= limits::CELLS_MAX && weights_fit(weights)
}

// Whether lent buffers of these lengths are long enough for so many slots.
#[tactic(auto, using(std::proofs::lemmas::Bool::Decides::nat_tests), unfolding(crate::specs::Opens::room_for))]
fn has_room(
    size: u64,
    slots: usize,
    scalars: usize,
    list: usize,
    directory: usize,
    marks: usize,
    order: usize,
) -> bool
    requires { size ≤ SLOTS_MAX }
    ensures { result ≡ room_for size slots scalars list directory marks order }
{
    let n = size as usize;
    n * limits::SLOT_WORDS <= slots
        && n * limits::SLOT_WORDS <= scalars
        && n <= list
        && n * 2 <= directory
        && n <= marks
        && n * 2 <= order
}

// The record of a heap without objects.
fn new_heap(size: u64, limit: u64, weights: Weights) -> Heap
    ensures { result ≡ new_heap size limit weights }
{
    Heap {
        account: Account::new(limit),
        weights,
        size,
        fresh: 0,
        free: 0,
        top: 0,
        entries: 0,
        taken: 0,
        present: 0,
        coroutines: 0,
        collections: 0,
        freed: 0,
    }
}

// A heap of `size` slots over the lent buffers. The layout's sections go into the table; marks and
// order are put to rest.
pub fn open(
    size: u64,
    limit: u64,
    weights: Weights,
    layout: &[u8],
    table: &mut [u64],
    marks: &mut [u8],
    order: &mut [u32],
    slots: &[u64],
    scalars: &[u64],
    list: &[u64],
    directory: &[u64],
    cells: &[u64],
) -> Result<Heap, Refusal>
    ensures { Opens (opening_of size (length cells.now) limit weights layout.now) (state (new_heap size limit weights) slots.now scalars.now list.now directory.now cells.now) (beside table.old marks.old order.old) result (beside table.new marks.new order.new) }
{
    if !sizes_fit(size, cells.len(), weights) {
        return Err(Refusal::BadOpening);
    }
    if !has_room(
        size,
        slots.len(),
        scalars.len(),
        list.len(),
        directory.len(),
        marks.len(),
        order.len(),
    ) {
        return Err(Refusal::BadOpening);
    }
    layout::read_layout(layout, table)?;
    let n = size as usize;
    marks[..n].fill(0);
    order[..n * 2].fill(0);
    Ok(new_heap(size, limit, weights))
}
