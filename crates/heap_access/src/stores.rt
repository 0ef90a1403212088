// Stores that keep an object's length.
ghost use Rattle.std.specs.Prelude.{◌+◌, ◌*◌, ◌≤◌, ◌<◌, length};
ghost use Rattle.heap_slots.specs.Limits.{HasSlots, SLOT_WORDS, SLOTS_MAX};
ghost use Rattle.model.specs.Calls as Calls;
ghost use Rattle.model.specs.Rules as Parts;
ghost use Rattle.heap.specs.Answers.{done_is};
ghost use Rattle.heap_access.specs.Objects.{StoresHeader, StoresScalar, StoresWord, WordsFit};
ghost use Rattle.heap.specs.State.{state};
ghost use Rattle.heap.specs.Good.{Good};
ghost use Rattle.heap.specs.Promise.{Performs};

use heap::{Heap, Refusal, lookup, zero_fits};
use heap_slots::limits::SLOT_WORDS;
use heap_slots::{KEY, MODE, PAYLOAD, RESULT, SIGNAL, VALUE, kinds};

// A new word K in the header of an object of this kind.
fn store_header_word<const K: usize>(
    slots: &mut [u64],
    fresh: u64,
    w: u64,
    kind: u64,
    v: u64,
) -> Result<(), Refusal>
    requires slots { HasSlots slots.old fresh }
    requires word { K < SLOT_WORDS }
    ensures { StoresHeader slots.old fresh w kind K v result slots.new }
{
    let i = lookup::locate(slots, fresh, w, kind)?;
    heap_slots::set_word::<K>(slots, i, v);
    Ok(())
}

// Word k of a coroutine's scalars.
fn store_scalar(
    slots: &[u64],
    scalars: &mut [u64],
    fresh: u64,
    w: u64,
    k: usize,
    v: u64,
) -> Result<(), Refusal>
    requires { (fresh ≤ SLOTS_MAX) × (fresh * SLOT_WORDS ≤ length slots.now) × (fresh * SLOT_WORDS ≤ length scalars.old) × (k < SLOT_WORDS) }
    ensures { StoresScalar slots.now scalars.old fresh w k v result scalars.new }
{
    let i = lookup::locate(slots, fresh, w, kinds::COROUTINE)?;
    scalars[i * SLOT_WORDS + k] = v;
    Ok(())
}

// Word i of an object's cells: fields, captures, registers.
fn store_word(
    slots: &[u64],
    cells: &mut [u64],
    fresh: u64,
    w: u64,
    kind: u64,
    i: u64,
    v: u64,
) -> Result<(), Refusal>
    requires { WordsFit slots.now cells.old fresh kind }
    ensures { StoresWord slots.now cells.old fresh w kind i v result cells.new }
{
    let at = lookup::locate(slots, fresh, w, kind)?;
    let h = heap_slots::read_header(slots, at);
    if h.len <= i {
        return Err(Refusal::Outside);
    }
    cells[(h.start + i) as usize] = v;
    Ok(())
}

// A new word for a cell or a box.
pub fn store_cell(
    heap: &Heap,
    slots: &mut [u64],
    scalars: &[u64],
    list: &[u64],
    directory: &[u64],
    cells: &[u64],
    w: u64,
    v: u64,
) -> Result<(), Refusal>
    requires { Good (state heap.now slots.old scalars.now list.now directory.now cells.now) }
    ensures { Performs (Calls.store_cell w v) (state heap.now slots.old scalars.now list.now directory.now cells.now) (done_is result) (state heap.now slots.new scalars.now list.now directory.now cells.now) }
{
    store_header_word::<VALUE>(slots, heap.fresh, w, kinds::CELL, v)
}

pub fn store_box(
    heap: &Heap,
    slots: &mut [u64],
    scalars: &[u64],
    list: &[u64],
    directory: &[u64],
    cells: &[u64],
    w: u64,
    v: u64,
) -> Result<(), Refusal>
    requires { Good (state heap.now slots.old scalars.now list.now directory.now cells.now) }
    ensures { Performs (Calls.store_box w v) (state heap.now slots.old scalars.now list.now directory.now cells.now) (done_is result) (state heap.now slots.new scalars.now list.now directory.now cells.now) }
{
    store_header_word::<VALUE>(slots, heap.fresh, w, kinds::BOX, v)
}

// Field, capture and register i: 3 outside.
pub fn store_field(
    heap: &Heap,
    slots: &[u64],
    scalars: &[u64],
    list: &[u64],
    directory: &[u64],
    cells: &mut [u64],
    w: u64,
    i: u64,
    v: u64,
) -> Result<(), Refusal>
    requires { Good (state heap.now slots.now scalars.now list.now directory.now cells.old) }
    ensures { Performs (Calls.store_field w i v) (state heap.now slots.now scalars.now list.now directory.now cells.old) (done_is result) (state heap.now slots.now scalars.now list.now directory.now cells.new) }
{
    store_word(slots, cells, heap.fresh, w, kinds::STRUCT, i, v)
}

pub fn store_capture(
    heap: &Heap,
    slots: &[u64],
    scalars: &[u64],
    list: &[u64],
    directory: &[u64],
    cells: &mut [u64],
    w: u64,
    i: u64,
    v: u64,
) -> Result<(), Refusal>
    requires { Good (state heap.now slots.now scalars.now list.now directory.now cells.old) }
    ensures { Performs (Calls.store_capture w i v) (state heap.now slots.now scalars.now list.now directory.now cells.old) (done_is result) (state heap.now slots.now scalars.now list.now directory.now cells.new) }
{
    store_word(slots, cells, heap.fresh, w, kinds::FUNCTION, i, v)
}

pub fn store_register(
    heap: &Heap,
    slots: &[u64],
    scalars: &[u64],
    list: &[u64],
    directory: &[u64],
    cells: &mut [u64],
    w: u64,
    i: u64,
    v: u64,
) -> Result<(), Refusal>
    requires { Good (state heap.now slots.now scalars.now list.now directory.now cells.old) }
    ensures { Performs (Calls.store_register w i v) (state heap.now slots.now scalars.now list.now directory.now cells.old) (done_is result) (state heap.now slots.now scalars.now list.now directory.now cells.new) }
{
    store_word(slots, cells, heap.fresh, w, kinds::COROUTINE, i, v)
}

// A new word for a coroutine.
pub fn store_payload(
    heap: &Heap,
    slots: &[u64],
    scalars: &mut [u64],
    list: &[u64],
    directory: &[u64],
    cells: &[u64],
    w: u64,
    v: u64,
) -> Result<(), Refusal>
    requires { Good (state heap.now slots.now scalars.old list.now directory.now cells.now) }
    ensures { Performs (Calls.store_part w Parts.payload v) (state heap.now slots.now scalars.old list.now directory.now cells.now) (done_is result) (state heap.now slots.now scalars.new list.now directory.now cells.now) }
{
    store_scalar(slots, scalars, heap.fresh, w, PAYLOAD, v)
}

pub fn store_key(
    heap: &Heap,
    slots: &[u64],
    scalars: &mut [u64],
    list: &[u64],
    directory: &[u64],
    cells: &[u64],
    w: u64,
    v: u64,
) -> Result<(), Refusal>
    requires { Good (state heap.now slots.now scalars.old list.now directory.now cells.now) }
    ensures { Performs (Calls.store_part w Parts.key v) (state heap.now slots.now scalars.old list.now directory.now cells.now) (done_is result) (state heap.now slots.now scalars.new list.now directory.now cells.now) }
{
    store_scalar(slots, scalars, heap.fresh, w, KEY, v)
}

pub fn store_result(
    heap: &Heap,
    slots: &[u64],
    scalars: &mut [u64],
    list: &[u64],
    directory: &[u64],
    cells: &[u64],
    w: u64,
    v: u64,
) -> Result<(), Refusal>
    requires { Good (state heap.now slots.now scalars.old list.now directory.now cells.now) }
    ensures { Performs (Calls.store_part w Parts.result v) (state heap.now slots.now scalars.old list.now directory.now cells.now) (done_is result) (state heap.now slots.now scalars.new list.now directory.now cells.now) }
{
    store_scalar(slots, scalars, heap.fresh, w, RESULT, v)
}

pub fn store_signal(
    heap: &Heap,
    slots: &[u64],
    scalars: &mut [u64],
    list: &[u64],
    directory: &[u64],
    cells: &[u64],
    w: u64,
    v: u64,
) -> Result<(), Refusal>
    requires { Good (state heap.now slots.now scalars.old list.now directory.now cells.now) }
    ensures { Performs (Calls.store_part w Parts.signal v) (state heap.now slots.now scalars.old list.now directory.now cells.now) (done_is result) (state heap.now slots.now scalars.new list.now directory.now cells.now) }
{
    store_scalar(slots, scalars, heap.fresh, w, SIGNAL, v)
}

// A new state for a coroutine; 4 for one above 4, before the coroutine is looked for.
pub fn set_state(
    heap: &Heap,
    slots: &mut [u64],
    scalars: &[u64],
    list: &[u64],
    directory: &[u64],
    cells: &[u64],
    w: u64,
    s: u64,
) -> Result<(), Refusal>
    requires { Good (state heap.now slots.old scalars.now list.now directory.now cells.now) }
    ensures { Performs (Calls.set_state w s) (state heap.now slots.old scalars.now list.now directory.now cells.now) (done_is result) (state heap.now slots.new scalars.now list.now directory.now cells.now) }
{
    if 4 < s {
        return Err(Refusal::BadType);
    }
    store_header_word::<MODE>(slots, heap.fresh, w, kinds::COROUTINE, s)
}

// Outside the length nothing changes; a charge of zero bytes is made all the same.
pub fn store_item(
    heap: &Heap,
    slots: &[u64],
    scalars: &[u64],
    list: &[u64],
    directory: &[u64],
    cells: &mut [u64],
    w: u64,
    i: u64,
    v: u64,
) -> Result<(), Refusal>
    requires { Good (state heap.now slots.now scalars.now list.now directory.now cells.old) }
    ensures { Performs (Calls.store_item w i v) (state heap.now slots.now scalars.now list.now directory.now cells.old) (done_is result) (state heap.now slots.now scalars.now list.now directory.now cells.new) }
{
    let at = lookup::locate(slots, heap.fresh, w, kinds::ARRAY)?;
    if !zero_fits(heap.account) {
        return Err(Refusal::OverBudget);
    }
    let h = heap_slots::read_header(slots, at);
    if i < h.len {
        cells[(h.start + i) as usize] = v;
    }
    Ok(())
}
