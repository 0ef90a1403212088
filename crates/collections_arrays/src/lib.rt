// Arrays that grow and shrink at their end.
#![tactic(auto)]

ghost use Rattle.std.specs.Prelude.{◌≡◌, ◌≤◌};
ghost use Rattle.heap_slots.specs.Kinds.{ARRAY};
ghost use Rattle.heap_slots.specs.Limits.{CELLS_MAX};
ghost use Rattle.model.specs.Calls as Calls;
ghost use Rattle.heap.specs.Answers.{done_is, reading_is};
ghost use Rattle.heap.specs.State.{state};
ghost use Rattle.heap.specs.Good.{Good};
ghost use Rattle.heap.specs.Promise.{Performs};
ghost use Rattle.heap.proofs.ReachLaws.{Target};
ghost use Rattle.collections_arrays.specs.Arrays.{Appended, Appending, Extended, Extending, push_bytes, push_size};

use collections_growth::item;
use heap::{Heap, HeapView, Refusal, lookup, zero_fits};
use heap_cells::Top;
use heap_slots::{LEN, kinds};

// The capacity of an array after a push, and the bytes that it is charged.
fn push_size(len: u64, size: u64) -> u64
    requires { size ≤ CELLS_MAX }
    ensures { result ≡ push_size len size }
{
    if len == size { (2 * size).max(4) } else { size }
}

fn push_bytes(len: u64, size: u64) -> u64
    requires { size ≤ CELLS_MAX }
    ensures { result ≡ push_bytes len size }
{
    if len == size { 8 * size.max(4) } else { 0 }
}

// An item behind the last of the array in slot i.
fn append(slots: &mut [u64], cells: &mut [u64], i: usize, v: u64)
    requires { Appending slots.old cells.old i }
    ensures { Appended slots.old cells.old slots.new cells.new i v }
{
    let h = heap_slots::read_header(slots, i);
    let at = (h.start + h.len) as usize;
    cells[at] = v;
    heap_slots::set_word::<LEN>(slots, i, h.len + 1);
}

// The region of the array in slot i made `size` cells long, and an item of type t put behind the last.
fn push_grown(
    heap: &mut Heap,
    slots: &mut [u64],
    scalars: &[u64],
    list: &[u64],
    directory: &mut [u64],
    cells: &mut [u64],
    i: usize,
    size: u64,
    t: u64,
    v: u64,
)
    requires good { Good (state heap.old slots.old scalars.now list.now directory.old cells.old) }
    requires room { Extending (state heap.old slots.old scalars.now list.now directory.old cells.old) i size }
    ensures { Extended (state heap.old slots.old scalars.now list.now directory.old cells.old) i size t v (state heap.new slots.new scalars.now list.now directory.new cells.new) }
{
    let view = HeapView {
        heap: *heap,
        slots,
        scalars,
        list,
        directory,
        cells,
    };
    let word = item(&view, t, v);
    let top = Top {
        cells: heap.top,
        entries: heap.entries,
    };
    let most = heap.size * 2;
    let after = heap_cells::grow(slots, heap.fresh, directory, most, top, cells, i, size);
    heap.top = after.cells;
    heap.entries = after.entries;
    append(slots, cells, i, word);
}

// An item behind the last of the array in slot i, whose region becomes longer where it is full: 5, 7.
fn push_at(
    heap: &mut Heap,
    slots: &mut [u64],
    scalars: &[u64],
    list: &[u64],
    directory: &mut [u64],
    cells: &mut [u64],
    w: u64,
    i: usize,
    v: u64,
) -> Result<(), Refusal>
    requires good { Good (state heap.old slots.old scalars.now list.now directory.old cells.old) }
    requires array { Target (state heap.old slots.old scalars.now list.now directory.old cells.old) w i ARRAY }
    ensures { Performs (Calls.push w v) (state heap.old slots.old scalars.now list.now directory.old cells.old) (done_is result) (state heap.new slots.new scalars.now list.now directory.new cells.new) }
{
    let h = heap_slots::read_header(slots, i);
    let size = push_size(h.len, h.size);
    let more = size - h.size;
    let account = heap.account.charge(push_bytes(h.len, h.size))?;
    if cells.len() as u64 - heap.taken < more {
        return Err(Refusal::NoCells);
    }
    push_grown(
        heap, slots, scalars, list, directory, cells, i, size, h.mode, v,
    );
    heap.account = account;
    heap.taken += more;
    Ok(())
}

// The last item of an array.
pub fn pop(
    heap: &Heap,
    slots: &mut [u64],
    scalars: &[u64],
    list: &[u64],
    directory: &[u64],
    cells: &[u64],
    w: u64,
) -> Result<u64, Refusal>
    requires { Good (state heap.now slots.old scalars.now list.now directory.now cells.now) }
    ensures { Performs (Calls.pop w) (state heap.now slots.old scalars.now list.now directory.now cells.now) (reading_is result) (state heap.now slots.new scalars.now list.now directory.now cells.now) }
{
    let i = lookup::locate(slots, heap.fresh, w, kinds::ARRAY)?;
    let h = heap_slots::read_header(slots, i);
    if h.len == 0 {
        return Err(Refusal::Outside);
    }
    if !zero_fits(heap.account) {
        return Err(Refusal::OverBudget);
    }
    let view = HeapView {
        heap: *heap,
        slots,
        scalars,
        list,
        directory,
        cells,
    };
    let v = item(&view, h.mode, cells[(h.start + (h.len - 1)) as usize]);
    heap_slots::set_word::<LEN>(slots, i, h.len - 1);
    Ok(v)
}

// An item behind the last of an array. Where there is room for it, nothing is charged and the record stays.
pub fn push(
    heap: &mut Heap,
    slots: &mut [u64],
    scalars: &[u64],
    list: &[u64],
    directory: &mut [u64],
    cells: &mut [u64],
    w: u64,
    v: u64,
) -> Result<(), Refusal>
    requires { Good (state heap.old slots.old scalars.now list.now directory.old cells.old) }
    ensures { Performs (Calls.push w v) (state heap.old slots.old scalars.now list.now directory.old cells.old) (done_is result) (state heap.new slots.new scalars.now list.now directory.new cells.new) }
{
    let i = lookup::locate(slots, heap.fresh, w, kinds::ARRAY)?;
    let h = heap_slots::read_header(slots, i);
    if h.len == h.size {
        return push_at(heap, slots, scalars, list, directory, cells, w, i, v);
    }
    if !zero_fits(heap.account) {
        return Err(Refusal::OverBudget);
    }
    let view = HeapView {
        heap: *heap,
        slots,
        scalars,
        list,
        directory,
        cells,
    };
    let x = item(&view, h.mode, v);
    append(slots, cells, i, x);
    Ok(())
}
