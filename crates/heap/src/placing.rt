// A new object: whether it is refused, its slot and its region.
ghost use Rattle.std.specs.Prelude.{◌≡◌, ◌+◌, ◌*◌, ◌≤◌, ◌<◌, length};
ghost use Rattle.heap_slots.specs.FreeList.{taken_slot};
ghost use Rattle.heap.specs.Answers.{accepted};
ghost use Rattle.heap.specs.State.{state};
ghost use Rattle.heap.specs.Good.{Good, coroutine_of};
ghost use Rattle.heap.specs.Placing.{PlacesPlain, PlacesRegion, PlainObject, RegionObject, Roomy, Seatable, Seats, flag_of, judged_new};

use crate::{Heap, Refusal};
use heap_cells::Top;
use heap_slots::kinds::{BOX, COROUTINE};
use heap_slots::{Header, limits};

// 5, 6, 7, in this order: a charge of `bytes`, and `size` more of the `total` cells.
pub fn judge_new(heap: &Heap, total: u64, bytes: u64, size: u64) -> Result<(), Refusal>
    ensures { result ≡ judged_new heap.now total bytes size }
{
    if !heap.account.allows(bytes) {
        return Err(Refusal::OverBudget);
    }
    if heap.free == 0 && heap.size <= heap.fresh {
        return Err(Refusal::NoSlot);
    }
    if total < heap.taken || total - heap.taken < size {
        return Err(Refusal::NoCells);
    }
    Ok(())
}

// The slot that the next object takes.
pub fn next_slot(list: &[u64], fresh: u64, free: u64) -> u64
    requires { free ≤ length list.now }
    ensures { result ≡ taken_slot list.now fresh free }
{
    if free == 0 {
        fresh
    } else {
        list[(free - 1) as usize]
    }
}

// The box flag stands in a box's reference only.
fn flag_of(kind: u64) -> u64
    ensures { result ≡ flag_of kind }
{
    if kind == BOX { limits::BOX_FLAG } else { 0 }
}

// 1 for a coroutine.
pub fn coroutine_of(kind: u64) -> u64
    ensures { result ≡ coroutine_of kind }
{
    u64::from(kind == COROUTINE)
}

// The header in the next slot, under the next object's tag.
fn seat(
    heap: &mut Heap,
    slots: &mut [u64],
    list: &[u64],
    header: Header,
    bytes: u64,
) -> Result<u64, Refusal>
    requires { Seatable heap.old slots.old list.now bytes header.size }
    ensures { Seats heap.old slots.old list.now header bytes result heap.new slots.new }
{
    let account = heap.account.charge(bytes)?;
    let t = heap_slots::take_slot(slots, list, heap.fresh, heap.free, flag_of(header.kind));
    let half = t.half;
    heap_slots::write_header(slots, t.slot as usize, Header { half, ..header });
    *heap = Heap {
        account,
        fresh: t.fresh,
        free: t.free,
        taken: heap.taken + header.size,
        present: heap.present + 1,
        coroutines: heap.coroutines + coroutine_of(header.kind),
        ..*heap
    };
    Ok(half * limits::SPAN + t.slot)
}

// An object without cells, once judged. The caller has written its scalars.
pub fn place_plain(
    heap: &mut Heap,
    slots: &mut [u64],
    scalars: &[u64],
    list: &[u64],
    directory: &[u64],
    cells: &[u64],
    header: Header,
    bytes: u64,
) -> Result<u64, Refusal>
    requires { Good (state heap.old slots.old scalars.now list.now directory.now cells.now) × (judged_new heap.old (length cells.now) bytes 0 ≡ accepted) × PlainObject (state heap.old slots.old scalars.now list.now directory.now cells.now) header }
    ensures { PlacesPlain (state heap.old slots.old scalars.now list.now directory.now cells.now) header bytes result (state heap.new slots.new scalars.now list.now directory.now cells.now) }
{
    let plain = Header {
        size: 0,
        start: 0,
        entry: 0,
        ..header
    };
    seat(heap, slots, list, plain, bytes)
}

// An object with a region, once judged. The caller has written its scalars, and `header.size` cells
// at the top.
pub fn place_region(
    heap: &mut Heap,
    slots: &mut [u64],
    scalars: &[u64],
    list: &[u64],
    directory: &mut [u64],
    cells: &[u64],
    header: Header,
    bytes: u64,
) -> Result<u64, Refusal>
    requires { Good (state heap.old slots.old scalars.now list.now directory.old cells.now) × (judged_new heap.old (length cells.now) bytes header.size ≡ accepted) × (heap.old.top + header.size ≤ length cells.now) × (heap.old.entries < heap.old.size * 2) × RegionObject (state heap.old slots.old scalars.now list.now directory.old cells.now) header }
    ensures { PlacesRegion (state heap.old slots.old scalars.now list.now directory.old cells.now) header bytes result (state heap.new slots.new scalars.now list.now directory.new cells.now) }
{
    let Heap { top, entries, .. } = *heap;
    directory[entries as usize] = next_slot(list, heap.fresh, heap.free);
    let placed = Header {
        start: top,
        entry: entries,
        ..header
    };
    let word = seat(heap, slots, list, placed, bytes)?;
    heap.top = top + header.size;
    heap.entries = entries + 1;
    Ok(word)
}

// Room for a region of `size` cells at the top; regions may move.
pub fn make_room(
    heap: &mut Heap,
    slots: &mut [u64],
    scalars: &[u64],
    list: &[u64],
    directory: &mut [u64],
    cells: &mut [u64],
    size: u64,
)
    requires { Good (state heap.old slots.old scalars.now list.now directory.old cells.old) × (heap.old.taken + size ≤ length cells.old) }
    ensures { Roomy (state heap.old slots.old scalars.now list.now directory.old cells.old) (state heap.new slots.new scalars.now list.now directory.new cells.new) size }
{
    let before = Top {
        cells: heap.top,
        entries: heap.entries,
    };
    let fresh = heap.fresh;
    let most = heap.size * 2;
    let after = heap_cells::reserve(slots, fresh, directory, most, before, cells, size);
    heap.top = after.cells;
    heap.entries = after.entries;
}
