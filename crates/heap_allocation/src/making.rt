// A new object of any kind, for the calls: its header, its charge, room for its cells, its placing.
ghost use Rattle.std.specs.Prelude.{[], ◌≡◌, ◌+◌, ◌*◌, length, replicate};
ghost use Rattle.account.specs.Account.{saturated};
ghost use Rattle.heap_slots.specs.Header.{with_region};
ghost use Rattle.heap_slots.specs.Kinds.{ARRAY};
ghost use Rattle.heap.specs.State.{state};
ghost use Rattle.heap.specs.Good.{Good};
ghost use Rattle.heap.specs.Placing.{Object, RegionObject};
ghost use Rattle.heap_allocation.specs.Making.{Finishes, MadePlain, MadeWords, Placeable, Prepared, Scalarless, headerOf, with_next};

use heap::{Heap, Refusal, placing};
use heap_slots::{Header, Scalars, kinds};

// An object without cells: kind, value, mode and len are the header's.
pub fn new_plain(
    heap: &mut Heap,
    slots: &mut [u64],
    scalars: &[u64],
    list: &[u64],
    directory: &[u64],
    cells: &[u64],
    header: Header,
    bytes: u64,
) -> Result<u64, Refusal>
    requires { Good (state heap.old slots.old scalars.now list.now directory.now cells.now) × Scalarless (with_region header 0 0 0) [] }
    ensures { MadePlain (state heap.old slots.old scalars.now list.now directory.now cells.now) (state heap.old slots.old scalars.now list.now directory.now cells.now) header bytes result (state heap.new slots.new scalars.now list.now directory.now cells.now) }
{
    placing::judge_new(heap, cells.len() as u64, bytes, 0)?;
    placing::place_plain(heap, slots, scalars, list, directory, cells, header, bytes)
}

// An object without cells that has scalars.
#[inline(always)]
pub fn new_with_scalars(
    heap: &mut Heap,
    slots: &mut [u64],
    scalars: &mut [u64],
    list: &[u64],
    directory: &[u64],
    cells: &[u64],
    header: Header,
    more: Scalars,
    bytes: u64,
) -> Result<u64, Refusal>
    requires { Good (state heap.old slots.old scalars.old list.now directory.now cells.now) × Object (with_region header 0 0 0) [] more }
    ensures { MadePlain (state heap.old slots.old scalars.old list.now directory.now cells.now) (with_next (state heap.old slots.old scalars.old list.now directory.now cells.now) more) header bytes result (state heap.new slots.new scalars.new list.now directory.now cells.now) }
{
    placing::judge_new(heap, cells.len() as u64, bytes, 0)?;
    let i = placing::next_slot(list, heap.fresh, heap.free);
    heap_slots::write_scalars(scalars, i as usize, more);
    placing::place_plain(heap, slots, scalars, list, directory, cells, header, bytes)
}

// A base and so many for each of n.
#[tactic(auto, unfolding(account::specs::Account::saturated))]
pub(crate) fn with_each<const EACH: u64>(base: u64, n: u64) -> u64
    ensures { result ≡ saturated (base + EACH * n) }
{
    base.saturating_add(n.saturating_mul(EACH))
}

// 5, 6, 7 judged; an accepted object of `size` cells then has room for them at the top.
pub(crate) fn prepare(
    heap: &mut Heap,
    slots: &mut [u64],
    scalars: &[u64],
    list: &[u64],
    directory: &mut [u64],
    cells: &mut [u64],
    bytes: u64,
    size: u64,
) -> Result<(), Refusal>
    requires { Good (state heap.old slots.old scalars.now list.now directory.old cells.old) }
    ensures { Prepared (state heap.old slots.old scalars.now list.now directory.old cells.old) bytes size result (state heap.new slots.new scalars.now list.now directory.new cells.new) }
{
    placing::judge_new(heap, cells.len() as u64, bytes, size)?;
    if size != 0 {
        placing::make_room(heap, slots, scalars, list, directory, cells, size);
    }
    Ok(())
}

// The object is placed, with the cells at the top if it has any.
pub(crate) fn finish(
    heap: &mut Heap,
    slots: &mut [u64],
    scalars: &[u64],
    list: &[u64],
    directory: &mut [u64],
    cells: &[u64],
    header: Header,
    bytes: u64,
) -> Result<u64, Refusal>
    requires { Placeable (state heap.old slots.old scalars.now list.now directory.old cells.now) bytes header.size × RegionObject (state heap.old slots.old scalars.now list.now directory.old cells.now) header }
    ensures { Finishes (state heap.old slots.old scalars.now list.now directory.old cells.now) header bytes result (state heap.new slots.new scalars.now list.now directory.new cells.now) }
{
    if header.size == 0 {
        placing::place_plain(heap, slots, scalars, list, directory, cells, header, bytes)
    } else {
        placing::place_region(heap, slots, scalars, list, directory, cells, header, bytes)
    }
}

// An object whose cells are lent words.
pub(crate) fn new_words(
    heap: &mut Heap,
    slots: &mut [u64],
    scalars: &[u64],
    list: &[u64],
    directory: &mut [u64],
    cells: &mut [u64],
    kind: u64,
    value: u64,
    mode: u64,
    words: &[u64],
) -> Result<u64, Refusal>
    requires { Good (state heap.old slots.old scalars.now list.now directory.old cells.old) × Scalarless (headerOf kind value mode (length words.now) (length words.now)) words.now }
    ensures { MadeWords (state heap.old slots.old scalars.now list.now directory.old cells.old) (headerOf kind value mode (length words.now) (length words.now)) (saturated (heap.old.weights.slot + 8 * length words.now)) words.now result (state heap.new slots.new scalars.now list.now directory.new cells.new) × Good (state heap.new slots.new scalars.now list.now directory.new cells.new) }
{
    let n = words.len() as u64;
    let bytes = with_each::<8>(heap.weights.slot, n);
    prepare(heap, slots, scalars, list, directory, cells, bytes, n)?;
    heap_cells::copy_words(words, cells, heap.top as usize);
    let h = Header {
        kind,
        value,
        mode,
        len: n,
        size: n,
        ..Header::EMPTY
    };
    finish(heap, slots, scalars, list, directory, cells, h, bytes)
}

// An array of n nil words.
pub(crate) fn new_items(
    heap: &mut Heap,
    slots: &mut [u64],
    scalars: &[u64],
    list: &[u64],
    directory: &mut [u64],
    cells: &mut [u64],
    t: u64,
    n: u64,
) -> Result<u64, Refusal>
    requires { Good (state heap.old slots.old scalars.now list.now directory.old cells.old) }
    ensures { MadeWords (state heap.old slots.old scalars.now list.now directory.old cells.old) (headerOf ARRAY 0 t n n) (saturated (heap.old.weights.slot + 8 * n)) (replicate n 0) result (state heap.new slots.new scalars.now list.now directory.new cells.new) × Good (state heap.new slots.new scalars.now list.now directory.new cells.new) }
{
    let bytes = with_each::<8>(heap.weights.slot, n);
    prepare(heap, slots, scalars, list, directory, cells, bytes, n)?;
    heap_cells::fill(cells, heap.top as usize, n as usize);
    let h = Header {
        kind: kinds::ARRAY,
        mode: t,
        len: n,
        size: n,
        ..Header::EMPTY
    };
    finish(heap, slots, scalars, list, directory, cells, h, bytes)
}
