// What arrays, maps and iterators share: a map's record in its slot, items, a region that grows.
#![tactic(auto)]

ghost use Rattle.std.specs.Prelude.{◌≡◌, ◌+◌, ◌≤◌, ◌<◌, length};
ghost use Rattle.heap_cells.specs.Regions.{region_of};
ghost use Rattle.heap.specs.State.{state};
ghost use Rattle.heap.specs.Good.{Good};
ghost use Rattle.heap.specs.View.{held};
ghost use Rattle.collections_growth.specs.Words.{map_from, ItemIs, MapIn, MapKnown};
ghost use Rattle.collections_growth.specs.Growth.{Lengthening, Longer};

use heap::{Heap, HeapView};
use heap_cells::Top;
use heap_slots::{Header, MapScalars};
use map_store::{Map, MapStore};

// The type of items that are seen through a box.
const DYNAMIC: u64 = 2;

// The map of a slot with this header and these scalars.
#[tactic(auto, using(std::proofs::lemmas::Bool::Decides::nat_tests))]
pub fn map_of(h: Header, x: MapScalars) -> MapStore
    requires { x.epoch < 4294967296 }
    ensures { result ≡ map_from h x }
{
    MapStore {
        noted: (x.known != 0).then_some(words::signed_of(x.noted)),
        len: h.len as usize,
        live: x.live as usize,
        fresh: x.next,
        capacity: h.value as usize,
        index: h.mode as usize,
        epoch: x.epoch as u32,
        hashed: x.hashed != 0,
    }
}

// The cells of a slot with this header.
pub fn region(cells: &[u64], h: Header) -> &[u64]
    requires { h.start + h.size ≤ length cells.now }
    ensures { result.now ≡ region_of h cells.now }
{
    let from = h.start as usize;
    let to = from + h.size as usize;
    &cells[from..to]
}

// The map of a slot with this header and these scalars, over its cells.
pub fn map_in(cells: &[u64], h: Header, x: MapScalars) -> Map<'_>
    requires { MapKnown cells.now h x }
    ensures { MapIn cells.now h x result }
{
    Map {
        store: map_of(h, x),
        cells: region(cells, h),
    }
}

// An item as it is pushed, popped or visited: dynamic ones are seen through a box.
pub fn item(view: &HeapView<'_>, t: u64, w: u64) -> u64
    ensures { ItemIs (held view.now) t w result }
{
    if t == DYNAMIC {
        heap::deref(view, w)
    } else {
        w
    }
}

// The region of slot i made `size` cells long, not shorter than it is. The record keeps its account
// and its cells in use: the caller writes them.
pub fn longer(
    heap: &mut Heap,
    slots: &mut [u64],
    scalars: &[u64],
    list: &[u64],
    directory: &mut [u64],
    cells: &mut [u64],
    i: usize,
    size: u64,
)
    requires good { Good (state heap.old slots.old scalars.now list.now directory.old cells.old) }
    requires room { Lengthening (state heap.old slots.old scalars.now list.now directory.old cells.old) i size }
    ensures { Longer (state heap.old slots.old scalars.now list.now directory.old cells.old) i size (state heap.new slots.new scalars.now list.now directory.new cells.new) }
{
    if size <= heap_slots::read_header(slots, i).size {
        return;
    }
    let before = Top {
        cells: heap.top,
        entries: heap.entries,
    };
    let most = heap.size * 2;
    let after = heap_cells::grow(slots, heap.fresh, directory, most, before, cells, i, size);
    heap.top = after.cells;
    heap.entries = after.entries;
}
