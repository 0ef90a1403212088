// Iterators over arrays and maps.
#![tactic(auto)]

ghost use Rattle.std.specs.Prelude.{◌≡◌, ◌<◌};
ghost use Rattle.heap_slots.specs.Scalars.{scalars_of_iterator};
ghost use Rattle.map_store.specs.View.{cursor_is};
ghost use Rattle.model.specs.Calls as Calls;
ghost use Rattle.heap.specs.Answers.{made_is, missing, reading_is, test_is};
ghost use Rattle.heap.specs.Kinds.{cursor_of};
ghost use Rattle.heap.specs.State.{state};
ghost use Rattle.heap.specs.Good.{Good};
ghost use Rattle.heap.specs.Promise.{Performs, Reads};
ghost use Rattle.heap.specs.View.{held};
ghost use Rattle.collections_growth.specs.Answers.{perhaps_is};
ghost use Rattle.collections_growth.specs.Words.{MapKnown};
ghost use Rattle.collections_iterators.specs.Answers.{cursor_seen};
ghost use Rattle.collections_iterators.specs.Beginning.{Begins};
ghost use Rattle.collections_iterators.specs.Reading.{IteratorAt};
ghost use Rattle.collections_iterators.specs.Visits.{ArrayKnown, Ends, Moves, VisitsArray, VisitsMap, Visits};

use collections_growth::{item, map_in};
use heap::{Heap, HeapView, Refusal, lookup};
use heap_allocation::making;
use heap_slots::{Header, IteratorScalars, MapScalars, Miss, Scalars, kinds};
use map_store::Cursor;

// An iterator's cursor: over an array its index alone.
#[derive(Clone, Copy, Debug, PartialEq, Eq)]
pub enum CursorAt {
    Index(u64),
    Map(Cursor),
}

// What an iterator's slot holds.
#[derive(Clone, Copy)]
struct IteratorRead {
    header: Header,
    scalars: IteratorScalars,
}

// An iterator's step: the scalars afterwards, and the item that it visits, if it has not come to the
// end.
#[derive(Clone, Copy)]
struct Visit {
    next: IteratorScalars,
    item: Option<u64>,
}

// The cursor of an iterator with these scalars.
fn cursor_of(x: IteratorScalars) -> Cursor
    requires { x.epoch < 4294967296 }
    ensures { cursor_is result ≡ cursor_of (scalars_of_iterator x) }
{
    Cursor {
        last: if x.stepped == 0 { None } else { Some(x.last) },
        pos: x.position as usize,
        epoch: x.epoch as u32,
    }
}

// The step of an iterator that has come to its end.
fn ended(x: IteratorScalars) -> Visit
    ensures { Ends x result }
{
    Visit {
        next: IteratorScalars { ended: 1, ..x },
        item: None,
    }
}

// The scalars of an iterator after a step onto an item with this key.
fn moved_to(c: Cursor, key: u64) -> IteratorScalars
    ensures { Moves (cursor_is c) key result }
{
    IteratorScalars {
        ended: 0,
        keyed: 1,
        key,
        stepped: u64::from(c.last.is_some()),
        last: c.last.unwrap_or(0),
        position: c.pos as u64,
        epoch: u64::from(c.epoch),
    }
}

// The step of an iterator over the array with this header.
fn visit_array(view: &HeapView<'_>, h: Header, x: IteratorScalars) -> Visit
    requires array { ArrayKnown (held view.now) h }
    requires epoch { x.epoch < 4294967296 }
    ensures { VisitsArray (held view.now) h x result }
{
    if h.len <= x.position {
        return ended(x);
    }
    let w = item(view, h.mode, view.cells[(h.start + x.position) as usize]);
    let c = Cursor {
        last: None,
        pos: (x.position + 1) as usize,
        epoch: 0,
    };
    Visit {
        next: moved_to(c, x.position),
        item: Some(w),
    }
}

// The step of an iterator over the map with this header and these scalars.
fn visit_map(view: &HeapView<'_>, h: Header, y: MapScalars, x: IteratorScalars) -> Visit
    requires map { MapKnown view.now.cells.now h y }
    requires epoch { x.epoch < 4294967296 }
    ensures { VisitsMap (held view.now) h y x result }
{
    let map = map_in(view.cells, h, y);
    let s = map.step(cursor_of(x));
    let Some(p) = s.found else {
        return ended(x);
    };
    let Some(e) = map.entry(p) else {
        return ended(x);
    };
    Visit {
        next: moved_to(s.cursor, e.key),
        item: Some(item(view, y.values, e.value)),
    }
}

// The step of an iterator with this source and these scalars: once ended, it stays so.
fn advance(view: &HeapView<'_>, source: u64, x: IteratorScalars) -> Visit
    requires epoch { x.epoch < 4294967296 }
    ensures { Visits (held view.now) source x result }
{
    if x.ended != 0 {
        return Visit {
            next: x,
            item: None,
        };
    }
    let Ok(j) = heap_slots::find(view.slots, view.heap.fresh, source) else {
        return ended(x);
    };
    let h = heap_slots::read_header(view.slots, j);
    match h.kind {
        kinds::ARRAY => visit_array(view, h, x),
        kinds::MAP => visit_map(view, h, heap_slots::read_part(view.scalars, j), x),
        _ => ended(x),
    }
}

// The iterator that a word reaches.
fn iterator_at(view: &HeapView<'_>, w: u64) -> Result<IteratorRead, Refusal>
    ensures { IteratorAt (held view.now) w result }
{
    let i = lookup::locate(view.slots, view.heap.fresh, w, kinds::ITERATOR)?;
    Ok(IteratorRead {
        header: heap_slots::read_header(view.slots, i),
        scalars: heap_slots::read_part(view.scalars, i),
    })
}

// The word of the array or map that an iterator goes over.
pub fn iter_source(view: &HeapView<'_>, w: u64) -> Result<u64, Refusal>
    ensures { Reads (Calls.iter_source w) (held view.now) (reading_is result) }
{
    Ok(iterator_at(view, w)?.header.value)
}

// The type of an iterator's keys.
pub fn iter_key_type(view: &HeapView<'_>, w: u64) -> Result<u64, Refusal>
    ensures { Reads (Calls.iter_key_type w) (held view.now) (reading_is result) }
{
    Ok(iterator_at(view, w)?.header.mode)
}

// Whether an iterator has ended.
pub fn iter_ended(view: &HeapView<'_>, w: u64) -> Result<bool, Refusal>
    ensures { Reads (Calls.iter_ended w) (held view.now) (test_is result) }
{
    Ok(iterator_at(view, w)?.scalars.ended != 0)
}

// The key of the item visited last.
pub fn iter_key(view: &HeapView<'_>, w: u64) -> Result<Option<u64>, Refusal>
    ensures { Reads (Calls.iter_key w) (held view.now) (perhaps_is result) }
{
    let x = iterator_at(view, w)?.scalars;
    if x.keyed == 0 {
        Ok(None)
    } else {
        Ok(Some(x.key))
    }
}

// An iterator's cursor.
pub fn iter_cursor(view: &HeapView<'_>, w: u64) -> Result<CursorAt, Refusal>
    ensures { Reads (Calls.iter_cursor w) (held view.now) (cursor_seen result) }
{
    let p = iterator_at(view, w)?;
    if lookup::row_at(view.slots, view.heap.fresh, p.header.value) == kinds::ARRAY {
        Ok(CursorAt::Index(p.scalars.position))
    } else {
        Ok(CursorAt::Map(cursor_of(p.scalars)))
    }
}

// The next item of an iterator, or its end.
pub fn iter_next(
    heap: &Heap,
    slots: &[u64],
    scalars: &mut [u64],
    list: &[u64],
    directory: &[u64],
    cells: &[u64],
    w: u64,
) -> Result<Option<u64>, Refusal>
    requires { Good (state heap.now slots.now scalars.old list.now directory.now cells.now) }
    ensures { Performs (Calls.iter_next w) (state heap.now slots.now scalars.old list.now directory.now cells.now) (perhaps_is result) (state heap.now slots.now scalars.new list.now directory.now cells.now) }
{
    let i = lookup::locate(slots, heap.fresh, w, kinds::ITERATOR)?;
    let view = HeapView {
        heap: *heap,
        slots,
        scalars,
        list,
        directory,
        cells,
    };
    let x: IteratorScalars = heap_slots::read_part(scalars, i);
    let v = advance(&view, heap_slots::read_header(slots, i).value, x);
    heap_slots::write_scalars(scalars, i, Scalars::from(v.next));
    Ok(v.item)
}

// An iterator before its first item: source, and the type of its keys.
fn begin_iter(
    heap: &mut Heap,
    slots: &mut [u64],
    scalars: &mut [u64],
    list: &[u64],
    directory: &[u64],
    cells: &[u64],
    source: u64,
    keys: u64,
) -> Result<u64, Refusal>
    requires { Good (state heap.old slots.old scalars.old list.now directory.now cells.now) }
    ensures { Begins (state heap.old slots.old scalars.old list.now directory.now cells.now) source keys result (state heap.new slots.new scalars.new list.now directory.now cells.now) }
{
    let bytes = heap.weights.slot + heap.weights.iterator;
    let h = Header {
        kind: kinds::ITERATOR,
        value: source,
        mode: keys,
        ..Header::EMPTY
    };
    let x = Scalars::from(IteratorScalars {
        ended: 0,
        keyed: 0,
        key: 0,
        stepped: 0,
        last: 0,
        position: 0,
        epoch: 0,
    });
    making::new_with_scalars(heap, slots, scalars, list, directory, cells, h, x, bytes)
}

// Why there is no iterator over a source that reaches nothing.
#[tactic(auto, unfolding(heap::specs::Answers::missing))]
fn source_missed(miss: Miss) -> Refusal
    ensures { result ≡ missing miss }
{
    Refusal::from(miss)
}

// An iterator over an array or a map.
pub fn new_iter(
    heap: &mut Heap,
    slots: &mut [u64],
    scalars: &mut [u64],
    list: &[u64],
    directory: &[u64],
    cells: &[u64],
    source: u64,
) -> Result<u64, Refusal>
    requires { Good (state heap.old slots.old scalars.old list.now directory.now cells.now) }
    ensures { Performs (Calls.new_iter source) (state heap.old slots.old scalars.old list.now directory.now cells.now) (made_is result) (state heap.new slots.new scalars.new list.now directory.now cells.now) }
{
    let j = match heap_slots::find(slots, heap.fresh, source) {
        Ok(j) => j,
        Err(miss) => return Err(source_missed(miss)),
    };
    match heap_slots::read_header(slots, j).kind {
        kinds::ARRAY => begin_iter(heap, slots, scalars, list, directory, cells, source, 0),
        kinds::MAP => {
            let x: MapScalars = heap_slots::read_part(scalars, j);
            begin_iter(heap, slots, scalars, list, directory, cells, source, x.keys)
        }
        _ => Err(Refusal::OtherKind),
    }
}
