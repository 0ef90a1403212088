// Maps: readings, entries added, changed and removed, the cursor.
#![tactic(auto)]

pub mod changes;
pub mod readings;

ghost use Rattle.map_store.specs.View.{cursor_is};
ghost use Rattle.model.specs.Calls as Calls;
ghost use Rattle.heap.specs.Promise.{Reads};
ghost use Rattle.heap.specs.View.{held};
ghost use Rattle.collections_maps.specs.Answers.{step_seen, lent_seen};
ghost use Rattle.collections_maps.specs.Reading.{MapAt};

pub use changes::{Insertion, Removal};
use collections_growth::map_in;
use heap::{HeapView, Refusal, lookup};
use heap_slots::{MapScalars, kinds};
use map_store::{Cursor, Map, Stepped};
use readings::traced;

// The map that a word reaches, and whether its keys are traced.
#[derive(Clone, Copy)]
struct MapRead<'a> {
    map: Map<'a>,
    traced: bool,
}

// What a step leaves in a lent cursor, and the answer.
#[derive(Clone, Copy, Debug, PartialEq, Eq)]
struct Lent {
    cursor: Cursor,
    answer: Result<Option<u64>, Refusal>,
}

// The map that w reaches.
fn map_at<'a>(view: &HeapView<'a>, w: u64) -> Result<MapRead<'a>, Refusal>
    ensures { MapAt (held view.now) w result }
{
    let i = lookup::locate(view.slots, view.heap.fresh, w, kinds::MAP)?;
    let h = heap_slots::read_header(view.slots, i);
    let x: MapScalars = heap_slots::read_part(view.scalars, i);
    Ok(MapRead {
        map: map_in(view.cells, h, x),
        traced: traced(x.keys),
    })
}

// A cursor's step on a map, by value: what `next` does to the cursor that it is lent.
pub fn step_cursor(view: &HeapView<'_>, w: u64, c: Cursor) -> Result<Stepped, Refusal>
    ensures { Reads (Calls.next w (cursor_is c)) (held view.now) (step_seen (cursor_is c) result) }
{
    Ok(map_at(view, w)?.map.step(c))
}

// The same, with what stands in the cursor afterwards: a refusal leaves it as it was.
fn step_lent(view: &HeapView<'_>, w: u64, c: Cursor) -> Lent
    ensures { Reads (Calls.next w (cursor_is c)) (held view.now) (lent_seen (cursor_is result.cursor) result.answer) }
{
    match step_cursor(view, w, c) {
        Ok(s) => Lent {
            cursor: s.cursor,
            answer: Ok(s.found.map(|pos| pos as u64)),
        },
        Err(q) => Lent {
            cursor: c,
            answer: Err(q),
        },
    }
}

// The thin function: the cursor is lent, and moved to the next live entry.
pub fn next(view: &HeapView<'_>, w: u64, cursor: &mut Cursor) -> Result<Option<u64>, Refusal>
    ensures { Reads (Calls.next w (cursor_is cursor.old)) (held view.now) (lent_seen (cursor_is cursor.new) result) }
{
    let s = step_lent(view, w, *cursor);
    *cursor = s.cursor;
    s.answer
}
