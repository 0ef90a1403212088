// Readings of maps.
ghost use Rattle.std.specs.Prelude.{◌≡◌};
ghost use Rattle.layout.specs.Layout.{is_traced};
ghost use Rattle.model.specs.Calls as Calls;
ghost use Rattle.heap.specs.Answers.{reading_is, test_is};
ghost use Rattle.heap.specs.Promise.{Reads};
ghost use Rattle.heap.specs.View.{held};
ghost use Rattle.collections_growth.specs.Answers.{perhaps_is};
ghost use Rattle.collections_maps.specs.Answers.{entry_seen, next_seen, noted_seen};
ghost use Rattle.collections_maps.specs.Reading.{PartsOfMap};

use crate::map_at;
use heap::{HeapView, Refusal, lookup};
use heap_slots::{Header, MapScalars, kinds};
use map_store::Stored;

// What a map's slot holds.
#[derive(Clone, Copy)]
struct MapParts {
    header: Header,
    scalars: MapScalars,
}

pub fn traced(t: u64) -> bool
    ensures { result ≡ is_traced t }
{
    1 <= t
}

// The header and the scalars of the map that a word reaches.
fn map_parts(view: &HeapView<'_>, w: u64) -> Result<MapParts, Refusal>
    ensures { PartsOfMap (held view.now) w result }
{
    let i = lookup::locate(view.slots, view.heap.fresh, w, kinds::MAP)?;
    Ok(MapParts {
        header: heap_slots::read_header(view.slots, i),
        scalars: heap_slots::read_part(view.scalars, i),
    })
}

// Live entries.
pub fn live_count(view: &HeapView<'_>, w: u64) -> Result<u64, Refusal>
    ensures { Reads (Calls.live_count w) (held view.now) (reading_is result) }
{
    Ok(map_parts(view, w)?.scalars.live)
}

// Places, dead ones included.
pub fn place_count(view: &HeapView<'_>, w: u64) -> Result<u64, Refusal>
    ensures { Reads (Calls.place_count w) (held view.now) (reading_is result) }
{
    Ok(map_parts(view, w)?.header.len)
}

// Whether a map is hashed.
pub fn is_hashed(view: &HeapView<'_>, w: u64) -> Result<bool, Refusal>
    ensures { Reads (Calls.is_hashed w) (held view.now) (test_is result) }
{
    Ok(map_parts(view, w)?.scalars.hashed != 0)
}

// The type of a map's keys.
pub fn key_type(view: &HeapView<'_>, w: u64) -> Result<u64, Refusal>
    ensures { Reads (Calls.key_type w) (held view.now) (reading_is result) }
{
    Ok(map_parts(view, w)?.scalars.keys)
}

// The type of its values.
pub fn value_type(view: &HeapView<'_>, w: u64) -> Result<u64, Refusal>
    ensures { Reads (Calls.value_type w) (held view.now) (reading_is result) }
{
    Ok(map_parts(view, w)?.scalars.values)
}

// A map's epoch: how often it was compacted, in 32 bits.
pub fn map_epoch(view: &HeapView<'_>, w: u64) -> Result<u64, Refusal>
    ensures { Reads (Calls.map_epoch w) (held view.now) (reading_is result) }
{
    Ok(map_parts(view, w)?.scalars.epoch)
}

// The next entry's sequence number.
pub fn next_sequence(view: &HeapView<'_>, w: u64) -> Result<u64, Refusal>
    ensures { Reads (Calls.next_sequence w) (held view.now) (reading_is result) }
{
    Ok(map_parts(view, w)?.scalars.next)
}

// The capacity of a map's entry list.
pub fn entry_capacity(view: &HeapView<'_>, w: u64) -> Result<u64, Refusal>
    ensures { Reads (Calls.entry_capacity w) (held view.now) (reading_is result) }
{
    Ok(map_parts(view, w)?.header.value)
}

// The length of its index.
pub fn index_length(view: &HeapView<'_>, w: u64) -> Result<u64, Refusal>
    ensures { Reads (Calls.index_length w) (held view.now) (reading_is result) }
{
    Ok(map_parts(view, w)?.header.mode)
}

// A map's greatest noted key.
pub fn noted_key(view: &HeapView<'_>, w: u64) -> Result<Option<i64>, Refusal>
    ensures { Reads (Calls.noted_key w) (held view.now) (noted_seen result) }
{
    Ok(map_at(view, w)?.map.store.noted)
}

// The integer key after the greatest noted one.
pub fn next_key(view: &HeapView<'_>, w: u64) -> Result<Option<i64>, Refusal>
    ensures { Reads (Calls.next_key w) (held view.now) (next_seen result) }
{
    Ok(map_at(view, w)?.map.store.next_int())
}

// The bytes that an insertion of this key is charged.
pub fn growth_bytes(view: &HeapView<'_>, w: u64, key: u64) -> Result<u64, Refusal>
    ensures { Reads (Calls.growth_bytes w key) (held view.now) (reading_is result) }
{
    let m = map_at(view, w)?;
    Ok(m.map.growth_bytes(view.heap.weights.entry, m.traced, key))
}

// The position of a key.
pub fn find(view: &HeapView<'_>, w: u64, hash: u64, key: u64) -> Result<Option<u64>, Refusal>
    ensures { Reads (Calls.find w hash key) (held view.now) (perhaps_is result) }
{
    let m = map_at(view, w)?;
    Ok(m.map.find(m.traced, hash, key).map(|pos| pos as u64))
}

// The entry at a position, live or dead.
pub fn read_entry(view: &HeapView<'_>, w: u64, pos: u64) -> Result<Stored, Refusal>
    ensures { Reads (Calls.read_entry w pos) (held view.now) (entry_seen result) }
{
    map_at(view, w)?
        .map
        .entry(pos as usize)
        .ok_or(Refusal::Outside)
}
