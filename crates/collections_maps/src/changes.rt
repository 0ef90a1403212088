// New maps, and changes of maps.
ghost use Rattle.std.specs.Prelude.{is_some, ◌≡◌, ◌+◌, ◌*◌, ◌≤◌, ◌<◌, length};
ghost use Rattle.heap_slots.specs.Kinds.{MAP};
ghost use Rattle.heap_slots.specs.Limits.{SLOT_WORDS, SLOTS_MAX};
ghost use Rattle.map_store.specs.Store as Maps;
ghost use Rattle.map_store.specs.Map as MapFacts;
ghost use Rattle.heap_cells.specs.Regions.{region_of};
ghost use Rattle.model.specs.Calls as Calls;
ghost use Rattle.heap.specs.Answers.{done_is, made_is};
ghost use Rattle.heap.specs.State.{state};
ghost use Rattle.heap.specs.Good.{Good};
ghost use Rattle.heap.specs.Promise.{Performs};
ghost use Rattle.heap.proofs.ReachLaws.{Target};
ghost use Rattle.heap.proofs.StepLaws.{OwnCells};
ghost use Rattle.collections_maps.specs.Written.{MapWritten, flag_of, noted_bits};
ghost use Rattle.heap.specs.Kinds.{noted_from};
ghost use Rattle.collections_maps.specs.Changes.{Inserting, Removing, RemovingKey, InRegion, IsMap, InsertAsks, Inserts, Ready, RemoveAsks, Removes, Rewritten, cells_at, room_after, room_without, room_without_key};

use crate::readings;
use collections_growth::{longer, map_in, map_of};
use heap::{Heap, Refusal, lookup, zero_fits};
use heap_allocation::making;
use heap_slots::{Header, MapScalars, Scalars, kinds};
use map_store::MapStore;

// What an insertion into a map asks: the bytes that it is charged, the cells that the map then has,
// and how many more these are.
#[derive(Clone, Copy, Debug, PartialEq, Eq)]
pub struct Insertion {
    pub map: MapStore,
    pub bytes: u64,
    pub size: u64,
    pub more: u64,
    pub traced: bool,
}

// What a removal from a map asks: the cells that the map then has, and how many more these are.
#[derive(Clone, Copy, Debug, PartialEq, Eq)]
pub struct Removal {
    pub map: MapStore,
    pub size: u64,
    pub more: u64,
}

// The noted key's word, 0 where there is none.
fn noted_word(noted: Option<i64>) -> u64
    ensures word { result ≡ noted_bits noted }
    ensures back { noted_from (flag_of (is_some noted)) result ≡ noted }
{
    match noted {
        Some(k) => words::bits_of(k),
        None => 0,
    }
}

// The map's record, written to the header and the scalars of slot i.
fn write_map(slots: &mut [u64], scalars: &mut [u64], i: usize, s: MapStore)
    requires { (i < SLOTS_MAX) × (i * SLOT_WORDS + SLOT_WORDS ≤ length slots.old) × (i * SLOT_WORDS + SLOT_WORDS ≤ length scalars.old) }
    ensures { MapWritten slots.old scalars.old slots.new scalars.new i s }
{
    let h = heap_slots::read_header(slots, i);
    let x: MapScalars = heap_slots::read_part(scalars, i);
    heap_slots::write_header(
        slots,
        i,
        Header {
            value: s.capacity as u64,
            mode: s.index as u64,
            len: s.len as u64,
            ..h
        },
    );
    let y = MapScalars {
        hashed: u64::from(s.hashed),
        known: u64::from(s.noted.is_some()),
        noted: noted_word(s.noted),
        next: s.fresh,
        epoch: u64::from(s.epoch),
        live: s.live as u64,
        ..x
    };
    heap_slots::write_scalars(scalars, i, Scalars::from(y));
}

// The value of a map's entry, set in the map's cells.
fn set_value_in(cells: &mut [u64], h: Header, s: MapStore, pos: usize, v: u64)
    requires inside { h.start + h.size ≤ length cells.old }
    requires good { MapFacts.Good s (region_of h cells.old) }
    ensures own { OwnCells cells.old cells.new h.start h.size }
    ensures value { MapFacts.Valued pos v s (region_of h cells.old) (region_of h cells.new) }
{
    let from = h.start as usize;
    let to = from + h.size as usize;
    s.set_value(&mut cells[from..to], pos, v);
}

// An entry added in the map's cells, where there is room for it.
fn insert_in(
    cells: &mut [u64],
    h: Header,
    s: MapStore,
    traced: bool,
    hash: u64,
    key: u64,
    value: u64,
) -> MapStore
    requires { Inserting cells.old h s traced key }
    ensures { InRegion (Maps.inserted traced hash key value) (room_after traced key s (region_of h cells.old)) h s cells.old result cells.new }
{
    let from = h.start as usize;
    let to = from + h.size as usize;
    let mut r = s;
    r.insert(&mut cells[from..to], traced, hash, key, value);
    r
}

// An entry removed in the map's cells, where there is room for the index.
fn remove_in(cells: &mut [u64], h: Header, s: MapStore, pos: usize) -> MapStore
    requires { Removing cells.old h s }
    ensures { InRegion (Maps.removed_at pos) (room_without s (region_of h cells.old)) h s cells.old result cells.new }
{
    let from = h.start as usize;
    let to = from + h.size as usize;
    let mut r = s;
    r.remove(&mut cells[from..to], pos);
    r
}

// The entry of a key removed in the map's cells, where there is room for the index.
fn remove_key_in(
    cells: &mut [u64],
    h: Header,
    s: MapStore,
    traced: bool,
    hash: u64,
    key: u64,
) -> MapStore
    requires { RemovingKey cells.old h s traced hash key }
    ensures { InRegion (Maps.removed_key traced hash key) (room_without_key traced hash key s (region_of h cells.old)) h s cells.old result cells.new }
{
    let from = h.start as usize;
    let to = from + h.size as usize;
    let mut r = s;
    r.remove_key(&mut cells[from..to], traced, hash, key);
    r
}

fn insertion_of(
    heap: &Heap,
    slots: &[u64],
    scalars: &[u64],
    list: &[u64],
    directory: &[u64],
    cells: &[u64],
    i: usize,
    key: u64,
) -> Insertion
    requires good { Good (state heap.now slots.now scalars.now list.now directory.now cells.now) }
    requires map { IsMap (state heap.now slots.now scalars.now list.now directory.now cells.now) i }
    ensures { InsertAsks (state heap.now slots.now scalars.now list.now directory.now cells.now) i key result }
{
    let h = heap_slots::read_header(slots, i);
    let x: MapScalars = heap_slots::read_part(scalars, i);
    let map = map_in(cells, h, x);
    let t = readings::traced(x.keys);
    let size = map.cells_after_insert(t, key) as u64;
    Insertion {
        map: map.store,
        bytes: map.growth_bytes(heap.weights.entry, t, key),
        size,
        more: size - h.size,
        traced: t,
    }
}

// The region of the map s in slot i made `size` cells long, and an entry added.
fn insert_grown(
    heap: &mut Heap,
    slots: &mut [u64],
    scalars: &mut [u64],
    list: &[u64],
    directory: &mut [u64],
    cells: &mut [u64],
    i: usize,
    s: MapStore,
    traced: bool,
    hash: u64,
    key: u64,
    value: u64,
    size: u64,
)
    requires good { Good (state heap.old slots.old scalars.old list.now directory.old cells.old) }
    requires ready { Ready (state heap.old slots.old scalars.old list.now directory.old cells.old) i s (room_after traced key s (cells_at (state heap.old slots.old scalars.old list.now directory.old cells.old) i)) size }
    requires number { s.fresh < 4294967296 }
    ensures { Rewritten (state heap.old slots.old scalars.old list.now directory.old cells.old) i size s (Maps.inserted traced hash key value) (room_after traced key s (cells_at (state heap.old slots.old scalars.old list.now directory.old cells.old) i)) (state heap.new slots.new scalars.new list.now directory.new cells.new) }
{
    longer(heap, slots, scalars, list, directory, cells, i, size);
    let h = heap_slots::read_header(slots, i);
    let n = insert_in(cells, h, s, traced, hash, key, value);
    write_map(slots, scalars, i, n);
}

// An entry added to the map in slot i, whatever is there: 9, 5, 7.
fn insert_at(
    heap: &mut Heap,
    slots: &mut [u64],
    scalars: &mut [u64],
    list: &[u64],
    directory: &mut [u64],
    cells: &mut [u64],
    i: usize,
    hash: u64,
    key: u64,
    value: u64,
) -> Result<(), Refusal>
    requires good { Good (state heap.old slots.old scalars.old list.now directory.old cells.old) }
    requires map { IsMap (state heap.old slots.old scalars.old list.now directory.old cells.old) i }
    ensures { Inserts (state heap.old slots.old scalars.old list.now directory.old cells.old) i hash key value (done_is result) (state heap.new slots.new scalars.new list.now directory.new cells.new) }
{
    let p = insertion_of(heap, slots, scalars, list, directory, cells, i, key);
    if 4294967296 <= p.map.fresh {
        return Err(Refusal::Spent);
    }
    let account = heap.account.charge(p.bytes)?;
    if cells.len() as u64 - heap.taken < p.more {
        return Err(Refusal::NoCells);
    }
    insert_grown(
        heap, slots, scalars, list, directory, cells, i, p.map, p.traced, hash, key, value, p.size,
    );
    heap.account = account;
    heap.taken += p.more;
    Ok(())
}

fn removal_of(
    heap: &Heap,
    slots: &[u64],
    scalars: &[u64],
    list: &[u64],
    directory: &[u64],
    cells: &[u64],
    i: usize,
) -> Removal
    requires good { Good (state heap.now slots.now scalars.now list.now directory.now cells.now) }
    requires map { IsMap (state heap.now slots.now scalars.now list.now directory.now cells.now) i }
    ensures { RemoveAsks (state heap.now slots.now scalars.now list.now directory.now cells.now) i result }
{
    let h = heap_slots::read_header(slots, i);
    let x: MapScalars = heap_slots::read_part(scalars, i);
    let map = map_in(cells, h, x);
    let size = map.cells_after_remove() as u64;
    Removal {
        map: map.store,
        size,
        more: size - h.size,
    }
}

// The region of the map s in slot i made `size` cells long, and an entry removed.
fn remove_grown(
    heap: &mut Heap,
    slots: &mut [u64],
    scalars: &mut [u64],
    list: &[u64],
    directory: &mut [u64],
    cells: &mut [u64],
    i: usize,
    s: MapStore,
    pos: usize,
    size: u64,
)
    requires good { Good (state heap.old slots.old scalars.old list.now directory.old cells.old) }
    requires ready { Ready (state heap.old slots.old scalars.old list.now directory.old cells.old) i s (room_without s (cells_at (state heap.old slots.old scalars.old list.now directory.old cells.old) i)) size }
    ensures { Rewritten (state heap.old slots.old scalars.old list.now directory.old cells.old) i size s (Maps.removed_at pos) (room_without s (cells_at (state heap.old slots.old scalars.old list.now directory.old cells.old) i)) (state heap.new slots.new scalars.new list.now directory.new cells.new) }
{
    longer(heap, slots, scalars, list, directory, cells, i, size);
    let h = heap_slots::read_header(slots, i);
    let n = remove_in(cells, h, s, pos);
    write_map(slots, scalars, i, n);
}

// The entry at a position of the map in slot i removed: 7, where the map becomes hashed.
fn remove_place(
    heap: &mut Heap,
    slots: &mut [u64],
    scalars: &mut [u64],
    list: &[u64],
    directory: &mut [u64],
    cells: &mut [u64],
    i: usize,
    pos: usize,
) -> Result<(), Refusal>
    requires good { Good (state heap.old slots.old scalars.old list.now directory.old cells.old) }
    requires map { IsMap (state heap.old slots.old scalars.old list.now directory.old cells.old) i }
    ensures { Removes (state heap.old slots.old scalars.old list.now directory.old cells.old) i pos (done_is result) (state heap.new slots.new scalars.new list.now directory.new cells.new) }
{
    let p = removal_of(heap, slots, scalars, list, directory, cells, i);
    if cells.len() as u64 - heap.taken < p.more {
        return Err(Refusal::NoCells);
    }
    remove_grown(
        heap, slots, scalars, list, directory, cells, i, p.map, pos, p.size,
    );
    heap.taken += p.more;
    Ok(())
}

// The value of the entry at a position; outside nothing changes.
pub fn set_value(
    heap: &Heap,
    slots: &[u64],
    scalars: &[u64],
    list: &[u64],
    directory: &[u64],
    cells: &mut [u64],
    w: u64,
    pos: u64,
    v: u64,
) -> Result<(), Refusal>
    requires { Good (state heap.now slots.now scalars.now list.now directory.now cells.old) }
    ensures { Performs (Calls.set_value w pos v) (state heap.now slots.now scalars.now list.now directory.now cells.old) (done_is result) (state heap.now slots.now scalars.now list.now directory.now cells.new) }
{
    let i = lookup::locate(slots, heap.fresh, w, kinds::MAP)?;
    let h = heap_slots::read_header(slots, i);
    let x: MapScalars = heap_slots::read_part(scalars, i);
    set_value_in(cells, h, map_of(h, x), pos as usize, v);
    Ok(())
}

// The integer key k was added.
pub fn note(
    heap: &Heap,
    slots: &mut [u64],
    scalars: &mut [u64],
    list: &[u64],
    directory: &[u64],
    cells: &[u64],
    w: u64,
    k: i64,
) -> Result<(), Refusal>
    requires { Good (state heap.now slots.old scalars.old list.now directory.now cells.now) }
    ensures { Performs (Calls.note w k) (state heap.now slots.old scalars.old list.now directory.now cells.now) (done_is result) (state heap.now slots.new scalars.new list.now directory.now cells.now) }
{
    let i = lookup::locate(slots, heap.fresh, w, kinds::MAP)?;
    let h = heap_slots::read_header(slots, i);
    let x: MapScalars = heap_slots::read_part(scalars, i);
    let mut s = map_of(h, x);
    s.note_int_key(k);
    write_map(slots, scalars, i, s);
    Ok(())
}

// An entry added to a map, whatever is there.
pub fn insert_entry(
    heap: &mut Heap,
    slots: &mut [u64],
    scalars: &mut [u64],
    list: &[u64],
    directory: &mut [u64],
    cells: &mut [u64],
    w: u64,
    hash: u64,
    key: u64,
    value: u64,
) -> Result<(), Refusal>
    requires { Good (state heap.old slots.old scalars.old list.now directory.old cells.old) }
    ensures { Performs (Calls.insert_entry w hash key value) (state heap.old slots.old scalars.old list.now directory.old cells.old) (done_is result) (state heap.new slots.new scalars.new list.now directory.new cells.new) }
{
    let i = lookup::locate(slots, heap.fresh, w, kinds::MAP)?;
    insert_at(
        heap, slots, scalars, list, directory, cells, i, hash, key, value,
    )
}

// The value of a key in the map that w reaches, in slot i.
fn put_at(
    heap: &mut Heap,
    slots: &mut [u64],
    scalars: &mut [u64],
    list: &[u64],
    directory: &mut [u64],
    cells: &mut [u64],
    w: u64,
    i: usize,
    hash: u64,
    key: u64,
    value: u64,
) -> Result<(), Refusal>
    requires good { Good (state heap.old slots.old scalars.old list.now directory.old cells.old) }
    requires map { Target (state heap.old slots.old scalars.old list.now directory.old cells.old) w i MAP }
    ensures { Performs (Calls.put w hash key value) (state heap.old slots.old scalars.old list.now directory.old cells.old) (done_is result) (state heap.new slots.new scalars.new list.now directory.new cells.new) }
{
    let h = heap_slots::read_header(slots, i);
    let x: MapScalars = heap_slots::read_part(scalars, i);
    let map = map_in(cells, h, x);
    let s = map.store;
    match map.find(readings::traced(x.keys), hash, key) {
        None => insert_at(
            heap, slots, scalars, list, directory, cells, i, hash, key, value,
        ),
        Some(pos) => {
            if !zero_fits(heap.account) {
                return Err(Refusal::OverBudget);
            }
            set_value_in(cells, h, s, pos, value);
            Ok(())
        }
    }
}

// The value of a key: overwritten where the key is found, else an entry is added.
pub fn put(
    heap: &mut Heap,
    slots: &mut [u64],
    scalars: &mut [u64],
    list: &[u64],
    directory: &mut [u64],
    cells: &mut [u64],
    w: u64,
    hash: u64,
    key: u64,
    value: u64,
) -> Result<(), Refusal>
    requires { Good (state heap.old slots.old scalars.old list.now directory.old cells.old) }
    ensures { Performs (Calls.put w hash key value) (state heap.old slots.old scalars.old list.now directory.old cells.old) (done_is result) (state heap.new slots.new scalars.new list.now directory.new cells.new) }
{
    let i = lookup::locate(slots, heap.fresh, w, kinds::MAP)?;
    put_at(
        heap, slots, scalars, list, directory, cells, w, i, hash, key, value,
    )
}

// The entry at a position removed. A packed map becomes hashed, also where no live entry is there.
pub fn remove_at(
    heap: &mut Heap,
    slots: &mut [u64],
    scalars: &mut [u64],
    list: &[u64],
    directory: &mut [u64],
    cells: &mut [u64],
    w: u64,
    pos: u64,
) -> Result<(), Refusal>
    requires { Good (state heap.old slots.old scalars.old list.now directory.old cells.old) }
    ensures { Performs (Calls.remove_at w pos) (state heap.old slots.old scalars.old list.now directory.old cells.old) (done_is result) (state heap.new slots.new scalars.new list.now directory.new cells.new) }
{
    let i = lookup::locate(slots, heap.fresh, w, kinds::MAP)?;
    remove_place(
        heap,
        slots,
        scalars,
        list,
        directory,
        cells,
        i,
        pos as usize,
    )
}

// The entry of a key removed from the map that w reaches, in slot i.
fn remove_found(
    heap: &mut Heap,
    slots: &mut [u64],
    scalars: &mut [u64],
    list: &[u64],
    directory: &mut [u64],
    cells: &mut [u64],
    w: u64,
    i: usize,
    hash: u64,
    key: u64,
) -> Result<(), Refusal>
    requires good { Good (state heap.old slots.old scalars.old list.now directory.old cells.old) }
    requires map { Target (state heap.old slots.old scalars.old list.now directory.old cells.old) w i MAP }
    ensures { Performs (Calls.remove w hash key) (state heap.old slots.old scalars.old list.now directory.old cells.old) (done_is result) (state heap.new slots.new scalars.new list.now directory.new cells.new) }
{
    let h = heap_slots::read_header(slots, i);
    let x: MapScalars = heap_slots::read_part(scalars, i);
    let s = map_of(h, x);
    let t = readings::traced(x.keys);
    if s.hashed {
        let n = remove_key_in(cells, h, s, t, hash, key);
        write_map(slots, scalars, i, n);
        return Ok(());
    }
    match map_in(cells, h, x).find(t, hash, key) {
        None => Ok(()),
        Some(pos) => remove_place(heap, slots, scalars, list, directory, cells, i, pos),
    }
}

// The entry of a key removed; an absent key's removal changes nothing, and a hashed map's takes no cells.
pub fn remove(
    heap: &mut Heap,
    slots: &mut [u64],
    scalars: &mut [u64],
    list: &[u64],
    directory: &mut [u64],
    cells: &mut [u64],
    w: u64,
    hash: u64,
    key: u64,
) -> Result<(), Refusal>
    requires { Good (state heap.old slots.old scalars.old list.now directory.old cells.old) }
    ensures { Performs (Calls.remove w hash key) (state heap.old slots.old scalars.old list.now directory.old cells.old) (done_is result) (state heap.new slots.new scalars.new list.now directory.new cells.new) }
{
    let i = lookup::locate(slots, heap.fresh, w, kinds::MAP)?;
    remove_found(
        heap, slots, scalars, list, directory, cells, w, i, hash, key,
    )
}

// A map without entries.
pub fn new_map(
    heap: &mut Heap,
    slots: &mut [u64],
    scalars: &mut [u64],
    list: &[u64],
    directory: &[u64],
    cells: &[u64],
    keys: u64,
    values: u64,
) -> Result<u64, Refusal>
    requires { Good (state heap.old slots.old scalars.old list.now directory.now cells.now) }
    ensures { Performs (Calls.new_map keys values) (state heap.old slots.old scalars.old list.now directory.now cells.now) (made_is result) (state heap.new slots.new scalars.new list.now directory.now cells.now) }
{
    if 2 < keys || 2 < values {
        return Err(Refusal::BadType);
    }
    let bytes = heap.weights.slot;
    let h = Header {
        kind: kinds::MAP,
        ..Header::EMPTY
    };
    let x = Scalars::from(MapScalars {
        keys,
        values,
        hashed: 0,
        known: 0,
        noted: 0,
        next: 0,
        epoch: 0,
        live: 0,
    });
    making::new_with_scalars(heap, slots, scalars, list, directory, cells, h, x, bytes)
}
