// Slots: a header of eight words for each slot in one lent slice, eight more words for the kinds
// that need them in a second one, the lookup of a word, and the free list. `kinds` has the rows of
// the table of kinds, `limits` the numbers of slots, cells and references. The lists are flat words, as
// C lends them: a slot is a place in them.
#![tactic(auto)]

pub mod kinds;
pub mod limits;

ghost use Rattle.std.specs.Prelude.{◌≡◌, ◌+◌, ◌*◌, ◌≤◌, ◌<◌, length, set};
ghost use Rattle.heap_slots.specs.Header.{emptied_header, header_at, set_header};
ghost use Rattle.heap_slots.specs.Scalars.{coroutine_part, iterator_part, map_part, scalars_at, scalars_of_coroutine, scalars_of_iterator, scalars_of_map, set_scalars};
ghost use Rattle.heap_slots.specs.Lookup.{Finds, missed};
ghost use Rattle.heap_slots.specs.FreeList.{Listed, Takes};
ghost use Rattle.heap_slots.specs.Limits.{BOX_FLAG, HasSlot, HasSlots, SLOT_WORDS, SLOTS_MAX};

use limits::{HALF, HALF_END, SLOT_WORDS, SPAN};

// half: HALF + tag, the upper half of the references to the slot's object; in a slot without an
// object the tag is the generation of its next one. kind: the object's row in the table of kinds,
// 0 for none. start, size: its region of the cells; entry: the region's place in the directory.
// value, mode and len are the kind's own.
#[derive(Clone, Copy)]
pub struct Header {
    pub half: u64,
    pub kind: u64,
    pub value: u64,
    pub mode: u64,
    pub len: u64,
    pub size: u64,
    pub start: u64,
    pub entry: u64,
}

impl Header {
    // What a new object's header is made from; half, start and entry come with the placing.
    pub const EMPTY: Header = Header {
        half: 0,
        kind: kinds::NONE,
        value: 0,
        mode: 0,
        len: 0,
        size: 0,
        start: 0,
        entry: 0,
    };

    // The header of a slot without its object. The other words stay, so that they need not be stored.
    pub fn emptied(self, half: u64) -> Header
        ensures { result ≡ emptied_header self half }
    {
        Header {
            half,
            kind: kinds::NONE,
            size: 0,
            ..self
        }
    }
}

// What a map, an iterator or a coroutine keeps beside its header.
#[derive(Clone, Copy)]
pub struct Scalars {
    pub a: u64,
    pub b: u64,
    pub c: u64,
    pub d: u64,
    pub e: u64,
    pub f: u64,
    pub g: u64,
    pub h: u64,
}

// A map's scalars: the types of its keys and values, whether it is hashed, whether the noted key is
// known, the noted key, the next sequence number, the epoch, the number of live entries.
// Its flags, and those below, are words: they stand in the lent list.
#[derive(Clone, Copy)]
pub struct MapScalars {
    pub keys: u64,
    pub values: u64,
    pub hashed: u64,
    pub known: u64,
    pub noted: u64,
    pub next: u64,
    pub epoch: u64,
    pub live: u64,
}

impl From<Scalars> for MapScalars {
    ghost from_gives = { λ x k. k ≡ map_part x };

    fn from(x: Scalars) -> Self {
        MapScalars {
            keys: x.a,
            values: x.b,
            hashed: x.c,
            known: x.d,
            noted: x.e,
            next: x.f,
            epoch: x.g,
            live: x.h,
        }
    }
}

impl From<MapScalars> for Scalars {
    ghost from_gives = { λ k x. x ≡ scalars_of_map k };

    fn from(k: MapScalars) -> Self {
        Scalars {
            a: k.keys,
            b: k.values,
            c: k.hashed,
            d: k.known,
            e: k.noted,
            f: k.next,
            g: k.epoch,
            h: k.live,
        }
    }
}

// An iterator's: whether it has ended; whether it stands at a key, and the key; of its cursor whether
// it has stepped, the last sequence number, the position and the epoch.
#[derive(Clone, Copy)]
pub struct IteratorScalars {
    pub ended: u64,
    pub keyed: u64,
    pub key: u64,
    pub stepped: u64,
    pub last: u64,
    pub position: u64,
    pub epoch: u64,
}

impl From<Scalars> for IteratorScalars {
    ghost from_gives = { λ x k. k ≡ iterator_part x };

    fn from(x: Scalars) -> Self {
        IteratorScalars {
            ended: x.a,
            keyed: x.b,
            key: x.c,
            stepped: x.d,
            last: x.e,
            position: x.f,
            epoch: x.g,
        }
    }
}

impl From<IteratorScalars> for Scalars {
    ghost from_gives = { λ k x. x ≡ scalars_of_iterator k };

    fn from(k: IteratorScalars) -> Self {
        Scalars {
            a: k.ended,
            b: k.keyed,
            c: k.key,
            d: k.stepped,
            e: k.last,
            f: k.position,
            g: k.epoch,
            h: 0,
        }
    }
}

// A coroutine's: whether it is finalized, its four words, the number of its frames.
#[derive(Clone, Copy)]
pub struct CoroutineScalars {
    pub finalized: u64,
    pub payload: u64,
    pub key: u64,
    pub result: u64,
    pub signal: u64,
    pub frames: u64,
}

impl From<Scalars> for CoroutineScalars {
    ghost from_gives = { λ x k. k ≡ coroutine_part x };

    fn from(x: Scalars) -> Self {
        CoroutineScalars {
            finalized: x.a,
            payload: x.b,
            key: x.c,
            result: x.d,
            signal: x.e,
            frames: x.f,
        }
    }
}

impl From<CoroutineScalars> for Scalars {
    ghost from_gives = { λ k x. x ≡ scalars_of_coroutine k };

    fn from(k: CoroutineScalars) -> Self {
        Scalars {
            a: k.finalized,
            b: k.payload,
            c: k.key,
            d: k.result,
            e: k.signal,
            f: k.frames,
            g: 0,
            h: 0,
        }
    }
}

// Where a kind's own words stand in a header.
pub const VALUE: usize = 2;

pub const MODE: usize = 3;

pub const LEN: usize = 4;

// Where a coroutine's words stand among its scalars.
pub const PAYLOAD: usize = 1;

pub const KEY: usize = 2;

pub const RESULT: usize = 3;

pub const SIGNAL: usize = 4;

pub const FRAMES: usize = 5;

// Why a word reaches no object. Dead: a reference that reaches nothing. Wrong: neither nil nor a
// reference.
#[derive(Clone, Copy, PartialEq, Eq, Debug)]
pub enum Miss {
    Nil,
    Dead,
    Wrong,
}

// The slot of a new object, the upper half of its reference, and the counts afterwards.
#[derive(Clone, Copy)]
pub struct TakenSlot {
    pub slot: u64,
    pub half: u64,
    pub fresh: u64,
    pub free: u64,
}

// Header and scalars are eight named words each: one function for both would take a trait whose two
// impls name them again.
#[tactic(auto, unfolding(crate::specs::Header::header_at))]
pub fn read_header(slots: &[u64], i: usize) -> Header
    requires { HasSlot slots.now i }
    ensures { result ≡ header_at slots.now i }
{
    let p = i * SLOT_WORDS;
    Header {
        half: slots[p],
        kind: slots[p + 1],
        value: slots[p + 2],
        mode: slots[p + 3],
        len: slots[p + 4],
        size: slots[p + 5],
        start: slots[p + 6],
        entry: slots[p + 7],
    }
}

#[tactic(auto, unfolding(crate::specs::Header::set_header))]
pub fn write_header(slots: &mut [u64], i: usize, h: Header)
    requires { HasSlot slots.old i }
    ensures { slots.new ≡ set_header slots.old i h }
{
    let p = i * SLOT_WORDS;
    slots[p] = h.half;
    slots[p + 1] = h.kind;
    slots[p + 2] = h.value;
    slots[p + 3] = h.mode;
    slots[p + 4] = h.len;
    slots[p + 5] = h.size;
    slots[p + 6] = h.start;
    slots[p + 7] = h.entry;
}

// Word K of slot i's header.
pub fn set_word<const K: usize>(slots: &mut [u64], i: usize, v: u64)
    requires fits { HasSlot slots.old i }
    requires word { K < SLOT_WORDS }
    ensures { slots.new ≡ set slots.old (i * SLOT_WORDS + K) v }
{
    slots[i * SLOT_WORDS + K] = v;
}

#[tactic(auto, unfolding(crate::specs::Scalars::scalars_at))]
pub fn read_scalars(scalars: &[u64], i: usize) -> Scalars
    requires { HasSlot scalars.now i }
    ensures { result ≡ scalars_at scalars.now i }
{
    let p = i * SLOT_WORDS;
    Scalars {
        a: scalars[p],
        b: scalars[p + 1],
        c: scalars[p + 2],
        d: scalars[p + 3],
        e: scalars[p + 4],
        f: scalars[p + 5],
        g: scalars[p + 6],
        h: scalars[p + 7],
    }
}

#[tactic(auto, unfolding(crate::specs::Scalars::set_scalars))]
pub fn write_scalars(scalars: &mut [u64], i: usize, x: Scalars)
    requires { HasSlot scalars.old i }
    ensures { scalars.new ≡ set_scalars scalars.old i x }
{
    let p = i * SLOT_WORDS;
    scalars[p] = x.a;
    scalars[p + 1] = x.b;
    scalars[p + 2] = x.c;
    scalars[p + 3] = x.d;
    scalars[p + 4] = x.e;
    scalars[p + 5] = x.f;
    scalars[p + 6] = x.g;
    scalars[p + 7] = x.h;
}

// What slot i keeps beside its header, as its kind reads it.
pub fn read_part<K: From<Scalars>>(scalars: &[u64], i: usize) -> K
    requires { HasSlot scalars.now i }
    ensures { K.from_gives (scalars_at scalars.now i) result }
{
    K::from(read_scalars(scalars, i))
}

// What a word whose upper half is u is, where it reaches no object.
#[tactic(auto, using(std::proofs::lemmas::Bool::Decides::nat_tests), unfolding(crate::specs::Lookup::missed))]
fn missed(u: u64) -> Miss
    ensures { result ≡ missed u }
{
    match u {
        1 | 2 | HALF_END.. => Miss::Wrong,
        HALF..HALF_END => Miss::Dead,
        _ => Miss::Nil,
    }
}

// The slot that a word reaches, among the first `fresh`: the hit is tested first.
pub fn find(slots: &[u64], fresh: u64, w: u64) -> Result<usize, Miss>
    requires { HasSlots slots.now fresh }
    ensures { Finds slots.now fresh w result }
{
    let upper = w / SPAN;
    let i = w % SPAN;
    let at = i as usize;
    let p = at * SLOT_WORDS;
    if i < fresh && slots[p] == upper && slots[p + 1] != kinds::NONE {
        Ok(at)
    } else {
        Err(missed(upper))
    }
}

// The slot for a new object: the free list's top, else the next that was never used. flag:
// BOX_FLAG for a box, else 0.
#[tactic(auto, using(std::proofs::lemmas::Bool::Decides::nat_tests), unfolding(crate::specs::FreeList::taken_slot, crate::specs::FreeList::taken_half, crate::specs::Header::header_at))]
pub fn take_slot(slots: &[u64], list: &[u64], fresh: u64, free: u64, flag: u64) -> TakenSlot
    requires { (fresh ≤ SLOTS_MAX) × (fresh * SLOT_WORDS ≤ length slots.now) × (free ≤ length list.now) × (flag ≤ BOX_FLAG) × Listed slots.now list.now fresh free }
    ensures { Takes slots.now list.now fresh free flag result }
{
    if free == 0 {
        TakenSlot {
            slot: fresh,
            half: HALF + flag,
            fresh: fresh + 1,
            free: 0,
        }
    } else {
        let last = (free - 1) as usize;
        let i = list[last];
        let p = i as usize * SLOT_WORDS;
        TakenSlot {
            slot: i,
            half: slots[p] + flag,
            fresh,
            free: free - 1,
        }
    }
}
