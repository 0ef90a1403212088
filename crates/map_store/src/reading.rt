// A store read: its record and the cells that it is in.
ghost use Rattle.std.specs.Prelude.{◌≡◌, ℕ, ◌+◌, ◌*◌, ◌≤◌, if◌then◌else◌, nat_eq};
ghost use Rattle.map_store.specs.Store as S;
ghost use Rattle.map_store.specs.View.{store_of, room_of, room_is, position, got_is, entry_answer, cursor_is, later_is, step_is};
ghost use Rattle.map_store.specs.Later.{searched};
ghost use Rattle.map_store.specs.Map.{Good};
ghost use Rattle.map_store.specs.Once.{good-prop};

use crate::{Cursor, Later, MapStore, Room, Stepped, Stored, doubled_index, index_for, read_entry};

#[derive(Clone, Copy)]
pub struct Map<'a> {
    pub store: MapStore,
    pub cells: &'a [u64],
    pub ghost good: { Good store cells.now } by { good-prop store cells.now },
}

impl Map<'_> {
    // Live entries.
    pub fn len(&self) -> usize
        ensures { result ≡ S.living (store_of self.now.store self.now.cells.now) }
    {
        self.store.live
    }

    // The entry at a position, live or dead.
    pub fn entry(&self, pos: usize) -> Option<Stored>
        ensures { got_is result ≡ entry_answer pos (store_of self.now.store self.now.cells.now) }
    {
        if pos < self.store.len {
            Some(read_entry(self.cells, pos))
        } else {
            None
        }
    }

    pub fn find(&self, traced: bool, hash: u64, key: u64) -> Option<usize>
        ensures { position result ≡ S.find traced hash key (store_of self.now.store self.now.cells.now) }
    {
        let store = self.store;
        if store.hashed {
            let index = store.places();
            return index
                .seek(self.cells, store.len, hash, key)
                .map(|seat| seat.pos);
        }
        if !traced && key < store.len as u64 {
            Some(key as usize)
        } else {
            None
        }
    }

    // The room after an insertion of this key.
    pub fn room_after_insert(&self, traced: bool, key: u64) -> Room
        ensures { room_is result ≡ S.room_after_insert traced key (store_of self.now.store self.now.cells.now) (room_of self.now.store) }
    {
        let store = self.store;
        if store.same_room(traced, key) {
            return store.room();
        }
        let capacity = store.grown();
        if store.stays_packed(traced, key) {
            return Room {
                capacity,
                index: store.index,
            };
        }
        let index = doubled_index(store.hashed_index(), store.live);
        Room { capacity, index }
    }

    // The room after a removal.
    pub fn room_after_remove(&self) -> Room
        ensures { room_is result ≡ S.room_after_remove (store_of self.now.store self.now.cells.now) (room_of self.now.store) }
    {
        Room {
            capacity: self.store.capacity,
            index: self.store.hashed_index(),
        }
    }

    // The cells that the store wants to be lent for an insertion of this key.
    pub fn cells_after_insert(&self, traced: bool, key: u64) -> usize
        ensures { result ≡ S.cells_of (S.room_after_insert traced key (store_of self.now.store self.now.cells.now) (room_of self.now.store)) }
    {
        self.room_after_insert(traced, key).cells()
    }

    // The cells that the store wants to be lent for a removal.
    pub fn cells_after_remove(&self) -> usize
        ensures { result ≡ S.cells_of (S.room_after_remove (store_of self.now.store self.now.cells.now) (room_of self.now.store)) }
    {
        self.room_after_remove().cells()
    }

    // Bytes that an insertion of this key is charged.
    pub fn growth_bytes(&self, weight: u64, traced: bool, key: u64) -> u64
        requires { weight ≤ 4096 }
        ensures { result ≡ S.bytes_of_growth weight traced key (store_of self.now.store self.now.cells.now) (room_of self.now.store) }
    {
        let store = self.store;
        let entries = store.entries_growth(weight);
        if store.stays_packed(traced, key) {
            return entries;
        }
        let need = index_for(store.live + 1);
        if store.index < need {
            entries + 4 * need as u64
        } else {
            entries
        }
    }

    // The first entry with a later sequence number than q, sought from the last entry backwards.
    pub fn first_later(&self, q: u64) -> Later
        ensures { later_is result ≡ searched q (store_of self.now.store self.now.cells.now).entries }
    {
        let len = self.store.len;
        for pos in (0..len).rev() {
            if self.cells[pos * 5 + 3] <= q {
                return Later {
                    pos: pos + 1,
                    looked: len - pos,
                };
            }
        }
        Later {
            pos: 0,
            looked: len,
        }
    }

    // Where a step of a cursor begins.
    fn start_of(&self, c: Cursor) -> usize
        ensures { result ≡ S.start_of (cursor_is c).last c.pos c.epoch (store_of self.now.store self.now.cells.now) }
    {
        match c.last {
            None => 0,
            Some(_) if c.epoch == self.store.epoch => c.pos,
            Some(q) => self.first_later(q).pos,
        }
    }

    // The first live entry from position p on.
    fn live_from(&self, p: usize) -> Option<usize>
        ensures { position result ≡ S.live_from p (store_of self.now.store self.now.cells.now).entries 0 }
    {
        for pos in p..self.store.len {
            if self.cells[pos * 5 + 4] == 1 {
                return Some(pos);
            }
        }
        None
    }

    // The next live entry after the cursor, and the cursor afterwards.
    pub fn step(&self, c: Cursor) -> Stepped
        ensures { step_is result ≡ S.next_of (store_of self.now.store self.now.cells.now) (cursor_is c) }
    {
        let start = self.start_of(c);
        let found = self.live_from(start);
        let (last, pos) = match found {
            Some(p) => (Some(self.cells[p * 5 + 3]), p + 1),
            None => (c.last, start.max(self.store.len)),
        };
        Stepped {
            cursor: Cursor {
                last,
                pos,
                epoch: self.store.epoch,
            },
            found,
        }
    }
}
