// The index: places of 32 bits, two to a cell.
ghost use Rattle.std.specs.Prelude.{◌≡◌, ℕ, ◌+◌, ◌*◌, ◌/◌, ◌<◌, ◌≤◌, length, slice_index, slice_set};
ghost use Rattle.probing.specs.Table.{vacancy};
ghost use Rattle.map_store.specs.Half.{half, put, held, mark_of};
ghost use Rattle.map_store.specs.Store as S;
ghost use Rattle.map_store.specs.View.{seek_is, entries_in};
ghost use Rattle.map_store.specs.Map.{Mapped, Framed, Alive, Sits, SitsIn, Rebuildable, Rebuilt, Wiped};

// An empty place.
const EMPTY: u64 = 4294967295;

// `len` places from cell `at` on.
#[derive(Clone, Copy)]
pub(crate) struct Index {
    pub(crate) at: usize,
    pub(crate) len: usize,
}

// A place of the index and the position in it.
#[derive(Clone, Copy)]
pub(crate) struct Seat {
    pub(crate) slot: usize,
    pub(crate) pos: usize,
}

// What a place has of a hash: bits 18 to 31.
fn mark(hash: u64) -> u64
    ensures { result ≡ mark_of hash }
{
    hash % 4294967296 / 262144 * 262144
}

impl Index {
    // A shift, since no branch on the slot could be foreseen; a part, since a loop over slots then adds `at` once.
    fn peek(self, cells: &[u64], slot: usize) -> u64
        requires { self.at + slot / 2 < length cells.now }
        ensures { result ≡ half cells.now self.at slot }
    {
        let part = &cells[self.at..];
        let word = part[slot / 2];
        (word >> (slot % 2 * 32)) % 4294967296
    }

    fn poke(self, cells: &mut [u64], slot: usize, v: u64)
        requires inside { self.at + slot / 2 < length cells.old }
        requires fits { v < 4294967296 }
        ensures { cells.new ≡ put cells.old self.at slot v }
    {
        let part = &mut cells[self.at..];
        let word = part[slot / 2];
        let shift = slot % 2 * 32;
        let old = (word >> shift) % 4294967296;
        part[slot / 2] = word - (old << shift) + (v << shift);
    }

    // Gives the entry at pos, which comes after those of the index, a place.
    pub(crate) fn place(self, cells: &mut [u64], pos: usize)
        requires mapped { Mapped cells.old self.at self.len pos }
        requires entry { ((pos + 1) * 5 ≤ self.at) × (slice_index cells.old (pos * 5 + 4) ≡ 1) × (pos < 262143) }
        requires room { 1 < vacancy self.len (held cells.old self.at) }
        ensures mapped { Mapped cells.new self.at self.len (pos + 1) }
        ensures frame { Framed cells.old cells.new self.at self.len }
        ensures room { vacancy self.len (held cells.new self.at) + 1 ≡ vacancy self.len (held cells.old self.at) }
    {
        let mask = self.len - 1;
        let hash = cells[pos * 5];
        let mut slot = hash as usize & mask;
        // Round the index, to a place that no count foretells: so is every walk here.
        while self.peek(cells, slot) != EMPTY {
            slot = (slot + 1) & mask;
        }
        self.poke(cells, slot, mark(hash) + pos as u64);
    }

    // The place of the live position pos of m entries.
    pub(crate) fn slot_of(self, cells: &[u64], m: usize, pos: usize) -> usize
        requires mapped { Mapped cells.now self.at self.len m }
        requires live { Alive cells.now m pos }
        ensures { Sits cells.now self.at self.len m result pos }
    {
        let mask = self.len - 1;
        let hash = cells[pos * 5];
        let mut slot = hash as usize & mask;
        let word = mark(hash) + pos as u64;
        while self.peek(cells, slot) != word {
            slot = (slot + 1) & mask;
        }
        slot
    }

    // Marks the live entry of this seat dead and removes it from the index: what stands behind it moves back (Knuth 6.4,
    // algorithm R).
    pub(crate) fn unplace(self, cells: &mut [u64], m: usize, seat: Seat)
        requires mapped { Mapped cells.old self.at self.len m }
        requires seat { Sits cells.old self.at self.len m seat.slot seat.pos }
        ensures mapped { Mapped cells.new self.at self.len m }
        ensures frame { Framed (slice_set cells.old (seat.pos * 5 + 4) 0) cells.new self.at self.len }
        ensures room { vacancy self.len (held cells.new self.at) ≡ vacancy self.len (held cells.old self.at) + 1 }
    {
        cells[seat.pos * 5 + 4] = 0;
        let mask = self.len - 1;
        let mut hole = seat.slot;
        let mut next = (seat.slot + 1) & mask;
        loop {
            let word = self.peek(cells, next);
            if word == EMPTY {
                break;
            }
            let p = (word % 262144) as usize;
            let ideal = cells[p * 5] as usize & mask;
            let dist_next = next.wrapping_sub(ideal) & mask;
            let dist_hole = hole.wrapping_sub(ideal) & mask;
            if dist_hole < dist_next {
                self.poke(cells, hole, word);
                hole = next;
            }
            next = (next + 1) & mask;
        }
        self.poke(cells, hole, EMPTY);
    }

    // The first live entry of this hash and key, of m, and its place.
    pub(crate) fn seek(self, cells: &[u64], m: usize, hash: u64, key: u64) -> Option<Seat>
        requires { Mapped cells.now self.at self.len m }
        ensures answer { seek_is result ≡ S.find_from hash key (entries_in cells.now 0 m) 0 }
        ensures seat { SitsIn cells.now self.at self.len m result }
    {
        let mask = self.len - 1;
        let mut slot = hash as usize & mask;
        let mine = mark(hash);
        loop {
            let word = self.peek(cells, slot);
            if word == EMPTY {
                return None;
            }
            let rest = word.wrapping_sub(mine);
            if rest < 262144 {
                let pos = rest as usize;
                let at = pos * 5;
                let h = cells[at];
                let k = cells[at + 1];
                if h == hash && k == key {
                    return Some(Seat { slot, pos });
                }
            }
            slot = (slot + 1) & mask;
        }
    }

    // Makes every place empty.
    fn clear(self, cells: &mut [u64])
        requires { self.at + self.len / 2 ≤ length cells.old }
        ensures { Wiped cells.old cells.new self.at (self.len / 2) }
    {
        cells[self.at..self.at + self.len / 2].fill(u64::MAX);
    }

    // Builds the index of the first m entries anew.
    pub(crate) fn rebuild(self, cells: &mut [u64], m: usize)
        requires { Rebuildable cells.old self.at self.len m }
        ensures { Rebuilt cells.old cells.new self.at self.len m }
    {
        self.clear(cells);
        for pos in 0..m {
            if cells[pos * 5 + 4] == 1 {
                self.place(cells, pos);
            }
        }
    }
}
