// Regions of the lent cells: a directory lists their owners in address order; new regions go to the
// top; compaction slides all regions down in the directory's order. All regions are one lent list, so a
// region is a place in it and a size.
#![tactic(auto)]

ghost use Rattle.std.specs.Prelude.{◌≡◌, ◌++◌, ◌+◌, ◌*◌, ◌-◌, ◌≤◌, ◌<◌, length, take, drop, MatchOption};
ghost use Rattle.heap_slots.specs.Limits.{CELLS_MAX, DIRECTORY_MAX};
ghost use Rattle.heap_slots.specs.Header.{header_at};
ghost use Rattle.heap_cells.specs.Regions.{Dead, Laid, Owned, Owners, Packing, Packed, Compacted, Reserved, Growing, Grown, Shifting, Shifted, sizes_of};
ghost use Rattle.heap_cells.specs.Moves.{Moved, Filled, Copied, Packs, Unpacked, Written, string_bytes, string_cells};

use heap_slots::Header;

// cells: regions lie below it, and dead cells; entries: the directory's length. The number n of slots
// is passed beside it, since no call changes it and so no promise has to say that it stays; the
// slices, since a call writes some of them and only reads others.
#[derive(Clone, Copy)]
pub struct Top {
    pub cells: u64,
    pub entries: u64,
}

// n cells copied, in whatever order the two places lie. A region is not copied onto itself.
pub fn move_cells(cells: &mut [u64], from: usize, to: usize, n: usize)
    requires { (from + n ≤ length cells.old) × (to + n ≤ length cells.old) × (length cells.old ≤ CELLS_MAX) }
    ensures { Moved cells.old cells.new from to n }
{
    if from != to {
        cells.copy_within(from..from + n, to);
    }
}

pub fn fill(cells: &mut [u64], from: usize, n: usize)
    requires { (from + n ≤ length cells.old) × (length cells.old ≤ CELLS_MAX) }
    ensures { Filled cells.old cells.new from n }
{
    cells[from..from + n].fill(0);
}

pub fn copy_words(words: &[u64], cells: &mut [u64], from: usize)
    requires { (from + length words.now ≤ length cells.old) × (length cells.old ≤ CELLS_MAX) }
    ensures { Copied words.now cells.old cells.new from }
{
    // Not `copy_from_slice`: with it the library for C needs memmove from outside.
    for (j, word) in words.iter().enumerate() {
        cells[from + j] = *word;
    }
}

// The cell of at most eight bytes, the others zero.
fn pack(bytes: &[u8]) -> u64
    requires { length bytes.now ≤ 8 }
    ensures { Packs bytes.now 0 result }
{
    // A whole cell is one load: a copy into eight zeros takes several times as long.
    if let [a, b, c, d, e, f, g, h] = bytes {
        return u64::from_le_bytes([*a, *b, *c, *d, *e, *f, *g, *h]);
    }
    let mut eight = [0; 8];
    eight[..bytes.len()].copy_from_slice(bytes);
    u64::from_le_bytes(eight)
}

// The string of these bytes, eight to a cell.
pub fn write_string(bytes: &[u8], cells: &mut [u64], from: usize)
    requires { (from + string_cells (length bytes.now) ≤ length cells.old) × (length cells.old ≤ CELLS_MAX) }
    ensures { Written bytes.now cells.old cells.new from }
{
    let whole = bytes.len() / 8;
    for q in 0..whole {
        cells[from + q] = pack(&bytes[q * 8..q * 8 + 8]);
    }
    if whole * 8 < bytes.len() {
        cells[from + whole] = pack(&bytes[whole * 8..]);
    }
}

// The first n bytes of a cell.
fn unpack(w: u64, buffer: &mut [u8], at: usize, n: usize)
    requires { (n ≤ 8) × (at + n ≤ length buffer.old) }
    ensures { Unpacked w buffer.old buffer.new at n }
{
    let eight = w.to_le_bytes();
    buffer[at..at + n].copy_from_slice(&eight[..n]);
}

// The n bytes of the string whose cells begin at `from`.
pub fn read_string(cells: &[u64], from: usize, n: usize, buffer: &mut [u8])
    requires { (from + string_cells n ≤ length cells.now) × (length cells.now ≤ CELLS_MAX) × (n ≤ length buffer.old) }
    ensures { buffer.new ≡ string_bytes (take (string_cells n) (drop from cells.now)) n ++ drop n buffer.old }
{
    let whole = n / 8;
    for q in 0..whole {
        unpack(cells[from + q], buffer, q * 8, 8);
    }
    if whole * 8 < n {
        unpack(cells[from + whole], buffer, whole * 8, n - whole * 8);
    }
}

// The slot whose region the directory's entry k lists, and its header; none where the entry is dead.
fn owner(slots: &[u64], n: u64, dir: &[u64], k: u64) -> Option<(usize, Header)>
    requires { Owners n k slots.now dir.now }
    ensures { MatchOption result (Dead n k slots.now) (λ x. Owned n k slots.now dir.now x.0 x.1) }
{
    let i = dir[k as usize];
    if i < n {
        let h = heap_slots::read_header(slots, i as usize);
        if h.size != 0 && h.entry == k {
            return Some((i as usize, h));
        }
    }
    None
}

// The directory's entry k: where its owner's region lies there, it is moved down.
pub fn pack_entry(
    slots: &mut [u64],
    n: u64,
    dir: &mut [u64],
    last: u64,
    cells: &mut [u64],
    k: u64,
    t: Top,
) -> Top
    requires { Packing n last k t.cells t.entries slots.old dir.old cells.old × (k < last) }
    ensures { Packed n last (k + 1) result.cells result.entries slots.old dir.old cells.old slots.new dir.new cells.new }
{
    let Some((i, h)) = owner(slots, n, dir, k) else {
        return t;
    };
    move_cells(cells, h.start as usize, t.cells as usize, h.size as usize);
    let moved = Header {
        start: t.cells,
        entry: t.entries,
        ..h
    };
    heap_slots::write_header(slots, i, moved);
    dir[t.entries as usize] = i as u64;
    Top {
        cells: t.cells + h.size,
        entries: t.entries + 1,
    }
}

// All regions slide down, in the directory's order, and the directory loses its dead entries.
pub fn compact(slots: &mut [u64], n: u64, dir: &mut [u64], t: Top, cells: &mut [u64]) -> Top
    requires { Laid n t.cells t.entries slots.old dir.old cells.old }
    ensures { Compacted n result slots.old dir.old cells.old slots.new dir.new cells.new }
{
    let mut p = Top {
        cells: 0,
        entries: 0,
    };
    for k in 0..t.entries {
        p = pack_entry(slots, n, dir, t.entries, cells, k, p);
    }
    p
}

// Room for a region at the top, after a compaction where the top or the directory is full.
pub fn reserve(
    slots: &mut [u64],
    n: u64,
    dir: &mut [u64],
    limit: u64,
    t: Top,
    cells: &mut [u64],
    size: u64,
) -> Top
    requires { Laid n t.cells t.entries slots.old dir.old cells.old × (sizes_of slots.old n + size ≤ length cells.old) × (n < limit) × (limit ≤ length dir.old) × (limit ≤ DIRECTORY_MAX) }
    ensures { Reserved n limit size result slots.old dir.old cells.old slots.new dir.new cells.new }
{
    if t.cells + size <= cells.len() as u64 && t.entries < limit {
        t
    } else {
        compact(slots, n, dir, t, cells)
    }
}

// The region that ends at the top is widened where it lies.
fn extend(slots: &mut [u64], n: u64, dir: &[u64], t: Top, cells: &[u64], i: usize, size: u64) -> Top
    requires { Growing n i size t slots.old dir.now cells.now × ((header_at slots.old i).size ≡ 0 → ⊥) × ((header_at slots.old i).start + (header_at slots.old i).size ≡ t.cells) × ((header_at slots.old i).start + size ≤ length cells.now) }
    ensures { Grown n i size result slots.old dir.now cells.now slots.new dir.now cells.now }
{
    let h = heap_slots::read_header(slots, i);
    heap_slots::write_header(slots, i, Header { size, ..h });
    Top {
        cells: h.start + size,
        ..t
    }
}

// The region gets a new place at the top, and a new entry.
fn relocate(
    slots: &mut [u64],
    n: u64,
    dir: &mut [u64],
    t: Top,
    cells: &mut [u64],
    i: usize,
    size: u64,
) -> Top
    requires { Growing n i size t slots.old dir.old cells.old × (t.cells + size ≤ length cells.old) × (t.entries < length dir.old) × (t.entries < DIRECTORY_MAX) }
    ensures { Grown n i size result slots.old dir.old cells.old slots.new dir.new cells.new }
{
    let h = heap_slots::read_header(slots, i);
    move_cells(cells, h.start as usize, t.cells as usize, h.size as usize);
    let moved = Header {
        size,
        start: t.cells,
        entry: t.entries,
        ..h
    };
    heap_slots::write_header(slots, i, moved);
    dir[t.entries as usize] = i as u64;
    Top {
        cells: t.cells + size,
        entries: t.entries + 1,
    }
}

// The directory's entry k: where its owner's region lies there, it starts `by` cells later.
fn shift_entry(slots: &mut [u64], n: u64, dir: &[u64], last: u64, k: u64, by: u64)
    requires { Shifting n k last by slots.old dir.now × (k < last) }
    ensures { Shifted n k (k + 1) by slots.old slots.new }
{
    if let Some((i, h)) = owner(slots, n, dir, k) {
        let later = Header {
            start: h.start + by,
            ..h
        };
        heap_slots::write_header(slots, i, later);
    }
}

// The regions listed from the entry `first` on start `by` cells later.
fn shift(slots: &mut [u64], n: u64, dir: &[u64], first: u64, last: u64, by: u64)
    requires { Shifting n first last by slots.old dir.now }
    ensures { Shifted n first last by slots.old slots.new }
{
    for k in first..last {
        shift_entry(slots, n, dir, last, k, by);
    }
}

// The region is widened where it lies, and the cells above it move up.
fn widen(
    slots: &mut [u64],
    n: u64,
    dir: &[u64],
    t: Top,
    cells: &mut [u64],
    i: usize,
    size: u64,
) -> Top
    requires { Growing n i size t slots.old dir.now cells.old × ((header_at slots.old i).size ≡ 0 → ⊥) × (t.cells + size ≤ length cells.old + (header_at slots.old i).size) }
    ensures { Grown n i size result slots.old dir.now cells.old slots.new dir.now cells.new }
{
    let h = heap_slots::read_header(slots, i);
    let by = size - h.size;
    let end = h.start + h.size;
    move_cells(
        cells,
        end as usize,
        (end + by) as usize,
        (t.cells - end) as usize,
    );
    shift(slots, n, dir, h.entry + 1, t.entries, by);
    heap_slots::write_header(slots, i, Header { size, ..h });
    Top {
        cells: t.cells + by,
        ..t
    }
}

// After a compaction: at the top if there is room for both regions, else in place.
fn repack(
    slots: &mut [u64],
    n: u64,
    dir: &mut [u64],
    t: Top,
    cells: &mut [u64],
    i: usize,
    size: u64,
) -> Top
    requires { Growing n i size t slots.old dir.old cells.old × (sizes_of slots.old n + size ≤ length cells.old + (header_at slots.old i).size) × (n < length dir.old) }
    ensures { Grown n i size result slots.old dir.old cells.old slots.new dir.new cells.new }
{
    let p = compact(slots, n, dir, t, cells);
    if p.cells + size <= cells.len() as u64 {
        relocate(slots, n, dir, p, cells, i, size)
    } else {
        widen(slots, n, dir, p, cells, i, size)
    }
}

// A larger region for slot i; the old and the new one need not both fit.
pub fn grow(
    slots: &mut [u64],
    n: u64,
    dir: &mut [u64],
    limit: u64,
    t: Top,
    cells: &mut [u64],
    i: usize,
    size: u64,
) -> Top
    requires { Growing n i size t slots.old dir.old cells.old × (sizes_of slots.old n + size ≤ length cells.old + (header_at slots.old i).size) × (n < limit) × (limit ≤ length dir.old) × (limit ≤ DIRECTORY_MAX) }
    ensures { Grown n i size result slots.old dir.old cells.old slots.new dir.new cells.new }
{
    let h = heap_slots::read_header(slots, i);
    let total = cells.len() as u64;
    if h.size != 0 && h.start + h.size == t.cells && h.start + size <= total {
        extend(slots, n, dir, t, cells, i, size)
    } else if t.cells + size <= total && t.entries < limit {
        relocate(slots, n, dir, t, cells, i, size)
    } else {
        repack(slots, n, dir, t, cells, i, size)
    }
}
