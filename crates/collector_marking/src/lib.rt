// Marking (document 01, "Kept set"): which slots some words reach. A mark for each slot, and the
// marked slots in the order of their marking; those not yet scanned are the queue.
#![tactic(auto)]

ghost use Rattle.std.specs.Prelude.{◌≡◌, cond, [], ◌∷◌, ◌++◌, map, ◌+◌, ◌*◌, ◌≤◌, ◌<◌, ltb, length, get_or, take, drop};
ghost use Rattle.layout.specs.Layout.{is_traced, fields_of, captures_of};
ghost use Rattle.layout.specs.Sections.{layout_of, fields_from, registers_from, captures_from};
ghost use Rattle.map_store.specs.View.{entry_at, entries_in};
ghost use Rattle.model.specs.Content.{word_if, words_at, traced_by_type, entry_words, key_word, frame_words};
ghost use Rattle.heap_slots.specs.Header.{scalars_at};
ghost use Rattle.heap.specs.Kinds.{yes, perhaps, frame_at, frames_in};
ghost use Rattle.collector_marking.specs.Reach.{run};
ghost use Rattle.collector_marking.specs.Children.{hit, children, live_words, one_frame};
ghost use Rattle.collector_marking.specs.Marks.{MarksFit, Sound, Listing, Present, Scanned, Phased, Unmarked};

use heap_slots::{CoroutineScalars, IteratorScalars, MapScalars, kinds, limits};
use layout::{Entry, Listed, ReadLayout, Section};

// The first `fresh` slots, a mark for each of them, and the marked slots, `marked` of them, in the
// order of their marking.
#[derive(Drop)]
pub struct Marker<'a> {
    pub slots: &'a [u64],
    pub fresh: usize,
    pub marks: &'a mut [u8],
    pub order: &'a mut [u32],
    pub marked: usize,
    pub ghost fit: { MarksFit slots.now fresh marks.now order.now marked },
}

impl Marker<'_> {
    ghost use Rattle.collector_marking.specs.Adds.{Same, Adds};

    // Marks the slot that the word reaches, if it is not marked, and puts it into the order.
    pub fn mark_word(&mut self, w: u64)
        ensures { Adds (w ∷ []) self.old self.new }
    {
        let i = (w % limits::SPAN) as usize;
        if self.fresh <= i {
            return;
        }
        let h = heap_slots::read_header(self.slots, i);
        if h.half != w / limits::SPAN {
            return;
        }
        if h.kind == kinds::NONE {
            return;
        }
        if self.marks[i] != 0 {
            return;
        }
        self.order[self.marked] = i as u32;
        self.marks[i] = 1;
        self.marked += 1;
    }

    // Marks the word, if its type is traced.
    fn mark_typed(&mut self, ty: u64, w: u64)
        ensures { Adds (word_if (is_traced ty) w) self.old self.new }
    {
        if 1 <= ty {
            self.mark_word(w);
        }
    }

    pub fn mark_words(&mut self, words: &[u64])
        ensures { Adds words.now self.old self.new }
    {
        for w in words {
            self.mark_word(*w);
        }
    }

    // A map's entry: its key, then its value, if it is live.
    fn mark_entry(&mut self, cells: &[u64], p: usize, keys: u64, values: u64)
        requires { p * 5 + 5 ≤ length cells.now }
        ensures { Adds (live_words (is_traced keys) (is_traced values) (entry_at cells.now p)) self.old self.new }
    {
        let at = p * 5;
        if cells[at + 4] == 1 {
            self.mark_typed(keys, cells[at + 1]);
            self.mark_typed(values, cells[at + 2]);
        }
    }

    fn mark_entries(&mut self, cells: &[u64], count: usize, keys: u64, values: u64)
        requires { count * 5 ≤ length cells.now }
        ensures { Adds (entry_words (is_traced keys) (is_traced values) (entries_in cells.now 0 count)) self.old self.new }
    {
        for p in 0..count {
            self.mark_entry(cells, p, keys, values);
        }
    }

    // Marks the word at base + n, an exact sum; outside there is none.
    fn mark_at(&mut self, words: &[u64], base: u64, n: u64)
        ensures { Adds (word_if (ltb (base + n) (length words.now)) (get_or words.now (base + n) 0)) self.old self.new }
    {
        let Some(i) = base.checked_add(n) else {
            return;
        };
        if let Some(w) = words.get(i as usize) {
            self.mark_word(*w);
        }
    }

    // An iterator: its source; its key, if it has one and the type is traced.
    fn mark_iterator(&mut self, source: u64, ty: u64, known: u64, key: u64)
        ensures { Adds (source ∷ key_word (is_traced ty) (perhaps known key)) self.old self.new }
    {
        self.mark_word(source);
        if known != 0 {
            self.mark_typed(ty, key);
        }
    }

    // Marks the fields that a struct type lists, from a place in its section on.
    fn mark_fields(&mut self, fields: &[u64], layout: ReadLayout<'_>, at: usize)
        ensures { Adds (words_at (fields_from layout.entry.bytes.now at) fields.now) self.old self.new }
    {
        let mut from = at;
        while let Some(Listed { number, next }) = layout.next(Entry::Field, from) {
            self.mark_at(fields, 0, number);
            from = next;
        }
    }

    // Marks the registers base + number that a function lists, from a place in its section on.
    fn mark_registers(&mut self, registers: &[u64], base: u64, layout: ReadLayout<'_>, at: usize)
        ensures { Adds (words_at (map (λ n. base + n) (registers_from layout.entry.bytes.now at)) registers.now) self.old self.new }
    {
        let mut from = at;
        while let Some(Listed { number, next }) = layout.next(Entry::Register, from) {
            self.mark_at(registers, base, number);
            from = next;
        }
    }

    // Marks the captures whose type, as a function lists it, is traced.
    fn mark_captures(&mut self, captures: &[u64], layout: ReadLayout<'_>, at: usize)
        ensures { Adds (traced_by_type (captures_from layout.entry.bytes.now at) captures.now) self.old self.new }
    {
        let mut from = at;
        for capture in captures {
            let Some(Listed { number, next }) = layout.next(Entry::Capture, from) else {
                return;
            };
            self.mark_typed(number, *capture);
            from = next;
        }
    }

    // A frame: its closure, then its function's registers.
    fn mark_frame(&mut self, registers: &[u64], frames: &[u64], j: usize, layout: ReadLayout<'_>)
        requires { j * 4 + 4 ≤ length frames.now }
        ensures { Adds (one_frame (layout_of layout.entry.bytes.now) registers.now (frame_at frames.now j)) self.old self.new }
    {
        let at = j * 4;
        self.mark_word(frames[at + 3]);
        let from = layout.section(Section::Function, frames[at]);
        self.mark_registers(registers, frames[at + 2], layout, from);
    }

    fn mark_frames(
        &mut self,
        registers: &[u64],
        frames: &[u64],
        count: usize,
        layout: ReadLayout<'_>,
    )
        requires { count * 4 ≤ length frames.now }
        ensures { Adds (frame_words (layout_of layout.entry.bytes.now) registers.now (frames_in frames.now 0 count)) self.old self.new }
    {
        for j in 0..count {
            self.mark_frame(registers, frames, j, layout);
        }
    }

    fn mark_items(&mut self, ty: u64, items: &[u64])
        ensures { Adds (cond (is_traced ty) items.now []) self.old self.new }
    {
        if 1 <= ty {
            self.mark_words(items);
        }
    }

    fn mark_struct(&mut self, number: u64, fields: &[u64], layout: ReadLayout<'_>)
        ensures { Adds (words_at (fields_of (layout_of layout.entry.bytes.now) number) fields.now) self.old self.new }
    {
        let at = layout.section(Section::Struct, number);
        self.mark_fields(fields, layout, at);
    }

    // A function object: none of an import's captures.
    fn mark_function(&mut self, import: u64, number: u64, captures: &[u64], layout: ReadLayout<'_>)
        ensures { Adds (cond (yes import) [] (traced_by_type (captures_of (layout_of layout.entry.bytes.now) number) captures.now)) self.old self.new }
    {
        if import == 0 {
            let at = layout.section(Section::Function, number);
            self.mark_captures(captures, layout, at);
        }
    }

    // A coroutine whose region has `len` registers, then `count` frames of four cells; `waiting` are
    // its payload, key, result and signal.
    fn mark_coroutine(
        &mut self,
        waiting: [u64; 4],
        cells: &[u64],
        len: usize,
        count: usize,
        layout: ReadLayout<'_>,
    )
        requires { length cells.now ≡ len + 4 * count }
        ensures { Adds (waiting ++ frame_words (layout_of layout.entry.bytes.now) (take len cells.now) (frames_in (drop len cells.now) 0 count)) self.old self.new }
    {
        self.mark_words(&waiting);
        self.mark_frames(&cells[..len], &cells[len..], count, layout);
    }

    // Marks the traced words of the object in slot i.
    fn mark_object(&mut self, i: usize, scalars: &[u64], cells: &[u64], layout: ReadLayout<'_>)
        requires present { Present self.old.slots.now self.old.fresh i }
        requires sound { Sound self.old.slots.now scalars.now cells.now self.old.fresh }
        ensures { Adds (children (layout_of layout.entry.bytes.now) self.old.slots.now scalars.now cells.now i) self.old self.new }
    {
        let h = heap_slots::read_header(self.slots, i);
        let a = h.start as usize;
        let e = a + h.size as usize;
        match h.kind {
            kinds::CELL => self.mark_typed(h.mode, h.value),
            kinds::ERROR | kinds::BOX => self.mark_word(h.value),
            kinds::ARRAY => self.mark_items(h.mode, &cells[a..a + h.len as usize]),
            kinds::MAP => {
                let x: MapScalars = heap_slots::read_part(scalars, i);
                self.mark_entries(&cells[a..e], h.len as usize, x.keys, x.values)
            },
            kinds::STRUCT => self.mark_struct(h.value, &cells[a..a + h.len as usize], layout),
            kinds::FUNCTION => {
                self.mark_function(h.mode, h.value, &cells[a..a + h.len as usize], layout)
            },
            kinds::ITERATOR => {
                let x: IteratorScalars = heap_slots::read_part(scalars, i);
                self.mark_iterator(h.value, h.mode, x.keyed, x.key)
            },
            kinds::COROUTINE => {
                let x: CoroutineScalars = heap_slots::read_part(scalars, i);
                let waiting = [x.payload, x.key, x.result, x.signal];
                self.mark_coroutine(
                    waiting,
                    &cells[a..e],
                    h.len as usize,
                    x.frames as usize,
                    layout,
                )
            },
            _ => {},
        }
    }

    // The same, by the shortest way for a box: its one word stands in the header.
    fn mark_next(&mut self, i: usize, scalars: &[u64], cells: &[u64], layout: ReadLayout<'_>)
        requires present { Present self.old.slots.now self.old.fresh i }
        requires sound { Sound self.old.slots.now scalars.now cells.now self.old.fresh }
        ensures { Adds (children (layout_of layout.entry.bytes.now) self.old.slots.now scalars.now cells.now i) self.old self.new }
    {
        let h = heap_slots::read_header(self.slots, i);
        if h.kind == kinds::BOX {
            self.mark_word(h.value);
        } else {
            self.mark_object(i, scalars, cells, layout);
        }
    }

    // Scans the slots of the order from `visited` on, until each marked slot is scanned. The order is
    // a queue: a long chain of objects takes no more room than a short one.
    fn trace(&mut self, scalars: &[u64], cells: &[u64], layout: ReadLayout<'_>, visited: usize)
        requires visited_le_marked { visited ≤ self.old.marked }
        requires sound { Sound self.old.slots.now scalars.now cells.now self.old.fresh }
        requires listing { Listing self.old.slots.now self.old.fresh self.old.marks.now self.old.order.now self.old.marked }
        ensures marks_after { self.new.marks.now ≡ run (hit self.old.slots.now self.old.fresh) (children (layout_of layout.entry.bytes.now) self.old.slots.now scalars.now cells.now) self.old.fresh self.old.marks.now (drop visited (take self.old.marked self.old.order.now)) }
        ensures scanned { Scanned self.old.slots.now self.old.fresh self.old.order.now self.old.marked self.new.marks.now self.new.order.now self.new.marked }
        ensures same { Same self.old self.new }
    {
        let mut v = visited;
        while v < self.marked {
            let i = self.order[v] as usize;
            self.mark_next(i, scalars, cells, layout);
            v += 1;
        }
    }
}

// Marks the words and all that they reach: with the roots, and then with the coroutines to be
// finalized. Gives the number of marked slots.
pub fn mark_from(
    words: &[u64],
    slots: &[u64],
    scalars: &[u64],
    cells: &[u64],
    layout: ReadLayout<'_>,
    fresh: usize,
    marks: &mut [u8],
    order: &mut [u32],
    marked: usize,
) -> usize
    requires sound { Sound slots.now scalars.now cells.now fresh }
    requires marks_fit { MarksFit slots.now fresh marks.old order.old marked }
    requires listing { Listing slots.now fresh marks.old order.old marked }
    ensures { Phased slots.now fresh (children (layout_of layout.entry.bytes.now) slots.now scalars.now cells.now) words.now marks.old order.old marked marks.new order.new result }
{
    let mut marker = Marker {
        slots,
        fresh,
        marks,
        order,
        marked,
    };
    marker.mark_words(words);
    marker.trace(scalars, cells, layout, marked);
    marker.marked
}

// Undoes the marks, and the order's first places. All marks are cleared in one pass: to follow the
// order would be slower.
pub fn unmark(marks: &mut [u8], order: &mut [u32], marked: usize)
    requires { marked ≤ length order.old }
    ensures { Unmarked marks.old order.old marked marks.new order.new }
{
    marks.fill(0);
    order[..marked].fill(0);
}
