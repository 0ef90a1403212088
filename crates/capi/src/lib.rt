// The library for C and Rust: every call as a function on words and slices. The heap's record is
// kept in nineteen words (see crate record). A function returns the number of the refusal, 0 where
// the call is accepted; the words answered go into `answer`, zeros where there are none.
#![tactic(auto)]

ghost use Rattle.std.specs.Prelude.{◌≡◌, ◌/◌, ◌%◌, length};
ghost use Rattle.std.specs.Float.Ieee.{of_bits};
ghost use Rattle.std.specs.Float.{binary64};
ghost use Rattle.layout.specs.Layout.{Layout};
ghost use Rattle.layout.specs.Sections.{Tabled, layout_of};
ghost use Rattle.map_store.specs.View.{cursor_is};
ghost use Rattle.model.specs.Calls as Calls;
ghost use Rattle.model.specs.Rules as Parts;
ghost use Rattle.heap.specs.Good.{Good, Rested};
ghost use Rattle.heap.specs.State.{state};
ghost use Rattle.heap.specs.Kinds.{frames_in};
ghost use Rattle.heap.specs.View.{held};
ghost use Rattle.heap.specs.Opens.{beside, new_heap, opening_of};
ghost use Rattle.heap_allocation.specs.Coroutines.{call_of};
ghost use Rattle.heap_record.specs.Record.{OpensWords, loaded, weights_in};
ghost use Rattle.capi.specs.Record.{coroutine_in, cursor_in, cursor_out, shown_in, yes};
ghost use Rattle.capi.specs.Promise.{Delivers, DeliversSame, ShowsList, Words, holds};

use answers::{Show, Shown};
use heap::HeapView;
use heap_allocation::Coroutine;
use layout::ReadLayout;
use map_store::Cursor;
use std::num::f64_from_bits_with_nan;

// ---- the words lent

// Writes the answer's words; the refusal's number is returned.
fn write_answer(answer: &mut [u64; 6], s: Shown) -> u64
    ensures { shown_in result answer.new ≡ s }
{
    *answer = [s.word, s.x, s.y, s.z, s.u, s.v];
    s.refusal
}

fn load_coroutine(words: &[u64; 6]) -> Coroutine
    ensures { result ≡ coroutine_in words.now }
{
    let [state, sequence, payload, key, result, signal] = *words;
    Coroutine {
        state,
        sequence,
        payload,
        key,
        result,
        signal,
    }
}

#[tactic(auto, using(std::proofs::lemmas::Bool::Decides::nat_tests), unfolding(crate::specs::Record::cursor_in, map_store::specs::View::last_is))]
fn load_cursor(words: &[u64; 4]) -> Cursor
    ensures { cursor_is result ≡ cursor_in words.now }
{
    let [yielded, last, pos, epoch] = *words;
    Cursor {
        last: (yielded != 0).then_some(last),
        pos: pos as usize,
        epoch: (epoch % 4294967296) as u32,
    }
}

// The lent cursor as the call left it.
fn save_cursor(words: &mut [u64; 4], s: Shown)
    ensures { words.new ≡ cursor_out s words.old }
{
    if s.refusal == 0 {
        *words = [s.y, s.z, s.u, s.v];
    }
}

// The heap that the words and the buffers hold.
fn lent_view<'a>(
    heap: &[u64; 19],
    slots: &'a [u64],
    scalars: &'a [u64],
    list: &'a [u64],
    directory: &'a [u64],
    cells: &'a [u64],
) -> HeapView<'a>
    requires { Good (holds heap.now slots.now scalars.now list.now directory.now cells.now) }
    ensures { held result ≡ holds heap.now slots.now scalars.now list.now directory.now cells.now }
{
    HeapView {
        heap: heap_record::load(heap),
        slots,
        scalars,
        list,
        directory,
        cells,
    }
}

// ---- words: writing, reading, comparing; no heap is needed

// The word of a truth value: no for 0, else yes.
#[unsafe(no_mangle)]
pub extern "C" fn mch_truth_word(b: u64, answer: &mut [u64; 6]) -> u64
    ensures { Words (Calls.truth_word (yes b)) result answer.new }
{
    write_answer(answer, words::from_bool(b != 0).show())
}

// The word of a character.
#[unsafe(no_mangle)]
pub extern "C" fn mch_char_word(c: u32, answer: &mut [u64; 6]) -> u64
    ensures { Words (Calls.char_word c) result answer.new }
{
    write_answer(answer, words::from_char(c).show())
}

// The word of the float of a binary64 pattern; every NaN has one word.
#[unsafe(no_mangle)]
pub extern "C" fn mch_float_word(bits: u64, answer: &mut [u64; 6]) -> u64
    ensures { Words (Calls.float_word (of_bits binary64 bits)) result answer.new }
{
    write_answer(answer, words::from_f64(f64_from_bits_with_nan(bits)).show())
}

// The word of an integer, where it has one inline.
#[unsafe(no_mangle)]
pub extern "C" fn mch_integer_word(z: i64, answer: &mut [u64; 6]) -> u64
    ensures { Words (Calls.integer_word z) result answer.new }
{
    write_answer(answer, answers::inline(words::inline_int(z)))
}

// The word of a reference.
#[unsafe(no_mangle)]
pub extern "C" fn mch_reference_word(slot: u32, tag: u16, answer: &mut [u64; 6]) -> u64
    ensures { Words (Calls.reference_word slot tag) result answer.new }
{
    write_answer(answer, words::from_ref(slot, tag).show())
}

// What a word reads as.
#[unsafe(no_mangle)]
pub extern "C" fn mch_read_word(w: u64, answer: &mut [u64; 6]) -> u64
    ensures { Words (Calls.read_word w) result answer.new }
{
    write_answer(answer, words::decode(w).show())
}

// Whether two words read as the same.
#[unsafe(no_mangle)]
pub extern "C" fn mch_same_words(a: u64, b: u64, answer: &mut [u64; 6]) -> u64
    ensures { Words (Calls.same_words a b) result answer.new }
{
    write_answer(answer, words::same(a, b).show())
}

// ---- the heap as a whole

// A heap of `size` slots over the lent buffers; a refusal, 10, leaves the words and every buffer as
// they were.
#[unsafe(no_mangle)]
pub extern "C" fn mch_open(
    heap: &mut [u64; 19],
    size: u64,
    limit: u64,
    weights: &[u64; 5],
    layout: &[u8],
    table: &mut [u64],
    marks: &mut [u8],
    order: &mut [u32],
    slots: &[u64],
    scalars: &[u64],
    list: &[u64],
    directory: &[u64],
    cells: &[u64],
) -> u64
    ensures { OpensWords (opening_of size (length cells.now) limit (weights_in weights.now) layout.now) (state (new_heap size limit (weights_in weights.now)) slots.now scalars.now list.now directory.now cells.now) (beside table.old marks.old order.old) heap.old result heap.new (beside table.new marks.new order.new) }
{
    heap_record::open(
        heap, size, limit, weights, layout, table, marks, order, slots, scalars, list, directory,
        cells,
    )
}

// A charge of `bytes`, without an object.
#[unsafe(no_mangle)]
pub extern "C" fn mch_charge(
    heap: &mut [u64; 19],
    slots: &[u64],
    scalars: &[u64],
    list: &[u64],
    directory: &[u64],
    cells: &[u64],
    bytes: u64,
    answer: &mut [u64; 6],
) -> u64
    requires { Good (holds heap.old slots.now scalars.now list.now directory.now cells.now) }
    ensures { Delivers (Calls.charge bytes) (holds heap.old slots.now scalars.now list.now directory.now cells.now) result answer.new (holds heap.new slots.now scalars.now list.now directory.now cells.now) }
{
    let mut h = heap_record::load(heap);
    let done = heap::charge(&mut h, slots, scalars, list, directory, cells, bytes);
    heap_record::save(heap, h);
    write_answer(answer, answers::answer(done))
}

// Whether a charge of `bytes` would be accepted.
#[unsafe(no_mangle)]
pub extern "C" fn mch_fits(
    heap: &[u64; 19],
    slots: &[u64],
    scalars: &[u64],
    list: &[u64],
    directory: &[u64],
    cells: &[u64],
    bytes: u64,
    answer: &mut [u64; 6],
) -> u64
    requires { Good (holds heap.now slots.now scalars.now list.now directory.now cells.now) }
    ensures { DeliversSame (Calls.fits_bytes bytes) (holds heap.now slots.now scalars.now list.now directory.now cells.now) result answer.new }
{
    let view = lent_view(heap, slots, scalars, list, directory, cells);
    write_answer(answer, heap::fits(&view, bytes).show())
}

// Whether a collection is due before `extra` bytes more.
#[unsafe(no_mangle)]
pub extern "C" fn mch_wants_gc(
    heap: &[u64; 19],
    slots: &[u64],
    scalars: &[u64],
    list: &[u64],
    directory: &[u64],
    cells: &[u64],
    extra: u64,
    answer: &mut [u64; 6],
) -> u64
    requires { Good (holds heap.now slots.now scalars.now list.now directory.now cells.now) }
    ensures { DeliversSame (Calls.wants_gc extra) (holds heap.now slots.now scalars.now list.now directory.now cells.now) result answer.new }
{
    let view = lent_view(heap, slots, scalars, list, directory, cells);
    write_answer(answer, heap::wants_gc(&view, extra).show())
}

// How many collections there have been.
#[unsafe(no_mangle)]
pub extern "C" fn mch_collection_count(
    heap: &[u64; 19],
    slots: &[u64],
    scalars: &[u64],
    list: &[u64],
    directory: &[u64],
    cells: &[u64],
    answer: &mut [u64; 6],
) -> u64
    requires { Good (holds heap.now slots.now scalars.now list.now directory.now cells.now) }
    ensures { DeliversSame Calls.collection_count (holds heap.now slots.now scalars.now list.now directory.now cells.now) result answer.new }
{
    let view = lent_view(heap, slots, scalars, list, directory, cells);
    write_answer(answer, heap::collection_count(&view).show())
}

// How many objects the collections have freed.
#[unsafe(no_mangle)]
pub extern "C" fn mch_freed_count(
    heap: &[u64; 19],
    slots: &[u64],
    scalars: &[u64],
    list: &[u64],
    directory: &[u64],
    cells: &[u64],
    answer: &mut [u64; 6],
) -> u64
    requires { Good (holds heap.now slots.now scalars.now list.now directory.now cells.now) }
    ensures { DeliversSame Calls.freed_count (holds heap.now slots.now scalars.now list.now directory.now cells.now) result answer.new }
{
    let view = lent_view(heap, slots, scalars, list, directory, cells);
    write_answer(answer, heap::freed_count(&view).show())
}

// The bytes charged and not freed.
#[unsafe(no_mangle)]
pub extern "C" fn mch_used_bytes(
    heap: &[u64; 19],
    slots: &[u64],
    scalars: &[u64],
    list: &[u64],
    directory: &[u64],
    cells: &[u64],
    answer: &mut [u64; 6],
) -> u64
    requires { Good (holds heap.now slots.now scalars.now list.now directory.now cells.now) }
    ensures { DeliversSame Calls.used_bytes (holds heap.now slots.now scalars.now list.now directory.now cells.now) result answer.new }
{
    let view = lent_view(heap, slots, scalars, list, directory, cells);
    write_answer(answer, heap::used_bytes(&view).show())
}

// How many objects are present.
#[unsafe(no_mangle)]
pub extern "C" fn mch_present_count(
    heap: &[u64; 19],
    slots: &[u64],
    scalars: &[u64],
    list: &[u64],
    directory: &[u64],
    cells: &[u64],
    answer: &mut [u64; 6],
) -> u64
    requires { Good (holds heap.now slots.now scalars.now list.now directory.now cells.now) }
    ensures { DeliversSame Calls.present_count (holds heap.now slots.now scalars.now list.now directory.now cells.now) result answer.new }
{
    let view = lent_view(heap, slots, scalars, list, directory, cells);
    write_answer(answer, heap::present_count(&view).show())
}

// The cells of the objects present.
#[unsafe(no_mangle)]
pub extern "C" fn mch_cells_in_use(
    heap: &[u64; 19],
    slots: &[u64],
    scalars: &[u64],
    list: &[u64],
    directory: &[u64],
    cells: &[u64],
    answer: &mut [u64; 6],
) -> u64
    requires { Good (holds heap.now slots.now scalars.now list.now directory.now cells.now) }
    ensures { DeliversSame Calls.cells_in_use (holds heap.now slots.now scalars.now list.now directory.now cells.now) result answer.new }
{
    let view = lent_view(heap, slots, scalars, list, directory, cells);
    write_answer(answer, heap::cells_in_use(&view).show())
}

// A collection from these roots: answers the objects freed and the coroutines listed in `places`.
#[unsafe(no_mangle)]
pub extern "C" fn mch_collect(
    heap: &mut [u64; 19],
    slots: &mut [u64],
    scalars: &mut [u64],
    list: &mut [u64],
    directory: &[u64],
    cells: &[u64],
    layout: &[u8],
    table: &[u64],
    marks: &mut [u8],
    order: &mut [u32],
    roots: &[u64],
    places: &mut [u64],
    answer: &mut [u64; 6],
) -> u64
    requires good { Good (holds heap.old slots.old scalars.old list.old directory.now cells.now) }
    requires tabled { Tabled layout.now table.now }
    requires rested { Rested (loaded heap.old).size marks.old order.old }
    ensures shows_list { ShowsList (layout_of layout.now) (Calls.collect roots.now places.old) (holds heap.old slots.old scalars.old list.old directory.now cells.now) (shown_in result answer.new) places.new (holds heap.new slots.new scalars.new list.new directory.now cells.now) }
    ensures marks_unchanged { marks.new ≡ marks.old }
    ensures order_unchanged { order.new ≡ order.old }
{
    let mut h = heap_record::load(heap);
    let collection = collector::collect(
        &mut h,
        slots,
        scalars,
        list,
        directory,
        cells,
        ReadLayout {
            bytes: layout,
            table,
        },
        marks,
        order,
        roots,
        places,
    );
    heap_record::save(heap, h);
    write_answer(answer, answers::collected(collection))
}

// ---- new objects: each answers the reference made

// A string of these bytes.
#[unsafe(no_mangle)]
pub extern "C" fn mch_new_string(
    heap: &mut [u64; 19],
    slots: &mut [u64],
    scalars: &[u64],
    list: &[u64],
    directory: &mut [u64],
    cells: &mut [u64],
    bytes: &[u8],
    answer: &mut [u64; 6],
) -> u64
    requires { Good (holds heap.old slots.old scalars.now list.now directory.old cells.old) }
    ensures { Delivers (Calls.new_string bytes.now) (holds heap.old slots.old scalars.now list.now directory.old cells.old) result answer.new (holds heap.new slots.new scalars.now list.now directory.new cells.new) }
{
    let mut h = heap_record::load(heap);
    let made = heap_allocation::new_string(&mut h, slots, scalars, list, directory, cells, bytes);
    heap_record::save(heap, h);
    write_answer(answer, answers::made(made))
}

// An integer object.
#[unsafe(no_mangle)]
pub extern "C" fn mch_new_integer(
    heap: &mut [u64; 19],
    slots: &mut [u64],
    scalars: &[u64],
    list: &[u64],
    directory: &[u64],
    cells: &[u64],
    z: i64,
    answer: &mut [u64; 6],
) -> u64
    requires { Good (holds heap.old slots.old scalars.now list.now directory.now cells.now) }
    ensures { Delivers (Calls.new_integer z) (holds heap.old slots.old scalars.now list.now directory.now cells.now) result answer.new (holds heap.new slots.new scalars.now list.now directory.now cells.now) }
{
    let mut h = heap_record::load(heap);
    let made = heap_allocation::new_integer(&mut h, slots, scalars, list, directory, cells, z);
    heap_record::save(heap, h);
    write_answer(answer, answers::made(made))
}

// A cell of type `t` with the word `w`.
#[unsafe(no_mangle)]
pub extern "C" fn mch_new_cell(
    heap: &mut [u64; 19],
    slots: &mut [u64],
    scalars: &[u64],
    list: &[u64],
    directory: &[u64],
    cells: &[u64],
    t: u64,
    w: u64,
    answer: &mut [u64; 6],
) -> u64
    requires { Good (holds heap.old slots.old scalars.now list.now directory.now cells.now) }
    ensures { Delivers (Calls.new_cell t w) (holds heap.old slots.old scalars.now list.now directory.now cells.now) result answer.new (holds heap.new slots.new scalars.now list.now directory.now cells.now) }
{
    let mut h = heap_record::load(heap);
    let made = heap_allocation::new_cell(&mut h, slots, scalars, list, directory, cells, t, w);
    heap_record::save(heap, h);
    write_answer(answer, answers::made(made))
}

// An error of any 16-bit kind, with the word `w`.
#[unsafe(no_mangle)]
pub extern "C" fn mch_new_error(
    heap: &mut [u64; 19],
    slots: &mut [u64],
    scalars: &[u64],
    list: &[u64],
    directory: &[u64],
    cells: &[u64],
    kind: u16,
    w: u64,
    answer: &mut [u64; 6],
) -> u64
    requires { Good (holds heap.old slots.old scalars.now list.now directory.now cells.now) }
    ensures { Delivers (Calls.new_error kind w) (holds heap.old slots.old scalars.now list.now directory.now cells.now) result answer.new (holds heap.new slots.new scalars.now list.now directory.now cells.now) }
{
    let mut h = heap_record::load(heap);
    let made = heap_allocation::new_error(&mut h, slots, scalars, list, directory, cells, kind, w);
    heap_record::save(heap, h);
    write_answer(answer, answers::made(made))
}

// A box with the word `w`.
#[unsafe(no_mangle)]
pub extern "C" fn mch_new_box(
    heap: &mut [u64; 19],
    slots: &mut [u64],
    scalars: &[u64],
    list: &[u64],
    directory: &[u64],
    cells: &[u64],
    w: u64,
    answer: &mut [u64; 6],
) -> u64
    requires { Good (holds heap.old slots.old scalars.now list.now directory.now cells.now) }
    ensures { Delivers (Calls.new_box w) (holds heap.old slots.old scalars.now list.now directory.now cells.now) result answer.new (holds heap.new slots.new scalars.now list.now directory.now cells.now) }
{
    let mut h = heap_record::load(heap);
    let made = heap_allocation::new_box(&mut h, slots, scalars, list, directory, cells, w);
    heap_record::save(heap, h);
    write_answer(answer, answers::made(made))
}

// An array of type `t` and so many nil items.
#[unsafe(no_mangle)]
pub extern "C" fn mch_new_array(
    heap: &mut [u64; 19],
    slots: &mut [u64],
    scalars: &[u64],
    list: &[u64],
    directory: &mut [u64],
    cells: &mut [u64],
    t: u64,
    length: i64,
    answer: &mut [u64; 6],
) -> u64
    requires { Good (holds heap.old slots.old scalars.now list.now directory.old cells.old) }
    ensures { Delivers (Calls.new_array t length) (holds heap.old slots.old scalars.now list.now directory.old cells.old) result answer.new (holds heap.new slots.new scalars.now list.now directory.new cells.new) }
{
    let mut h = heap_record::load(heap);
    let made = heap_allocation::new_array(
        &mut h, slots, scalars, list, directory, cells, t, length,
    );
    heap_record::save(heap, h);
    write_answer(answer, answers::made(made))
}

// A map without entries, of these types of keys and values.
#[unsafe(no_mangle)]
pub extern "C" fn mch_new_map(
    heap: &mut [u64; 19],
    slots: &mut [u64],
    scalars: &mut [u64],
    list: &[u64],
    directory: &[u64],
    cells: &[u64],
    keys: u64,
    values: u64,
    answer: &mut [u64; 6],
) -> u64
    requires { Good (holds heap.old slots.old scalars.old list.now directory.now cells.now) }
    ensures { Delivers (Calls.new_map keys values) (holds heap.old slots.old scalars.old list.now directory.now cells.now) result answer.new (holds heap.new slots.new scalars.new list.now directory.now cells.now) }
{
    let mut h = heap_record::load(heap);
    let made = collections_maps::changes::new_map(
        &mut h, slots, scalars, list, directory, cells, keys, values,
    );
    heap_record::save(heap, h);
    write_answer(answer, answers::made(made))
}

// A struct of type `number` with these fields.
#[unsafe(no_mangle)]
pub extern "C" fn mch_new_struct(
    heap: &mut [u64; 19],
    slots: &mut [u64],
    scalars: &[u64],
    list: &[u64],
    directory: &mut [u64],
    cells: &mut [u64],
    number: u64,
    fields: &[u64],
    answer: &mut [u64; 6],
) -> u64
    requires { Good (holds heap.old slots.old scalars.now list.now directory.old cells.old) }
    ensures { Delivers (Calls.new_struct number fields.now) (holds heap.old slots.old scalars.now list.now directory.old cells.old) result answer.new (holds heap.new slots.new scalars.now list.now directory.new cells.new) }
{
    let mut h = heap_record::load(heap);
    let made = heap_allocation::new_struct(
        &mut h, slots, scalars, list, directory, cells, number, fields,
    );
    heap_record::save(heap, h);
    write_answer(answer, answers::made(made))
}

// A function with these captures; an import where `import` is not 0.
#[unsafe(no_mangle)]
pub extern "C" fn mch_new_function(
    heap: &mut [u64; 19],
    slots: &mut [u64],
    scalars: &[u64],
    list: &[u64],
    directory: &mut [u64],
    cells: &mut [u64],
    import: u64,
    number: u64,
    captures: &[u64],
    answer: &mut [u64; 6],
) -> u64
    requires { Good (holds heap.old slots.old scalars.now list.now directory.old cells.old) }
    ensures { Delivers (Calls.new_function (yes import) number captures.now) (holds heap.old slots.old scalars.now list.now directory.old cells.old) result answer.new (holds heap.new slots.new scalars.now list.now directory.new cells.new) }
{
    let mut h = heap_record::load(heap);
    let made = heap_allocation::new_function(
        &mut h,
        slots,
        scalars,
        list,
        directory,
        cells,
        import != 0,
        number,
        captures,
    );
    heap_record::save(heap, h);
    write_answer(answer, answers::made(made))
}

// An iterator over the array or map `source`.
#[unsafe(no_mangle)]
pub extern "C" fn mch_new_iter(
    heap: &mut [u64; 19],
    slots: &mut [u64],
    scalars: &mut [u64],
    list: &[u64],
    directory: &[u64],
    cells: &[u64],
    source: u64,
    answer: &mut [u64; 6],
) -> u64
    requires { Good (holds heap.old slots.old scalars.old list.now directory.now cells.now) }
    ensures { Delivers (Calls.new_iter source) (holds heap.old slots.old scalars.old list.now directory.now cells.now) result answer.new (holds heap.new slots.new scalars.new list.now directory.now cells.now) }
{
    let mut h = heap_record::load(heap);
    let made = collections_iterators::new_iter(
        &mut h, slots, scalars, list, directory, cells, source,
    );
    heap_record::save(heap, h);
    write_answer(answer, answers::made(made))
}

// A coroutine: `k` holds state, sequence, payload, key, result, signal; four words to a frame:
// function, counter, base, closure.
#[unsafe(no_mangle)]
pub extern "C" fn mch_new_coroutine(
    heap: &mut [u64; 19],
    slots: &mut [u64],
    scalars: &mut [u64],
    list: &[u64],
    directory: &mut [u64],
    cells: &mut [u64],
    k: &[u64; 6],
    registers: &[u64],
    frames: &[u64],
    answer: &mut [u64; 6],
) -> u64
    requires { Good (holds heap.old slots.old scalars.old list.now directory.old cells.old) }
    ensures { Delivers (call_of (coroutine_in k.now) registers.now (frames_in frames.now 0 (length frames.now / 4))) (holds heap.old slots.old scalars.old list.now directory.old cells.old) result answer.new (holds heap.new slots.new scalars.new list.now directory.new cells.new) }
{
    let mut h = heap_record::load(heap);
    let made = heap_allocation::new_coroutine_flat(
        &mut h,
        slots,
        scalars,
        list,
        directory,
        cells,
        load_coroutine(k),
        registers,
        frames,
    );
    heap_record::save(heap, h);
    write_answer(answer, answers::made(made))
}

// ---- readings

// The row of the object that a word reaches, 0 for none.
#[unsafe(no_mangle)]
pub extern "C" fn mch_get(
    heap: &[u64; 19],
    slots: &[u64],
    scalars: &[u64],
    list: &[u64],
    directory: &[u64],
    cells: &[u64],
    w: u64,
    answer: &mut [u64; 6],
) -> u64
    requires { Good (holds heap.now slots.now scalars.now list.now directory.now cells.now) }
    ensures { DeliversSame (Calls.get w) (holds heap.now slots.now scalars.now list.now directory.now cells.now) result answer.new }
{
    let view = lent_view(heap, slots, scalars, list, directory, cells);
    write_answer(answer, heap::get(&view, w).show())
}

// A word seen through a box.
#[unsafe(no_mangle)]
pub extern "C" fn mch_deref(
    heap: &[u64; 19],
    slots: &[u64],
    scalars: &[u64],
    list: &[u64],
    directory: &[u64],
    cells: &[u64],
    w: u64,
    answer: &mut [u64; 6],
) -> u64
    requires { Good (holds heap.now slots.now scalars.now list.now directory.now cells.now) }
    ensures { DeliversSame (Calls.deref_word w) (holds heap.now slots.now scalars.now list.now directory.now cells.now) result answer.new }
{
    let view = lent_view(heap, slots, scalars, list, directory, cells);
    write_answer(answer, heap::deref(&view, w).show())
}

// The number of a word's kind.
#[unsafe(no_mangle)]
pub extern "C" fn mch_kind_of(
    heap: &[u64; 19],
    slots: &[u64],
    scalars: &[u64],
    list: &[u64],
    directory: &[u64],
    cells: &[u64],
    w: u64,
    answer: &mut [u64; 6],
) -> u64
    requires { Good (holds heap.now slots.now scalars.now list.now directory.now cells.now) }
    ensures { DeliversSame (Calls.kind_of_word w) (holds heap.now slots.now scalars.now list.now directory.now cells.now) result answer.new }
{
    let view = lent_view(heap, slots, scalars, list, directory, cells);
    write_answer(answer, heap::kind_of(&view, w).show())
}

// The length of a string in bytes.
#[unsafe(no_mangle)]
pub extern "C" fn mch_string_length(
    heap: &[u64; 19],
    slots: &[u64],
    scalars: &[u64],
    list: &[u64],
    directory: &[u64],
    cells: &[u64],
    w: u64,
    answer: &mut [u64; 6],
) -> u64
    requires { Good (holds heap.now slots.now scalars.now list.now directory.now cells.now) }
    ensures { DeliversSame (Calls.string_length w) (holds heap.now slots.now scalars.now list.now directory.now cells.now) result answer.new }
{
    let view = lent_view(heap, slots, scalars, list, directory, cells);
    write_answer(
        answer,
        answers::answer(heap_access::readings::string_length(&view, w)),
    )
}

// A string's bytes, in the buffer's first places; 8 where the buffer is shorter.
#[unsafe(no_mangle)]
pub extern "C" fn mch_read_string(
    heap: &[u64; 19],
    slots: &[u64],
    scalars: &[u64],
    list: &[u64],
    directory: &[u64],
    cells: &[u64],
    w: u64,
    buffer: &mut [u8],
    answer: &mut [u64; 6],
) -> u64
    requires { Good (holds heap.now slots.now scalars.now list.now directory.now cells.now) }
    ensures { (l : Layout) → ShowsList l (Calls.read_string w buffer.old) (holds heap.now slots.now scalars.now list.now directory.now cells.now) (shown_in result answer.new) buffer.new (holds heap.now slots.now scalars.now list.now directory.now cells.now) }
{
    let view = lent_view(heap, slots, scalars, list, directory, cells);
    write_answer(
        answer,
        answers::answer(heap_access::readings::read_string(&view, w, buffer)),
    )
}

// An integer object's number.
#[unsafe(no_mangle)]
pub extern "C" fn mch_read_integer(
    heap: &[u64; 19],
    slots: &[u64],
    scalars: &[u64],
    list: &[u64],
    directory: &[u64],
    cells: &[u64],
    w: u64,
    answer: &mut [u64; 6],
) -> u64
    requires { Good (holds heap.now slots.now scalars.now list.now directory.now cells.now) }
    ensures { DeliversSame (Calls.read_integer w) (holds heap.now slots.now scalars.now list.now directory.now cells.now) result answer.new }
{
    let view = lent_view(heap, slots, scalars, list, directory, cells);
    write_answer(
        answer,
        answers::answer(heap_access::readings::read_integer(&view, w)),
    )
}

// A cell's word.
#[unsafe(no_mangle)]
pub extern "C" fn mch_read_cell(
    heap: &[u64; 19],
    slots: &[u64],
    scalars: &[u64],
    list: &[u64],
    directory: &[u64],
    cells: &[u64],
    w: u64,
    answer: &mut [u64; 6],
) -> u64
    requires { Good (holds heap.now slots.now scalars.now list.now directory.now cells.now) }
    ensures { DeliversSame (Calls.read_cell w) (holds heap.now slots.now scalars.now list.now directory.now cells.now) result answer.new }
{
    let view = lent_view(heap, slots, scalars, list, directory, cells);
    write_answer(
        answer,
        answers::answer(heap_access::readings::read_cell(&view, w)),
    )
}

// A cell's type.
#[unsafe(no_mangle)]
pub extern "C" fn mch_cell_type(
    heap: &[u64; 19],
    slots: &[u64],
    scalars: &[u64],
    list: &[u64],
    directory: &[u64],
    cells: &[u64],
    w: u64,
    answer: &mut [u64; 6],
) -> u64
    requires { Good (holds heap.now slots.now scalars.now list.now directory.now cells.now) }
    ensures { DeliversSame (Calls.cell_type w) (holds heap.now slots.now scalars.now list.now directory.now cells.now) result answer.new }
{
    let view = lent_view(heap, slots, scalars, list, directory, cells);
    write_answer(
        answer,
        answers::answer(heap_access::readings::cell_type(&view, w)),
    )
}

// An error's kind.
#[unsafe(no_mangle)]
pub extern "C" fn mch_error_kind(
    heap: &[u64; 19],
    slots: &[u64],
    scalars: &[u64],
    list: &[u64],
    directory: &[u64],
    cells: &[u64],
    w: u64,
    answer: &mut [u64; 6],
) -> u64
    requires { Good (holds heap.now slots.now scalars.now list.now directory.now cells.now) }
    ensures { DeliversSame (Calls.error_kind w) (holds heap.now slots.now scalars.now list.now directory.now cells.now) result answer.new }
{
    let view = lent_view(heap, slots, scalars, list, directory, cells);
    write_answer(
        answer,
        answers::answer(heap_access::readings::error_kind(&view, w)),
    )
}

// An error's word.
#[unsafe(no_mangle)]
pub extern "C" fn mch_error_word(
    heap: &[u64; 19],
    slots: &[u64],
    scalars: &[u64],
    list: &[u64],
    directory: &[u64],
    cells: &[u64],
    w: u64,
    answer: &mut [u64; 6],
) -> u64
    requires { Good (holds heap.now slots.now scalars.now list.now directory.now cells.now) }
    ensures { DeliversSame (Calls.error_word w) (holds heap.now slots.now scalars.now list.now directory.now cells.now) result answer.new }
{
    let view = lent_view(heap, slots, scalars, list, directory, cells);
    write_answer(
        answer,
        answers::answer(heap_access::readings::error_word(&view, w)),
    )
}

// A box's word.
#[unsafe(no_mangle)]
pub extern "C" fn mch_read_box(
    heap: &[u64; 19],
    slots: &[u64],
    scalars: &[u64],
    list: &[u64],
    directory: &[u64],
    cells: &[u64],
    w: u64,
    answer: &mut [u64; 6],
) -> u64
    requires { Good (holds heap.now slots.now scalars.now list.now directory.now cells.now) }
    ensures { DeliversSame (Calls.read_box w) (holds heap.now slots.now scalars.now list.now directory.now cells.now) result answer.new }
{
    let view = lent_view(heap, slots, scalars, list, directory, cells);
    write_answer(
        answer,
        answers::answer(heap_access::readings::read_box(&view, w)),
    )
}

// The type of an array's items.
#[unsafe(no_mangle)]
pub extern "C" fn mch_array_type(
    heap: &[u64; 19],
    slots: &[u64],
    scalars: &[u64],
    list: &[u64],
    directory: &[u64],
    cells: &[u64],
    w: u64,
    answer: &mut [u64; 6],
) -> u64
    requires { Good (holds heap.now slots.now scalars.now list.now directory.now cells.now) }
    ensures { DeliversSame (Calls.array_type w) (holds heap.now slots.now scalars.now list.now directory.now cells.now) result answer.new }
{
    let view = lent_view(heap, slots, scalars, list, directory, cells);
    write_answer(
        answer,
        answers::answer(heap_access::readings::array_type(&view, w)),
    )
}

// The length of an array.
#[unsafe(no_mangle)]
pub extern "C" fn mch_array_length(
    heap: &[u64; 19],
    slots: &[u64],
    scalars: &[u64],
    list: &[u64],
    directory: &[u64],
    cells: &[u64],
    w: u64,
    answer: &mut [u64; 6],
) -> u64
    requires { Good (holds heap.now slots.now scalars.now list.now directory.now cells.now) }
    ensures { DeliversSame (Calls.array_length w) (holds heap.now slots.now scalars.now list.now directory.now cells.now) result answer.new }
{
    let view = lent_view(heap, slots, scalars, list, directory, cells);
    write_answer(
        answer,
        answers::answer(heap_access::readings::array_length(&view, w)),
    )
}

// The capacity of an array.
#[unsafe(no_mangle)]
pub extern "C" fn mch_array_capacity(
    heap: &[u64; 19],
    slots: &[u64],
    scalars: &[u64],
    list: &[u64],
    directory: &[u64],
    cells: &[u64],
    w: u64,
    answer: &mut [u64; 6],
) -> u64
    requires { Good (holds heap.now slots.now scalars.now list.now directory.now cells.now) }
    ensures { DeliversSame (Calls.array_capacity w) (holds heap.now slots.now scalars.now list.now directory.now cells.now) result answer.new }
{
    let view = lent_view(heap, slots, scalars, list, directory, cells);
    write_answer(
        answer,
        answers::answer(heap_access::readings::array_capacity(&view, w)),
    )
}

// Item `i` of an array, as it was stored.
#[unsafe(no_mangle)]
pub extern "C" fn mch_read_item(
    heap: &[u64; 19],
    slots: &[u64],
    scalars: &[u64],
    list: &[u64],
    directory: &[u64],
    cells: &[u64],
    w: u64,
    i: u64,
    answer: &mut [u64; 6],
) -> u64
    requires { Good (holds heap.now slots.now scalars.now list.now directory.now cells.now) }
    ensures { DeliversSame (Calls.read_item w i) (holds heap.now slots.now scalars.now list.now directory.now cells.now) result answer.new }
{
    let view = lent_view(heap, slots, scalars, list, directory, cells);
    write_answer(
        answer,
        answers::answer(heap_access::readings::read_item(&view, w, i)),
    )
}

// A struct's type.
#[unsafe(no_mangle)]
pub extern "C" fn mch_struct_number(
    heap: &[u64; 19],
    slots: &[u64],
    scalars: &[u64],
    list: &[u64],
    directory: &[u64],
    cells: &[u64],
    w: u64,
    answer: &mut [u64; 6],
) -> u64
    requires { Good (holds heap.now slots.now scalars.now list.now directory.now cells.now) }
    ensures { DeliversSame (Calls.struct_number w) (holds heap.now slots.now scalars.now list.now directory.now cells.now) result answer.new }
{
    let view = lent_view(heap, slots, scalars, list, directory, cells);
    write_answer(
        answer,
        answers::answer(heap_access::readings::struct_number(&view, w)),
    )
}

// How many fields a struct has.
#[unsafe(no_mangle)]
pub extern "C" fn mch_field_count(
    heap: &[u64; 19],
    slots: &[u64],
    scalars: &[u64],
    list: &[u64],
    directory: &[u64],
    cells: &[u64],
    w: u64,
    answer: &mut [u64; 6],
) -> u64
    requires { Good (holds heap.now slots.now scalars.now list.now directory.now cells.now) }
    ensures { DeliversSame (Calls.field_count w) (holds heap.now slots.now scalars.now list.now directory.now cells.now) result answer.new }
{
    let view = lent_view(heap, slots, scalars, list, directory, cells);
    write_answer(
        answer,
        answers::answer(heap_access::readings::field_count(&view, w)),
    )
}

// Field `i` of a struct.
#[unsafe(no_mangle)]
pub extern "C" fn mch_read_field(
    heap: &[u64; 19],
    slots: &[u64],
    scalars: &[u64],
    list: &[u64],
    directory: &[u64],
    cells: &[u64],
    w: u64,
    i: u64,
    answer: &mut [u64; 6],
) -> u64
    requires { Good (holds heap.now slots.now scalars.now list.now directory.now cells.now) }
    ensures { DeliversSame (Calls.read_field w i) (holds heap.now slots.now scalars.now list.now directory.now cells.now) result answer.new }
{
    let view = lent_view(heap, slots, scalars, list, directory, cells);
    write_answer(
        answer,
        answers::answer(heap_access::readings::read_field(&view, w, i)),
    )
}

// Whether a function is an import.
#[unsafe(no_mangle)]
pub extern "C" fn mch_is_import(
    heap: &[u64; 19],
    slots: &[u64],
    scalars: &[u64],
    list: &[u64],
    directory: &[u64],
    cells: &[u64],
    w: u64,
    answer: &mut [u64; 6],
) -> u64
    requires { Good (holds heap.now slots.now scalars.now list.now directory.now cells.now) }
    ensures { DeliversSame (Calls.is_import w) (holds heap.now slots.now scalars.now list.now directory.now cells.now) result answer.new }
{
    let view = lent_view(heap, slots, scalars, list, directory, cells);
    write_answer(
        answer,
        answers::answer(heap_access::readings::is_import(&view, w)),
    )
}

// A function's number.
#[unsafe(no_mangle)]
pub extern "C" fn mch_function_number(
    heap: &[u64; 19],
    slots: &[u64],
    scalars: &[u64],
    list: &[u64],
    directory: &[u64],
    cells: &[u64],
    w: u64,
    answer: &mut [u64; 6],
) -> u64
    requires { Good (holds heap.now slots.now scalars.now list.now directory.now cells.now) }
    ensures { DeliversSame (Calls.function_number w) (holds heap.now slots.now scalars.now list.now directory.now cells.now) result answer.new }
{
    let view = lent_view(heap, slots, scalars, list, directory, cells);
    write_answer(
        answer,
        answers::answer(heap_access::readings::function_number(&view, w)),
    )
}

// How many captures a function has.
#[unsafe(no_mangle)]
pub extern "C" fn mch_capture_count(
    heap: &[u64; 19],
    slots: &[u64],
    scalars: &[u64],
    list: &[u64],
    directory: &[u64],
    cells: &[u64],
    w: u64,
    answer: &mut [u64; 6],
) -> u64
    requires { Good (holds heap.now slots.now scalars.now list.now directory.now cells.now) }
    ensures { DeliversSame (Calls.capture_count w) (holds heap.now slots.now scalars.now list.now directory.now cells.now) result answer.new }
{
    let view = lent_view(heap, slots, scalars, list, directory, cells);
    write_answer(
        answer,
        answers::answer(heap_access::readings::capture_count(&view, w)),
    )
}

// Capture `i` of a function.
#[unsafe(no_mangle)]
pub extern "C" fn mch_read_capture(
    heap: &[u64; 19],
    slots: &[u64],
    scalars: &[u64],
    list: &[u64],
    directory: &[u64],
    cells: &[u64],
    w: u64,
    i: u64,
    answer: &mut [u64; 6],
) -> u64
    requires { Good (holds heap.now slots.now scalars.now list.now directory.now cells.now) }
    ensures { DeliversSame (Calls.read_capture w i) (holds heap.now slots.now scalars.now list.now directory.now cells.now) result answer.new }
{
    let view = lent_view(heap, slots, scalars, list, directory, cells);
    write_answer(
        answer,
        answers::answer(heap_access::readings::read_capture(&view, w, i)),
    )
}

// A coroutine's state.
#[unsafe(no_mangle)]
pub extern "C" fn mch_read_state(
    heap: &[u64; 19],
    slots: &[u64],
    scalars: &[u64],
    list: &[u64],
    directory: &[u64],
    cells: &[u64],
    w: u64,
    answer: &mut [u64; 6],
) -> u64
    requires { Good (holds heap.now slots.now scalars.now list.now directory.now cells.now) }
    ensures { DeliversSame (Calls.read_state w) (holds heap.now slots.now scalars.now list.now directory.now cells.now) result answer.new }
{
    let view = lent_view(heap, slots, scalars, list, directory, cells);
    write_answer(
        answer,
        answers::answer(heap_access::readings::read_state(&view, w)),
    )
}

// A coroutine's payload.
#[unsafe(no_mangle)]
pub extern "C" fn mch_read_payload(
    heap: &[u64; 19],
    slots: &[u64],
    scalars: &[u64],
    list: &[u64],
    directory: &[u64],
    cells: &[u64],
    w: u64,
    answer: &mut [u64; 6],
) -> u64
    requires { Good (holds heap.now slots.now scalars.now list.now directory.now cells.now) }
    ensures { DeliversSame (Calls.read_part w Parts.payload) (holds heap.now slots.now scalars.now list.now directory.now cells.now) result answer.new }
{
    let view = lent_view(heap, slots, scalars, list, directory, cells);
    write_answer(
        answer,
        answers::answer(heap_access::readings::read_payload(&view, w)),
    )
}

// A coroutine's key.
#[unsafe(no_mangle)]
pub extern "C" fn mch_read_key(
    heap: &[u64; 19],
    slots: &[u64],
    scalars: &[u64],
    list: &[u64],
    directory: &[u64],
    cells: &[u64],
    w: u64,
    answer: &mut [u64; 6],
) -> u64
    requires { Good (holds heap.now slots.now scalars.now list.now directory.now cells.now) }
    ensures { DeliversSame (Calls.read_part w Parts.key) (holds heap.now slots.now scalars.now list.now directory.now cells.now) result answer.new }
{
    let view = lent_view(heap, slots, scalars, list, directory, cells);
    write_answer(
        answer,
        answers::answer(heap_access::readings::read_key(&view, w)),
    )
}

// A coroutine's result.
#[unsafe(no_mangle)]
pub extern "C" fn mch_read_result(
    heap: &[u64; 19],
    slots: &[u64],
    scalars: &[u64],
    list: &[u64],
    directory: &[u64],
    cells: &[u64],
    w: u64,
    answer: &mut [u64; 6],
) -> u64
    requires { Good (holds heap.now slots.now scalars.now list.now directory.now cells.now) }
    ensures { DeliversSame (Calls.read_part w Parts.result) (holds heap.now slots.now scalars.now list.now directory.now cells.now) result answer.new }
{
    let view = lent_view(heap, slots, scalars, list, directory, cells);
    write_answer(
        answer,
        answers::answer(heap_access::readings::read_result(&view, w)),
    )
}

// A coroutine's signal.
#[unsafe(no_mangle)]
pub extern "C" fn mch_read_signal(
    heap: &[u64; 19],
    slots: &[u64],
    scalars: &[u64],
    list: &[u64],
    directory: &[u64],
    cells: &[u64],
    w: u64,
    answer: &mut [u64; 6],
) -> u64
    requires { Good (holds heap.now slots.now scalars.now list.now directory.now cells.now) }
    ensures { DeliversSame (Calls.read_part w Parts.signal) (holds heap.now slots.now scalars.now list.now directory.now cells.now) result answer.new }
{
    let view = lent_view(heap, slots, scalars, list, directory, cells);
    write_answer(
        answer,
        answers::answer(heap_access::readings::read_signal(&view, w)),
    )
}

// A coroutine's sequence number.
#[unsafe(no_mangle)]
pub extern "C" fn mch_coroutine_sequence(
    heap: &[u64; 19],
    slots: &[u64],
    scalars: &[u64],
    list: &[u64],
    directory: &[u64],
    cells: &[u64],
    w: u64,
    answer: &mut [u64; 6],
) -> u64
    requires { Good (holds heap.now slots.now scalars.now list.now directory.now cells.now) }
    ensures { DeliversSame (Calls.coroutine_sequence w) (holds heap.now slots.now scalars.now list.now directory.now cells.now) result answer.new }
{
    let view = lent_view(heap, slots, scalars, list, directory, cells);
    write_answer(
        answer,
        answers::answer(heap_access::readings::coroutine_sequence(&view, w)),
    )
}

// Whether a coroutine is finalized.
#[unsafe(no_mangle)]
pub extern "C" fn mch_coroutine_finalized(
    heap: &[u64; 19],
    slots: &[u64],
    scalars: &[u64],
    list: &[u64],
    directory: &[u64],
    cells: &[u64],
    w: u64,
    answer: &mut [u64; 6],
) -> u64
    requires { Good (holds heap.now slots.now scalars.now list.now directory.now cells.now) }
    ensures { DeliversSame (Calls.coroutine_finalized w) (holds heap.now slots.now scalars.now list.now directory.now cells.now) result answer.new }
{
    let view = lent_view(heap, slots, scalars, list, directory, cells);
    write_answer(
        answer,
        answers::answer(heap_access::readings::coroutine_finalized(&view, w)),
    )
}

// How many registers a coroutine has.
#[unsafe(no_mangle)]
pub extern "C" fn mch_register_count(
    heap: &[u64; 19],
    slots: &[u64],
    scalars: &[u64],
    list: &[u64],
    directory: &[u64],
    cells: &[u64],
    w: u64,
    answer: &mut [u64; 6],
) -> u64
    requires { Good (holds heap.now slots.now scalars.now list.now directory.now cells.now) }
    ensures { DeliversSame (Calls.register_count w) (holds heap.now slots.now scalars.now list.now directory.now cells.now) result answer.new }
{
    let view = lent_view(heap, slots, scalars, list, directory, cells);
    write_answer(
        answer,
        answers::answer(heap_access::readings::register_count(&view, w)),
    )
}

// How many frames a coroutine has.
#[unsafe(no_mangle)]
pub extern "C" fn mch_frame_count(
    heap: &[u64; 19],
    slots: &[u64],
    scalars: &[u64],
    list: &[u64],
    directory: &[u64],
    cells: &[u64],
    w: u64,
    answer: &mut [u64; 6],
) -> u64
    requires { Good (holds heap.now slots.now scalars.now list.now directory.now cells.now) }
    ensures { DeliversSame (Calls.frame_count w) (holds heap.now slots.now scalars.now list.now directory.now cells.now) result answer.new }
{
    let view = lent_view(heap, slots, scalars, list, directory, cells);
    write_answer(
        answer,
        answers::answer(heap_access::readings::frame_count(&view, w)),
    )
}

// Frame `i` of a coroutine.
#[unsafe(no_mangle)]
pub extern "C" fn mch_read_frame(
    heap: &[u64; 19],
    slots: &[u64],
    scalars: &[u64],
    list: &[u64],
    directory: &[u64],
    cells: &[u64],
    w: u64,
    i: u64,
    answer: &mut [u64; 6],
) -> u64
    requires { Good (holds heap.now slots.now scalars.now list.now directory.now cells.now) }
    ensures { DeliversSame (Calls.read_frame w i) (holds heap.now slots.now scalars.now list.now directory.now cells.now) result answer.new }
{
    let view = lent_view(heap, slots, scalars, list, directory, cells);
    write_answer(
        answer,
        answers::answer(heap_access::readings::read_frame(&view, w, i)),
    )
}

// Register `i` of a coroutine.
#[unsafe(no_mangle)]
pub extern "C" fn mch_read_register(
    heap: &[u64; 19],
    slots: &[u64],
    scalars: &[u64],
    list: &[u64],
    directory: &[u64],
    cells: &[u64],
    w: u64,
    i: u64,
    answer: &mut [u64; 6],
) -> u64
    requires { Good (holds heap.now slots.now scalars.now list.now directory.now cells.now) }
    ensures { DeliversSame (Calls.read_register w i) (holds heap.now slots.now scalars.now list.now directory.now cells.now) result answer.new }
{
    let view = lent_view(heap, slots, scalars, list, directory, cells);
    write_answer(
        answer,
        answers::answer(heap_access::readings::read_register(&view, w, i)),
    )
}

// ---- stores, and arrays that grow and shrink

// A new word for a cell.
#[unsafe(no_mangle)]
pub extern "C" fn mch_store_cell(
    heap: &[u64; 19],
    slots: &mut [u64],
    scalars: &[u64],
    list: &[u64],
    directory: &[u64],
    cells: &[u64],
    w: u64,
    v: u64,
    answer: &mut [u64; 6],
) -> u64
    requires { Good (holds heap.now slots.old scalars.now list.now directory.now cells.now) }
    ensures { Delivers (Calls.store_cell w v) (holds heap.now slots.old scalars.now list.now directory.now cells.now) result answer.new (holds heap.now slots.new scalars.now list.now directory.now cells.now) }
{
    let h = heap_record::load(heap);
    let done = heap_access::stores::store_cell(&h, slots, scalars, list, directory, cells, w, v);
    write_answer(answer, answers::answer(done))
}

// A new word for a box.
#[unsafe(no_mangle)]
pub extern "C" fn mch_store_box(
    heap: &[u64; 19],
    slots: &mut [u64],
    scalars: &[u64],
    list: &[u64],
    directory: &[u64],
    cells: &[u64],
    w: u64,
    v: u64,
    answer: &mut [u64; 6],
) -> u64
    requires { Good (holds heap.now slots.old scalars.now list.now directory.now cells.now) }
    ensures { Delivers (Calls.store_box w v) (holds heap.now slots.old scalars.now list.now directory.now cells.now) result answer.new (holds heap.now slots.new scalars.now list.now directory.now cells.now) }
{
    let h = heap_record::load(heap);
    let done = heap_access::stores::store_box(&h, slots, scalars, list, directory, cells, w, v);
    write_answer(answer, answers::answer(done))
}

// A new item at `i`; outside the length nothing changes.
#[unsafe(no_mangle)]
pub extern "C" fn mch_store_item(
    heap: &[u64; 19],
    slots: &[u64],
    scalars: &[u64],
    list: &[u64],
    directory: &[u64],
    cells: &mut [u64],
    w: u64,
    i: u64,
    v: u64,
    answer: &mut [u64; 6],
) -> u64
    requires { Good (holds heap.now slots.now scalars.now list.now directory.now cells.old) }
    ensures { Delivers (Calls.store_item w i v) (holds heap.now slots.now scalars.now list.now directory.now cells.old) result answer.new (holds heap.now slots.now scalars.now list.now directory.now cells.new) }
{
    let h = heap_record::load(heap);
    let done = heap_access::stores::store_item(&h, slots, scalars, list, directory, cells, w, i, v);
    write_answer(answer, answers::answer(done))
}

// An item behind the last of an array.
#[unsafe(no_mangle)]
pub extern "C" fn mch_push(
    heap: &mut [u64; 19],
    slots: &mut [u64],
    scalars: &[u64],
    list: &[u64],
    directory: &mut [u64],
    cells: &mut [u64],
    w: u64,
    v: u64,
    answer: &mut [u64; 6],
) -> u64
    requires { Good (holds heap.old slots.old scalars.now list.now directory.old cells.old) }
    ensures { Delivers (Calls.push w v) (holds heap.old slots.old scalars.now list.now directory.old cells.old) result answer.new (holds heap.new slots.new scalars.now list.now directory.new cells.new) }
{
    let mut h = heap_record::load(heap);
    let done = collections_arrays::push(&mut h, slots, scalars, list, directory, cells, w, v);
    heap_record::save(heap, h);
    write_answer(answer, answers::answer(done))
}

// The last item of an array, taken off.
#[unsafe(no_mangle)]
pub extern "C" fn mch_pop(
    heap: &[u64; 19],
    slots: &mut [u64],
    scalars: &[u64],
    list: &[u64],
    directory: &[u64],
    cells: &[u64],
    w: u64,
    answer: &mut [u64; 6],
) -> u64
    requires { Good (holds heap.now slots.old scalars.now list.now directory.now cells.now) }
    ensures { Delivers (Calls.pop w) (holds heap.now slots.old scalars.now list.now directory.now cells.now) result answer.new (holds heap.now slots.new scalars.now list.now directory.now cells.now) }
{
    let h = heap_record::load(heap);
    let word = collections_arrays::pop(&h, slots, scalars, list, directory, cells, w);
    write_answer(answer, answers::answer(word))
}

// A new word for field `i` of a struct.
#[unsafe(no_mangle)]
pub extern "C" fn mch_store_field(
    heap: &[u64; 19],
    slots: &[u64],
    scalars: &[u64],
    list: &[u64],
    directory: &[u64],
    cells: &mut [u64],
    w: u64,
    i: u64,
    v: u64,
    answer: &mut [u64; 6],
) -> u64
    requires { Good (holds heap.now slots.now scalars.now list.now directory.now cells.old) }
    ensures { Delivers (Calls.store_field w i v) (holds heap.now slots.now scalars.now list.now directory.now cells.old) result answer.new (holds heap.now slots.now scalars.now list.now directory.now cells.new) }
{
    let h = heap_record::load(heap);
    let done = heap_access::stores::store_field(
        &h, slots, scalars, list, directory, cells, w, i, v,
    );
    write_answer(answer, answers::answer(done))
}

// A new word for capture `i` of a function.
#[unsafe(no_mangle)]
pub extern "C" fn mch_store_capture(
    heap: &[u64; 19],
    slots: &[u64],
    scalars: &[u64],
    list: &[u64],
    directory: &[u64],
    cells: &mut [u64],
    w: u64,
    i: u64,
    v: u64,
    answer: &mut [u64; 6],
) -> u64
    requires { Good (holds heap.now slots.now scalars.now list.now directory.now cells.old) }
    ensures { Delivers (Calls.store_capture w i v) (holds heap.now slots.now scalars.now list.now directory.now cells.old) result answer.new (holds heap.now slots.now scalars.now list.now directory.now cells.new) }
{
    let h = heap_record::load(heap);
    let done = heap_access::stores::store_capture(
        &h, slots, scalars, list, directory, cells, w, i, v,
    );
    write_answer(answer, answers::answer(done))
}

// A new word for register `i` of a coroutine.
#[unsafe(no_mangle)]
pub extern "C" fn mch_store_register(
    heap: &[u64; 19],
    slots: &[u64],
    scalars: &[u64],
    list: &[u64],
    directory: &[u64],
    cells: &mut [u64],
    w: u64,
    i: u64,
    v: u64,
    answer: &mut [u64; 6],
) -> u64
    requires { Good (holds heap.now slots.now scalars.now list.now directory.now cells.old) }
    ensures { Delivers (Calls.store_register w i v) (holds heap.now slots.now scalars.now list.now directory.now cells.old) result answer.new (holds heap.now slots.now scalars.now list.now directory.now cells.new) }
{
    let h = heap_record::load(heap);
    let done = heap_access::stores::store_register(
        &h, slots, scalars, list, directory, cells, w, i, v,
    );
    write_answer(answer, answers::answer(done))
}

// A new payload for a coroutine.
#[unsafe(no_mangle)]
pub extern "C" fn mch_store_payload(
    heap: &[u64; 19],
    slots: &[u64],
    scalars: &mut [u64],
    list: &[u64],
    directory: &[u64],
    cells: &[u64],
    w: u64,
    v: u64,
    answer: &mut [u64; 6],
) -> u64
    requires { Good (holds heap.now slots.now scalars.old list.now directory.now cells.now) }
    ensures { Delivers (Calls.store_part w Parts.payload v) (holds heap.now slots.now scalars.old list.now directory.now cells.now) result answer.new (holds heap.now slots.now scalars.new list.now directory.now cells.now) }
{
    let h = heap_record::load(heap);
    let done = heap_access::stores::store_payload(&h, slots, scalars, list, directory, cells, w, v);
    write_answer(answer, answers::answer(done))
}

// A new key for a coroutine.
#[unsafe(no_mangle)]
pub extern "C" fn mch_store_key(
    heap: &[u64; 19],
    slots: &[u64],
    scalars: &mut [u64],
    list: &[u64],
    directory: &[u64],
    cells: &[u64],
    w: u64,
    v: u64,
    answer: &mut [u64; 6],
) -> u64
    requires { Good (holds heap.now slots.now scalars.old list.now directory.now cells.now) }
    ensures { Delivers (Calls.store_part w Parts.key v) (holds heap.now slots.now scalars.old list.now directory.now cells.now) result answer.new (holds heap.now slots.now scalars.new list.now directory.now cells.now) }
{
    let h = heap_record::load(heap);
    let done = heap_access::stores::store_key(&h, slots, scalars, list, directory, cells, w, v);
    write_answer(answer, answers::answer(done))
}

// A new result for a coroutine.
#[unsafe(no_mangle)]
pub extern "C" fn mch_store_result(
    heap: &[u64; 19],
    slots: &[u64],
    scalars: &mut [u64],
    list: &[u64],
    directory: &[u64],
    cells: &[u64],
    w: u64,
    v: u64,
    answer: &mut [u64; 6],
) -> u64
    requires { Good (holds heap.now slots.now scalars.old list.now directory.now cells.now) }
    ensures { Delivers (Calls.store_part w Parts.result v) (holds heap.now slots.now scalars.old list.now directory.now cells.now) result answer.new (holds heap.now slots.now scalars.new list.now directory.now cells.now) }
{
    let h = heap_record::load(heap);
    let done = heap_access::stores::store_result(&h, slots, scalars, list, directory, cells, w, v);
    write_answer(answer, answers::answer(done))
}

// A new signal for a coroutine.
#[unsafe(no_mangle)]
pub extern "C" fn mch_store_signal(
    heap: &[u64; 19],
    slots: &[u64],
    scalars: &mut [u64],
    list: &[u64],
    directory: &[u64],
    cells: &[u64],
    w: u64,
    v: u64,
    answer: &mut [u64; 6],
) -> u64
    requires { Good (holds heap.now slots.now scalars.old list.now directory.now cells.now) }
    ensures { Delivers (Calls.store_part w Parts.signal v) (holds heap.now slots.now scalars.old list.now directory.now cells.now) result answer.new (holds heap.now slots.now scalars.new list.now directory.now cells.now) }
{
    let h = heap_record::load(heap);
    let done = heap_access::stores::store_signal(&h, slots, scalars, list, directory, cells, w, v);
    write_answer(answer, answers::answer(done))
}

// A new state for a coroutine.
#[unsafe(no_mangle)]
pub extern "C" fn mch_set_state(
    heap: &[u64; 19],
    slots: &mut [u64],
    scalars: &[u64],
    list: &[u64],
    directory: &[u64],
    cells: &[u64],
    w: u64,
    s: u64,
    answer: &mut [u64; 6],
) -> u64
    requires { Good (holds heap.now slots.old scalars.now list.now directory.now cells.now) }
    ensures { Delivers (Calls.set_state w s) (holds heap.now slots.old scalars.now list.now directory.now cells.now) result answer.new (holds heap.now slots.new scalars.now list.now directory.now cells.now) }
{
    let h = heap_record::load(heap);
    let done = heap_access::stores::set_state(&h, slots, scalars, list, directory, cells, w, s);
    write_answer(answer, answers::answer(done))
}

// ---- maps and iterators

// The value of a key: overwritten where the key is found, else an entry is added.
#[unsafe(no_mangle)]
pub extern "C" fn mch_put(
    heap: &mut [u64; 19],
    slots: &mut [u64],
    scalars: &mut [u64],
    list: &[u64],
    directory: &mut [u64],
    cells: &mut [u64],
    w: u64,
    hash: u64,
    key: u64,
    value: u64,
    answer: &mut [u64; 6],
) -> u64
    requires { Good (holds heap.old slots.old scalars.old list.now directory.old cells.old) }
    ensures { Delivers (Calls.put w hash key value) (holds heap.old slots.old scalars.old list.now directory.old cells.old) result answer.new (holds heap.new slots.new scalars.new list.now directory.new cells.new) }
{
    let mut h = heap_record::load(heap);
    let done = collections_maps::changes::put(
        &mut h, slots, scalars, list, directory, cells, w, hash, key, value,
    );
    heap_record::save(heap, h);
    write_answer(answer, answers::answer(done))
}

// An entry added, whatever is there.
#[unsafe(no_mangle)]
pub extern "C" fn mch_insert_entry(
    heap: &mut [u64; 19],
    slots: &mut [u64],
    scalars: &mut [u64],
    list: &[u64],
    directory: &mut [u64],
    cells: &mut [u64],
    w: u64,
    hash: u64,
    key: u64,
    value: u64,
    answer: &mut [u64; 6],
) -> u64
    requires { Good (holds heap.old slots.old scalars.old list.now directory.old cells.old) }
    ensures { Delivers (Calls.insert_entry w hash key value) (holds heap.old slots.old scalars.old list.now directory.old cells.old) result answer.new (holds heap.new slots.new scalars.new list.now directory.new cells.new) }
{
    let mut h = heap_record::load(heap);
    let done = collections_maps::changes::insert_entry(
        &mut h, slots, scalars, list, directory, cells, w, hash, key, value,
    );
    heap_record::save(heap, h);
    write_answer(answer, answers::answer(done))
}

// The position of a key.
#[unsafe(no_mangle)]
pub extern "C" fn mch_find(
    heap: &[u64; 19],
    slots: &[u64],
    scalars: &[u64],
    list: &[u64],
    directory: &[u64],
    cells: &[u64],
    w: u64,
    hash: u64,
    key: u64,
    answer: &mut [u64; 6],
) -> u64
    requires { Good (holds heap.now slots.now scalars.now list.now directory.now cells.now) }
    ensures { DeliversSame (Calls.find w hash key) (holds heap.now slots.now scalars.now list.now directory.now cells.now) result answer.new }
{
    let view = lent_view(heap, slots, scalars, list, directory, cells);
    write_answer(
        answer,
        answers::answer(collections_maps::readings::find(&view, w, hash, key)),
    )
}

// The entry of a key removed.
#[unsafe(no_mangle)]
pub extern "C" fn mch_remove(
    heap: &mut [u64; 19],
    slots: &mut [u64],
    scalars: &mut [u64],
    list: &[u64],
    directory: &mut [u64],
    cells: &mut [u64],
    w: u64,
    hash: u64,
    key: u64,
    answer: &mut [u64; 6],
) -> u64
    requires { Good (holds heap.old slots.old scalars.old list.now directory.old cells.old) }
    ensures { Delivers (Calls.remove w hash key) (holds heap.old slots.old scalars.old list.now directory.old cells.old) result answer.new (holds heap.new slots.new scalars.new list.now directory.new cells.new) }
{
    let mut h = heap_record::load(heap);
    let done = collections_maps::changes::remove(
        &mut h, slots, scalars, list, directory, cells, w, hash, key,
    );
    heap_record::save(heap, h);
    write_answer(answer, answers::answer(done))
}

// The entry at a position removed.
#[unsafe(no_mangle)]
pub extern "C" fn mch_remove_at(
    heap: &mut [u64; 19],
    slots: &mut [u64],
    scalars: &mut [u64],
    list: &[u64],
    directory: &mut [u64],
    cells: &mut [u64],
    w: u64,
    pos: u64,
    answer: &mut [u64; 6],
) -> u64
    requires { Good (holds heap.old slots.old scalars.old list.now directory.old cells.old) }
    ensures { Delivers (Calls.remove_at w pos) (holds heap.old slots.old scalars.old list.now directory.old cells.old) result answer.new (holds heap.new slots.new scalars.new list.now directory.new cells.new) }
{
    let mut h = heap_record::load(heap);
    let done = collections_maps::changes::remove_at(
        &mut h, slots, scalars, list, directory, cells, w, pos,
    );
    heap_record::save(heap, h);
    write_answer(answer, answers::answer(done))
}

// The entry at a position, live or dead.
#[unsafe(no_mangle)]
pub extern "C" fn mch_read_entry(
    heap: &[u64; 19],
    slots: &[u64],
    scalars: &[u64],
    list: &[u64],
    directory: &[u64],
    cells: &[u64],
    w: u64,
    pos: u64,
    answer: &mut [u64; 6],
) -> u64
    requires { Good (holds heap.now slots.now scalars.now list.now directory.now cells.now) }
    ensures { DeliversSame (Calls.read_entry w pos) (holds heap.now slots.now scalars.now list.now directory.now cells.now) result answer.new }
{
    let view = lent_view(heap, slots, scalars, list, directory, cells);
    write_answer(
        answer,
        answers::answer(collections_maps::readings::read_entry(&view, w, pos)),
    )
}

// A new value at a position; outside nothing changes.
#[unsafe(no_mangle)]
pub extern "C" fn mch_set_value(
    heap: &[u64; 19],
    slots: &[u64],
    scalars: &[u64],
    list: &[u64],
    directory: &[u64],
    cells: &mut [u64],
    w: u64,
    pos: u64,
    v: u64,
    answer: &mut [u64; 6],
) -> u64
    requires { Good (holds heap.now slots.now scalars.now list.now directory.now cells.old) }
    ensures { Delivers (Calls.set_value w pos v) (holds heap.now slots.now scalars.now list.now directory.now cells.old) result answer.new (holds heap.now slots.now scalars.now list.now directory.now cells.new) }
{
    let h = heap_record::load(heap);
    let done = collections_maps::changes::set_value(
        &h, slots, scalars, list, directory, cells, w, pos, v,
    );
    write_answer(answer, answers::answer(done))
}

// The integer key `k` noted.
#[unsafe(no_mangle)]
pub extern "C" fn mch_note(
    heap: &[u64; 19],
    slots: &mut [u64],
    scalars: &mut [u64],
    list: &[u64],
    directory: &[u64],
    cells: &[u64],
    w: u64,
    k: i64,
    answer: &mut [u64; 6],
) -> u64
    requires { Good (holds heap.now slots.old scalars.old list.now directory.now cells.now) }
    ensures { Delivers (Calls.note w k) (holds heap.now slots.old scalars.old list.now directory.now cells.now) result answer.new (holds heap.now slots.new scalars.new list.now directory.now cells.now) }
{
    let h = heap_record::load(heap);
    let done = collections_maps::changes::note(&h, slots, scalars, list, directory, cells, w, k);
    write_answer(answer, answers::answer(done))
}

// The integer key after the greatest noted one.
#[unsafe(no_mangle)]
pub extern "C" fn mch_next_key(
    heap: &[u64; 19],
    slots: &[u64],
    scalars: &[u64],
    list: &[u64],
    directory: &[u64],
    cells: &[u64],
    w: u64,
    answer: &mut [u64; 6],
) -> u64
    requires { Good (holds heap.now slots.now scalars.now list.now directory.now cells.now) }
    ensures { DeliversSame (Calls.next_key w) (holds heap.now slots.now scalars.now list.now directory.now cells.now) result answer.new }
{
    let view = lent_view(heap, slots, scalars, list, directory, cells);
    write_answer(
        answer,
        answers::next_int(collections_maps::readings::next_key(&view, w)),
    )
}

// The greatest noted key.
#[unsafe(no_mangle)]
pub extern "C" fn mch_noted_key(
    heap: &[u64; 19],
    slots: &[u64],
    scalars: &[u64],
    list: &[u64],
    directory: &[u64],
    cells: &[u64],
    w: u64,
    answer: &mut [u64; 6],
) -> u64
    requires { Good (holds heap.now slots.now scalars.now list.now directory.now cells.now) }
    ensures { DeliversSame (Calls.noted_key w) (holds heap.now slots.now scalars.now list.now directory.now cells.now) result answer.new }
{
    let view = lent_view(heap, slots, scalars, list, directory, cells);
    write_answer(
        answer,
        answers::noted(collections_maps::readings::noted_key(&view, w)),
    )
}

// The next live entry's position, or the end. The lent cursor is yielded yet, last sequence
// number, position, epoch; a refusal leaves it as it was.
#[unsafe(no_mangle)]
pub extern "C" fn mch_next(
    heap: &[u64; 19],
    slots: &[u64],
    scalars: &[u64],
    list: &[u64],
    directory: &[u64],
    cells: &[u64],
    w: u64,
    cursor: &mut [u64; 4],
    answer: &mut [u64; 6],
) -> u64
    requires { Good (holds heap.now slots.now scalars.now list.now directory.now cells.now) }
    ensures delivers_same { DeliversSame (Calls.next w (cursor_in cursor.old)) (holds heap.now slots.now scalars.now list.now directory.now cells.now) result answer.new }
    ensures cursor_after { cursor.new ≡ cursor_out (shown_in result answer.new) cursor.old }
{
    let view = lent_view(heap, slots, scalars, list, directory, cells);
    let c = load_cursor(cursor);
    let s = answers::moved(c, collections_maps::step_cursor(&view, w, c));
    save_cursor(cursor, s);
    write_answer(answer, s)
}

// How many live entries a map has.
#[unsafe(no_mangle)]
pub extern "C" fn mch_live_count(
    heap: &[u64; 19],
    slots: &[u64],
    scalars: &[u64],
    list: &[u64],
    directory: &[u64],
    cells: &[u64],
    w: u64,
    answer: &mut [u64; 6],
) -> u64
    requires { Good (holds heap.now slots.now scalars.now list.now directory.now cells.now) }
    ensures { DeliversSame (Calls.live_count w) (holds heap.now slots.now scalars.now list.now directory.now cells.now) result answer.new }
{
    let view = lent_view(heap, slots, scalars, list, directory, cells);
    write_answer(
        answer,
        answers::answer(collections_maps::readings::live_count(&view, w)),
    )
}

// How many places a map has, dead ones included.
#[unsafe(no_mangle)]
pub extern "C" fn mch_place_count(
    heap: &[u64; 19],
    slots: &[u64],
    scalars: &[u64],
    list: &[u64],
    directory: &[u64],
    cells: &[u64],
    w: u64,
    answer: &mut [u64; 6],
) -> u64
    requires { Good (holds heap.now slots.now scalars.now list.now directory.now cells.now) }
    ensures { DeliversSame (Calls.place_count w) (holds heap.now slots.now scalars.now list.now directory.now cells.now) result answer.new }
{
    let view = lent_view(heap, slots, scalars, list, directory, cells);
    write_answer(
        answer,
        answers::answer(collections_maps::readings::place_count(&view, w)),
    )
}

// Whether a map is hashed.
#[unsafe(no_mangle)]
pub extern "C" fn mch_is_hashed(
    heap: &[u64; 19],
    slots: &[u64],
    scalars: &[u64],
    list: &[u64],
    directory: &[u64],
    cells: &[u64],
    w: u64,
    answer: &mut [u64; 6],
) -> u64
    requires { Good (holds heap.now slots.now scalars.now list.now directory.now cells.now) }
    ensures { DeliversSame (Calls.is_hashed w) (holds heap.now slots.now scalars.now list.now directory.now cells.now) result answer.new }
{
    let view = lent_view(heap, slots, scalars, list, directory, cells);
    write_answer(
        answer,
        answers::answer(collections_maps::readings::is_hashed(&view, w)),
    )
}

// The type of a map's keys.
#[unsafe(no_mangle)]
pub extern "C" fn mch_key_type(
    heap: &[u64; 19],
    slots: &[u64],
    scalars: &[u64],
    list: &[u64],
    directory: &[u64],
    cells: &[u64],
    w: u64,
    answer: &mut [u64; 6],
) -> u64
    requires { Good (holds heap.now slots.now scalars.now list.now directory.now cells.now) }
    ensures { DeliversSame (Calls.key_type w) (holds heap.now slots.now scalars.now list.now directory.now cells.now) result answer.new }
{
    let view = lent_view(heap, slots, scalars, list, directory, cells);
    write_answer(
        answer,
        answers::answer(collections_maps::readings::key_type(&view, w)),
    )
}

// The type of a map's values.
#[unsafe(no_mangle)]
pub extern "C" fn mch_value_type(
    heap: &[u64; 19],
    slots: &[u64],
    scalars: &[u64],
    list: &[u64],
    directory: &[u64],
    cells: &[u64],
    w: u64,
    answer: &mut [u64; 6],
) -> u64
    requires { Good (holds heap.now slots.now scalars.now list.now directory.now cells.now) }
    ensures { DeliversSame (Calls.value_type w) (holds heap.now slots.now scalars.now list.now directory.now cells.now) result answer.new }
{
    let view = lent_view(heap, slots, scalars, list, directory, cells);
    write_answer(
        answer,
        answers::answer(collections_maps::readings::value_type(&view, w)),
    )
}

// How often a map was compacted, in 32 bits.
#[unsafe(no_mangle)]
pub extern "C" fn mch_map_epoch(
    heap: &[u64; 19],
    slots: &[u64],
    scalars: &[u64],
    list: &[u64],
    directory: &[u64],
    cells: &[u64],
    w: u64,
    answer: &mut [u64; 6],
) -> u64
    requires { Good (holds heap.now slots.now scalars.now list.now directory.now cells.now) }
    ensures { DeliversSame (Calls.map_epoch w) (holds heap.now slots.now scalars.now list.now directory.now cells.now) result answer.new }
{
    let view = lent_view(heap, slots, scalars, list, directory, cells);
    write_answer(
        answer,
        answers::answer(collections_maps::readings::map_epoch(&view, w)),
    )
}

// The next entry's sequence number.
#[unsafe(no_mangle)]
pub extern "C" fn mch_next_sequence(
    heap: &[u64; 19],
    slots: &[u64],
    scalars: &[u64],
    list: &[u64],
    directory: &[u64],
    cells: &[u64],
    w: u64,
    answer: &mut [u64; 6],
) -> u64
    requires { Good (holds heap.now slots.now scalars.now list.now directory.now cells.now) }
    ensures { DeliversSame (Calls.next_sequence w) (holds heap.now slots.now scalars.now list.now directory.now cells.now) result answer.new }
{
    let view = lent_view(heap, slots, scalars, list, directory, cells);
    write_answer(
        answer,
        answers::answer(collections_maps::readings::next_sequence(&view, w)),
    )
}

// The capacity of a map's entry list.
#[unsafe(no_mangle)]
pub extern "C" fn mch_entry_capacity(
    heap: &[u64; 19],
    slots: &[u64],
    scalars: &[u64],
    list: &[u64],
    directory: &[u64],
    cells: &[u64],
    w: u64,
    answer: &mut [u64; 6],
) -> u64
    requires { Good (holds heap.now slots.now scalars.now list.now directory.now cells.now) }
    ensures { DeliversSame (Calls.entry_capacity w) (holds heap.now slots.now scalars.now list.now directory.now cells.now) result answer.new }
{
    let view = lent_view(heap, slots, scalars, list, directory, cells);
    write_answer(
        answer,
        answers::answer(collections_maps::readings::entry_capacity(&view, w)),
    )
}

// The length of a map's index.
#[unsafe(no_mangle)]
pub extern "C" fn mch_index_length(
    heap: &[u64; 19],
    slots: &[u64],
    scalars: &[u64],
    list: &[u64],
    directory: &[u64],
    cells: &[u64],
    w: u64,
    answer: &mut [u64; 6],
) -> u64
    requires { Good (holds heap.now slots.now scalars.now list.now directory.now cells.now) }
    ensures { DeliversSame (Calls.index_length w) (holds heap.now slots.now scalars.now list.now directory.now cells.now) result answer.new }
{
    let view = lent_view(heap, slots, scalars, list, directory, cells);
    write_answer(
        answer,
        answers::answer(collections_maps::readings::index_length(&view, w)),
    )
}

// The bytes that an insertion of this key would be charged.
#[unsafe(no_mangle)]
pub extern "C" fn mch_growth_bytes(
    heap: &[u64; 19],
    slots: &[u64],
    scalars: &[u64],
    list: &[u64],
    directory: &[u64],
    cells: &[u64],
    w: u64,
    key: u64,
    answer: &mut [u64; 6],
) -> u64
    requires { Good (holds heap.now slots.now scalars.now list.now directory.now cells.now) }
    ensures { DeliversSame (Calls.growth_bytes w key) (holds heap.now slots.now scalars.now list.now directory.now cells.now) result answer.new }
{
    let view = lent_view(heap, slots, scalars, list, directory, cells);
    write_answer(
        answer,
        answers::answer(collections_maps::readings::growth_bytes(&view, w, key)),
    )
}

// The next item of an iterator, or its end.
#[unsafe(no_mangle)]
pub extern "C" fn mch_iter_next(
    heap: &[u64; 19],
    slots: &[u64],
    scalars: &mut [u64],
    list: &[u64],
    directory: &[u64],
    cells: &[u64],
    w: u64,
    answer: &mut [u64; 6],
) -> u64
    requires { Good (holds heap.now slots.now scalars.old list.now directory.now cells.now) }
    ensures { Delivers (Calls.iter_next w) (holds heap.now slots.now scalars.old list.now directory.now cells.now) result answer.new (holds heap.now slots.now scalars.new list.now directory.now cells.now) }
{
    let h = heap_record::load(heap);
    let item = collections_iterators::iter_next(&h, slots, scalars, list, directory, cells, w);
    write_answer(answer, answers::answer(item))
}

// The key of the item visited last.
#[unsafe(no_mangle)]
pub extern "C" fn mch_iter_key(
    heap: &[u64; 19],
    slots: &[u64],
    scalars: &[u64],
    list: &[u64],
    directory: &[u64],
    cells: &[u64],
    w: u64,
    answer: &mut [u64; 6],
) -> u64
    requires { Good (holds heap.now slots.now scalars.now list.now directory.now cells.now) }
    ensures { DeliversSame (Calls.iter_key w) (holds heap.now slots.now scalars.now list.now directory.now cells.now) result answer.new }
{
    let view = lent_view(heap, slots, scalars, list, directory, cells);
    write_answer(
        answer,
        answers::answer(collections_iterators::iter_key(&view, w)),
    )
}

// The word of the array or map that an iterator goes over.
#[unsafe(no_mangle)]
pub extern "C" fn mch_iter_source(
    heap: &[u64; 19],
    slots: &[u64],
    scalars: &[u64],
    list: &[u64],
    directory: &[u64],
    cells: &[u64],
    w: u64,
    answer: &mut [u64; 6],
) -> u64
    requires { Good (holds heap.now slots.now scalars.now list.now directory.now cells.now) }
    ensures { DeliversSame (Calls.iter_source w) (holds heap.now slots.now scalars.now list.now directory.now cells.now) result answer.new }
{
    let view = lent_view(heap, slots, scalars, list, directory, cells);
    write_answer(
        answer,
        answers::answer(collections_iterators::iter_source(&view, w)),
    )
}

// The type of an iterator's keys.
#[unsafe(no_mangle)]
pub extern "C" fn mch_iter_key_type(
    heap: &[u64; 19],
    slots: &[u64],
    scalars: &[u64],
    list: &[u64],
    directory: &[u64],
    cells: &[u64],
    w: u64,
    answer: &mut [u64; 6],
) -> u64
    requires { Good (holds heap.now slots.now scalars.now list.now directory.now cells.now) }
    ensures { DeliversSame (Calls.iter_key_type w) (holds heap.now slots.now scalars.now list.now directory.now cells.now) result answer.new }
{
    let view = lent_view(heap, slots, scalars, list, directory, cells);
    write_answer(
        answer,
        answers::answer(collections_iterators::iter_key_type(&view, w)),
    )
}

// Whether an iterator has ended.
#[unsafe(no_mangle)]
pub extern "C" fn mch_iter_ended(
    heap: &[u64; 19],
    slots: &[u64],
    scalars: &[u64],
    list: &[u64],
    directory: &[u64],
    cells: &[u64],
    w: u64,
    answer: &mut [u64; 6],
) -> u64
    requires { Good (holds heap.now slots.now scalars.now list.now directory.now cells.now) }
    ensures { DeliversSame (Calls.iter_ended w) (holds heap.now slots.now scalars.now list.now directory.now cells.now) result answer.new }
{
    let view = lent_view(heap, slots, scalars, list, directory, cells);
    write_answer(
        answer,
        answers::answer(collections_iterators::iter_ended(&view, w)),
    )
}

// An iterator's cursor.
#[unsafe(no_mangle)]
pub extern "C" fn mch_iter_cursor(
    heap: &[u64; 19],
    slots: &[u64],
    scalars: &[u64],
    list: &[u64],
    directory: &[u64],
    cells: &[u64],
    w: u64,
    answer: &mut [u64; 6],
) -> u64
    requires { Good (holds heap.now slots.now scalars.now list.now directory.now cells.now) }
    ensures { DeliversSame (Calls.iter_cursor w) (holds heap.now slots.now scalars.now list.now directory.now cells.now) result answer.new }
{
    let view = lent_view(heap, slots, scalars, list, directory, cells);
    write_answer(
        answer,
        answers::answer(collections_iterators::iter_cursor(&view, w)),
    )
}
