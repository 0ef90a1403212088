// Readings by their number. A group's rows are a match, a line for code and call: the calls differ in
// the type that they answer, so that a table has no one type, and an enum of the codes would take the
// same rows to be made of a byte.
ghost use Rattle.std.specs.Prelude.{◌≡◌};
ghost use Rattle.map_store.specs.View.{cursor_is};
ghost use Rattle.model.specs.Calls as Calls;
ghost use Rattle.heap.specs.State.{State};
ghost use Rattle.heap.specs.Good.{Good};
ghost use Rattle.heap.specs.View.{held};
ghost use Rattle.commands.specs.Rows.{Lists, make, make_both};
ghost use Rattle.commands.specs.Table.{act_in, coroutine_part, coroutine_rows, cursor_in, heap_rows, iterator_rows, list_rows, map_number_rows, map_rows, plain_rows, read_rows, word_rows};
ghost use Rattle.commands.specs.Promise.{ReadBy};

use crate::Operands;
use answers::Shown;
use heap::HeapView;
use map_store::Cursor;
use std::num::f64_from_bits_with_nan;

// ---- words

fn word_call(code: u64, o: Operands) -> Option<Shown>
    ensures { (s : State) (t : Lists) → Good s → ReadBy s (act_in word_rows code o t) result }
{
    match code {
        0x60 => Some(answers::answer(Ok(words::from_bool(o.a != 0)))),
        0x61 => Some(answers::answer(Ok(words::from_char((o.a % 0x1_0000_0000) as u32)))),
        0x62 => Some(answers::answer(Ok(words::from_f64(f64_from_bits_with_nan(o.a))))),
        0x63 => Some(answers::inline(words::inline_int(words::signed_of(o.a)))),
        0x64 => Some(answers::answer(Ok(words::from_ref(
            (o.a % 0x1_0000_0000) as u32,
            (o.b % 0x1_0000) as u16,
        )))),
        0x65 => Some(answers::answer(Ok(words::decode(o.a)))),
        0x66 => Some(answers::answer(Ok(words::same(o.a, o.b)))),
        _ => None,
    }
}

// ---- objects

// Boxes, cells, errors, integers, strings, and what a word reaches.
fn plain_read(view: &HeapView<'_>, code: u64, o: Operands) -> Option<Shown>
    ensures { (t : Lists) → ReadBy (held view.now) (act_in plain_rows code o t) result }
{
    let w = o.a;
    match code {
        0x06 => Some(answers::answer(heap_access::readings::read_box(view, w))),
        0x16 => Some(answers::answer(heap_access::readings::read_cell(view, w))),
        0x2F => Some(answers::answer(heap_access::readings::cell_type(view, w))),
        0x22 => Some(answers::answer(heap_access::readings::error_kind(view, w))),
        0x23 => Some(answers::answer(heap_access::readings::error_word(view, w))),
        0x24 => Some(answers::answer(heap_access::readings::read_integer(view, w))),
        0x25 => Some(answers::answer(heap_access::readings::string_length(view, w))),
        0x27 => Some(answers::answer(Ok(heap::get(view, w)))),
        0x28 => Some(answers::answer(Ok(heap::deref(view, w)))),
        0x4E => Some(answers::answer(Ok(heap::kind_of(view, w)))),
        _ => None,
    }
}

// 2B: a function's number, and whether it is an import.
fn function_read(view: &HeapView<'_>, w: u64) -> Option<Shown>
    ensures { ReadBy (held view.now) (make_both (Calls.function_number w) (Calls.is_import w)) result }
{
    let number = answers::answer(heap_access::readings::function_number(view, w));
    let import = answers::answer(heap_access::readings::is_import(view, w));
    Some(answers::with_second(number, import.word))
}

// Arrays, structs and functions.
fn list_read(view: &HeapView<'_>, code: u64, o: Operands) -> Option<Shown>
    ensures { (t : Lists) → ReadBy (held view.now) (act_in list_rows code o t) result }
{
    let w = o.a;
    match code {
        0x10 => Some(answers::answer(heap_access::readings::array_length(view, w))),
        0x11 => Some(answers::answer(heap_access::readings::read_item(view, w, o.b))),
        0x2D => Some(answers::answer(heap_access::readings::array_type(view, w))),
        0x2E => Some(answers::answer(heap_access::readings::array_capacity(view, w))),
        0x18 => Some(answers::answer(heap_access::readings::read_field(view, w, o.b))),
        0x29 => Some(answers::answer(heap_access::readings::struct_number(view, w))),
        0x2A => Some(answers::answer(heap_access::readings::field_count(view, w))),
        0x1A => Some(answers::answer(heap_access::readings::read_capture(view, w, o.b))),
        0x2B => function_read(view, w),
        0x2C => Some(answers::answer(heap_access::readings::capture_count(view, w))),
        _ => None,
    }
}

// 20: payload, key, result, signal, sequence number, finalized, registers, frames.
fn coroutine_part(view: &HeapView<'_>, w: u64, code: u64) -> Option<Shown>
    ensures { ReadBy (held view.now) (coroutine_part w code) result }
{
    match code {
        0 => Some(answers::answer(heap_access::readings::read_payload(view, w))),
        1 => Some(answers::answer(heap_access::readings::read_key(view, w))),
        2 => Some(answers::answer(heap_access::readings::read_result(view, w))),
        3 => Some(answers::answer(heap_access::readings::read_signal(view, w))),
        4 => Some(answers::answer(heap_access::readings::coroutine_sequence(view, w))),
        5 => Some(answers::answer(heap_access::readings::coroutine_finalized(view, w))),
        6 => Some(answers::answer(heap_access::readings::register_count(view, w))),
        7 => Some(answers::answer(heap_access::readings::frame_count(view, w))),
        _ => None,
    }
}

// Coroutines.
fn coroutine_read(view: &HeapView<'_>, code: u64, o: Operands) -> Option<Shown>
    ensures { (t : Lists) → ReadBy (held view.now) (act_in coroutine_rows code o t) result }
{
    let w = o.a;
    match code {
        0x1C => Some(answers::answer(heap_access::readings::read_register(view, w, o.b))),
        0x1E => Some(answers::answer(heap_access::readings::read_state(view, w))),
        0x20 => coroutine_part(view, w, o.b),
        0x4D => Some(answers::answer(heap_access::readings::read_frame(view, w, o.b))),
        _ => None,
    }
}

// Yielded yet, last sequence number, position, epoch.
#[tactic(auto, using(std::proofs::lemmas::Bool::Decides::nat_tests), unfolding(crate::specs::Table::cursor_in, map_store::specs::View::last_is))]
fn cursor_in(o: Operands) -> Cursor
    ensures { cursor_is result ≡ cursor_in o }
{
    Cursor {
        last: (o.b != 0).then_some(o.c),
        pos: o.d as usize,
        epoch: (o.e % 0x1_0000_0000) as u32,
    }
}

// A step of a cursor over a map's entries.
fn step(view: &HeapView<'_>, o: Operands) -> Option<Shown>
    ensures { ReadBy (held view.now) (make (Calls.next o.a (cursor_in o))) result }
{
    let c = cursor_in(o);
    Some(answers::moved(c, collections_maps::step_cursor(view, o.a, c)))
}

// Maps: their entries and counts.
fn map_read(view: &HeapView<'_>, code: u64, o: Operands) -> Option<Shown>
    ensures { (t : Lists) → ReadBy (held view.now) (act_in map_rows code o t) result }
{
    let w = o.a;
    let b = o.b;
    match code {
        0x31 => Some(answers::answer(collections_maps::readings::find(view, w, b, o.c))),
        0x33 => Some(answers::answer(collections_maps::readings::read_entry(view, w, b))),
        0x36 => Some(answers::answer(collections_maps::readings::live_count(view, w))),
        0x37 => Some(answers::answer(collections_maps::readings::is_hashed(view, w))),
        0x39 => Some(answers::next_int(collections_maps::readings::next_key(view, w))),
        0x3A => step(view, o),
        0x3C => Some(answers::answer(collections_maps::readings::growth_bytes(view, w, b))),
        0x3D => Some(answers::answer(collections_maps::readings::place_count(view, w))),
        _ => None,
    }
}

// Maps: their types and numbers.
fn map_number(view: &HeapView<'_>, code: u64, o: Operands) -> Option<Shown>
    ensures { (t : Lists) → ReadBy (held view.now) (act_in map_number_rows code o t) result }
{
    let w = o.a;
    match code {
        0x3E => Some(answers::answer(collections_maps::readings::key_type(view, w))),
        0x3F => Some(answers::answer(collections_maps::readings::value_type(view, w))),
        0x48 => Some(answers::answer(collections_maps::readings::map_epoch(view, w))),
        0x49 => Some(answers::answer(collections_maps::readings::next_sequence(view, w))),
        0x4A => Some(answers::noted(collections_maps::readings::noted_key(view, w))),
        0x4B => Some(answers::answer(collections_maps::readings::entry_capacity(view, w))),
        0x4C => Some(answers::answer(collections_maps::readings::index_length(view, w))),
        _ => None,
    }
}

// Iterators.
fn iterator_read(view: &HeapView<'_>, code: u64, o: Operands) -> Option<Shown>
    ensures { (t : Lists) → ReadBy (held view.now) (act_in iterator_rows code o t) result }
{
    let w = o.a;
    match code {
        0x41 => Some(answers::answer(collections_iterators::iter_key(view, w))),
        0x42 => Some(answers::answer(collections_iterators::iter_source(view, w))),
        0x43 => Some(answers::answer(collections_iterators::iter_key_type(view, w))),
        0x44 => Some(answers::answer(collections_iterators::iter_ended(view, w))),
        0x45 => Some(answers::answer(collections_iterators::iter_cursor(view, w))),
        _ => None,
    }
}

// The whole heap.
fn heap_read(view: &HeapView<'_>, code: u64, o: Operands) -> Option<Shown>
    ensures { (t : Lists) → ReadBy (held view.now) (act_in heap_rows code o t) result }
{
    let w = o.a;
    match code {
        0x51 => Some(answers::answer(Ok(heap::wants_gc(view, w)))),
        0x52 => Some(answers::answer(Ok(heap::fits(view, w)))),
        0x53 => Some(answers::answer(Ok(heap::collection_count(view)))),
        0x54 => Some(answers::answer(Ok(heap::freed_count(view)))),
        0x55 => Some(answers::answer(Ok(heap::present_count(view)))),
        0x56 => Some(answers::answer(Ok(heap::cells_in_use(view)))),
        _ => None,
    }
}

// ---- all

// The readings of a group.
pub fn read_group(group: u64, view: &HeapView<'_>, code: u64, o: Operands) -> Option<Shown>
    ensures { (t : Lists) → ReadBy (held view.now) (act_in (read_rows group) code o t) result }
{
    match group {
        2 => word_call(code, o),
        3 => plain_read(view, code, o),
        4 => list_read(view, code, o),
        5 => coroutine_read(view, code, o),
        6 => map_read(view, code, o),
        7 => map_number(view, code, o),
        8 => iterator_read(view, code, o),
        9 => heap_read(view, code, o),
        _ => None,
    }
}
