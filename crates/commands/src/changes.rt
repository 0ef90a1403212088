// Calls that change the heap or are lent a list, by their number: rows as in `readings`.
ghost use Rattle.std.specs.Prelude.{◌≡◌, List, [], ℕ};
ghost use Rattle.layout.specs.Sections.{layout_of};
ghost use Rattle.heap.specs.Answers.{done_is, made_is, reading_is};
ghost use Rattle.heap.specs.State.{state};
ghost use Rattle.heap.specs.Good.{Good, Ready};
ghost use Rattle.collections_growth.specs.Answers.{perhaps_is};
ghost use Rattle.collector.specs.Answer.{collection_is};
ghost use Rattle.commands.specs.Rows.{Lists, make};
ghost use Rattle.commands.specs.Table.{act_in, change_rows, grow_rows, lent_rows, map_change_rows, memory_of, coroutine_made, new_list_rows, new_rows, part_store, store_rows};
ghost use Rattle.commands.specs.Promise.{ChangedBy, CommandedBy, lists};

use crate::Operands;
use answers::Shown;
use collections_maps::changes::insert_entry;
use heap::{Heap, HeapView};
use heap_allocation::{Coroutine, new_coroutine_flat, new_function};
use layout::ReadLayout;

// ---- groups of calls

// Allocations whose contents are no lists.
fn new_call(
    heap: &mut Heap,
    slots: &mut [u64],
    scalars: &mut [u64],
    list: &[u64],
    directory: &mut [u64],
    cells: &mut [u64],
    code: u64,
    o: Operands,
) -> Option<Shown>
    requires { Good (state heap.old slots.old scalars.old list.now directory.old cells.old) }
    ensures { (t : Lists) → ChangedBy (state heap.old slots.old scalars.old list.now directory.old cells.old) (act_in new_rows code o t) result (state heap.new slots.new scalars.new list.now directory.new cells.new) }
{
    let a = o.a;
    let b = o.b;
    let z = words::signed_of(a);
    let n = words::signed_of(b);
    let kind = (a % 65536) as u16;
    match code {
        0x01 => Some(answers::made(heap_allocation::new_box(
            heap, slots, scalars, list, directory, cells, a,
        ))),
        0x02 => Some(answers::made(heap_allocation::new_array(
            heap, slots, scalars, list, directory, cells, a, n,
        ))),
        0x03 => Some(answers::made(collections_maps::changes::new_map(
            heap, slots, scalars, list, directory, cells, a, b,
        ))),
        0x05 => Some(answers::made(heap_allocation::new_integer(
            heap, slots, scalars, list, directory, cells, z,
        ))),
        0x07 => Some(answers::made(heap_allocation::new_cell(
            heap, slots, scalars, list, directory, cells, a, b,
        ))),
        0x08 => Some(answers::made(heap_allocation::new_error(
            heap, slots, scalars, list, directory, cells, kind, b,
        ))),
        0x0D => Some(answers::made(collections_iterators::new_iter(
            heap, slots, scalars, list, directory, cells, a,
        ))),
        _ => None,
    }
}

// A coroutine's payload, key, result or signal.
fn part_store(
    heap: &Heap,
    slots: &[u64],
    scalars: &mut [u64],
    list: &[u64],
    directory: &[u64],
    cells: &[u64],
    w: u64,
    part: u64,
    v: u64,
) -> Option<Shown>
    requires { Good (state heap.now slots.now scalars.old list.now directory.now cells.now) }
    ensures { ChangedBy (state heap.now slots.now scalars.old list.now directory.now cells.now) (part_store w part v) result (state heap.now slots.now scalars.new list.now directory.now cells.now) }
{
    match part {
        0 => Some(answers::answer(heap_access::stores::store_payload(
            heap, slots, scalars, list, directory, cells, w, v,
        ))),
        1 => Some(answers::answer(heap_access::stores::store_key(
            heap, slots, scalars, list, directory, cells, w, v,
        ))),
        2 => Some(answers::answer(heap_access::stores::store_result(
            heap, slots, scalars, list, directory, cells, w, v,
        ))),
        3 => Some(answers::answer(heap_access::stores::store_signal(
            heap, slots, scalars, list, directory, cells, w, v,
        ))),
        _ => None,
    }
}

// Stores into an object that keep its length.
fn store_call(
    heap: &Heap,
    slots: &mut [u64],
    scalars: &mut [u64],
    list: &[u64],
    directory: &[u64],
    cells: &mut [u64],
    code: u64,
    o: Operands,
) -> Option<Shown>
    requires { Good (state heap.now slots.old scalars.old list.now directory.now cells.old) }
    ensures { (t : Lists) → ChangedBy (state heap.now slots.old scalars.old list.now directory.now cells.old) (act_in store_rows code o t) result (state heap.now slots.new scalars.new list.now directory.now cells.new) }
{
    let a = o.a;
    let b = o.b;
    let c = o.c;
    match code {
        0x12 => Some(answers::answer(heap_access::stores::store_item(
            heap, slots, scalars, list, directory, cells, a, b, c,
        ))),
        0x15 => Some(answers::answer(heap_access::stores::store_box(
            heap, slots, scalars, list, directory, cells, a, b,
        ))),
        0x17 => Some(answers::answer(heap_access::stores::store_cell(
            heap, slots, scalars, list, directory, cells, a, b,
        ))),
        0x19 => Some(answers::answer(heap_access::stores::store_field(
            heap, slots, scalars, list, directory, cells, a, b, c,
        ))),
        0x1B => Some(answers::answer(heap_access::stores::store_capture(
            heap, slots, scalars, list, directory, cells, a, b, c,
        ))),
        0x1D => Some(answers::answer(heap_access::stores::store_register(
            heap, slots, scalars, list, directory, cells, a, b, c,
        ))),
        0x1F => Some(answers::answer(heap_access::stores::set_state(
            heap, slots, scalars, list, directory, cells, a, b,
        ))),
        0x21 => part_store(heap, slots, scalars, list, directory, cells, a, b, c),
        _ => None,
    }
}

// Push, pop, the step of an iterator, and a charge.
fn grow_call(
    heap: &mut Heap,
    slots: &mut [u64],
    scalars: &mut [u64],
    list: &[u64],
    directory: &mut [u64],
    cells: &mut [u64],
    code: u64,
    o: Operands,
) -> Option<Shown>
    requires { Good (state heap.old slots.old scalars.old list.now directory.old cells.old) }
    ensures { (t : Lists) → ChangedBy (state heap.old slots.old scalars.old list.now directory.old cells.old) (act_in grow_rows code o t) result (state heap.new slots.new scalars.new list.now directory.new cells.new) }
{
    let a = o.a;
    let b = o.b;
    match code {
        0x13 => Some(answers::answer(collections_arrays::push(
            heap, slots, scalars, list, directory, cells, a, b,
        ))),
        0x14 => Some(answers::answer(collections_arrays::pop(
            heap, slots, scalars, list, directory, cells, a,
        ))),
        0x40 => Some(answers::answer(collections_iterators::iter_next(
            heap, slots, scalars, list, directory, cells, a,
        ))),
        0x50 => Some(answers::answer(heap::charge(
            heap, slots, scalars, list, directory, cells, a,
        ))),
        _ => None,
    }
}

// Changes of a map.
fn map_change(
    heap: &mut Heap,
    slots: &mut [u64],
    scalars: &mut [u64],
    list: &[u64],
    directory: &mut [u64],
    cells: &mut [u64],
    code: u64,
    o: Operands,
) -> Option<Shown>
    requires { Good (state heap.old slots.old scalars.old list.now directory.old cells.old) }
    ensures { (t : Lists) → ChangedBy (state heap.old slots.old scalars.old list.now directory.old cells.old) (act_in map_change_rows code o t) result (state heap.new slots.new scalars.new list.now directory.new cells.new) }
{
    let a = o.a;
    let b = o.b;
    let c = o.c;
    let d = o.d;
    let z = words::signed_of(b);
    match code {
        0x30 => Some(answers::answer(collections_maps::changes::put(
            heap, slots, scalars, list, directory, cells, a, b, c, d,
        ))),
        0x3B => {
            let r = insert_entry(heap, slots, scalars, list, directory, cells, a, b, c, d);
            Some(answers::answer(r))
        }
        0x32 => Some(answers::answer(collections_maps::changes::remove(
            heap, slots, scalars, list, directory, cells, a, b, c,
        ))),
        0x34 => Some(answers::answer(collections_maps::changes::set_value(
            heap, slots, scalars, list, directory, cells, a, b, c,
        ))),
        0x35 => Some(answers::answer(collections_maps::changes::remove_at(
            heap, slots, scalars, list, directory, cells, a, b,
        ))),
        0x38 => Some(answers::answer(collections_maps::changes::note(
            heap, slots, scalars, list, directory, cells, a, z,
        ))),
        _ => None,
    }
}

// The changes of a group without lists.
pub fn change_group(
    group: u64,
    heap: &mut Heap,
    slots: &mut [u64],
    scalars: &mut [u64],
    list: &[u64],
    directory: &mut [u64],
    cells: &mut [u64],
    code: u64,
    o: Operands,
) -> Option<Shown>
    requires { Good (state heap.old slots.old scalars.old list.now directory.old cells.old) }
    ensures { (t : Lists) → ChangedBy (state heap.old slots.old scalars.old list.now directory.old cells.old) (act_in (change_rows group) code o t) result (state heap.new slots.new scalars.new list.now directory.new cells.new) }
{
    match group {
        10 => new_call(heap, slots, scalars, list, directory, cells, code, o),
        11 => store_call(heap, slots, scalars, list, directory, cells, code, o),
        12 => grow_call(heap, slots, scalars, list, directory, cells, code, o),
        13 => map_change(heap, slots, scalars, list, directory, cells, code, o),
        _ => None,
    }
}

// ---- calls with lists

// A coroutine with its registers and frames.
fn coroutine_turn(
    heap: &mut Heap,
    slots: &mut [u64],
    scalars: &mut [u64],
    list: &[u64],
    directory: &mut [u64],
    cells: &mut [u64],
    o: Operands,
    words: &[u64],
    frames: &[u64],
) -> Option<Shown>
    requires { Good (state heap.old slots.old scalars.old list.now directory.old cells.old) }
    ensures { ChangedBy (state heap.old slots.old scalars.old list.now directory.old cells.old) (make (coroutine_made o (lists words.now frames.now [] []))) result (state heap.new slots.new scalars.new list.now directory.new cells.new) }
{
    let k = Coroutine {
        state: o.a,
        sequence: o.b,
        payload: o.c,
        key: o.d,
        result: o.e,
        signal: o.f,
    };
    Some(answers::made(new_coroutine_flat(
        heap, slots, scalars, list, directory, cells, k, words, frames,
    )))
}

// New objects whose contents are lists.
pub fn new_with_list(
    heap: &mut Heap,
    slots: &mut [u64],
    scalars: &mut [u64],
    list: &[u64],
    directory: &mut [u64],
    cells: &mut [u64],
    code: u64,
    o: Operands,
    words: &[u64],
    frames: &[u64],
    bytes: &[u8],
) -> Option<Shown>
    requires { Good (state heap.old slots.old scalars.old list.now directory.old cells.old) }
    ensures { (places : List ℕ) → ChangedBy (state heap.old slots.old scalars.old list.now directory.old cells.old) (act_in new_list_rows code o (lists words.now frames.now bytes.now places)) result (state heap.new slots.new scalars.new list.now directory.new cells.new) }
{
    let a = o.a;
    let b = o.b;
    let imp = a != 0;
    match code {
        0x04 => Some(answers::made(heap_allocation::new_string(
            heap, slots, scalars, list, directory, cells, bytes,
        ))),
        0x09 => Some(answers::made(heap_allocation::new_struct(
            heap, slots, scalars, list, directory, cells, a, words,
        ))),
        0x0A => Some(answers::made(new_function(
            heap, slots, scalars, list, directory, cells, imp, b, words,
        ))),
        0x0E => coroutine_turn(
            heap, slots, scalars, list, directory, cells, o, words, frames,
        ),
        _ => None,
    }
}

// A collection, and a string read into the bytes.
pub fn lent_call(
    heap: &mut Heap,
    slots: &mut [u64],
    scalars: &mut [u64],
    list: &mut [u64],
    directory: &[u64],
    cells: &[u64],
    marks: &mut [u8],
    order: &mut [u32],
    layout: &[u8],
    table: &[u64],
    code: u64,
    o: Operands,
    words: &[u64],
    bytes: &mut [u8],
    places: &mut [u64],
) -> Option<Shown>
    requires { Ready (state heap.old slots.old scalars.old list.old directory.now cells.now) marks.old order.old layout.now table.now }
    ensures by_index { (frames : List ℕ) → CommandedBy (layout_of layout.now) (memory_of code) (state heap.old slots.old scalars.old list.old directory.now cells.now) bytes.old places.old (act_in lent_rows code o (lists words.now frames bytes.old places.old)) result (state heap.new slots.new scalars.new list.new directory.now cells.now) bytes.new places.new }
    ensures marks_unchanged { marks.new ≡ marks.old }
    ensures order_unchanged { order.new ≡ order.old }
{
    let read = ReadLayout {
        bytes: layout,
        table,
    };
    match code {
        0x0C | 0x0F => Some(answers::collected(collector::collect(
            heap, slots, scalars, list, directory, cells, read, marks, order, words, places,
        ))),
        0x26 => {
            let view = HeapView {
                heap: *heap,
                slots,
                scalars,
                list,
                directory,
                cells,
            };
            Some(answers::answer(heap_access::readings::read_string(&view, o.a, bytes)))
        }
        _ => None,
    }
}
