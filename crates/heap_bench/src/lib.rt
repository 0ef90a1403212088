// The calls in loops, for bench/run: a Rust or C caller keeps the heap's record in nineteen words between the loops.
// A function for each workload, which C calls by its name.
#![tactic(auto)]

ghost use Rattle.std.specs.Prelude.{◌≡◌, length};
ghost use Rattle.layout.specs.Sections.{Tabled, layout_of};
ghost use Rattle.model.specs.Calls as Calls;
ghost use Rattle.heap.specs.State.{state};
ghost use Rattle.heap.specs.Good.{Good, Rested};
ghost use Rattle.heap.specs.Opens.{beside, new_heap, opening_of};
ghost use Rattle.heap_record.specs.Record.{OpensWords, loaded, weights_in};
ghost use Rattle.heap_bench.specs.Loops.{Collects, Filled, Ran, Summed, arrays, box_reads, box_stores, boxes, finds, item_reads, item_stores, iterators, maps, pops, pushes, puts, removals, steps};

use heap::HeapView;
use layout::ReadLayout;

// The boxes' words: their sum, modulo 2^64.
#[unsafe(no_mangle)]
pub extern "C" fn heap_bench_read_box(
    heap: &[u64; 19],
    slots: &[u64],
    scalars: &[u64],
    list: &[u64],
    directory: &[u64],
    cells: &[u64],
    words: &[u64],
) -> u64
    requires { Good (state (loaded heap.now) slots.now scalars.now list.now directory.now cells.now) }
    ensures { Summed (box_reads words.now) (length words.now) (state (loaded heap.now) slots.now scalars.now list.now directory.now cells.now) result }
{
    let view = HeapView {
        heap: heap_record::load(heap),
        slots,
        scalars,
        list,
        directory,
        cells,
    };
    let mut sum: u64 = 0;
    for w in words {
        let word = heap_access::readings::read_box(&view, *w).unwrap_or(0);
        sum = sum.wrapping_add(word);
    }
    sum
}

// The values into the boxes.
#[unsafe(no_mangle)]
pub extern "C" fn heap_bench_store_box(
    heap: &[u64; 19],
    slots: &mut [u64],
    scalars: &[u64],
    list: &[u64],
    directory: &[u64],
    cells: &[u64],
    words: &[u64],
    values: &[u64],
)
    requires good { Good (state (loaded heap.now) slots.old scalars.now list.now directory.now cells.now) }
    requires values_len { length values.now ≡ length words.now }
    ensures { Ran (box_stores words.now values.now) (length words.now) (state (loaded heap.now) slots.old scalars.now list.now directory.now cells.now) (state (loaded heap.now) slots.new scalars.now list.now directory.now cells.now) }
{
    let h = heap_record::load(heap);
    // By index here and below, as in map_bench.
    for (i, w) in words.iter().enumerate() {
        let v = values[i];
        let _ = heap_access::stores::store_box(&h, slots, scalars, list, directory, cells, *w, v);
    }
}

// Items of arrays: their sum, modulo 2^64.
#[unsafe(no_mangle)]
pub extern "C" fn heap_bench_read_item(
    heap: &[u64; 19],
    slots: &[u64],
    scalars: &[u64],
    list: &[u64],
    directory: &[u64],
    cells: &[u64],
    words: &[u64],
    positions: &[u64],
) -> u64
    requires good { Good (state (loaded heap.now) slots.now scalars.now list.now directory.now cells.now) }
    requires positions_len { length positions.now ≡ length words.now }
    ensures { Summed (item_reads words.now positions.now) (length words.now) (state (loaded heap.now) slots.now scalars.now list.now directory.now cells.now) result }
{
    let view = HeapView {
        heap: heap_record::load(heap),
        slots,
        scalars,
        list,
        directory,
        cells,
    };
    let mut sum: u64 = 0;
    for (i, w) in words.iter().enumerate() {
        let item = heap_access::readings::read_item(&view, *w, positions[i]).unwrap_or(0);
        sum = sum.wrapping_add(item);
    }
    sum
}

// A value into items of arrays.
#[unsafe(no_mangle)]
pub extern "C" fn heap_bench_store_item(
    heap: &[u64; 19],
    slots: &[u64],
    scalars: &[u64],
    list: &[u64],
    directory: &[u64],
    cells: &mut [u64],
    words: &[u64],
    positions: &[u64],
    v: u64,
)
    requires good { Good (state (loaded heap.now) slots.now scalars.now list.now directory.now cells.old) }
    requires positions_len { length positions.now ≡ length words.now }
    ensures { Ran (item_stores words.now positions.now v) (length words.now) (state (loaded heap.now) slots.now scalars.now list.now directory.now cells.old) (state (loaded heap.now) slots.now scalars.now list.now directory.now cells.new) }
{
    let h = heap_record::load(heap);
    for (i, w) in words.iter().enumerate() {
        let p = positions[i];
        let _ = heap_access::stores::store_item(
            &h, slots, scalars, list, directory, cells, *w, p, v,
        );
    }
}

// Boxes of a word, one for each place.
#[unsafe(no_mangle)]
pub extern "C" fn heap_bench_new_box(
    heap: &mut [u64; 19],
    slots: &mut [u64],
    scalars: &[u64],
    list: &[u64],
    directory: &[u64],
    cells: &[u64],
    w: u64,
    out: &mut [u64],
)
    requires { Good (state (loaded heap.old) slots.old scalars.now list.now directory.now cells.now) }
    ensures ran { Ran (boxes w) (length out.old) (state (loaded heap.old) slots.old scalars.now list.now directory.now cells.now) (state (loaded heap.new) slots.new scalars.now list.now directory.now cells.now) }
    ensures filled { Filled (boxes w) (state (loaded heap.old) slots.old scalars.now list.now directory.now cells.now) out.new }
{
    let mut h = heap_record::load(heap);
    for place in out.iter_mut() {
        let made = heap_allocation::new_box(&mut h, slots, scalars, list, directory, cells, w);
        *place = made.unwrap_or(0);
    }
    heap_record::save(heap, h);
}

// Arrays of so many items, one for each place.
#[unsafe(no_mangle)]
pub extern "C" fn heap_bench_new_array(
    heap: &mut [u64; 19],
    slots: &mut [u64],
    scalars: &[u64],
    list: &[u64],
    directory: &mut [u64],
    cells: &mut [u64],
    t: u64,
    size: i64,
    out: &mut [u64],
)
    requires { Good (state (loaded heap.old) slots.old scalars.now list.now directory.old cells.old) }
    ensures ran { Ran (arrays t size) (length out.old) (state (loaded heap.old) slots.old scalars.now list.now directory.old cells.old) (state (loaded heap.new) slots.new scalars.now list.now directory.new cells.new) }
    ensures filled { Filled (arrays t size) (state (loaded heap.old) slots.old scalars.now list.now directory.old cells.old) out.new }
{
    let mut h = heap_record::load(heap);
    for place in out.iter_mut() {
        let made = heap_allocation::new_array(
            &mut h, slots, scalars, list, directory, cells, t, size,
        );
        *place = made.unwrap_or(0);
    }
    heap_record::save(heap, h);
}

// Maps of plain words, one for each place.
#[unsafe(no_mangle)]
pub extern "C" fn heap_bench_new_map(
    heap: &mut [u64; 19],
    slots: &mut [u64],
    scalars: &mut [u64],
    list: &[u64],
    directory: &[u64],
    cells: &[u64],
    out: &mut [u64],
)
    requires { Good (state (loaded heap.old) slots.old scalars.old list.now directory.now cells.now) }
    ensures ran { Ran (maps) (length out.old) (state (loaded heap.old) slots.old scalars.old list.now directory.now cells.now) (state (loaded heap.new) slots.new scalars.new list.now directory.now cells.now) }
    ensures filled { Filled (maps) (state (loaded heap.old) slots.old scalars.old list.now directory.now cells.now) out.new }
{
    let mut h = heap_record::load(heap);
    for place in out.iter_mut() {
        let made = collections_maps::changes::new_map(
            &mut h, slots, scalars, list, directory, cells, 0, 0,
        );
        *place = made.unwrap_or(0);
    }
    heap_record::save(heap, h);
}

// Iterators over one source, one for each place.
#[unsafe(no_mangle)]
pub extern "C" fn heap_bench_new_iter(
    heap: &mut [u64; 19],
    slots: &mut [u64],
    scalars: &mut [u64],
    list: &[u64],
    directory: &[u64],
    cells: &[u64],
    source: u64,
    out: &mut [u64],
)
    requires { Good (state (loaded heap.old) slots.old scalars.old list.now directory.now cells.now) }
    ensures ran { Ran (iterators source) (length out.old) (state (loaded heap.old) slots.old scalars.old list.now directory.now cells.now) (state (loaded heap.new) slots.new scalars.new list.now directory.now cells.now) }
    ensures filled { Filled (iterators source) (state (loaded heap.old) slots.old scalars.old list.now directory.now cells.now) out.new }
{
    let mut h = heap_record::load(heap);
    for place in out.iter_mut() {
        let made = collections_iterators::new_iter(
            &mut h, slots, scalars, list, directory, cells, source,
        );
        *place = made.unwrap_or(0);
    }
    heap_record::save(heap, h);
}

// The values behind an array's last item.
#[unsafe(no_mangle)]
pub extern "C" fn heap_bench_push(
    heap: &mut [u64; 19],
    slots: &mut [u64],
    scalars: &[u64],
    list: &[u64],
    directory: &mut [u64],
    cells: &mut [u64],
    w: u64,
    values: &[u64],
)
    requires { Good (state (loaded heap.old) slots.old scalars.now list.now directory.old cells.old) }
    ensures { Ran (pushes w values.now) (length values.now) (state (loaded heap.old) slots.old scalars.now list.now directory.old cells.old) (state (loaded heap.new) slots.new scalars.now list.now directory.new cells.new) }
{
    let mut h = heap_record::load(heap);
    for v in values {
        let _ = collections_arrays::push(&mut h, slots, scalars, list, directory, cells, w, *v);
    }
    heap_record::save(heap, h);
}

// An array's last items, n of them: their sum, modulo 2^64.
#[unsafe(no_mangle)]
pub extern "C" fn heap_bench_pop(
    heap: &[u64; 19],
    slots: &mut [u64],
    scalars: &[u64],
    list: &[u64],
    directory: &[u64],
    cells: &[u64],
    w: u64,
    n: usize,
) -> u64
    requires { Good (state (loaded heap.now) slots.old scalars.now list.now directory.now cells.now) }
    ensures ran { Ran (pops w) n (state (loaded heap.now) slots.old scalars.now list.now directory.now cells.now) (state (loaded heap.now) slots.new scalars.now list.now directory.now cells.now) }
    ensures summed { Summed (pops w) n (state (loaded heap.now) slots.old scalars.now list.now directory.now cells.now) result }
{
    let h = heap_record::load(heap);
    let mut sum: u64 = 0;
    for _ in 0..n {
        let item = collections_arrays::pop(&h, slots, scalars, list, directory, cells, w);
        sum = sum.wrapping_add(item.unwrap_or(0));
    }
    sum
}

// Keys of a map, each with itself as its value.
#[unsafe(no_mangle)]
pub extern "C" fn heap_bench_put(
    heap: &mut [u64; 19],
    slots: &mut [u64],
    scalars: &mut [u64],
    list: &[u64],
    directory: &mut [u64],
    cells: &mut [u64],
    w: u64,
    hashes: &[u64],
    keys: &[u64],
)
    requires good { Good (state (loaded heap.old) slots.old scalars.old list.now directory.old cells.old) }
    requires hashes_len { length hashes.now ≡ length keys.now }
    ensures { Ran (puts w hashes.now keys.now) (length keys.now) (state (loaded heap.old) slots.old scalars.old list.now directory.old cells.old) (state (loaded heap.new) slots.new scalars.new list.now directory.new cells.new) }
{
    let mut h = heap_record::load(heap);
    for (i, key) in keys.iter().enumerate() {
        let _ = collections_maps::changes::put(
            &mut h, slots, scalars, list, directory, cells, w, hashes[i], *key, *key,
        );
    }
    heap_record::save(heap, h);
}

// Keys of a map: the sum of their positions, modulo 2^64.
#[unsafe(no_mangle)]
pub extern "C" fn heap_bench_find(
    heap: &[u64; 19],
    slots: &[u64],
    scalars: &[u64],
    list: &[u64],
    directory: &[u64],
    cells: &[u64],
    w: u64,
    hashes: &[u64],
    keys: &[u64],
) -> u64
    requires good { Good (state (loaded heap.now) slots.now scalars.now list.now directory.now cells.now) }
    requires hashes_len { length hashes.now ≡ length keys.now }
    ensures { Summed (finds w hashes.now keys.now) (length keys.now) (state (loaded heap.now) slots.now scalars.now list.now directory.now cells.now) result }
{
    let view = HeapView {
        heap: heap_record::load(heap),
        slots,
        scalars,
        list,
        directory,
        cells,
    };
    let mut sum: u64 = 0;
    for (i, key) in keys.iter().enumerate() {
        let found = collections_maps::readings::find(&view, w, hashes[i], *key);
        sum = sum.wrapping_add(found.unwrap_or(None).unwrap_or(0));
    }
    sum
}

// Keys out of a map.
#[unsafe(no_mangle)]
pub extern "C" fn heap_bench_remove(
    heap: &mut [u64; 19],
    slots: &mut [u64],
    scalars: &mut [u64],
    list: &[u64],
    directory: &mut [u64],
    cells: &mut [u64],
    w: u64,
    hashes: &[u64],
    keys: &[u64],
)
    requires good { Good (state (loaded heap.old) slots.old scalars.old list.now directory.old cells.old) }
    requires hashes_len { length hashes.now ≡ length keys.now }
    ensures { Ran (removals w hashes.now keys.now) (length keys.now) (state (loaded heap.old) slots.old scalars.old list.now directory.old cells.old) (state (loaded heap.new) slots.new scalars.new list.now directory.new cells.new) }
{
    let mut h = heap_record::load(heap);
    for (i, key) in keys.iter().enumerate() {
        let _ = collections_maps::changes::remove(
            &mut h, slots, scalars, list, directory, cells, w, hashes[i], *key,
        );
    }
    heap_record::save(heap, h);
}

// An iterator's next items, n of them: their sum, modulo 2^64.
#[unsafe(no_mangle)]
pub extern "C" fn heap_bench_iter_next(
    heap: &[u64; 19],
    slots: &[u64],
    scalars: &mut [u64],
    list: &[u64],
    directory: &[u64],
    cells: &[u64],
    w: u64,
    n: usize,
) -> u64
    requires { Good (state (loaded heap.now) slots.now scalars.old list.now directory.now cells.now) }
    ensures ran { Ran (steps w) n (state (loaded heap.now) slots.now scalars.old list.now directory.now cells.now) (state (loaded heap.now) slots.now scalars.new list.now directory.now cells.now) }
    ensures summed { Summed (steps w) n (state (loaded heap.now) slots.now scalars.old list.now directory.now cells.now) result }
{
    let h = heap_record::load(heap);
    let mut sum: u64 = 0;
    for _ in 0..n {
        let item = collections_iterators::iter_next(&h, slots, scalars, list, directory, cells, w);
        sum = sum.wrapping_add(item.unwrap_or(None).unwrap_or(0));
    }
    sum
}

// A collection: how many objects were freed; 0 also for a refusal.
#[unsafe(no_mangle)]
pub extern "C" fn heap_bench_collect(
    heap: &mut [u64; 19],
    slots: &mut [u64],
    scalars: &mut [u64],
    list: &mut [u64],
    directory: &[u64],
    cells: &[u64],
    layout: &[u8],
    table: &[u64],
    marks: &mut [u8],
    order: &mut [u32],
    roots: &[u64],
    places: &mut [u64],
) -> u64
    requires good { Good (state (loaded heap.old) slots.old scalars.old list.old directory.now cells.now) }
    requires tabled { Tabled layout.now table.now }
    requires rested { Rested (loaded heap.old).size marks.old order.old }
    ensures collects { Collects (layout_of layout.now) roots.now places.old (state (loaded heap.old) slots.old scalars.old list.old directory.now cells.now) result places.new (state (loaded heap.new) slots.new scalars.new list.new directory.now cells.now) }
    ensures marks_unchanged { marks.new ≡ marks.old }
    ensures order_unchanged { order.new ≡ order.old }
{
    let mut h = heap_record::load(heap);
    let read = ReadLayout {
        bytes: layout,
        table,
    };
    let answer = collector::collect(
        &mut h, slots, scalars, list, directory, cells, read, marks, order, roots, places,
    );
    heap_record::save(heap, h);
    match answer {
        Ok(collection) => collection.freed,
        Err(_) => 0,
    }
}

// A heap over the lent buffers; 10 leaves the record and every buffer as they were.
#[unsafe(no_mangle)]
pub extern "C" fn heap_bench_open(
    heap: &mut [u64; 19],
    size: u64,
    limit: u64,
    weights: &[u64; 5],
    layout: &[u8],
    table: &mut [u64],
    marks: &mut [u8],
    order: &mut [u32],
    slots: &[u64],
    scalars: &[u64],
    list: &[u64],
    directory: &[u64],
    cells: &[u64],
) -> u64
    ensures { OpensWords (opening_of size (length cells.now) limit (weights_in weights.now) layout.now) (state (new_heap size limit (weights_in weights.now)) slots.now scalars.now list.now directory.now cells.now) (beside table.old marks.old order.old) heap.old result heap.new (beside table.new marks.new order.new) }
{
    heap_record::open(
        heap, size, limit, weights, layout, table, marks, order, slots, scalars, list, directory,
        cells,
    )
}
