// The functions of crate heap_bench for C, under their names: libheap_bench_c.a. Made by tools/exports.py from
// crates/heap_bench/src/lib.rt.
#![tactic(auto)]

ghost use Rattle.std.specs.Prelude.{◌≡◌, length};
ghost use Rattle.layout.specs.Sections.{Tabled, layout_of};
ghost use Rattle.heap.specs.State.{state};
ghost use Rattle.heap.specs.Good.{Good, Rested};
ghost use Rattle.heap.specs.Opens.{beside, new_heap, opening_of};
ghost use Rattle.heap_record.specs.Record.{OpensWords, loaded, weights_in};
ghost use Rattle.heap_bench.specs.Loops.{Collects, Filled, Ran, Summed, arrays, box_reads, box_stores, boxes, finds, item_reads, item_stores, iterators, maps, pops, pushes, puts, removals, steps};

// The boxes' words: their sum, modulo 2^64.
#[unsafe(no_mangle)]
pub extern "C" fn heap_bench_read_box(
    heap: &[u64; 19],
    slots: &[u64],
    scalars: &[u64],
    list: &[u64],
    directory: &[u64],
    cells: &[u64],
    words: &[u64],
) -> u64
    requires { Good (state (loaded heap.now) slots.now scalars.now list.now directory.now cells.now) }
    ensures { Summed (box_reads words.now) (length words.now) (state (loaded heap.now) slots.now scalars.now list.now directory.now cells.now) result }
{
    heap_bench::heap_bench_read_box(heap, slots, scalars, list, directory, cells, words)
}

// The values into the boxes.
#[unsafe(no_mangle)]
pub extern "C" fn heap_bench_store_box(
    heap: &[u64; 19],
    slots: &mut [u64],
    scalars: &[u64],
    list: &[u64],
    directory: &[u64],
    cells: &[u64],
    words: &[u64],
    values: &[u64],
)
    requires good { Good (state (loaded heap.now) slots.old scalars.now list.now directory.now cells.now) }
    requires values_len { length values.now ≡ length words.now }
    ensures { Ran (box_stores words.now values.now) (length words.now) (state (loaded heap.now) slots.old scalars.now list.now directory.now cells.now) (state (loaded heap.now) slots.new scalars.now list.now directory.now cells.now) }
{
    heap_bench::heap_bench_store_box(heap, slots, scalars, list, directory, cells, words, values)
}

// Items of arrays: their sum, modulo 2^64.
#[unsafe(no_mangle)]
pub extern "C" fn heap_bench_read_item(
    heap: &[u64; 19],
    slots: &[u64],
    scalars: &[u64],
    list: &[u64],
    directory: &[u64],
    cells: &[u64],
    words: &[u64],
    positions: &[u64],
) -> u64
    requires good { Good (state (loaded heap.now) slots.now scalars.now list.now directory.now cells.now) }
    requires positions_len { length positions.now ≡ length words.now }
    ensures { Summed (item_reads words.now positions.now) (length words.now) (state (loaded heap.now) slots.now scalars.now list.now directory.now cells.now) result }
{
    heap_bench::heap_bench_read_item(
        heap, slots, scalars, list, directory, cells, words, positions,
    )
}

// A value into items of arrays.
#[unsafe(no_mangle)]
pub extern "C" fn heap_bench_store_item(
    heap: &[u64; 19],
    slots: &[u64],
    scalars: &[u64],
    list: &[u64],
    directory: &[u64],
    cells: &mut [u64],
    words: &[u64],
    positions: &[u64],
    v: u64,
)
    requires good { Good (state (loaded heap.now) slots.now scalars.now list.now directory.now cells.old) }
    requires positions_len { length positions.now ≡ length words.now }
    ensures { Ran (item_stores words.now positions.now v) (length words.now) (state (loaded heap.now) slots.now scalars.now list.now directory.now cells.old) (state (loaded heap.now) slots.now scalars.now list.now directory.now cells.new) }
{
    heap_bench::heap_bench_store_item(
        heap, slots, scalars, list, directory, cells, words, positions, v,
    )
}

// Boxes of a word, one for each place.
#[unsafe(no_mangle)]
pub extern "C" fn heap_bench_new_box(
    heap: &mut [u64; 19],
    slots: &mut [u64],
    scalars: &[u64],
    list: &[u64],
    directory: &[u64],
    cells: &[u64],
    w: u64,
    out: &mut [u64],
)
    requires { Good (state (loaded heap.old) slots.old scalars.now list.now directory.now cells.now) }
    ensures ran { Ran (boxes w) (length out.old) (state (loaded heap.old) slots.old scalars.now list.now directory.now cells.now) (state (loaded heap.new) slots.new scalars.now list.now directory.now cells.now) }
    ensures filled { Filled (boxes w) (state (loaded heap.old) slots.old scalars.now list.now directory.now cells.now) out.new }
{
    heap_bench::heap_bench_new_box(heap, slots, scalars, list, directory, cells, w, out)
}

// Arrays of so many items, one for each place.
#[unsafe(no_mangle)]
pub extern "C" fn heap_bench_new_array(
    heap: &mut [u64; 19],
    slots: &mut [u64],
    scalars: &[u64],
    list: &[u64],
    directory: &mut [u64],
    cells: &mut [u64],
    t: u64,
    size: i64,
    out: &mut [u64],
)
    requires { Good (state (loaded heap.old) slots.old scalars.now list.now directory.old cells.old) }
    ensures ran { Ran (arrays t size) (length out.old) (state (loaded heap.old) slots.old scalars.now list.now directory.old cells.old) (state (loaded heap.new) slots.new scalars.now list.now directory.new cells.new) }
    ensures filled { Filled (arrays t size) (state (loaded heap.old) slots.old scalars.now list.now directory.old cells.old) out.new }
{
    heap_bench::heap_bench_new_array(heap, slots, scalars, list, directory, cells, t, size, out)
}

// Maps of plain words, one for each place.
#[unsafe(no_mangle)]
pub extern "C" fn heap_bench_new_map(
    heap: &mut [u64; 19],
    slots: &mut [u64],
    scalars: &mut [u64],
    list: &[u64],
    directory: &[u64],
    cells: &[u64],
    out: &mut [u64],
)
    requires { Good (state (loaded heap.old) slots.old scalars.old list.now directory.now cells.now) }
    ensures ran { Ran (maps) (length out.old) (state (loaded heap.old) slots.old scalars.old list.now directory.now cells.now) (state (loaded heap.new) slots.new scalars.new list.now directory.now cells.now) }
    ensures filled { Filled (maps) (state (loaded heap.old) slots.old scalars.old list.now directory.now cells.now) out.new }
{
    heap_bench::heap_bench_new_map(heap, slots, scalars, list, directory, cells, out)
}

// Iterators over one source, one for each place.
#[unsafe(no_mangle)]
pub extern "C" fn heap_bench_new_iter(
    heap: &mut [u64; 19],
    slots: &mut [u64],
    scalars: &mut [u64],
    list: &[u64],
    directory: &[u64],
    cells: &[u64],
    source: u64,
    out: &mut [u64],
)
    requires { Good (state (loaded heap.old) slots.old scalars.old list.now directory.now cells.now) }
    ensures ran { Ran (iterators source) (length out.old) (state (loaded heap.old) slots.old scalars.old list.now directory.now cells.now) (state (loaded heap.new) slots.new scalars.new list.now directory.now cells.now) }
    ensures filled { Filled (iterators source) (state (loaded heap.old) slots.old scalars.old list.now directory.now cells.now) out.new }
{
    heap_bench::heap_bench_new_iter(heap, slots, scalars, list, directory, cells, source, out)
}

// The values behind an array's last item.
#[unsafe(no_mangle)]
pub extern "C" fn heap_bench_push(
    heap: &mut [u64; 19],
    slots: &mut [u64],
    scalars: &[u64],
    list: &[u64],
    directory: &mut [u64],
    cells: &mut [u64],
    w: u64,
    values: &[u64],
)
    requires { Good (state (loaded heap.old) slots.old scalars.now list.now directory.old cells.old) }
    ensures { Ran (pushes w values.now) (length values.now) (state (loaded heap.old) slots.old scalars.now list.now directory.old cells.old) (state (loaded heap.new) slots.new scalars.now list.now directory.new cells.new) }
{
    heap_bench::heap_bench_push(heap, slots, scalars, list, directory, cells, w, values)
}

// An array's last items, n of them: their sum, modulo 2^64.
#[unsafe(no_mangle)]
pub extern "C" fn heap_bench_pop(
    heap: &[u64; 19],
    slots: &mut [u64],
    scalars: &[u64],
    list: &[u64],
    directory: &[u64],
    cells: &[u64],
    w: u64,
    n: usize,
) -> u64
    requires { Good (state (loaded heap.now) slots.old scalars.now list.now directory.now cells.now) }
    ensures ran { Ran (pops w) n (state (loaded heap.now) slots.old scalars.now list.now directory.now cells.now) (state (loaded heap.now) slots.new scalars.now list.now directory.now cells.now) }
    ensures summed { Summed (pops w) n (state (loaded heap.now) slots.old scalars.now list.now directory.now cells.now) result }
{
    heap_bench::heap_bench_pop(heap, slots, scalars, list, directory, cells, w, n)
}

// Keys of a map, each with itself as its value.
#[unsafe(no_mangle)]
pub extern "C" fn heap_bench_put(
    heap: &mut [u64; 19],
    slots: &mut [u64],
    scalars: &mut [u64],
    list: &[u64],
    directory: &mut [u64],
    cells: &mut [u64],
    w: u64,
    hashes: &[u64],
    keys: &[u64],
)
    requires good { Good (state (loaded heap.old) slots.old scalars.old list.now directory.old cells.old) }
    requires hashes_len { length hashes.now ≡ length keys.now }
    ensures { Ran (puts w hashes.now keys.now) (length keys.now) (state (loaded heap.old) slots.old scalars.old list.now directory.old cells.old) (state (loaded heap.new) slots.new scalars.new list.now directory.new cells.new) }
{
    heap_bench::heap_bench_put(
        heap, slots, scalars, list, directory, cells, w, hashes, keys,
    )
}

// Keys of a map: the sum of their positions, modulo 2^64.
#[unsafe(no_mangle)]
pub extern "C" fn heap_bench_find(
    heap: &[u64; 19],
    slots: &[u64],
    scalars: &[u64],
    list: &[u64],
    directory: &[u64],
    cells: &[u64],
    w: u64,
    hashes: &[u64],
    keys: &[u64],
) -> u64
    requires good { Good (state (loaded heap.now) slots.now scalars.now list.now directory.now cells.now) }
    requires hashes_len { length hashes.now ≡ length keys.now }
    ensures { Summed (finds w hashes.now keys.now) (length keys.now) (state (loaded heap.now) slots.now scalars.now list.now directory.now cells.now) result }
{
    heap_bench::heap_bench_find(
        heap, slots, scalars, list, directory, cells, w, hashes, keys,
    )
}

// Keys out of a map.
#[unsafe(no_mangle)]
pub extern "C" fn heap_bench_remove(
    heap: &mut [u64; 19],
    slots: &mut [u64],
    scalars: &mut [u64],
    list: &[u64],
    directory: &mut [u64],
    cells: &mut [u64],
    w: u64,
    hashes: &[u64],
    keys: &[u64],
)
    requires good { Good (state (loaded heap.old) slots.old scalars.old list.now directory.old cells.old) }
    requires hashes_len { length hashes.now ≡ length keys.now }
    ensures { Ran (removals w hashes.now keys.now) (length keys.now) (state (loaded heap.old) slots.old scalars.old list.now directory.old cells.old) (state (loaded heap.new) slots.new scalars.new list.now directory.new cells.new) }
{
    heap_bench::heap_bench_remove(
        heap, slots, scalars, list, directory, cells, w, hashes, keys,
    )
}

// An iterator's next items, n of them: their sum, modulo 2^64.
#[unsafe(no_mangle)]
pub extern "C" fn heap_bench_iter_next(
    heap: &[u64; 19],
    slots: &[u64],
    scalars: &mut [u64],
    list: &[u64],
    directory: &[u64],
    cells: &[u64],
    w: u64,
    n: usize,
) -> u64
    requires { Good (state (loaded heap.now) slots.now scalars.old list.now directory.now cells.now) }
    ensures ran { Ran (steps w) n (state (loaded heap.now) slots.now scalars.old list.now directory.now cells.now) (state (loaded heap.now) slots.now scalars.new list.now directory.now cells.now) }
    ensures summed { Summed (steps w) n (state (loaded heap.now) slots.now scalars.old list.now directory.now cells.now) result }
{
    heap_bench::heap_bench_iter_next(heap, slots, scalars, list, directory, cells, w, n)
}

// A collection: how many objects were freed; 0 also for a refusal.
#[unsafe(no_mangle)]
pub extern "C" fn heap_bench_collect(
    heap: &mut [u64; 19],
    slots: &mut [u64],
    scalars: &mut [u64],
    list: &mut [u64],
    directory: &[u64],
    cells: &[u64],
    layout: &[u8],
    table: &[u64],
    marks: &mut [u8],
    order: &mut [u32],
    roots: &[u64],
    places: &mut [u64],
) -> u64
    requires good { Good (state (loaded heap.old) slots.old scalars.old list.old directory.now cells.now) }
    requires tabled { Tabled layout.now table.now }
    requires rested { Rested (loaded heap.old).size marks.old order.old }
    ensures collects { Collects (layout_of layout.now) roots.now places.old (state (loaded heap.old) slots.old scalars.old list.old directory.now cells.now) result places.new (state (loaded heap.new) slots.new scalars.new list.new directory.now cells.now) }
    ensures marks_unchanged { marks.new ≡ marks.old }
    ensures order_unchanged { order.new ≡ order.old }
{
    heap_bench::heap_bench_collect(
        heap, slots, scalars, list, directory, cells, layout, table, marks, order, roots, places,
    )
}

// A heap over the lent buffers; 10 leaves the record and every buffer as they were.
#[unsafe(no_mangle)]
pub extern "C" fn heap_bench_open(
    heap: &mut [u64; 19],
    size: u64,
    limit: u64,
    weights: &[u64; 5],
    layout: &[u8],
    table: &mut [u64],
    marks: &mut [u8],
    order: &mut [u32],
    slots: &[u64],
    scalars: &[u64],
    list: &[u64],
    directory: &[u64],
    cells: &[u64],
) -> u64
    ensures { OpensWords (opening_of size (length cells.now) limit (weights_in weights.now) layout.now) (state (new_heap size limit (weights_in weights.now)) slots.now scalars.now list.now directory.now cells.now) (beside table.old marks.old order.old) heap.old result heap.new (beside table.new marks.new order.new) }
{
    heap_bench::heap_bench_open(
        heap, size, limit, weights, layout, table, marks, order, slots, scalars, list, directory,
        cells,
    )
}
