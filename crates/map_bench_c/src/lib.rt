// The functions of crate map_bench for C, under their names: libmap_bench_c.a. Made by tools/exports.py from
// crates/map_bench/src/lib.rt.
#![tactic(auto)]

ghost use Rattle.std.specs.Prelude.{◌≡◌, length};
ghost use Rattle.map_store.specs.View.{store_of};
ghost use Rattle.map_store.specs.Map.{Good};
ghost use Rattle.map_bench.specs.Loops.{loaded, Ran, put_to, removed_to, found_to, resumed_to, walked, front};

// Puts the keys, with their numbers as values, up to the first that is refused; how many.
#[unsafe(no_mangle)]
pub extern "C" fn map_bench_put(
    words: &mut [u64; 7],
    cells: &mut [u64],
    hashes: &[u64],
    keys: &[u64],
) -> u64
    requires good { Good (loaded words.old) cells.old }
    requires same { length hashes.now ≡ length keys.now }
    ensures { Ran (put_to hashes.now keys.now result) words.old cells.old words.new cells.new }
{
    map_bench::map_bench_put(words, cells, hashes, keys)
}

// How many of the keys are found.
#[unsafe(no_mangle)]
pub extern "C" fn map_bench_find(
    words: &[u64; 7],
    cells: &[u64],
    hashes: &[u64],
    keys: &[u64],
) -> u64
    requires good { Good (loaded words.now) cells.now }
    requires same { length hashes.now ≡ length keys.now }
    ensures { result ≡ found_to hashes.now keys.now (length keys.now) (store_of (loaded words.now) cells.now) }
{
    map_bench::map_bench_find(words, cells, hashes, keys)
}

// Removes the keys, up to the first for which the cells might be too few; how many.
#[unsafe(no_mangle)]
pub extern "C" fn map_bench_remove(
    words: &mut [u64; 7],
    cells: &mut [u64],
    hashes: &[u64],
    keys: &[u64],
) -> u64
    requires good { Good (loaded words.old) cells.old }
    requires same { length hashes.now ≡ length keys.now }
    ensures { Ran (removed_to hashes.now keys.now result) words.old cells.old words.new cells.new }
{
    map_bench::map_bench_remove(words, cells, hashes, keys)
}

// How many steps in a row, from the front and up to n, meet an entry.
#[unsafe(no_mangle)]
pub extern "C" fn map_bench_iterate(words: &[u64; 7], cells: &[u64], n: usize) -> u64
    requires { Good (loaded words.now) cells.now }
    ensures { result ≡ walked n (store_of (loaded words.now) cells.now) front }
{
    map_bench::map_bench_iterate(words, cells, n)
}

// How many of the cursors meet an entry, of which each yielded a sequence number of the list last, at this epoch.
#[unsafe(no_mangle)]
pub extern "C" fn map_bench_resume(
    words: &[u64; 7],
    cells: &[u64],
    epoch: u32,
    lasts: &[u64],
) -> u64
    requires { Good (loaded words.now) cells.now }
    ensures { result ≡ resumed_to epoch lasts.now (length lasts.now) (store_of (loaded words.now) cells.now) }
{
    map_bench::map_bench_resume(words, cells, epoch, lasts)
}
