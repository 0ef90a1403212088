// The map store's calls in loops, for bench/map: a Rust or C caller keeps the store's record in seven words between the calls.
// A function for each workload, which C calls by its name.
#![tactic(auto)]

ghost use Rattle.std.specs.Prelude.{◌≡◌, length};
ghost use Rattle.map_store.specs.View.{store_of};
ghost use Rattle.map_store.specs.Map.{Good};
ghost use Rattle.map_bench.specs.Loops.{loaded, bare, Ran, Answered, put_to, removed_to, found_to, resumed_to, walked, front};

use map_store::{Cursor, Map, MapStore};

// Why a key is not put: document 01's numbers.
#[derive(Clone, Copy, Debug, PartialEq, Eq)]
enum Refusal {
    NoCells = 7,
    NumbersSpent = 9,
}

fn load(words: &[u64; 7]) -> MapStore
    ensures { result ≡ loaded words.now }
{
    let [len, live, fresh, capacity, index, epoch, hashed] = *words;
    MapStore {
        noted: None,
        len: len as usize,
        live: live as usize,
        fresh,
        capacity: capacity as usize,
        index: index as usize,
        epoch: (epoch % 4294967296) as u32,
        hashed: hashed == 1,
    }
}

// Stores the record but for its noted key.
fn save(words: &mut [u64; 7], store: &MapStore)
    ensures { loaded words.new ≡ bare store.now }
{
    *words = [
        store.len as u64,
        store.live as u64,
        store.fresh,
        store.capacity as u64,
        store.index as u64,
        u64::from(store.epoch),
        u64::from(store.hashed),
    ];
}

// Sets the key's value, or inserts the key where numbers and cells are left.
fn put(
    store: &mut MapStore,
    cells: &mut [u64],
    hash: u64,
    key: u64,
    value: u64,
) -> Result<(), Refusal>
    requires { Good store.old cells.old }
    ensures { Answered hash key value store.old cells.old result store.new cells.new }
{
    let map = Map {
        store: *store,
        cells,
    };
    if let Some(pos) = map.find(false, hash, key) {
        store.set_value(cells, pos, value);
        return Ok(());
    }
    if 4294967296 <= store.fresh {
        return Err(Refusal::NumbersSpent);
    }
    if map.cells.len() < map.cells_after_insert(false, key) {
        return Err(Refusal::NoCells);
    }
    store.insert(cells, false, hash, key, value);
    Ok(())
}

// Puts the keys, with their numbers as values, up to the first that is refused; how many.
#[unsafe(no_mangle)]
pub extern "C" fn map_bench_put(
    words: &mut [u64; 7],
    cells: &mut [u64],
    hashes: &[u64],
    keys: &[u64],
) -> u64
    requires good { Good (loaded words.old) cells.old }
    requires same { length hashes.now ≡ length keys.now }
    ensures { Ran (put_to hashes.now keys.now result) words.old cells.old words.new cells.new }
{
    let mut store = load(words);
    // By index here and below: over a zip of the two lists these loops take a tenth longer.
    for (i, key) in keys.iter().enumerate() {
        if put(&mut store, cells, hashes[i], *key, i as u64).is_err() {
            save(words, &store);
            return i as u64;
        }
    }
    save(words, &store);
    keys.len() as u64
}

// How many of the keys are found.
#[unsafe(no_mangle)]
pub extern "C" fn map_bench_find(
    words: &[u64; 7],
    cells: &[u64],
    hashes: &[u64],
    keys: &[u64],
) -> u64
    requires good { Good (loaded words.now) cells.now }
    requires same { length hashes.now ≡ length keys.now }
    ensures { result ≡ found_to hashes.now keys.now (length keys.now) (store_of (loaded words.now) cells.now) }
{
    let store = load(words);
    let map = Map { store, cells };
    let mut found = 0;
    for (i, key) in keys.iter().enumerate() {
        if let Some(_) = map.find(false, hashes[i], *key) {
            found += 1;
        }
    }
    found
}

// Removes the keys, up to the first for which the cells might be too few; how many.
#[unsafe(no_mangle)]
pub extern "C" fn map_bench_remove(
    words: &mut [u64; 7],
    cells: &mut [u64],
    hashes: &[u64],
    keys: &[u64],
) -> u64
    requires good { Good (loaded words.old) cells.old }
    requires same { length hashes.now ≡ length keys.now }
    ensures { Ran (removed_to hashes.now keys.now result) words.old cells.old words.new cells.new }
{
    let mut store = load(words);
    for (i, key) in keys.iter().enumerate() {
        let map = Map { store, cells };
        if map.cells.len() < map.cells_after_remove() {
            save(words, &store);
            return i as u64;
        }
        store.remove_key(cells, false, hashes[i], *key);
    }
    save(words, &store);
    keys.len() as u64
}

// How many steps in a row, from the front and up to n, meet an entry.
#[unsafe(no_mangle)]
pub extern "C" fn map_bench_iterate(words: &[u64; 7], cells: &[u64], n: usize) -> u64
    requires { Good (loaded words.now) cells.now }
    ensures { result ≡ walked n (store_of (loaded words.now) cells.now) front }
{
    let store = load(words);
    let map = Map { store, cells };
    let mut cursor = Cursor {
        last: None,
        pos: 0,
        epoch: 0,
    };
    for i in 0..n {
        let stepped = map.step(cursor);
        if stepped.found.is_none() {
            return i as u64;
        }
        cursor = stepped.cursor;
    }
    n as u64
}

// How many of the cursors meet an entry, of which each yielded a sequence number of the list last, at this epoch.
#[unsafe(no_mangle)]
pub extern "C" fn map_bench_resume(
    words: &[u64; 7],
    cells: &[u64],
    epoch: u32,
    lasts: &[u64],
) -> u64
    requires { Good (loaded words.now) cells.now }
    ensures { result ≡ resumed_to epoch lasts.now (length lasts.now) (store_of (loaded words.now) cells.now) }
{
    let store = load(words);
    let map = Map { store, cells };
    let mut met = 0;
    for last in lasts {
        let cursor = Cursor {
            last: Some(*last),
            pos: 0,
            epoch,
        };
        if let Some(_) = map.step(cursor).found {
            met += 1;
        }
    }
    met
}
