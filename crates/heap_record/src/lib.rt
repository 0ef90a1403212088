// The heap's record kept in nineteen words between calls: the account (used, since, threshold,
// limit), the five weights, and size, fresh, free, top, entries, taken, present, coroutines,
// collections, freed. Words and numbers, since a C caller keeps them.
#![tactic(auto)]

ghost use Rattle.std.specs.Prelude.{◌≡◌, length};
ghost use Rattle.heap.specs.State.{state};
ghost use Rattle.heap.specs.Opens.{beside, new_heap, opening_of};
ghost use Rattle.heap_record.specs.Record.{OpensWords, Settles, account_in, loaded, weights_in};

use account::Account;
use heap::{Heap, Refusal};
use model::Weights;

// The record that nineteen words hold, and back.
pub fn load(words: &[u64; 19]) -> Heap
    ensures { result ≡ loaded words.now }
{
    let [
        used,
        since,
        threshold,
        limit,
        slot,
        entry,
        iterator,
        coroutine,
        frame,
        size,
        fresh,
        free,
        top,
        directory,
        taken,
        present,
        coroutines,
        collections,
        freed,
    ] = *words;
    Heap {
        account: load_account([used, since, threshold, limit]),
        weights: load_weights([slot, entry, iterator, coroutine, frame]),
        size,
        fresh,
        free,
        top,
        entries: directory,
        taken,
        present,
        coroutines,
        collections,
        freed,
    }
}

pub fn save(words: &mut [u64; 19], heap: Heap)
    ensures { loaded words.new ≡ heap }
{
    let account = heap.account;
    let weights = heap.weights;
    *words = [
        account.used,
        account.since,
        account.threshold,
        account.limit,
        weights.slot,
        weights.entry,
        weights.iterator,
        weights.coroutine,
        weights.frame,
        heap.size,
        heap.fresh,
        heap.free,
        heap.top,
        heap.entries,
        heap.taken,
        heap.present,
        heap.coroutines,
        heap.collections,
        heap.freed,
    ];
}

fn load_account(words: [u64; 4]) -> Account
    ensures { result ≡ account_in words }
{
    let [used, since, threshold, limit] = words;
    Account {
        used,
        since,
        threshold,
        limit,
    }
}

fn load_weights(words: [u64; 5]) -> Weights
    ensures { result ≡ weights_in words }
{
    let [slot, entry, iterator, coroutine, frame] = words;
    Weights {
        slot,
        entry,
        iterator,
        coroutine,
        frame,
    }
}

// Keeps the record of a heap that was opened.
#[tactic(auto, unfolding(crate::specs::Record::Settles))]
fn settle(words: &mut [u64; 19], opened: Result<Heap, Refusal>) -> u64
    ensures { Settles opened words.old result words.new }
{
    match opened {
        Ok(heap) => {
            save(words, heap);
            0
        },
        Err(q) => u64::from(q),
    }
}

// A heap of `size` slots over the lent buffers; a refusal, 10, leaves the words and every buffer as
// they were.
pub fn open(
    words: &mut [u64; 19],
    size: u64,
    limit: u64,
    weights: &[u64; 5],
    layout: &[u8],
    table: &mut [u64],
    marks: &mut [u8],
    order: &mut [u32],
    slots: &[u64],
    scalars: &[u64],
    list: &[u64],
    directory: &[u64],
    cells: &[u64],
) -> u64
    ensures { OpensWords (opening_of size (length cells.now) limit (weights_in weights.now) layout.now) (state (new_heap size limit (weights_in weights.now)) slots.now scalars.now list.now directory.now cells.now) (beside table.old marks.old order.old) words.old result words.new (beside table.new marks.new order.new) }
{
    let opened = heap::open(
        size,
        limit,
        load_weights(*weights),
        layout,
        table,
        marks,
        order,
        slots,
        scalars,
        list,
        directory,
        cells,
    );
    settle(words, opened)
}
