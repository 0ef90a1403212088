// Allocation of every kind but maps and iterators. What the calls are built on stands apart:
// `making`.
#![tactic(auto)]

pub mod making;

ghost use Rattle.std.specs.Prelude.{◌≡◌, ◌+◌, ◌*◌, ◌/◌, ◌≤◌, length};
ghost use Rattle.account.specs.Account.{saturated};
ghost use Rattle.model.specs.Calls as Calls;
ghost use Rattle.heap.specs.State.{state};
ghost use Rattle.heap.specs.Good.{Good};
ghost use Rattle.heap.specs.Promise.{Performs};
ghost use Rattle.heap.specs.Answers.{made_is};
ghost use Rattle.heap.specs.Kinds.{frames_in};
ghost use Rattle.heap_allocation.specs.Coroutines.{Begins, Seated, call_of};
ghost use Rattle.heap_allocation.specs.Frames.{copied, put_frame};
ghost use Rattle.heap_allocation.specs.Making.{Placeable};

use heap::{Heap, Refusal};
use heap_slots::{CoroutineScalars, Header, Scalars, kinds};
use model::{Frame, Weights};

pub fn new_integer(
    heap: &mut Heap,
    slots: &mut [u64],
    scalars: &[u64],
    list: &[u64],
    directory: &[u64],
    cells: &[u64],
    z: i64,
) -> Result<u64, Refusal>
    requires { Good (state heap.old slots.old scalars.now list.now directory.now cells.now) }
    ensures { Performs (Calls.new_integer z) (state heap.old slots.old scalars.now list.now directory.now cells.now) (made_is result) (state heap.new slots.new scalars.now list.now directory.now cells.now) }
{
    let bytes = heap.weights.slot;
    let h = Header {
        kind: kinds::INTEGER,
        value: words::bits_of(z),
        ..Header::EMPTY
    };
    making::new_plain(heap, slots, scalars, list, directory, cells, h, bytes)
}

pub fn new_cell(
    heap: &mut Heap,
    slots: &mut [u64],
    scalars: &[u64],
    list: &[u64],
    directory: &[u64],
    cells: &[u64],
    t: u64,
    w: u64,
) -> Result<u64, Refusal>
    requires { Good (state heap.old slots.old scalars.now list.now directory.now cells.now) }
    ensures { Performs (Calls.new_cell t w) (state heap.old slots.old scalars.now list.now directory.now cells.now) (made_is result) (state heap.new slots.new scalars.now list.now directory.now cells.now) }
{
    if 2 < t {
        return Err(Refusal::BadType);
    }
    let bytes = heap.weights.slot;
    let h = Header {
        kind: kinds::CELL,
        value: w,
        mode: t,
        ..Header::EMPTY
    };
    making::new_plain(heap, slots, scalars, list, directory, cells, h, bytes)
}

pub fn new_error(
    heap: &mut Heap,
    slots: &mut [u64],
    scalars: &[u64],
    list: &[u64],
    directory: &[u64],
    cells: &[u64],
    kind: u16,
    w: u64,
) -> Result<u64, Refusal>
    requires { Good (state heap.old slots.old scalars.now list.now directory.now cells.now) }
    ensures { Performs (Calls.new_error kind w) (state heap.old slots.old scalars.now list.now directory.now cells.now) (made_is result) (state heap.new slots.new scalars.now list.now directory.now cells.now) }
{
    let bytes = heap.weights.slot;
    let h = Header {
        kind: kinds::ERROR,
        value: w,
        mode: u64::from(kind),
        ..Header::EMPTY
    };
    making::new_plain(heap, slots, scalars, list, directory, cells, h, bytes)
}

pub fn new_box(
    heap: &mut Heap,
    slots: &mut [u64],
    scalars: &[u64],
    list: &[u64],
    directory: &[u64],
    cells: &[u64],
    w: u64,
) -> Result<u64, Refusal>
    requires { Good (state heap.old slots.old scalars.now list.now directory.now cells.now) }
    ensures { Performs (Calls.new_box w) (state heap.old slots.old scalars.now list.now directory.now cells.now) (made_is result) (state heap.new slots.new scalars.now list.now directory.now cells.now) }
{
    let bytes = heap.weights.slot;
    let h = Header {
        kind: kinds::BOX,
        value: w,
        ..Header::EMPTY
    };
    making::new_plain(heap, slots, scalars, list, directory, cells, h, bytes)
}

pub fn new_struct(
    heap: &mut Heap,
    slots: &mut [u64],
    scalars: &[u64],
    list: &[u64],
    directory: &mut [u64],
    cells: &mut [u64],
    number: u64,
    fields: &[u64],
) -> Result<u64, Refusal>
    requires { Good (state heap.old slots.old scalars.now list.now directory.old cells.old) }
    ensures { Performs (Calls.new_struct number fields.now) (state heap.old slots.old scalars.now list.now directory.old cells.old) (made_is result) (state heap.new slots.new scalars.now list.now directory.new cells.new) }
{
    making::new_words(
        heap,
        slots,
        scalars,
        list,
        directory,
        cells,
        kinds::STRUCT,
        number,
        0,
        fields,
    )
}

pub fn new_function(
    heap: &mut Heap,
    slots: &mut [u64],
    scalars: &[u64],
    list: &[u64],
    directory: &mut [u64],
    cells: &mut [u64],
    import: bool,
    number: u64,
    captures: &[u64],
) -> Result<u64, Refusal>
    requires { Good (state heap.old slots.old scalars.now list.now directory.old cells.old) }
    ensures { Performs (Calls.new_function import number captures.now) (state heap.old slots.old scalars.now list.now directory.old cells.old) (made_is result) (state heap.new slots.new scalars.now list.now directory.new cells.new) }
{
    making::new_words(
        heap,
        slots,
        scalars,
        list,
        directory,
        cells,
        kinds::FUNCTION,
        number,
        u64::from(import),
        captures,
    )
}

pub fn new_array(
    heap: &mut Heap,
    slots: &mut [u64],
    scalars: &[u64],
    list: &[u64],
    directory: &mut [u64],
    cells: &mut [u64],
    t: u64,
    length: i64,
) -> Result<u64, Refusal>
    requires { Good (state heap.old slots.old scalars.now list.now directory.old cells.old) }
    ensures { Performs (Calls.new_array t length) (state heap.old slots.old scalars.now list.now directory.old cells.old) (made_is result) (state heap.new slots.new scalars.now list.now directory.new cells.new) }
{
    if 2 < t {
        return Err(Refusal::BadType);
    }
    if length < 0 {
        return Err(Refusal::Outside);
    }
    making::new_items(
        heap,
        slots,
        scalars,
        list,
        directory,
        cells,
        t,
        length as u64,
    )
}

pub fn new_string(
    heap: &mut Heap,
    slots: &mut [u64],
    scalars: &[u64],
    list: &[u64],
    directory: &mut [u64],
    cells: &mut [u64],
    bytes: &[u8],
) -> Result<u64, Refusal>
    requires { Good (state heap.old slots.old scalars.now list.now directory.old cells.old) }
    ensures { Performs (Calls.new_string bytes.now) (state heap.old slots.old scalars.now list.now directory.old cells.old) (made_is result) (state heap.new slots.new scalars.now list.now directory.new cells.new) }
{
    let n = bytes.len() as u64;
    let weight = heap.weights.slot.saturating_add(n);
    let size = n / 8 + (n % 8 + 7) / 8;
    making::prepare(heap, slots, scalars, list, directory, cells, weight, size)?;
    heap_cells::write_string(bytes, cells, heap.top as usize);
    let h = Header {
        kind: kinds::STRING,
        len: n,
        size,
        ..Header::EMPTY
    };
    making::finish(heap, slots, scalars, list, directory, cells, h, weight)
}

// What a coroutine is made with, beside its registers and frames.
#[derive(Clone, Copy, Debug, PartialEq, Eq)]
pub struct Coroutine {
    pub state: u64,
    pub sequence: u64,
    pub payload: u64,
    pub key: u64,
    pub result: u64,
    pub signal: u64,
}

// A coroutine made but for its frames, which go into the cells from `at` on.
#[derive(Clone, Copy, Debug, PartialEq, Eq)]
struct Begun {
    word: u64,
    at: usize,
}

#[tactic(auto, unfolding(account::specs::Account::saturated))]
fn coroutine_bytes(weights: Weights, registers: u64, frames: u64) -> u64
    ensures { result ≡ saturated (weights.slot + (weights.coroutine + 8 * registers + weights.frame * frames)) }
{
    let base = weights.slot.saturating_add(weights.coroutine);
    making::with_each::<8>(base, registers).saturating_add(weights.frame.saturating_mul(frames))
}

// The coroutine is placed, with its scalars and registers; its frames' cells are as they were.
fn place_coroutine(
    heap: &mut Heap,
    slots: &mut [u64],
    scalars: &mut [u64],
    list: &[u64],
    directory: &mut [u64],
    cells: &mut [u64],
    k: Coroutine,
    registers: &[u64],
    frames: u64,
    size: u64,
    bytes: u64,
) -> Result<u64, Refusal>
    requires { Placeable (state heap.old slots.old scalars.old list.now directory.old cells.old) bytes size × (size ≡ length registers.now + 4 * frames) }
    ensures { Seated (state heap.old slots.old scalars.old list.now directory.old cells.old) k registers.now frames size bytes result (state heap.new slots.new scalars.new list.now directory.new cells.new) }
{
    let x = Scalars::from(CoroutineScalars {
        finalized: 0,
        payload: k.payload,
        key: k.key,
        result: k.result,
        signal: k.signal,
        frames,
    });
    let i = heap::placing::next_slot(list, heap.fresh, heap.free);
    heap_slots::write_scalars(scalars, i as usize, x);
    heap_cells::copy_words(registers, cells, heap.top as usize);
    let h = Header {
        kind: kinds::COROUTINE,
        value: k.sequence,
        mode: k.state,
        len: registers.len() as u64,
        size,
        ..Header::EMPTY
    };
    making::finish(heap, slots, scalars, list, directory, cells, h, bytes)
}

// All of a new coroutine but the words of its frames.
fn begin(
    heap: &mut Heap,
    slots: &mut [u64],
    scalars: &mut [u64],
    list: &[u64],
    directory: &mut [u64],
    cells: &mut [u64],
    k: Coroutine,
    registers: &[u64],
    frames: usize,
) -> Result<Begun, Refusal>
    requires { Good (state heap.old slots.old scalars.old list.now directory.old cells.old) }
    ensures { Begins (state heap.old slots.old scalars.old list.now directory.old cells.old) k registers.now frames result (state heap.new slots.new scalars.new list.now directory.new cells.new) }
{
    if 4 < k.state {
        return Err(Refusal::BadType);
    }
    let n = frames as u64;
    let words = registers.len() as u64;
    let bytes = coroutine_bytes(heap.weights, words, n);
    let size = making::with_each::<4>(words, n);
    making::prepare(heap, slots, scalars, list, directory, cells, bytes, size)?;
    let at = heap.top as usize + registers.len();
    let word = place_coroutine(
        heap, slots, scalars, list, directory, cells, k, registers, n, size, bytes,
    )?;
    Ok(Begun { word, at })
}

// Frames as words, four to a frame: function, counter, base, closure.
pub fn new_coroutine_flat(
    heap: &mut Heap,
    slots: &mut [u64],
    scalars: &mut [u64],
    list: &[u64],
    directory: &mut [u64],
    cells: &mut [u64],
    k: Coroutine,
    registers: &[u64],
    frames: &[u64],
) -> Result<u64, Refusal>
    requires { Good (state heap.old slots.old scalars.old list.now directory.old cells.old) }
    ensures { Performs (call_of k registers.now (frames_in frames.now 0 (length frames.now / 4))) (state heap.old slots.old scalars.old list.now directory.old cells.old) (made_is result) (state heap.new slots.new scalars.new list.now directory.new cells.new) }
{
    let b = begin(
        heap,
        slots,
        scalars,
        list,
        directory,
        cells,
        k,
        registers,
        frames.len() / 4,
    )?;
    heap_cells::copy_words(&frames[..frames.len() / 4 * 4], cells, b.at);
    Ok(b.word)
}

// Frame k's four words, in the cells from `at` on.
fn put_frame(cells: &mut [u64], at: usize, k: usize, f: Frame)
    requires { at + 4 * k + 4 ≤ length cells.old }
    ensures { cells.new ≡ put_frame cells.old (at + 4 * k) f }
{
    let p = at + 4 * k;
    cells[p] = f.function;
    cells[p + 1] = f.counter;
    cells[p + 2] = f.base;
    cells[p + 3] = f.closure;
}

// The frames of the lent list, field by field into the cells.
fn copy_frames(frames: &[Frame], cells: &mut [u64], at: usize)
    requires { at + 4 * length frames.now ≤ length cells.old }
    ensures { cells.new ≡ copied frames.now cells.old at }
{
    for (i, frame) in frames.iter().enumerate() {
        put_frame(cells, at, i, *frame);
    }
}

pub fn new_coroutine(
    heap: &mut Heap,
    slots: &mut [u64],
    scalars: &mut [u64],
    list: &[u64],
    directory: &mut [u64],
    cells: &mut [u64],
    k: Coroutine,
    registers: &[u64],
    frames: &[Frame],
) -> Result<u64, Refusal>
    requires { Good (state heap.old slots.old scalars.old list.now directory.old cells.old) }
    ensures { Performs (call_of k registers.now frames.now) (state heap.old slots.old scalars.old list.now directory.old cells.old) (made_is result) (state heap.new slots.new scalars.new list.now directory.new cells.new) }
{
    let b = begin(
        heap,
        slots,
        scalars,
        list,
        directory,
        cells,
        k,
        registers,
        frames.len(),
    )?;
    copy_frames(frames, cells, b.at);
    Ok(b.word)
}
