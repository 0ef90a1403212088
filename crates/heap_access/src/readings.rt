// Readings of the contents of objects: each is one line over a general one, and its clause names the
// model's call. A generic one would be told kind and word at each caller.
ghost use Rattle.std.specs.Prelude.{◌≡◌, ◌+◌, ◌≤◌, ◌<◌, length};
ghost use Rattle.heap_slots.specs.Limits.{SLOT_WORDS};
ghost use Rattle.model.specs.Calls as Calls;
ghost use Rattle.model.specs.Rules as Parts;
ghost use Rattle.heap.specs.Answers.{reading_is, signed_is, test_is};
ghost use Rattle.heap.specs.Promise.{Reads};
ghost use Rattle.heap.specs.View.{held};
ghost use Rattle.heap_access.specs.Answers.{lent_reading, frame_seen};
ghost use Rattle.heap_access.specs.Objects.{ReadsHeader, ReadsScalar, ReadsWord, WordsFit, frame_of};

use heap::{HeapView, Refusal, lookup};
use heap_slots::limits::SLOT_WORDS;
use heap_slots::{CoroutineScalars, FRAMES, Header, KEY, PAYLOAD, RESULT, SIGNAL, kinds};
use model::Frame;

// The header of the object of this kind that a word reaches.
fn read_header_of(view: &HeapView<'_>, w: u64, kind: u64) -> Result<Header, Refusal>
    ensures { ReadsHeader view.now.slots.now view.now.heap.fresh w kind result }
{
    let i = lookup::locate(view.slots, view.heap.fresh, w, kind)?;
    Ok(heap_slots::read_header(view.slots, i))
}

// Word k of a coroutine's scalars.
fn read_scalar(view: &HeapView<'_>, w: u64, k: usize) -> Result<u64, Refusal>
    requires { k < SLOT_WORDS }
    ensures { ReadsScalar view.now.slots.now view.now.scalars.now view.now.heap.fresh w k result }
{
    let i = lookup::locate(view.slots, view.heap.fresh, w, kinds::COROUTINE)?;
    Ok(view.scalars[i * SLOT_WORDS + k])
}

// Word i of an object's cells: array items, fields, captures, registers.
fn read_word(view: &HeapView<'_>, w: u64, kind: u64, i: u64) -> Result<u64, Refusal>
    requires { WordsFit view.now.slots.now view.now.cells.now view.now.heap.fresh kind }
    ensures { ReadsWord view.now.slots.now view.now.cells.now view.now.heap.fresh w kind i result }
{
    let h = read_header_of(view, w, kind)?;
    if i < h.len {
        Ok(view.cells[(h.start + i) as usize])
    } else {
        Err(Refusal::Outside)
    }
}

// A box's word.
pub fn read_box(view: &HeapView<'_>, w: u64) -> Result<u64, Refusal>
    ensures { Reads (Calls.read_box w) (held view.now) (reading_is result) }
{
    Ok(read_header_of(view, w, kinds::BOX)?.value)
}

// A cell's word, and its type.
pub fn read_cell(view: &HeapView<'_>, w: u64) -> Result<u64, Refusal>
    ensures { Reads (Calls.read_cell w) (held view.now) (reading_is result) }
{
    Ok(read_header_of(view, w, kinds::CELL)?.value)
}

pub fn cell_type(view: &HeapView<'_>, w: u64) -> Result<u64, Refusal>
    ensures { Reads (Calls.cell_type w) (held view.now) (reading_is result) }
{
    Ok(read_header_of(view, w, kinds::CELL)?.mode)
}

// An error's kind, and its word.
pub fn error_kind(view: &HeapView<'_>, w: u64) -> Result<u64, Refusal>
    ensures { Reads (Calls.error_kind w) (held view.now) (reading_is result) }
{
    Ok(read_header_of(view, w, kinds::ERROR)?.mode)
}

pub fn error_word(view: &HeapView<'_>, w: u64) -> Result<u64, Refusal>
    ensures { Reads (Calls.error_word w) (held view.now) (reading_is result) }
{
    Ok(read_header_of(view, w, kinds::ERROR)?.value)
}

// An integer object's number.
pub fn read_integer(view: &HeapView<'_>, w: u64) -> Result<i64, Refusal>
    ensures { Reads (Calls.read_integer w) (held view.now) (signed_is result) }
{
    Ok(words::signed_of(read_header_of(view, w, kinds::INTEGER)?.value))
}

pub fn string_length(view: &HeapView<'_>, w: u64) -> Result<u64, Refusal>
    ensures { Reads (Calls.string_length w) (held view.now) (reading_is result) }
{
    Ok(read_header_of(view, w, kinds::STRING)?.len)
}

// The string's bytes in the buffer's first places; 8 where the buffer is shorter.
pub fn read_string(view: &HeapView<'_>, w: u64, buffer: &mut [u8]) -> Result<u64, Refusal>
    ensures { Reads (Calls.read_string w buffer.old) (held view.now) (lent_reading result buffer.new) }
{
    let h = read_header_of(view, w, kinds::STRING)?;
    if (buffer.len() as u64) < h.len {
        return Err(Refusal::TooShort);
    }
    heap_cells::read_string(view.cells, h.start as usize, h.len as usize, buffer);
    Ok(h.len)
}

// An array's type, length and capacity.
pub fn array_type(view: &HeapView<'_>, w: u64) -> Result<u64, Refusal>
    ensures { Reads (Calls.array_type w) (held view.now) (reading_is result) }
{
    Ok(read_header_of(view, w, kinds::ARRAY)?.mode)
}

pub fn array_length(view: &HeapView<'_>, w: u64) -> Result<u64, Refusal>
    ensures { Reads (Calls.array_length w) (held view.now) (reading_is result) }
{
    Ok(read_header_of(view, w, kinds::ARRAY)?.len)
}

pub fn array_capacity(view: &HeapView<'_>, w: u64) -> Result<u64, Refusal>
    ensures { Reads (Calls.array_capacity w) (held view.now) (reading_is result) }
{
    Ok(read_header_of(view, w, kinds::ARRAY)?.size)
}

// Item i as it was stored: no box is seen through. 3 outside the length.
pub fn read_item(view: &HeapView<'_>, w: u64, i: u64) -> Result<u64, Refusal>
    ensures { Reads (Calls.read_item w i) (held view.now) (reading_is result) }
{
    read_word(view, w, kinds::ARRAY, i)
}

// A struct's type, its number of fields, and field i.
pub fn struct_number(view: &HeapView<'_>, w: u64) -> Result<u64, Refusal>
    ensures { Reads (Calls.struct_number w) (held view.now) (reading_is result) }
{
    Ok(read_header_of(view, w, kinds::STRUCT)?.value)
}

pub fn field_count(view: &HeapView<'_>, w: u64) -> Result<u64, Refusal>
    ensures { Reads (Calls.field_count w) (held view.now) (reading_is result) }
{
    Ok(read_header_of(view, w, kinds::STRUCT)?.len)
}

pub fn read_field(view: &HeapView<'_>, w: u64, i: u64) -> Result<u64, Refusal>
    ensures { Reads (Calls.read_field w i) (held view.now) (reading_is result) }
{
    read_word(view, w, kinds::STRUCT, i)
}

// Whether a function is an import, its number, its number of captures, and capture i.
pub fn is_import(view: &HeapView<'_>, w: u64) -> Result<bool, Refusal>
    ensures { Reads (Calls.is_import w) (held view.now) (test_is result) }
{
    Ok(read_header_of(view, w, kinds::FUNCTION)?.mode != 0)
}

pub fn function_number(view: &HeapView<'_>, w: u64) -> Result<u64, Refusal>
    ensures { Reads (Calls.function_number w) (held view.now) (reading_is result) }
{
    Ok(read_header_of(view, w, kinds::FUNCTION)?.value)
}

pub fn capture_count(view: &HeapView<'_>, w: u64) -> Result<u64, Refusal>
    ensures { Reads (Calls.capture_count w) (held view.now) (reading_is result) }
{
    Ok(read_header_of(view, w, kinds::FUNCTION)?.len)
}

pub fn read_capture(view: &HeapView<'_>, w: u64, i: u64) -> Result<u64, Refusal>
    ensures { Reads (Calls.read_capture w i) (held view.now) (reading_is result) }
{
    read_word(view, w, kinds::FUNCTION, i)
}

// A coroutine's state, its four words, its sequence, and whether it is finalized.
pub fn read_state(view: &HeapView<'_>, w: u64) -> Result<u64, Refusal>
    ensures { Reads (Calls.read_state w) (held view.now) (reading_is result) }
{
    Ok(read_header_of(view, w, kinds::COROUTINE)?.mode)
}

pub fn read_payload(view: &HeapView<'_>, w: u64) -> Result<u64, Refusal>
    ensures { Reads (Calls.read_part w Parts.payload) (held view.now) (reading_is result) }
{
    read_scalar(view, w, PAYLOAD)
}

pub fn read_key(view: &HeapView<'_>, w: u64) -> Result<u64, Refusal>
    ensures { Reads (Calls.read_part w Parts.key) (held view.now) (reading_is result) }
{
    read_scalar(view, w, KEY)
}

pub fn read_result(view: &HeapView<'_>, w: u64) -> Result<u64, Refusal>
    ensures { Reads (Calls.read_part w Parts.result) (held view.now) (reading_is result) }
{
    read_scalar(view, w, RESULT)
}

pub fn read_signal(view: &HeapView<'_>, w: u64) -> Result<u64, Refusal>
    ensures { Reads (Calls.read_part w Parts.signal) (held view.now) (reading_is result) }
{
    read_scalar(view, w, SIGNAL)
}

pub fn coroutine_sequence(view: &HeapView<'_>, w: u64) -> Result<u64, Refusal>
    ensures { Reads (Calls.coroutine_sequence w) (held view.now) (reading_is result) }
{
    Ok(read_header_of(view, w, kinds::COROUTINE)?.value)
}

pub fn coroutine_finalized(view: &HeapView<'_>, w: u64) -> Result<bool, Refusal>
    ensures { Reads (Calls.coroutine_finalized w) (held view.now) (test_is result) }
{
    let i = lookup::locate(view.slots, view.heap.fresh, w, kinds::COROUTINE)?;
    let x: CoroutineScalars = heap_slots::read_part(view.scalars, i);
    Ok(x.finalized != 0)
}

// A coroutine's registers and frames.
pub fn register_count(view: &HeapView<'_>, w: u64) -> Result<u64, Refusal>
    ensures { Reads (Calls.register_count w) (held view.now) (reading_is result) }
{
    Ok(read_header_of(view, w, kinds::COROUTINE)?.len)
}

pub fn frame_count(view: &HeapView<'_>, w: u64) -> Result<u64, Refusal>
    ensures { Reads (Calls.frame_count w) (held view.now) (reading_is result) }
{
    read_scalar(view, w, FRAMES)
}

pub fn read_frame(view: &HeapView<'_>, w: u64, i: u64) -> Result<Frame, Refusal>
    ensures { Reads (Calls.read_frame w i) (held view.now) (frame_seen result) }
{
    let at = lookup::locate(view.slots, view.heap.fresh, w, kinds::COROUTINE)?;
    let x: CoroutineScalars = heap_slots::read_part(view.scalars, at);
    if x.frames <= i {
        return Err(Refusal::Outside);
    }
    let h = heap_slots::read_header(view.slots, at);
    Ok(frame_at(view.cells, (h.start + h.len + i * 4) as usize))
}

fn frame_at(cells: &[u64], p: usize) -> Frame
    requires { p + 4 ≤ length cells.now }
    ensures { result ≡ frame_of cells.now p }
{
    Frame {
        function: cells[p],
        counter: cells[p + 1],
        base: cells[p + 2],
        closure: cells[p + 3],
    }
}

pub fn read_register(view: &HeapView<'_>, w: u64, i: u64) -> Result<u64, Refusal>
    ensures { Reads (Calls.read_register w i) (held view.now) (reading_is result) }
{
    read_word(view, w, kinds::COROUTINE, i)
}
