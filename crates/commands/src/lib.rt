// The heap as a line controller calls it: every call by its number.
#![tactic(auto)]

pub mod changes;
pub mod readings;

ghost use Rattle.std.specs.Prelude.{◌≡◌};
ghost use Rattle.layout.specs.Sections.{layout_of};
ghost use Rattle.heap.specs.State.{state};
ghost use Rattle.heap.specs.Good.{Ready};
ghost use Rattle.commands.specs.Table.{act_of, form_at, memory_at, memory_of, shape_of};
ghost use Rattle.commands.specs.Promise.{CommandedBy, lists};

use answers::Shown;
use heap::{Heap, HeapView};

// The numbers among the operands of a command, in their order; what it does not have is 0.
#[derive(Clone, Copy, Debug, PartialEq, Eq)]
pub struct Operands {
    pub a: u64,
    pub b: u64,
    pub c: u64,
    pub d: u64,
    pub e: u64,
    pub f: u64,
    pub g: u64,
    pub h: u64,
}

// What is shown beside the word: nothing; one number more; an entry's hash, key, sequence number,
// live; a frame's counter, base, closure; an iterator's cursor, 6, or 7 and yielded yet, last
// sequence number, epoch; found, and the lent cursor as the call left it.
#[derive(Clone, Copy, Debug, PartialEq, Eq)]
pub enum Form {
    WordAlone,
    Second,
    EntryFields,
    FrameFields,
    IteratorCursor,
    LentCursor,
}

// The lists that a command is given: its own; a buffer of so many bytes as its second number says; a
// list of so many places as its first number says; the roots given so far, with a place for each
// slot.
#[derive(Clone, Copy, Debug, PartialEq, Eq)]
pub enum Memory {
    Own,
    Buffer,
    Places,
    Roots,
}

// The row of a command. Operands, a hexadecimal digit for each, the first lowest: 1 one byte, 2 two, 3
// eight, 4 a byte up to 7, 5 a byte up to 3, 6 words, 7 bytes, 8 frames; 15: no such command. How the
// answer is shown, which memory is lent, and the group of commands, counted as in the table.
#[derive(Clone, Copy, Debug, PartialEq, Eq)]
pub struct Shape {
    pub fields: u64,
    pub form: Form,
    pub memory: Memory,
    pub group: u64,
}

// Group, memory, form, operands, packed: over a table of structs with enums the computed test that
// holds it to the list ran out of memory. A gap has 15 for its operands, which no reader takes.
const ROWS: [u64; 103] = [
    0x01_0_0_733333333,
    0x0A_0_0_000000003,
    0x0A_0_0_000000031,
    0x0A_0_0_000000011,
    0x0E_0_0_000000007,
    0x0A_0_0_000000003,
    0x03_0_0_000000003,
    0x0A_0_0_000000031,
    0x0A_0_0_000000032,
    0x0E_0_0_000000063,
    0x0E_0_0_000000631,
    0x01_0_0_000000003,
    0x0F_3_0_000000000,
    0x0A_0_0_000000003,
    0x0E_0_0_086333331,
    0x0F_2_0_000000036,
    0x04_0_0_000000003,
    0x04_0_0_000000033,
    0x0B_0_0_000000333,
    0x0C_0_0_000000033,
    0x0C_0_0_000000003,
    0x0B_0_0_000000033,
    0x03_0_0_000000003,
    0x0B_0_0_000000033,
    0x04_0_0_000000033,
    0x0B_0_0_000000333,
    0x04_0_0_000000033,
    0x0B_0_0_000000333,
    0x05_0_0_000000033,
    0x0B_0_0_000000333,
    0x05_0_0_000000003,
    0x0B_0_0_000000013,
    0x05_0_0_000000043,
    0x0B_0_0_000000353,
    0x03_0_0_000000003,
    0x03_0_0_000000003,
    0x03_0_0_000000003,
    0x03_0_0_000000003,
    0x0F_1_0_000000033,
    0x03_0_0_000000003,
    0x03_0_0_000000003,
    0x04_0_0_000000003,
    0x04_0_0_000000003,
    0x04_0_1_000000003,
    0x04_0_0_000000003,
    0x04_0_0_000000003,
    0x04_0_0_000000003,
    0x03_0_0_000000003,
    0x0D_0_0_000003333,
    0x06_0_1_000000333,
    0x0D_0_0_000000333,
    0x06_0_2_000000033,
    0x0D_0_0_000000333,
    0x0D_0_0_000000033,
    0x06_0_0_000000003,
    0x06_0_0_000000003,
    0x0D_0_0_000000033,
    0x06_0_1_000000003,
    0x06_0_5_000033313,
    0x0D_0_0_000003333,
    0x06_0_0_000000033,
    0x06_0_0_000000003,
    0x07_0_0_000000003,
    0x07_0_0_000000003,
    0x0C_0_1_000000003,
    0x08_0_1_000000003,
    0x08_0_0_000000003,
    0x08_0_0_000000003,
    0x08_0_0_000000003,
    0x08_0_4_000000003,
    0x00_0_0_00000000F,
    0x00_0_0_00000000F,
    0x07_0_0_000000003,
    0x07_0_0_000000003,
    0x07_0_1_000000003,
    0x07_0_0_000000003,
    0x07_0_0_000000003,
    0x05_0_3_000000033,
    0x03_0_0_000000003,
    0x00_0_0_00000000F,
    0x0C_0_0_000000003,
    0x09_0_0_000000003,
    0x09_0_0_000000003,
    0x09_0_0_000000000,
    0x09_0_0_000000000,
    0x09_0_0_000000000,
    0x09_0_0_000000000,
    0x00_0_0_00000000F,
    0x00_0_0_00000000F,
    0x00_0_0_00000000F,
    0x00_0_0_00000000F,
    0x00_0_0_00000000F,
    0x00_0_0_00000000F,
    0x00_0_0_00000000F,
    0x00_0_0_00000000F,
    0x00_0_0_00000000F,
    0x02_0_0_000000001,
    0x02_0_0_000000003,
    0x02_0_0_000000003,
    0x02_0_1_000000003,
    0x02_0_0_000000033,
    0x02_0_1_000000003,
    0x02_0_0_000000033,
];

// The form of a row's digit, and the memory.
#[tactic(auto, unfolding(crate::specs::Table::form_at))]
fn form_at(digit: u64) -> Form
    ensures { result ≡ form_at digit }
{
    match digit {
        0 => Form::WordAlone,
        1 => Form::Second,
        2 => Form::EntryFields,
        3 => Form::FrameFields,
        4 => Form::IteratorCursor,
        _ => Form::LentCursor,
    }
}

#[tactic(auto, unfolding(crate::specs::Table::memory_at))]
fn memory_at(digit: u64) -> Memory
    ensures { result ≡ memory_at digit }
{
    match digit {
        0 => Memory::Own,
        1 => Memory::Buffer,
        2 => Memory::Places,
        _ => Memory::Roots,
    }
}

pub fn shape_of(code: u64) -> Shape
    ensures { result ≡ shape_of code }
{
    if 102 < code {
        return Shape {
            fields: 15,
            form: Form::WordAlone,
            memory: Memory::Own,
            group: 0,
        };
    }
    let row = ROWS[code as usize];
    Shape {
        fields: row % 0x10_0000_0000,
        form: form_at(row / 0x10_0000_0000 % 16),
        memory: memory_at(row / 0x100_0000_0000 % 16),
        group: row / 0x1000_0000_0000,
    }
}

// The calls of the command with this number, and what they show. The lists: words (fields, captures,
// registers or roots), frames of four words each, bytes (a string's, or the buffer it is read
// into), and the places of the list lent to a collection.
pub fn perform(
    heap: &mut Heap,
    slots: &mut [u64],
    scalars: &mut [u64],
    list: &mut [u64],
    directory: &mut [u64],
    cells: &mut [u64],
    marks: &mut [u8],
    order: &mut [u32],
    layout: &[u8],
    table: &[u64],
    code: u64,
    o: Operands,
    words: &[u64],
    frames: &[u64],
    bytes: &mut [u8],
    places: &mut [u64],
) -> Option<Shown>
    requires { Ready (state heap.old slots.old scalars.old list.old directory.old cells.old) marks.old order.old layout.now table.now }
    ensures commanded_by { CommandedBy (layout_of layout.now) (memory_of code) (state heap.old slots.old scalars.old list.old directory.old cells.old) bytes.old places.old (act_of code o (lists words.now frames.now bytes.old places.old)) result (state heap.new slots.new scalars.new list.new directory.new cells.new) bytes.new places.new }
    ensures ready { Ready (state heap.new slots.new scalars.new list.new directory.new cells.new) marks.new order.new layout.now table.now }
    ensures marks_unchanged { marks.new ≡ marks.old }
    ensures order_unchanged { order.new ≡ order.old }
{
    match shape_of(code).group {
        g @ 0..10 => {
            let view = HeapView {
                heap: *heap,
                slots,
                scalars,
                list,
                directory,
                cells,
            };
            readings::read_group(g, &view, code, o)
        }
        g @ 10..14 => {
            changes::change_group(g, heap, slots, scalars, list, directory, cells, code, o)
        }
        14 => changes::new_with_list(
            heap, slots, scalars, list, directory, cells, code, o, words, frames, bytes,
        ),
        _ => changes::lent_call(
            heap, slots, scalars, list, directory, cells, marks, order, layout, table, code, o,
            words, bytes, places,
        ),
    }
}
