// Document 01's program `callsheet` over lent bytes.
#![tactic(auto)]

mod state;

ghost use Rattle.std.specs.Prelude.{◌≡◌, [], ◌+◌, ◌*◌, ◌≤◌, ◌<◌, length, get_or, take, drop, IfSome};
ghost use Rattle.std.proofs.Math.Option as Model;
ghost use Rattle.map_store.specs.Store.{signed64};
ghost use Rattle.model.specs.Calls as Calls;
ghost use Rattle.model.specs.Callsheet.{call_of, little_endian, operand_bytes, present_operands, sheet_text};
ghost use Rattle.heap.specs.Answers.{reading_is};
ghost use Rattle.text.specs.Writes.{Writes};
ghost use Rattle.sheet.specs.declared.Command.TheVariants as Commanded;
ghost use Rattle.sheet.specs.Turns.{Supplied, code_of, operands_is, text_from};
ghost use Rattle.sheet.specs.Promise.{Answers, Commands, OpensHeap, Prints, Roots, Shows, Turns, roots_in, shown_of, sheet_of};

use heap::{Heap, HeapView, Refusal};
use layout::ReadLayout;
use model::Weights;
use state::{Buffers, Sheet};
use text::Writer;

// What a line shows of a call.
#[derive(Clone, Copy, Debug, PartialEq, Eq)]
pub struct SheetLine {
    pub word: u64,
    pub refusal: u64,
}

// ---- commands

// A command that the program knows, by its byte.
#[derive(Clone, Copy, Debug, PartialEq, Eq)]
enum Command {
    NewBox = 0x01,
    NewArray = 0x02,
    ReadBox = 0x06,
    Root = 0x0B,
    Collect = 0x0C,
}

impl From<Command> for u64 {
    ghost from_gives = { λ k n. n ≡ code_of k };

    #[tactic(auto, unfolding(crate::specs::Turns::code_of))]
    fn from(command: Command) -> Self {
        command as u64
    }
}

impl Command {
    // None: the byte is unknown.
    #[tactic(auto, using(std::proofs::lemmas::Bool::Decides::nat_tests), unfolding(crate::specs::Turns::code_of, crate::specs::Turns::operands_is, model::specs::Callsheet::operand_bytes))]
    fn from_byte(byte: u8) -> Option<Command>
        ensures named { IfSome result (λ k. code_of k ≡ byte) }
        ensures operands { operands_is result ≡ operand_bytes byte }
    {
        match byte {
            0x01 => Some(Command::NewBox),
            0x02 => Some(Command::NewArray),
            0x06 => Some(Command::ReadBox),
            0x0B => Some(Command::Root),
            0x0C => Some(Command::Collect),
            _ => None,
        }
    }

    // How many bytes of operands follow it.
    #[tactic(auto, unfolding(crate::specs::Turns::code_of, model::specs::Callsheet::operand_bytes))]
    fn operands(self) -> usize
        ensures { Model.some result ≡ operand_bytes (code_of self) }
    {
        match self {
            Command::NewBox | Command::ReadBox | Command::Root => 8,
            Command::NewArray => 9,
            Command::Collect => 0,
        }
    }

    // The command at a place, with its operands; none: it is unknown, or one is missing.
    fn read_at(input: &[u8], at: usize) -> Option<Command>
        requires { at < length input.now }
        ensures named { IfSome result (λ k. code_of k ≡ get_or input.now at 0) }
        ensures operands { operands_is result ≡ present_operands (length (drop (at + 1) input.now)) (operand_bytes (get_or input.now at 0)) }
    {
        let command = Command::from_byte(input[at])?;
        if command.operands() < input.len() - at {
            Some(command)
        } else {
            None
        }
    }
}

// ---- lines

// A word answered, or the refusal.
#[tactic(auto, unfolding(heap::specs::Answers::seen_by, model::specs::Callsheet::answer_word, model::specs::Callsheet::reply_word))]
fn show(answer: Result<u64, Refusal>) -> SheetLine
    ensures { result ≡ shown_of (reading_is answer) }
{
    match answer {
        Ok(word) => SheetLine { word, refusal: 0 },
        Err(q) => SheetLine {
            word: 0,
            refusal: u64::from(q),
        },
    }
}

impl Sheet<'_> {
    // ---- calls

    fn call_box(&mut self, operands: &[u8]) -> Result<u64, Refusal>
        requires { 8 ≤ length operands.now }
        ensures { Shows (Calls.new_box (little_endian (take 8 operands.now))) self.old result self.new }
    {
        let w = text::read_little(operands, 0, 8);
        heap_allocation::new_box(
            &mut self.heap,
            &mut self.buffers.slots,
            &self.buffers.scalars,
            &self.buffers.list,
            &self.buffers.directory,
            &self.buffers.cells,
            w,
        )
    }

    fn call_array(&mut self, operands: &[u8]) -> Result<u64, Refusal>
        requires { 9 ≤ length operands.now }
        ensures { Shows (Calls.new_array (get_or operands.now 0 0) (signed64 (little_endian (take 8 (drop 1 operands.now))))) self.old result self.new }
    {
        let n = words::signed_of(text::read_little(operands, 1, 8));
        heap_allocation::new_array(
            &mut self.heap,
            &mut self.buffers.slots,
            &self.buffers.scalars,
            &self.buffers.list,
            &mut self.buffers.directory,
            &mut self.buffers.cells,
            u64::from(operands[0]),
            n,
        )
    }

    fn call_read(&self, operands: &[u8]) -> Result<u64, Refusal>
        requires { 8 ≤ length operands.now }
        ensures { Shows (Calls.read_box (little_endian (take 8 operands.now))) self.now result self.now }
    {
        let view = HeapView {
            heap: self.heap,
            slots: &self.buffers.slots,
            scalars: &self.buffers.scalars,
            list: &self.buffers.list,
            directory: &self.buffers.directory,
            cells: &self.buffers.cells,
        };
        heap_access::readings::read_box(&view, text::read_little(operands, 0, 8))
    }

    // How many objects are freed. The list lent for coroutines to be finalized has no place: there
    // are none.
    fn call_collect(&mut self) -> Result<u64, Refusal>
        ensures { Shows (Calls.collect (roots_in self.old) []) self.old result self.new }
    {
        let mut places = [0u64; 1];
        let collection = collector::collect(
            &mut self.heap,
            &mut self.buffers.slots,
            &mut self.buffers.scalars,
            &mut self.buffers.list,
            &self.buffers.directory,
            &self.buffers.cells,
            self.layout,
            &mut self.buffers.marks,
            &mut self.buffers.order,
            &self.roots[..self.count],
            &mut places[..0],
        )?;
        Ok(collection.freed)
    }

    // The call that a command other than a root makes.
    fn call(&mut self, command: Command, operands: &[u8]) -> Result<u64, Refusal>
        requires { Supplied (code_of command) operands.now }
        ensures { Shows (call_of (code_of command) operands.now (roots_in self.old)) self.old result self.new }
    {
        match command {
            Command::NewBox => self.call_box(operands),
            Command::NewArray => self.call_array(operands),
            Command::ReadBox => self.call_read(operands),
            Command::Root | Command::Collect => self.call_collect(),
        }
    }

    // ---- turns

    // A call and its line.
    fn call_turn(&mut self, command: Command, operands: &[u8], writer: &mut Writer<'_>)
        requires supplied { Supplied (code_of command) operands.now }
        requires no_root { code_of command ≡ 11 → ⊥ }
        requires end_in_bounds { writer.old.end + 62 ≤ length writer.old.out.now }
        ensures { Commands (sheet_of self.old) (code_of command) operands.now writer.old (sheet_of self.new) writer.new }
    {
        let line = show(self.call(command, operands));
        let used = self.heap.account.used;
        writer.put_line(u64::from(command), line.refusal, line.word, used);
    }

    // One more root; there are at most 64, and the 65th is refused: 4.
    fn add_root(&mut self, w: u64) -> u64
        ensures { Roots self.old w result self.new }
    {
        if self.count < 64 {
            self.roots[self.count] = w;
            self.count += 1;
            return 0;
        }
        4
    }

    // A root and its line.
    fn root_turn(&mut self, operands: &[u8], writer: &mut Writer<'_>)
        requires in_bounds { 8 ≤ length operands.now }
        requires end_in_bounds { writer.old.end + 62 ≤ length writer.old.out.now }
        ensures { Commands (sheet_of self.old) (code_of Commanded.Root) operands.now writer.old (sheet_of self.new) writer.new }
    {
        let refusal = self.add_root(text::read_little(operands, 0, 8));
        writer.put_line(u64::from(Command::Root), refusal, 0, self.heap.account.used);
    }

    // The command with the bytes behind it: its line.
    fn command_turn(&mut self, command: Command, operands: &[u8], writer: &mut Writer<'_>)
        requires supplied { Supplied (code_of command) operands.now }
        requires end_in_bounds { writer.old.end + 62 ≤ length writer.old.out.now }
        ensures { Commands (sheet_of self.old) (code_of command) operands.now writer.old (sheet_of self.new) writer.new }
    {
        match command {
            Command::Root => self.root_turn(operands, writer),
            _ => self.call_turn(command, operands, writer),
        }
    }

    // The command at a place, and its line; where the next one stands.
    fn turn(&mut self, input: &[u8], at: usize, writer: &mut Writer<'_>) -> usize
        requires at_in_bounds { at < length input.now }
        requires end_in_bounds { writer.old.end + 62 ≤ length writer.old.out.now }
        ensures { Turns (sheet_of self.old) input.now at writer.old (sheet_of self.new) result writer.new }
    {
        let start = at + 1;
        match Command::read_at(input, at) {
            None => {
                writer.put_unknown(self.heap.account.used);
                input.len()
            }
            Some(command) => {
                let next = start + command.operands();
                self.command_turn(command, &input[start..], writer);
                next
            }
        }
    }

    // All commands, and their text.
    fn play(&mut self, input: &[u8], writer: &mut Writer<'_>)
        requires { writer.old.end + length input.now * 62 ≤ length writer.old.out.now }
        ensures { Writes (text_from (sheet_of self.old) input.now) writer.old writer.new }
    {
        let mut at = 0;
        while at < input.len() {
            at = self.turn(input, at, writer);
        }
    }
}

impl Buffers {
    fn new() -> Buffers {
        Buffers {
            slots: [0; 2048],
            scalars: [0; 2048],
            list: [0; 256],
            directory: [0; 512],
            cells: [0; 2048],
            marks: [0; 256],
            order: [0; 512],
        }
    }

    // The heap that the program opens.
    fn open(&mut self, layout: &[u8], table: &mut [u64]) -> Result<Heap, Refusal>
        ensures { OpensHeap layout.now self.old table.old result self.new table.new }
    {
        let weights = Weights {
            slot: 64,
            entry: 40,
            iterator: 80,
            coroutine: 160,
            frame: 32,
        };
        heap::open(
            256,
            1048576,
            weights,
            layout,
            table,
            &mut self.marks,
            &mut self.order,
            &self.slots,
            &self.scalars,
            &self.list,
            &self.directory,
            &self.cells,
        )
    }
}

// Room for the longest text.
pub fn text_buffer() -> [u8; 4063232]
    ensures { 4063232 ≡ length result }
{
    [0; 4063232]
}

// The commands of at most 65,536 bytes, over a new heap.
fn run_new(input: &[u8], out: &mut [u8]) -> usize
    requires input_in_bounds { length input.now * 62 ≤ length out.old }
    requires input_len_bound { length input.now ≤ 65536 }
    ensures { Prints (sheet_text input.now) out.old out.new result }
{
    let bytes = [0u8; 1];
    let mut table = [0u64; 514];
    let mut buffers = Buffers::new();
    let Ok(heap) = buffers.open(&bytes, &mut table) else {
        return 0;
    };
    let layout = ReadLayout {
        bytes: &bytes,
        table: &table,
    };
    let mut sheet = Sheet {
        heap,
        buffers,
        layout,
        roots: [0; 64],
        count: 0,
    };
    let mut writer = Writer { out, end: 0 };
    sheet.play(input, &mut writer);
    writer.end
}

// Document 01's program `callsheet`: the text that it prints for the bytes of its standard input, of
// which the first 65,536 count; none: the buffer is too short. A line takes at most 62 bytes, a
// command at least one; a buffer with less room is refused.
pub fn run(input: &[u8], out: &mut [u8]) -> Option<usize>
    ensures { Answers input.now out.old result out.new }
{
    let n = input.len().min(65536);
    if out.len() < n * 62 {
        return None;
    }
    Some(run_new(&input[..n], out))
}
