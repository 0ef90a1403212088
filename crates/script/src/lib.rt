// Scripts (docs/SCRIPTS.md): every command performed, and its line written.
#![tactic(auto)]

pub mod lines;
pub mod operands;

ghost use Rattle.std.specs.Prelude.{◌≡◌, List, [], ℕ, ◌+◌, ◌*◌, ◌≤◌, ◌<◌, length, take, drop};
ghost use Rattle.std.proofs.Math.Option.{some};
ghost use Rattle.model.specs.Opening.{open_heap};
ghost use Rattle.model.specs.Terms.{is_some};
ghost use Rattle.layout.specs.Sections.{layout_of};
ghost use Rattle.heap.specs.Good.{Ready};
ghost use Rattle.commands.specs.declared.Memory.TheVariants as M;
ghost use Rattle.commands.specs.Table.{act_of, memory_of, opening_in, shape_of};
ghost use Rattle.commands.specs.Promise.{CommandedBy};
ghost use Rattle.script.specs.Reads.{Placed, called_as};
ghost use Rattle.script.specs.Parse.{Called};
ghost use Rattle.script.specs.Replay.{Play, acted, bytes_for, frames_for, lendable, numbered, opened_by, places_for, seatable, turn_by, words_for};
ghost use Rattle.script.specs.Turns.{EndLine, Fronts, Goes, Kept, LargeLine, LendsWords, Plays, RootLine, SameLists, SessionReady, Starts, Turns, heap_in, heap_room, lend, lent_in, lists_in, opens_on, own_bytes, play_of, script_room};

use answers::Shown;
use commands::{Memory, Operands, Shape};
use heap::Heap;
pub use lines::{FieldForm, Forms};
use model::Weights;
use text::Writer;

// What the program has room for.
const SLOTS: u64 = 1024;

const CELLS: u64 = 65536;

const PLACES: u64 = 65536;

const BYTES: u64 = 524288;

const ROOTS: usize = 64;

const LINE: usize = 1114279;

// The lists that a script's session is lent, and the text that it writes. A list that is only read
// is taken from it by `&mut *lent.list`, since the proof then knows that it stays as it was.
#[derive(Drop)]
pub struct Lent<'a> {
    pub slots: &'a mut [u64],
    pub scalars: &'a mut [u64],
    pub list: &'a mut [u64],
    pub directory: &'a mut [u64],
    pub cells: &'a mut [u64],
    pub marks: &'a mut [u8],
    pub order: &'a mut [u32],
    pub table: &'a mut [u64],
    pub roots: &'a mut [u64],
    pub words: &'a mut [u64],
    pub bytes: &'a mut [u8],
    pub places: &'a mut [u64],
    pub out: &'a mut [u8],
}

// Between commands: the heap's record, how many roots there are, how many cells are lent, where the
// layout lies in the input, where the next command stands, and where the text ends.
#[derive(Clone, Copy, Debug, PartialEq, Eq)]
pub struct Session {
    pub heap: Heap,
    pub count: usize,
    pub room: usize,
    pub from: usize,
    pub to: usize,
    pub at: usize,
    pub end: usize,
}

// Why the first heap is not open. Refused: the input begins with no layout. Short: a lent buffer is
// too short.
#[derive(Clone, Copy, Debug, PartialEq, Eq)]
pub enum NotStarted {
    Refused,
    Short,
}

// A command's operands: the numbers; how many words stand in the lent buffer, and how many of frames
// behind them; where the bytes lie; and where the next command stands.
#[derive(Clone, Copy, Debug, PartialEq, Eq)]
pub struct Command {
    pub operands: Operands,
    pub words: usize,
    pub frames: usize,
    pub from: usize,
    pub to: usize,
    pub next: usize,
}

// What is read so far: the place behind it, how many numbers, how many words and how many of them,
// the last, are of frames, and where the bytes lie.
#[derive(Clone, Copy, Debug, PartialEq, Eq)]
pub struct Reader {
    pub at: usize,
    pub count: usize,
    pub words: usize,
    pub framed: usize,
    pub from: usize,
    pub to: usize,
}

// What is lent of the lists: so many words, up to where those of frames stand behind them, so many
// bytes and places.
#[derive(Clone, Copy, Debug, PartialEq, Eq)]
struct Lending {
    words: usize,
    end: usize,
    bytes: usize,
    places: usize,
}

// ---- openings

fn weights_in(o: Operands) -> Weights
    ensures { result ≡ (opening_in o []).weights }
{
    Weights {
        slot: o.d,
        entry: o.e,
        iterator: o.f,
        coroutine: o.g,
        frame: o.h,
    }
}

// Whether document 01 accepts an opening, whatever the lent buffers are: tried on one slot.
fn can_open(o: Operands, layout: &[u8]) -> bool
    ensures { result ≡ is_some (open_heap (opening_in o layout.now)) }
{
    if o.a < 1 {
        return false;
    }
    if 65536 < o.a {
        return false;
    }
    if 1048576 < o.b {
        return false;
    }
    let mut table = [0u64; 514];
    let mut marks = [0u8; 1];
    let mut order = [0u32; 2];
    heap::open(
        1,
        o.c,
        weights_in(o),
        layout,
        &mut table,
        &mut marks,
        &mut order,
        &[0u64; 8],
        &[0u64; 8],
        &[0u64; 1],
        &[0u64; 2],
        &[0u64; 1],
    )
    .is_ok()
}

#[tactic(auto, using(std::proofs::lemmas::Bool::Decides::nat_tests), unfolding(crate::specs::Replay::seatable))]
fn is_seatable(o: Operands) -> bool
    ensures { result ≡ seatable (opening_in o []) }
{
    o.a <= SLOTS && o.b <= CELLS
}

// ---- memory lent to a call

#[tactic(auto, using(std::proofs::lemmas::Bool::Decides::nat_tests), unfolding(crate::specs::Replay::lendable))]
fn can_lend(memory: Memory, o: Operands) -> bool
    ensures { result ≡ lendable memory o }
{
    match memory {
        Memory::Own => true,
        Memory::Buffer => o.b <= BYTES,
        Memory::Places => o.a <= PLACES,
        Memory::Roots => true,
    }
}

// The command's own words, or the roots: how many, and up to where those of frames stand.
fn lend_words(memory: Memory, k: Command, roots: &[u64], words: &mut [u64]) -> (usize, usize)
    requires { (k.words + k.frames ≤ length words.old) × (length roots.now ≤ length words.old) }
    ensures { (p : Play) (input : List ℕ) → p.roots ≡ roots.now → LendsWords (words_for memory p (called_as input words.old k)) (frames_for memory (called_as input words.old k)) words.old result.0 result.1 words.new }
{
    match memory {
        Memory::Roots => {
            let n = roots.len();
            words[..n].copy_from_slice(roots);
            (n, n)
        }
        _ => (k.words, k.words + k.frames),
    }
}

// The command's own bytes, or a buffer.
fn lend_bytes(memory: Memory, o: Operands, own: &[u8], bytes: &mut [u8]) -> usize
    requires { (memory ≡ M.Buffer → o.b ≤ length bytes.old) × (length own.now ≤ length bytes.old) }
    ensures { (c : Called) → c.operands ≡ o → c.bytes ≡ own.now → Fronts (bytes_for memory c) bytes.old result bytes.new }
{
    match memory {
        Memory::Buffer => {
            let n = o.b as usize;
            bytes[..n].fill(0xEE);
            n
        }
        _ => {
            let n = own.len();
            bytes[..n].copy_from_slice(own);
            n
        }
    }
}

fn number_places(places: &mut [u64], n: usize)
    requires { (n ≤ length places.old) × (n ≤ 65536) }
    ensures { Fronts (numbered n) places.old n places.new }
{
    for i in 0..n {
        places[i] = 0xAAAA_AAAA_AAAA_0000 + i as u64;
    }
}

// How many places the command names, or one for each slot.
#[tactic(auto, unfolding(crate::specs::Replay::places_for))]
fn place_count(memory: Memory, o: Operands, size: u64) -> u64
    ensures { (p : Play) → p.heap.table.size ≡ size → result ≡ places_for memory p o }
{
    match memory {
        Memory::Own => 0,
        Memory::Buffer => 0,
        Memory::Places => o.a,
        Memory::Roots => size,
    }
}

fn lend_places(memory: Memory, o: Operands, size: u64, places: &mut [u64]) -> usize
    requires { (memory ≡ M.Places → o.a ≤ 65536) × (size ≤ 65536) × (65536 ≤ length places.old) }
    ensures fronts { (p : Play) → p.heap.table.size ≡ size → Fronts (numbered (places_for memory p o)) places.old result places.new }
    ensures upper_bound { result ≤ 65536 }
{
    let n = place_count(memory, o, size) as usize;
    number_places(places, n);
    n
}

fn shown_bytes(memory: Memory, n: usize) -> usize
    ensures { (result ≤ n) × ((memory ≡ M.Buffer → result ≡ n) × ((memory ≡ M.Buffer → ⊥) → result ≡ 0)) }
{
    match memory {
        Memory::Buffer => n,
        _ => 0,
    }
}

// The calls of a command: of the cells and the lists the fronts alone are lent.
fn perform_in(
    heap: &mut Heap,
    room: usize,
    layout: &[u8],
    code: u64,
    o: Operands,
    l: Lending,
    lent: &mut Lent<'_>,
) -> Option<Shown>
    requires ready { Ready (heap_in heap.old room (lent_in lent.old)) lent.old.marks.now lent.old.order.now layout.now lent.old.table.now }
    requires room_in_bounds { room ≤ length lent.old.cells.now }
    requires fronts { (l.words ≤ l.end) × (l.end ≤ length lent.old.words.now) × (l.bytes ≤ length lent.old.bytes.now) × (l.places ≤ length lent.old.places.now) }
    ensures commanded_by { CommandedBy (layout_of layout.now) (memory_of code) (heap_in heap.old room (lent_in lent.old)) (take l.bytes lent.old.bytes.now) (take l.places lent.old.places.now) (act_of code o (lists_in (lent_in lent.old) l.words l.end l.bytes l.places)) result (heap_in heap.new room (lent_in lent.new)) (take l.bytes lent.new.bytes.now) (take l.places lent.new.places.now) }
    ensures ready_2 { Ready (heap_in heap.new room (lent_in lent.new)) lent.new.marks.now lent.new.order.now layout.now lent.new.table.now }
    ensures kept { Kept (lent_in lent.old) (lent_in lent.new) }
    ensures unchanged { (lent.new.table.now ≡ lent.old.table.now) × (lent.new.roots.now ≡ lent.old.roots.now) × (lent.new.words.now ≡ lent.old.words.now) × (lent.new.out.now ≡ lent.old.out.now) }
    ensures same_lists { SameLists lent.old lent.new }
{
    let cells = &mut lent.cells[..room];
    let table: &[u64] = &mut *lent.table;
    let words: &[u64] = &mut *lent.words;
    let bytes = &mut lent.bytes[..l.bytes];
    let places = &mut lent.places[..l.places];
    commands::perform(
        heap,
        lent.slots,
        lent.scalars,
        lent.list,
        lent.directory,
        cells,
        lent.marks,
        lent.order,
        layout,
        table,
        code,
        o,
        &words[..l.words],
        &words[l.words..l.end],
        bytes,
        places,
    )
}

// ---- commands

impl Session {
    // A missing operand, an unknown command, or no room.
    fn ended(&mut self, len: usize, out: &mut [u8])
        requires { self.old.end + 62 ≤ length out.old }
        ensures { EndLine self.old len out.old out.new self.new }
    {
        let mut writer = Writer { out, end: self.end };
        writer.put_unknown(self.heap.account.used);
        self.end = writer.end;
        self.at = len;
    }

    // 0B: one more root; there are at most 64.
    fn root_turn(&mut self, w: u64, onward: usize, roots: &mut [u64], out: &mut [u8])
        requires { (self.old.count ≤ 64) × (64 ≤ length roots.old) × (self.old.end + 62 ≤ length out.old) }
        ensures { RootLine self.old w onward roots.old out.old roots.new out.new self.new }
    {
        let used = self.heap.account.used;
        self.at = onward;
        let mut writer = Writer { out, end: self.end };
        if self.count < ROOTS {
            roots[self.count] = w;
            self.count += 1;
            writer.put_line(0x0B, 0, 0, used);
        } else {
            writer.put_line(0x0B, 4, 0, used);
        }
        self.end = writer.end;
    }

    // An opening for which there is no room: refused with 10, or the end of the script.
    fn large_opening(&mut self, k: Command, input: &[u8], out: &mut [u8])
        requires { (k.from ≤ k.to) × (k.to ≤ length input.now) × (self.old.end + 62 ≤ length out.old) }
        ensures { LargeLine self.old (open_heap (opening_in k.operands (own_bytes input.now k))) k.next (length input.now) out.old out.new self.new }
    {
        if can_open(k.operands, &input[k.from..k.to]) {
            self.ended(input.len(), out);
        } else {
            let mut writer = Writer { out, end: self.end };
            writer.put_line(0x00, 10, 0, self.heap.account.used);
            self.end = writer.end;
            self.at = k.next;
        }
    }

    // 00: a new heap, or the earlier one stays.
    fn open_turn(&mut self, k: Command, lent: &mut Lent<'_>, input: &[u8])
        requires session_ready { SessionReady input.now (lent_in lent.old) self.old }
        requires placed { Placed input.now self.old.at (length lent.old.words.now) k }
        requires end_in_bounds { self.old.end + 62 ≤ length lent.old.out.now }
        ensures goes { Goes input.now (opened_by (play_of input.now (lent_in lent.old) self.old) (opening_in k.operands (own_bytes input.now k)) (drop k.next input.now) (open_heap (opening_in k.operands (own_bytes input.now k)))) (lent_in lent.old) self.old (lent_in lent.new) self.new }
        ensures kept { Kept (lent_in lent.old) (lent_in lent.new) }
        ensures unchanged { lent_in lent.new ≡ opens_on (lent_in lent.old) lent.new.table.now lent.new.marks.now lent.new.order.now lent.new.out.now }
        ensures same_lists { SameLists lent.old lent.new }
    {
        let o = k.operands;
        if !is_seatable(o) {
            return self.large_opening(k, input, lent.out);
        }
        let room = o.b as usize;
        let slots: &[u64] = &mut *lent.slots;
        let scalars: &[u64] = &mut *lent.scalars;
        let list: &[u64] = &mut *lent.list;
        let directory: &[u64] = &mut *lent.directory;
        let cells: &[u64] = &mut *lent.cells;
        let opened = heap::open(
            o.a,
            o.c,
            weights_in(o),
            &input[k.from..k.to],
            lent.table,
            lent.marks,
            lent.order,
            slots,
            scalars,
            list,
            directory,
            &cells[..room],
        );
        self.at = k.next;
        let mut writer = Writer {
            out: lent.out,
            end: self.end,
        };
        let Ok(heap) = opened else {
            writer.put_line(0x00, 10, 0, self.heap.account.used);
            self.end = writer.end;
            return;
        };
        writer.put_line(0x00, 0, 0, heap.account.used);
        self.end = writer.end;
        self.heap = heap;
        self.count = 0;
        self.room = room;
        self.from = k.from;
        self.to = k.to;
    }

    // The calls of a command with its lists, and its line: of the cells the first alone are lent.
    fn call_turn(
        &mut self,
        code: u64,
        s: Shape,
        o: Operands,
        l: Lending,
        next: usize,
        lent: &mut Lent<'_>,
        input: &[u8],
    )
        requires session_ready { SessionReady input.now (lent_in lent.old) self.old }
        requires s_value { (s ≡ shape_of code) × (code ≡ 0x00 → ⊥) × (code ≡ 0x0B → ⊥) }
        requires fronts { (l.words ≤ l.end) × (l.end ≤ length lent.old.words.now) × (l.bytes ≤ length lent.old.bytes.now) × (l.places ≤ 65536) × (s.memory ≡ M.Buffer → l.bytes ≤ 524288) }
        requires at_lt_next { (self.old.at < next) × (next ≤ length input.now) × (self.old.end + 1114279 ≤ length lent.old.out.now) }
        ensures goes { Goes input.now (acted (play_of input.now (lent_in lent.old) self.old) code o (lists_in (lent_in lent.old) l.words l.end l.bytes l.places) (drop next input.now) (act_of code o (lists_in (lent_in lent.old) l.words l.end l.bytes l.places))) (lent_in lent.old) self.old (lent_in lent.new) self.new }
        ensures kept { Kept (lent_in lent.old) (lent_in lent.new) }
        ensures unchanged { (lent.new.table.now ≡ lent.old.table.now) × (lent.new.roots.now ≡ lent.old.roots.now) × (lent.new.words.now ≡ lent.old.words.now) }
        ensures same_lists { SameLists lent.old lent.new }
    {
        let layout = &input[self.from..self.to];
        let room = self.room;
        let performed = perform_in(&mut self.heap, room, layout, code, o, l, lent);
        let Some(shown) = performed else {
            return self.ended(input.len(), lent.out);
        };
        let used = self.heap.account.used;
        let places: &[u64] = &mut *lent.places;
        let bytes: &[u8] = &mut *lent.bytes;
        let shown_to = shown_bytes(s.memory, l.bytes);
        let mut writer = Writer {
            out: lent.out,
            end: self.end,
        };
        lines::put_shown(
            &mut writer,
            code,
            s.form,
            s.memory,
            o,
            shown,
            used,
            &places[..l.places],
            &bytes[..shown_to],
        );
        self.end = writer.end;
        self.at = next;
    }

    // A command that makes calls, with the memory that is lent to it.
    fn lent_turn(&mut self, code: u64, k: Command, lent: &mut Lent<'_>, input: &[u8])
        requires session_ready { SessionReady input.now (lent_in lent.old) self.old }
        requires placed { Placed input.now self.old.at (length lent.old.words.now) k }
        requires code_value { (code ≡ 0x00 → ⊥) × (code ≡ 0x0B → ⊥) × (self.old.end + 1114279 ≤ length lent.old.out.now) }
        ensures goes { Goes input.now (turn_by (play_of input.now (lent_in lent.old) self.old) code (some (called_as input.now lent.old.words.now k))) (lent_in lent.old) self.old (lent_in lent.new) self.new }
        ensures kept { Kept (lent_in lent.old) (lent_in lent.new) }
        ensures unchanged { (lent.new.table.now ≡ lent.old.table.now) × (lent.new.roots.now ≡ lent.old.roots.now) }
        ensures same_lists { SameLists lent.old lent.new }
    {
        let s = commands::shape_of(code);
        let o = k.operands;
        if !can_lend(s.memory, o) {
            return self.ended(input.len(), lent.out);
        }
        let roots: &[u64] = &mut *lent.roots;
        let (w, end) = lend_words(s.memory, k, &roots[..self.count], lent.words);
        let l = Lending {
            words: w,
            end,
            bytes: lend_bytes(s.memory, o, &input[k.from..k.to], lent.bytes),
            places: lend_places(s.memory, o, self.heap.size, lent.places),
        };
        self.call_turn(code, s, o, l, k.next, lent, input);
    }

    // The command at the session's place, and its line.
    fn turn(&mut self, lent: &mut Lent<'_>, input: &[u8])
        requires session_ready { SessionReady input.now (lent_in lent.old) self.old }
        requires at_in_bounds { (self.old.at < length input.now) × (self.old.end + 1114279 ≤ length lent.old.out.now) }
        ensures turns { Turns input.now (lent_in lent.old) self.old (lent_in lent.new) self.new }
        ensures kept { Kept (lent_in lent.old) (lent_in lent.new) }
        ensures same_lists { SameLists lent.old lent.new }
    {
        let Some(k) = operands::read_call(input, self.at, lent.words) else {
            return self.ended(input.len(), lent.out);
        };
        match input[self.at] {
            0x00 => self.open_turn(k, lent, input),
            0x0B => self.root_turn(k.operands.a, k.next, lent.roots, lent.out),
            code => self.lent_turn(code as u64, k, lent, input),
        }
    }

    // Commands from the session's place on, as long as the buffer has room for the longest line.
    // Their text stands in the buffer's front; an empty one ends the script.
    pub fn run(&mut self, lent: &mut Lent<'_>, input: &[u8])
        requires { SessionReady input.now (lent_in lent.old) self.old }
        ensures plays { Plays input.now (lent_in lent.old) self.old (lent_in lent.new) self.new }
        ensures kept { Kept (lent_in lent.old) (lent_in lent.new) }
        ensures same_lists { SameLists lent.old lent.new }
    {
        self.end = 0;
        while self.at < input.len() {
            if lent.out.len() - self.end < LINE {
                return;
            }
            self.turn(lent, input);
        }
    }
}

// ---- the first heap

// The least number of words that n bytes fit into.
fn words_for(n: usize) -> usize
    ensures { (n ≤ 8 * result) × (8 * result < n + 8) }
{
    n.div_ceil(8)
}

// Room for a heap.
#[tactic(auto, using(std::proofs::lemmas::Bool::Decides::nat_tests), unfolding(crate::specs::Turns::heap_room))]
fn heap_room(
    slots: usize,
    scalars: usize,
    list: usize,
    directory: usize,
    cells: usize,
    marks: usize,
    order: usize,
    table: usize,
) -> bool
    ensures { result ≡ heap_room slots scalars list directory cells marks order table }
{
    8192 <= slots
        && 8192 <= scalars
        && 1024 <= list
        && 2048 <= directory
        && 65536 <= cells
        && 1024 <= marks
        && 2048 <= order
        && 514 <= table
}

// Room for the lists and lines of a script of so many bytes.
#[tactic(auto, using(std::proofs::lemmas::Bool::Decides::nat_tests), unfolding(crate::specs::Turns::script_room))]
fn script_room(
    input: usize,
    roots: usize,
    words: usize,
    bytes: usize,
    places: usize,
    out: usize,
) -> bool
    ensures { result ≡ script_room input roots words bytes places out }
{
    ROOTS <= roots
        && 64 <= words
        && words_for(input) <= words
        && 524288 <= bytes
        && input <= bytes
        && 65536 <= places
        && LINE <= out
}

// Those of `callsheet`.
const WEIGHTS: Weights = Weights {
    slot: 64,
    entry: 40,
    iterator: 80,
    coroutine: 160,
    frame: 32,
};

// The heap before the first command: callsheet's, with the layout that the first byte is.
pub fn start(
    slots: &[u64],
    scalars: &[u64],
    list: &[u64],
    directory: &[u64],
    cells: &[u64],
    marks: &mut [u8],
    order: &mut [u32],
    table: &mut [u64],
    roots: &[u64],
    words: &[u64],
    bytes: &[u8],
    places: &[u64],
    out: &[u8],
    input: &[u8],
) -> Result<Session, NotStarted>
    ensures { Starts input.now (lend slots.now scalars.now list.now directory.now cells.now marks.old order.old table.old roots.now words.now bytes.now places.now out.now) result (lend slots.now scalars.now list.now directory.now cells.now marks.new order.new table.new roots.now words.now bytes.now places.now out.now) }
{
    if !heap_room(
        slots.len(),
        scalars.len(),
        list.len(),
        directory.len(),
        cells.len(),
        marks.len(),
        order.len(),
        table.len(),
    ) {
        return Err(NotStarted::Short);
    }
    if !script_room(
        input.len(),
        roots.len(),
        words.len(),
        bytes.len(),
        places.len(),
        out.len(),
    ) {
        return Err(NotStarted::Short);
    }
    let opened = heap::open(
        256,
        1048576,
        WEIGHTS,
        &input[..input.len().min(1)],
        table,
        marks,
        order,
        slots,
        scalars,
        list,
        directory,
        &cells[..2048],
    );
    let Ok(heap) = opened else {
        return Err(NotStarted::Refused);
    };
    Ok(Session {
        heap,
        count: 0,
        room: 2048,
        from: 0,
        to: 1,
        at: 1,
        end: 0,
    })
}
