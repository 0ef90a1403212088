// Replays map calls and prints a digest of every answer and of the store after every call; `stdout` is what the original answered
// (oracle/map_vectors). Standard input: the numbers of words and of macros; the words, eight bytes each; the macros, thirty-two bytes
// each; then commands to the end. A command is a byte and its operands, a byte each but for the two of kk and nn; h k v p l e name words.
//   01 t         new map, its keys traced where t is 1     0A          next key
//   02 h k v     put                                       0B k        growth bytes of an insertion, at 40 bytes an entry
//   03 h k v     insert                                    0C s l p e  a step of this cursor, that yielded l where s is 1
//   04 h k       find                                      0D          a step of the cursor that the last one left
//   05 h k       remove by key                             0E          every entry
//   06 p         remove at                                 0F kk f v   put the small key kk, hashed by f
//   07 p         entry read                                10 kk f     remove it
//   08 p v       set value                                 11          print the digest and begin anew
//   09 k         note                                      12 d a t nn the first a * nn words of d of the first a macros, each on a new
//   13 l         search for the first entry later than l               map and followed by macro t; prints after every nn words
// Anything else ends a macro, and the input.
#![tactic(auto)]

ghost use Rattle.std.specs.Prelude.{◌≡◌, ◌+◌, ◌*◌, ◌≤◌, ◌<◌, length, IfSome};
ghost use Rattle.map_store.specs.Map.{Good};
ghost use Rattle.map_store.specs.Once.{good-prop};

use map_store::{Cursor, Map, MapStore, Stored};
use std::io;

// The bytes of an entry, as growth is charged.
const WEIGHT: u64 = 40;

const START: Cursor = Cursor {
    last: None,
    pos: 0,
    epoch: 0,
};

// A call of a map.
#[derive(Clone, Copy, Debug, PartialEq, Eq)]
enum Command {
    New { traced: bool },
    Put { hash: u64, key: u64, value: u64 },
    Insert { hash: u64, key: u64, value: u64 },
    Find { hash: u64, key: u64 },
    RemoveKey { hash: u64, key: u64 },
    RemoveAt(u64),
    Entry(u64),
    SetValue { pos: u64, value: u64 },
    Note(u64),
    NextKey,
    Growth(u64),
    Step(Cursor),
    StepOn,
    Entries,
    Search(u64),
}

// Words of `digits` macros out of the first `base`, each followed by macro `after`: `base` lines of `count` words.
#[derive(Clone, Copy)]
struct Words {
    digits: usize,
    base: usize,
    after: usize,
    count: usize,
    ghost small: { (base < 256) × (after < 256) × (count < 65536) },
}

// One of three things, not a value or none.
#[derive(Clone, Copy)]
enum Turn {
    Call(Command),
    Line,
    List(Words),
}

#[derive(Clone, Copy, Debug, PartialEq, Eq)]
struct Digest {
    value: u64,
}

impl Digest {
    // Mixes a 32-bit number in.
    fn mix(&mut self, x: u64)
        requires { x < 4294967296 }
    {
        let d = self.value;
        self.value = ((d % 4503599627370496) * 1021 + d / 4503599627370496 + x)
            % 2305843009213693951;
    }

    fn mix_word(&mut self, x: u64) {
        self.mix(x % 4294967296);
        self.mix(x / 4294967296);
    }

    fn mix_flag(&mut self, b: bool) {
        self.mix(u64::from(b));
    }

    fn mix_signed(&mut self, k: i64) {
        self.mix_flag(k < 0);
        let size = if k < 0 { !k } else { k };
        self.mix_word(size.cast_unsigned());
    }

    // Whether there is a word, and the word.
    fn mix_option(&mut self, x: Option<u64>) {
        self.mix_flag(x.is_some());
        if let Some(w) = x {
            self.mix_word(w);
        }
    }

    fn mix_entry(&mut self, e: Stored) {
        self.mix_word(e.hash);
        self.mix_word(e.key);
        self.mix_word(e.value);
        self.mix_word(e.seq);
        self.mix_flag(e.live);
    }
}

// A map, the cursor kept for it, and the digest so far.
#[derive(Drop)]
struct Replay<'a> {
    store: MapStore,
    cells: &'a mut [u64],
    cursor: Cursor,
    digest: Digest,
    traced: bool,
    ghost good: { Good store cells.now } by { good-prop store cells.now },
}

impl Replay<'_> {
    fn map(&self) -> Map<'_>
        ensures { (result.store ≡ self.now.store) × (result.cells.now ≡ self.now.cells.now) }
    {
        Map {
            store: self.store,
            cells: self.cells,
        }
    }

    // A new map.
    fn clear(&mut self, traced: bool) {
        self.store = MapStore::new();
        self.cursor = START;
        self.traced = traced;
    }

    // Mixes the store's numbers in.
    fn mix_numbers(&mut self) {
        let store = self.store;
        self.digest.mix_word(store.live as u64);
        self.digest.mix_word(store.len as u64);
        self.digest.mix_word(u64::from(store.epoch));
        self.digest
            .mix_word(store.capacity as u64 * 40 + store.index as u64 * 4);
        self.digest.mix_flag(store.hashed);
        match store.next_int() {
            Some(k) => self.digest.mix_signed(k),
            None => self.digest.mix(2),
        }
    }

    // Insertion, where numbers and cells are left.
    fn insert(&mut self, hash: u64, key: u64, value: u64) {
        if self.store.fresh < 4294967296 {
            if self.map().cells_after_insert(self.traced, key) <= self.cells.len() {
                self.store.insert(self.cells, self.traced, hash, key, value);
                return;
            }
        }
        self.digest.mix(7);
    }

    fn put(&mut self, hash: u64, key: u64, value: u64) {
        match self.map().find(self.traced, hash, key) {
            Some(pos) => {
                self.store.set_value(self.cells, pos, value);
                self.digest.mix_option(Some(pos as u64));
            }
            None => self.insert(hash, key, value),
        }
    }

    fn find(&mut self, hash: u64, key: u64) {
        let found = self.map().find(self.traced, hash, key);
        self.digest.mix_option(found.map(|pos| pos as u64));
    }

    // Removal by key, where cells are left.
    fn remove_key(&mut self, hash: u64, key: u64) {
        if self.map().cells_after_remove() <= self.cells.len() {
            self.store.remove_key(self.cells, self.traced, hash, key);
        } else {
            self.digest.mix(7);
        }
    }

    fn remove_at(&mut self, pos: usize) {
        if self.map().cells_after_remove() <= self.cells.len() {
            self.store.remove(self.cells, pos);
        } else {
            self.digest.mix(7);
        }
    }

    fn entry(&mut self, pos: usize) {
        match self.map().entry(pos) {
            Some(e) => self.digest.mix_entry(e),
            None => self.digest.mix(3),
        }
    }

    fn entries(&mut self) {
        for pos in 0..self.store.len {
            self.entry(pos);
        }
    }

    fn growth(&mut self, key: u64) {
        let bytes = self.map().growth_bytes(WEIGHT, self.traced, key);
        self.digest.mix_word(bytes);
    }

    // The position of the first entry later than q, and how many entries the search looked at.
    fn search(&mut self, q: u64) {
        let later = self.map().first_later(q);
        self.digest.mix_word(later.pos as u64);
        self.digest.mix_word(later.looked as u64);
    }

    // A step of the cursor; it is kept.
    fn step(&mut self, cursor: Cursor) {
        let stepped = self.map().step(cursor);
        let moved = stepped.cursor;
        self.digest.mix_option(stepped.found.map(|pos| pos as u64));
        self.digest.mix_word(moved.pos as u64);
        self.digest.mix_word(u64::from(moved.epoch));
        self.digest.mix_option(moved.last);
        self.cursor = moved;
    }

    fn call(&mut self, command: Command) {
        match command {
            Command::New { traced } => self.clear(traced),
            Command::Put { hash, key, value } => self.put(hash, key, value),
            Command::Insert { hash, key, value } => self.insert(hash, key, value),
            Command::Find { hash, key } => self.find(hash, key),
            Command::RemoveKey { hash, key } => self.remove_key(hash, key),
            Command::RemoveAt(pos) => self.remove_at(pos as usize),
            Command::Entry(pos) => self.entry(pos as usize),
            Command::SetValue { pos, value } => {
                self.store.set_value(self.cells, pos as usize, value);
            }
            Command::Note(key) => self.store.note_int_key(key.cast_signed()),
            Command::NextKey => {}
            Command::Growth(key) => self.growth(key),
            Command::Step(cursor) => self.step(cursor),
            Command::StepOn => self.step(self.cursor),
            Command::Entries => self.entries(),
            Command::Search(q) => self.search(q),
        }
    }

    // A command, and the store's numbers after it.
    fn command(&mut self, command: Command) {
        self.call(command);
        self.mix_numbers();
    }

    // The commands from `at` on, up to `end` or the first that is none.
    fn run(&mut self, input: Input, from: usize, end: usize)
        requires { end < 900000 }
    {
        let mut at = from;
        // How far a command goes is known when it is read.
        while at < end {
            let Some((command, size)) = input.command_at(at) else {
                return;
            };
            self.command(command);
            at += size;
        }
    }

    fn run_macro(&mut self, input: Input, k: usize)
        requires { k < 256 }
    {
        let from = input.macro_at(k);
        self.run(input, from, from + 32);
    }

    // Word x of the list, on a new map: the macros that its digits name, and the one after them.
    fn sequence(&mut self, input: Input, x: usize, list: Words)
        requires { 0 < list.base }
    {
        self.clear(false);
        let mut rest = x;
        for _ in 0..list.digits {
            self.run_macro(input, rest % list.base);
            rest /= list.base;
        }
        self.run_macro(input, list.after);
    }

    // The words of a list; a line after every `count` of them.
    fn words(&mut self, rt: &impl Print, input: Input, list: Words) -> io::Result<()> {
        for k in 0..list.base {
            for x in k * list.count..(k + 1) * list.count {
                self.sequence(input, x, list);
            }
            print(rt, self.digest)?;
        }
        Ok(())
    }

    fn turn(&mut self, rt: &impl Print, input: Input, turn: Turn) -> io::Result<()> {
        match turn {
            Turn::Call(command) => self.command(command),
            Turn::Line => {
                print(rt, self.digest)?;
                self.digest = Digest { value: 0 };
            }
            Turn::List(list) => self.words(rt, input, list)?,
        }
        Ok(())
    }

    // The input behind the macros, up to its end or the first byte that begins nothing.
    fn turns(&mut self, rt: &impl Print, input: Input) -> io::Result<()>
        requires { length input.bytes.now ≤ 131072 }
    {
        let mut at = input.macro_at(input.number(1));
        // How far a turn goes is known when it is read.
        while at < input.bytes.len() {
            let Some((turn, size)) = input.turn_at(at) else {
                return Ok(());
            };
            self.turn(rt, input, turn)?;
            at += size;
        }
        Ok(())
    }
}

// A small key's hash: scattered, crowded, or with a high half.
fn hash_of(key: u64, way: u8) -> u64
    requires { key < 65536 }
{
    // The input says the way as a byte, here and nowhere else.
    match way {
        0 => key * 2654435761 % 4294967296,
        1 => key % 64,
        _ => key * 281474976710677,
    }
}

// The input by place: a byte outside it is 0.
#[derive(Clone, Copy)]
struct Input<'a> {
    bytes: &'a [u8],
}

impl Input<'_> {
    fn byte(self, i: usize) -> u8 {
        self.bytes.get(i).copied().unwrap_or(0)
    }

    fn number(self, i: usize) -> usize
        ensures { result < 256 }
    {
        usize::from(self.byte(i))
    }

    // The word that the byte at i names.
    fn word(self, i: usize) -> u64 {
        let at = 2 + 8 * self.number(i);
        u64::from_le_bytes([
            self.byte(at),
            self.byte(at + 1),
            self.byte(at + 2),
            self.byte(at + 3),
            self.byte(at + 4),
            self.byte(at + 5),
            self.byte(at + 6),
            self.byte(at + 7),
        ])
    }

    fn small(self, i: usize) -> u64
        requires { i < 1000000 }
        ensures { result < 65536 }
    {
        u64::from(self.byte(i)) + 256 * u64::from(self.byte(i + 1))
    }

    fn macro_at(self, k: usize) -> usize
        requires { k < 256 }
        ensures { result ≤ 10210 }
    {
        2 + 8 * self.number(0) + 32 * k
    }

    // The command at a byte, and its bytes.
    fn command_at(self, at: usize) -> Option<(Command, usize)>
        requires { at < 900000 }
        ensures { IfSome result (λ p. (0 < p.1) × (p.1 ≤ 5)) }
    {
        let a = self.word(at + 1);
        let b = self.word(at + 2);
        let key = self.small(at + 1);
        let hash = hash_of(key, self.byte(at + 3));
        let value = self.word(at + 3);
        // What a byte means stands here once, as rows.
        Some(match self.byte(at) {
            1 => {
                let traced = self.byte(at + 1) == 1;
                (Command::New { traced }, 2)
            }
            2 => (
                Command::Put {
                    hash: a,
                    key: b,
                    value,
                },
                4,
            ),
            3 => (
                Command::Insert {
                    hash: a,
                    key: b,
                    value,
                },
                4,
            ),
            4 => (Command::Find { hash: a, key: b }, 3),
            5 => (Command::RemoveKey { hash: a, key: b }, 3),
            6 => (Command::RemoveAt(a), 2),
            7 => (Command::Entry(a), 2),
            8 => (Command::SetValue { pos: a, value: b }, 3),
            9 => (Command::Note(a), 2),
            10 => (Command::NextKey, 1),
            11 => (Command::Growth(a), 2),
            12 => (Command::Step(self.cursor_at(at)), 5),
            13 => (Command::StepOn, 1),
            14 => (Command::Entries, 1),
            15 => {
                let value = self.word(at + 4);
                (Command::Put { hash, key, value }, 5)
            }
            16 => (Command::RemoveKey { hash, key }, 4),
            19 => (Command::Search(a), 2),
            _ => return None,
        })
    }

    // The cursor of a step whose command stands at a byte.
    fn cursor_at(self, at: usize) -> Cursor
        requires { at < 900000 }
    {
        Cursor {
            last: (self.byte(at + 1) == 1).then_some(self.word(at + 2)),
            pos: self.word(at + 3) as usize,
            epoch: (self.word(at + 4) % 4294967296) as u32,
        }
    }

    // What stands at a byte outside the macros, and its bytes.
    fn turn_at(self, at: usize) -> Option<(Turn, usize)>
        requires { at < 900000 }
        ensures { IfSome result (λ p. (0 < p.1) × (p.1 ≤ 6)) }
    {
        // What a byte means stands here once, as rows.
        match self.byte(at) {
            17 => Some((Turn::Line, 1)),
            18 => {
                let list = Words {
                    digits: self.number(at + 1),
                    base: self.number(at + 2),
                    after: self.number(at + 3),
                    count: self.small(at + 4) as usize,
                };
                Some((Turn::List(list), 6))
            }
            _ => {
                let (command, size) = self.command_at(at)?;
                Some((Turn::Call(command), size))
            }
        }
    }
}

fn print(rt: &impl Print, digest: Digest) -> io::Result<()> {
    let value = digest.value;
    println!(rt; "{value:016x}")
}

fn run_input(rt: &impl Print, cells: &mut [u64], input: &[u8]) -> io::Result<()>
    requires { (length cells.old ≤ 1048576) × (length input.now ≤ 131072) }
{
    let mut r = Replay {
        store: MapStore::new(),
        cells,
        cursor: START,
        digest: Digest { value: 0 },
        traced: false,
    };
    r.turns(rt, Input { bytes: input })
}

fn main(rt: HostRuntime) -> io::Result<()> {
    let mut input = [0u8; 131072];
    let mut cells = [0u64; 65536];
    let n = streams::read_full(&mut rt.stdin(), &mut input)?;
    run_input(&rt, &mut cells, &input[..n])
}
