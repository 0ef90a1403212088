// Runs a script of calls on words, and of openings of which only the sizes and the layout are
// judged: one-byte commands with little-endian operands, one line printed for each.
#![tactic(auto)]

ghost use Rattle.std.specs.Prelude.{[], ◌∷◌, ◌≡◌, ◌≤◌, ◌<◌, ◌+◌, length, take, drop, IfOk, IfErr, MatchOption, OnOk, OnSome};
ghost use Rattle.std.specs.Int.{w64, from_le_bytes};

use layout::BadLayout;
use std::num::{f64_from_bits_with_nan, f64_to_bits_with_nan};
use std::{fmt, io};
use words::Raw;

#[derive(Clone, Copy)]
enum Command {
    Open,
    Truth,
    Character,
    Float,
    Integer,
    Reference,
    Read,
    Same,
}

impl Command {
    fn from_byte(byte: u8) -> Option<Command> {
        // What a byte means stands here once, as rows.
        match byte {
            0x00 => Some(Command::Open),
            0x60 => Some(Command::Truth),
            0x61 => Some(Command::Character),
            0x62 => Some(Command::Float),
            0x63 => Some(Command::Integer),
            0x64 => Some(Command::Reference),
            0x65 => Some(Command::Read),
            0x66 => Some(Command::Same),
            _ => None,
        }
    }
}

// Why there is no answer, by the number that is printed.
#[derive(Clone, Copy, Debug, PartialEq, Eq)]
enum Refusal {
    // An unknown command, or a missing operand.
    NoCommand = 4,
    BadOpening = 10,
}

impl From<Refusal> for u64 {
    fn from(refusal: Refusal) -> Self {
        refusal as u64
    }
}

impl From<BadLayout> for Refusal {
    fn from(_: BadLayout) -> Self {
        Refusal::BadOpening
    }
}

impl fmt::Display for Refusal {
    fn fmt<W: fmt::Write>(&self, f: &mut fmt::Formatter<W>) -> fmt::Result {
        write!(f, "{} 0000000000000000 0", u64::from(*self))
    }
}

// What a command answers: a word, and a number where there are two.
#[derive(Clone, Copy, Debug, PartialEq, Eq)]
struct Answer {
    word: u64,
    extra: Option<u64>,
}

impl fmt::Display for Answer {
    fn fmt<W: fmt::Write>(&self, f: &mut fmt::Formatter<W>) -> fmt::Result {
        write!(f, "0 {:016X} 0", self.word)?;
        match self.extra {
            Some(extra) => write!(f, " {extra}"),
            None => Ok(()),
        }
    }
}

fn answered(word: u64) -> Answer {
    Answer { word, extra: None }
}

fn answered_with(word: u64, extra: u64) -> Answer {
    Answer {
        word,
        extra: Some(extra),
    }
}

// ---- reading the script

// The part of the script that is not read yet.
#[derive(Drop)]
struct Script<'a> {
    rest: &'a [u8],
}

impl<'a> Script<'a> {
    fn byte(&mut self) -> Option<u8>
        ensures first { MatchOption result ((self.old.rest.now ≡ []) × (self.new.rest.now ≡ [])) (λ b. self.old.rest.now ≡ b ∷ self.new.rest.now) }
        ensures shorter { OnSome result (length self.new.rest.now < length self.old.rest.now) }
        ensures within { length self.new.rest.now ≤ length self.old.rest.now }
    {
        let (byte, rest) = self.rest.split_first()?;
        self.rest = rest;
        Some(*byte)
    }

    fn word(&mut self) -> Result<u64, Refusal>
        ensures value { IfOk result (λ w. w ≡ from_le_bytes w64 (take 8 self.old.rest.now)) }
        ensures left { OnOk result ((self.new.rest.now ≡ drop 8 self.old.rest.now) × (length self.new.rest.now + 8 ≡ length self.old.rest.now)) }
        ensures missing { IfErr result (λ e. (e ≡ Refusal.NoCommand) × (length self.old.rest.now < 8) × (self.new.rest.now ≡ self.old.rest.now)) }
        ensures within { length self.new.rest.now ≤ length self.old.rest.now }
    {
        let (bytes, rest) = self.rest.split_first_chunk().ok_or(Refusal::NoCommand)?;
        self.rest = rest;
        Ok(u64::from_le_bytes(*bytes))
    }

    fn bytes(&mut self, count: u64) -> Result<&'a [u8], Refusal>
        ensures value { IfOk result (λ bs. bs.now ≡ take count self.old.rest.now) }
        ensures left { OnOk result ((self.new.rest.now ≡ drop count self.old.rest.now) × (count ≤ length self.old.rest.now)) }
        ensures missing { IfErr result (λ e. (e ≡ Refusal.NoCommand) × (length self.old.rest.now < count) × (self.new.rest.now ≡ self.old.rest.now)) }
        ensures within { length self.new.rest.now ≤ length self.old.rest.now }
    {
        let (bytes, rest) = self
            .rest
            .split_at_checked(count as usize)
            .ok_or(Refusal::NoCommand)?;
        self.rest = rest;
        Ok(bytes)
    }
}

// ---- the calls

fn integer(number: i64) -> Answer {
    match words::inline_int(number) {
        Some(word) => answered_with(word, 1),
        None => answered_with(0, 0),
    }
}

// A value and its kind's number; floats by their bits, of which a NaN has one pattern.
fn reading(word: u64) -> Answer {
    match words::decode(word) {
        Raw::Nil => answered_with(0, 0),
        Raw::Bool(b) => answered_with(u64::from(b), 1),
        Raw::Int(i) => answered_with(i.cast_unsigned(), 2),
        Raw::Float(f) => answered_with(f64_to_bits_with_nan(f), 3),
        Raw::Char(c) => answered_with(u64::from(c), 4),
        Raw::Ref(slot, tag) => answered_with(u64::from(tag) << 32 | u64::from(slot), 5),
    }
}

// The numbers of an opening, before its layout.
#[derive(Clone, Copy)]
struct Sizes {
    slots: u64,
    cells: u64,
    weights: [u64; 5],
    layout: u64,
}

fn read_sizes(script: &mut Script) -> Result<Sizes, Refusal>
    ensures nine_words { OnOk result (length script.new.rest.now + 72 ≡ length script.old.rest.now) }
    ensures missing { IfErr result (λ e. e ≡ Refusal.NoCommand) }
    ensures within { length script.new.rest.now ≤ length script.old.rest.now }
{
    let slots = script.word()?;
    let cells = script.word()?;
    let _limit = script.word()?;
    let mut weights = [0u64; 5];
    for weight in &mut weights {
        *weight = script.word()?;
    }
    let layout = script.word()?;
    Ok(Sizes {
        slots,
        cells,
        weights,
        layout,
    })
}

// An opening, by its sizes, its weights and its layout.
fn opening(script: &mut Script) -> Result<Answer, Refusal>
    ensures accepted { OnOk result (length script.new.rest.now + 72 ≤ length script.old.rest.now) }
    ensures judged { IfErr result (λ e. e ≡ Refusal.BadOpening → length script.new.rest.now + 72 ≤ length script.old.rest.now) }
    ensures within { length script.new.rest.now ≤ length script.old.rest.now }
{
    let sizes = read_sizes(script)?;
    let layout = script.bytes(sizes.layout)?;
    if !(1..=65536).contains(&sizes.slots)
        || sizes.cells > 1048576
        || !sizes
            .weights
            .iter()
            .all(|weight| (1..=4096).contains(weight))
    {
        return Err(Refusal::BadOpening);
    }
    let mut table = [0u64; 514];
    layout::read_layout(layout, &mut table)?;
    Ok(answered(0))
}

// A command's answer by the operands that follow it.
fn perform(command: Command, script: &mut Script) -> Result<Answer, Refusal>
    ensures { length script.new.rest.now ≤ length script.old.rest.now }
{
    match command {
        Command::Open => opening(script),
        Command::Truth => {
            let truth = script.byte().ok_or(Refusal::NoCommand)? != 0;
            Ok(answered(words::from_bool(truth)))
        }
        Command::Character => {
            let character = script.word()?;
            Ok(answered(words::from_char((character % 0x1_0000_0000) as u32)))
        }
        Command::Float => {
            let float = f64_from_bits_with_nan(script.word()?);
            Ok(answered(words::from_f64(float)))
        }
        Command::Integer => Ok(integer(script.word()?.cast_signed())),
        Command::Reference => {
            let slot = script.word()?;
            let tag = script.word()?;
            Ok(answered(words::from_ref((slot % 0x1_0000_0000) as u32, (tag % 0x1_0000) as u16)))
        }
        Command::Read => Ok(reading(script.word()?)),
        Command::Same => {
            let first = script.word()?;
            let second = script.word()?;
            Ok(answered(u64::from(words::same(first, second))))
        }
    }
}

// Prints a line for each command, and one more for what is no command with its operands.
fn run(rt: &impl Print, script: &[u8]) -> io::Result<()> {
    let mut script = Script { rest: script };
    while let Some(byte) = script.byte() {
        let answer = match Command::from_byte(byte) {
            Some(command) => perform(command, &mut script),
            None => Err(Refusal::NoCommand),
        };
        match answer {
            Ok(answer) => println!(rt; "{byte:02X} {answer}")?,
            Err(Refusal::BadOpening) => println!(rt; "{byte:02X} {}", Refusal::BadOpening)?,
            Err(Refusal::NoCommand) => return println!(rt; "?? {}", Refusal::NoCommand),
        }
    }
    Ok(())
}

fn main(rt: HostRuntime) -> io::Result<()> {
    // 64 KiB: the vectors, layouts among them, fit.
    let mut buffer = [0u8; 65536];
    let n = streams::read_full(&mut rt.stdin(), &mut buffer)?;
    run(&rt, &buffer[..n])
}
