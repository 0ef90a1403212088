// The operands of a command, read from the bytes behind it. None: an operand is missing.
ghost use Rattle.std.specs.Prelude.{◌≡◌, List, ℕ, ◌+◌, ◌-◌, ◌*◌, ◌≤◌, ◌<◌, IfSome, length, get_or, take, drop};
ghost use Rattle.commands.specs.Rows.{field_at};
ghost use Rattle.script.specs.Parse.{parse_call, parse_field, take_list, take_number, with_bytes, with_frames, with_words, words_in, operands_of};
ghost use Rattle.script.specs.Reads.{Fills, Parses, Reads, Room, Takes, counted};

use crate::{Command, Reader};
use commands::Operands;

// A number of so many bytes, at most so large.
fn take_number(
    t: Reader,
    input: &[u8],
    size: usize,
    most: u64,
    numbers: &mut [u64],
) -> Option<Reader>
    requires { (size ≤ 8) × (t.at ≤ length input.now) × (t.count < length numbers.old) }
    ensures { (words : List ℕ) → Takes (take_number size most) input.now numbers.old words t numbers.new words result }
{
    if input.len() - t.at < size {
        return None;
    }
    let x = text::read_little(input, t.at, size);
    if most < x {
        return None;
    }
    numbers[t.count] = x;
    Some(Reader {
        at: t.at + size,
        count: t.count + 1,
        ..t
    })
}

// So many words from a place on, put behind those that are there.
fn read_words(input: &[u8], from: usize, n: usize, words: &mut [u64], filled: usize) -> usize
    requires { (from + 8 * n ≤ length input.now) × (filled + n ≤ length words.old) }
    ensures { Fills (words_in n (drop from input.now)) words.old filled n words.new result }
{
    for i in 0..n {
        words[filled + i] = text::read_little(input, from + 8 * i, 8);
    }
    filled + n
}

// A count, if so many items of so many bytes stand behind it.
fn take_count(input: &[u8], at: usize, size: usize) -> Option<usize>
    requires { (at ≤ length input.now) × (1 ≤ size) }
    ensures { result ≡ counted size (drop at input.now) }
{
    let left = input.len() - at;
    if left < 8 {
        return None;
    }
    let n = text::read_little(input, at, 8) as usize;
    if (left - 8) / size < n {
        return None;
    }
    Some(n)
}

fn take_words(t: Reader, input: &[u8], words: &mut [u64]) -> Option<Reader>
    requires { Room input.now words.old t }
    ensures { (numbers : List ℕ) → Takes (take_list 8 with_words) input.now numbers words.old t numbers words.new result }
{
    let n = take_count(input, t.at, 8)?;
    let start = t.at + 8;
    let filled = read_words(input, start, n, words, t.words);
    Some(Reader {
        at: start + 8 * n,
        words: filled,
        ..t
    })
}

fn take_frames(t: Reader, input: &[u8], words: &mut [u64]) -> Option<Reader>
    requires { Room input.now words.old t }
    ensures { (numbers : List ℕ) → Takes (take_list 32 with_frames) input.now numbers words.old t numbers words.new result }
{
    let n = take_count(input, t.at, 32)?;
    let start = t.at + 8;
    let filled = read_words(input, start, 4 * n, words, t.words);
    Some(Reader {
        at: start + 32 * n,
        words: filled,
        framed: t.framed + 4 * n,
        ..t
    })
}

fn take_bytes(t: Reader, input: &[u8]) -> Option<Reader>
    requires { t.at ≤ length input.now }
    ensures { (numbers words : List ℕ) → Takes (take_list 1 with_bytes) input.now numbers words t numbers words result }
{
    let n = take_count(input, t.at, 1)?;
    let start = t.at + 8;
    Some(Reader {
        at: start + n,
        from: start,
        to: start + n,
        ..t
    })
}

fn take_field(
    t: Reader,
    kind: u64,
    input: &[u8],
    numbers: &mut [u64],
    words: &mut [u64],
) -> Option<Reader>
    requires room { Room input.now words.old t }
    requires count_in_bounds { t.count < length numbers.old }
    ensures { Takes (parse_field (field_at kind)) input.now numbers.old words.old t numbers.new words.new result }
{
    match kind {
        1 => take_number(t, input, 1, 255, numbers),
        2 => take_number(t, input, 2, 65535, numbers),
        3 => take_number(t, input, 8, 18446744073709551615, numbers),
        4 => take_number(t, input, 1, 7, numbers),
        5 => take_number(t, input, 1, 3, numbers),
        6 => take_words(t, input, words),
        7 => take_bytes(t, input),
        _ => take_frames(t, input, words),
    }
}

// All operands of a command, from a place on.
fn take_fields(
    command: u8,
    input: &[u8],
    at: usize,
    numbers: &mut [u64],
    words: &mut [u64],
) -> Option<Reader>
    requires at_in_bounds { (at ≤ length input.now) × (length input.now ≤ 8 * length words.old) × (9 ≤ length numbers.old) }
    requires by_index { (i : ℕ) → get_or numbers.old i 0 ≡ 0 }
    ensures room { IfSome result (λ t. Room input.now words.new t × (at ≤ t.at)) }
    ensures parses { Parses input.now numbers.new words.new result (parse_call command (drop at input.now)) }
{
    let mut rest = commands::shape_of(command as u64).fields;
    if rest == 15 {
        return None;
    }
    let mut t = Reader {
        at,
        count: 0,
        words: 0,
        framed: 0,
        from: 0,
        to: 0,
    };
    while 0 < rest {
        t = take_field(t, rest % 16, input, numbers, words)?;
        rest /= 16;
    }
    Some(t)
}

fn operands_of(numbers: &[u64]) -> Operands
    requires { 8 ≤ length numbers.now }
    ensures { result ≡ operands_of numbers.now }
{
    Operands {
        a: numbers[0],
        b: numbers[1],
        c: numbers[2],
        d: numbers[3],
        e: numbers[4],
        f: numbers[5],
        g: numbers[6],
        h: numbers[7],
    }
}

// The command at a place. Its words and those of its frames are put into the front of the lent
// buffer, which has room for all words that the input can hold.
pub fn read_call(input: &[u8], at: usize, words: &mut [u64]) -> Option<Command>
    requires at_in_bounds { at < length input.now }
    requires input_len_bound { length input.now ≤ 8 * length words.old }
    ensures { Reads input.now at words.new result }
{
    let mut numbers = [0u64; 9];
    let t = take_fields(input[at], input, at + 1, &mut numbers, words)?;
    Some(Command {
        operands: operands_of(&numbers),
        words: t.words - t.framed,
        frames: t.framed,
        from: t.from,
        to: t.to,
        next: t.at,
    })
}
