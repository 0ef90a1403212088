// What a call shows, as words.
#![tactic(auto)]

ghost use Rattle.std.specs.Prelude.{◌≡◌, List, ℕ};
ghost use Rattle.model.specs.Replies as Replies;
ghost use Rattle.model.specs.Replies.{Answer, reply};
ghost use Rattle.map_store.specs.View.{cursor_is, last_is, position, stored_entry};
ghost use Rattle.heap.specs.Answers as Heaps;
ghost use Rattle.heap.specs.Answers.{seen_by};
ghost use Rattle.collections_iterators.specs.Answers.{cursor_answer};
ghost use Rattle.collections_maps.specs.Answers.{next_seen, noted_seen, step_seen};
ghost use Rattle.collector.specs.Answer.{collection_is};
ghost use Rattle.answers.specs.Shows as Shows;
ghost use Rattle.answers.specs.Shows.{answer_shown, or_zero, shown_of, with_lent, with_second};

use collections_iterators::CursorAt;
use collector::Collection;
use heap::{Kind, Refusal};
use map_store::{Cursor, Stepped, Stored};
use model::Frame;
use std::num::f64_to_bits_with_nan;
use words::Raw;

// What a call shows: the number of the refusal or 0, the word answered, and what is answered
// beside it. All are numbers, as C and a line have them; a refused step shows its cursor too, so it
// is no Result.
#[derive(Clone, Copy, Debug, PartialEq, Eq)]
pub struct Shown {
    pub refusal: u64,
    pub word: u64,
    pub x: u64,
    pub y: u64,
    pub z: u64,
    pub u: u64,
    pub v: u64,
}

const NOTHING: Shown = Shown {
    refusal: 0,
    word: 0,
    x: 0,
    y: 0,
    z: 0,
    u: 0,
    v: 0,
};

// A value that a call answers, as words; `says` is the model's answer.
pub trait Show {
    ghost says: { Self → Answer };

    fn show(self) -> Shown
        ensures { result ≡ answer_shown 0 (says self) };
}

impl Show for () {
    ghost says = { λ _. reply Replies.nothing };

    #[tactic(auto, unfolding(crate::specs::Shows::answer_shown, crate::specs::Shows::reply_shown))]
    fn show(self) -> Shown {
        NOTHING
    }
}

impl Show for u64 {
    ghost says = { λ n. reply (Replies.number n) };

    #[tactic(auto, unfolding(crate::specs::Shows::answer_shown, crate::specs::Shows::reply_shown))]
    fn show(self) -> Shown {
        Shown {
            word: self,
            ..NOTHING
        }
    }
}

impl Show for i64 {
    ghost says = { λ k. reply (Replies.signed k) };

    #[tactic(auto, unfolding(crate::specs::Shows::answer_shown, crate::specs::Shows::reply_shown))]
    fn show(self) -> Shown {
        words::bits_of(self).show()
    }
}

impl Show for bool {
    ghost says = { λ b. reply (Replies.truth b) };

    #[tactic(auto, unfolding(crate::specs::Shows::answer_shown, crate::specs::Shows::reply_shown, crate::specs::Shows::bit))]
    fn show(self) -> Shown {
        u64::from(self).show()
    }
}

// A kind's number.
impl Show for Kind {
    ghost says = { λ k. reply (Replies.number (Heaps.kind_number k)) };

    #[tactic(auto, unfolding(crate::specs::Shows::answer_shown, crate::specs::Shows::reply_shown))]
    fn show(self) -> Shown {
        u64::from(self).show()
    }
}

// A position, an item or a key, if there is one.
impl Show for Option<u64> {
    ghost says = { λ o. reply (Replies.perhaps (position o)) };

    #[tactic(auto, unfolding(crate::specs::Shows::answer_shown, crate::specs::Shows::reply_shown, crate::specs::Shows::yielded, crate::specs::Shows::or_zero, map_store::specs::View::position))]
    fn show(self) -> Shown {
        match self {
            Some(word) => Shown {
                word,
                x: 1,
                ..NOTHING
            },
            None => NOTHING,
        }
    }
}

impl Show for Stored {
    ghost says = { λ e. reply (Replies.entry_is (stored_entry e)) };

    #[tactic(auto, unfolding(crate::specs::Shows::answer_shown, crate::specs::Shows::reply_shown, crate::specs::Shows::bit))]
    fn show(self) -> Shown {
        Shown {
            word: self.value,
            x: self.hash,
            y: self.key,
            z: self.seq,
            u: u64::from(self.live),
            ..NOTHING
        }
    }
}

impl Show for Frame {
    ghost says = { λ f. reply (Replies.frame_is f) };

    #[tactic(auto, unfolding(crate::specs::Shows::answer_shown, crate::specs::Shows::reply_shown))]
    fn show(self) -> Shown {
        Shown {
            word: self.function,
            x: self.counter,
            y: self.base,
            z: self.closure,
            ..NOTHING
        }
    }
}

// An iterator's cursor, 6 over an array, 7 over a map.
impl Show for CursorAt {
    ghost says = { cursor_answer };

    #[tactic(auto, unfolding(crate::specs::Shows::answer_shown, crate::specs::Shows::reply_shown, collections_iterators::specs::Answers::cursor_answer, crate::specs::Shows::or_zero, map_store::specs::View::last_is))]
    fn show(self) -> Shown {
        match self {
            CursorAt::Index(word) => Shown {
                word,
                x: 6,
                ..NOTHING
            },
            CursorAt::Map(c) => Shown {
                word: c.pos as u64,
                x: 7,
                y: yielded(c.last),
                z: c.last.unwrap_or(0),
                u: c.epoch as u64,
                ..NOTHING
            },
        }
    }
}

// A word read: its value, and its kind's number.
impl Show for Raw {
    ghost says = { λ r. reply (Replies.raw r) };

    #[tactic(auto, unfolding(crate::specs::Shows::answer_shown, crate::specs::Shows::reply_shown, crate::specs::Shows::raw_shown, crate::specs::Shows::bit))]
    fn show(self) -> Shown {
        let (word, x) = match self {
            Raw::Nil => (0, 0),
            Raw::Bool(b) => (u64::from(b), 1),
            Raw::Int(k) => (words::bits_of(k), 2),
            Raw::Float(f) => (f64_to_bits_with_nan(f), 3),
            Raw::Char(k) => (k as u64, 4),
            Raw::Ref(s, t) => ((t as u64) * 0x1_0000_0000 + s as u64, 5),
        };
        Shown { word, x, ..NOTHING }
    }
}

// 1 where the cursor has yielded.
#[tactic(auto, unfolding(crate::specs::Shows::yielded, map_store::specs::View::last_is))]
fn yielded(last: Option<u64>) -> u64
    ensures { result ≡ Shows.yielded (last_is last) }
{
    u64::from(last.is_some())
}

// ---- what a call shows, by its answer

#[tactic(auto, unfolding(crate::specs::Shows::answer_shown, crate::specs::Shows::reply_shown, crate::specs::Shows::shown_of, crate::specs::Shows::with_lent))]
pub fn refused(q: Refusal) -> Shown
    ensures { result ≡ shown_of (Heaps.refused q) }
{
    Shown {
        refusal: u64::from(q),
        ..NOTHING
    }
}

#[tactic(auto, unfolding(crate::specs::Shows::answer_shown, crate::specs::Shows::reply_shown, crate::specs::Shows::shown_of, crate::specs::Shows::with_lent, heap::specs::Answers::seen_by))]
pub fn answer<T: Show>(a: Result<T, Refusal>) -> Shown
    ensures { result ≡ shown_of (seen_by T.says a) }
{
    match a {
        Ok(value) => value.show(),
        Err(q) => refused(q),
    }
}

// The reference that an allocation made.
#[tactic(auto, unfolding(crate::specs::Shows::answer_shown, crate::specs::Shows::reply_shown, crate::specs::Shows::shown_of, crate::specs::Shows::with_lent, heap::specs::Answers::seen_by))]
pub fn made(a: Result<u64, Refusal>) -> Shown
    ensures { result ≡ shown_of (Heaps.made_is a) }
{
    answer(a)
}

// The greatest noted key, if there is one.
#[tactic(auto, unfolding(crate::specs::Shows::answer_shown, crate::specs::Shows::reply_shown, crate::specs::Shows::shown_of, crate::specs::Shows::with_lent, heap::specs::Answers::seen_by, crate::specs::Shows::key_bits, crate::specs::Shows::is_key, map_store::specs::View::noted_of))]
pub fn noted(a: Result<Option<i64>, Refusal>) -> Shown
    ensures { result ≡ shown_of (noted_seen a) }
{
    match a {
        Ok(Some(k)) => Shown {
            word: words::bits_of(k),
            x: 1,
            ..NOTHING
        },
        Ok(None) => NOTHING,
        Err(q) => refused(q),
    }
}

// The key after it, or that there is none.
#[tactic(auto, unfolding(crate::specs::Shows::answer_shown, crate::specs::Shows::reply_shown, crate::specs::Shows::shown_of, crate::specs::Shows::with_lent, heap::specs::Answers::seen_by, crate::specs::Shows::key_bits, crate::specs::Shows::is_past, map_store::specs::View::next_is))]
pub fn next_int(a: Result<Option<i64>, Refusal>) -> Shown
    ensures { result ≡ shown_of (next_seen a) }
{
    match a {
        Ok(Some(k)) => k.show(),
        Ok(None) => Shown { x: 1, ..NOTHING },
        Err(q) => refused(q),
    }
}

// With the cursor that was lent, as the call left it.
#[tactic(auto, unfolding(crate::specs::Shows::with_lent, crate::specs::Shows::or_zero, map_store::specs::View::last_is))]
fn with_cursor(s: Shown, c: Cursor) -> Shown
    ensures { result ≡ with_lent (Replies.cursor_at (cursor_is c)) s }
{
    Shown {
        y: yielded(c.last),
        z: c.last.unwrap_or(0),
        u: c.pos as u64,
        v: c.epoch as u64,
        ..s
    }
}

// A step of the lent cursor c.
#[tactic(auto, unfolding(crate::specs::Shows::answer_shown, crate::specs::Shows::reply_shown, crate::specs::Shows::shown_of, crate::specs::Shows::with_lent, collections_maps::specs::Answers::step_seen, crate::specs::Shows::or_zero, crate::specs::Shows::yielded, map_store::specs::View::position))]
pub fn moved(c: Cursor, a: Result<Stepped, Refusal>) -> Shown
    ensures { result ≡ shown_of (step_seen (cursor_is c) a) }
{
    match a {
        Ok(s) => with_cursor(s.found.map(|p| p as u64).show(), s.cursor),
        Err(q) => with_cursor(refused(q), c),
    }
}

#[tactic(auto, unfolding(crate::specs::Shows::answer_shown, crate::specs::Shows::reply_shown, crate::specs::Shows::shown_of, crate::specs::Shows::with_lent, collector::specs::Answer::collection_is))]
pub fn collected(a: Result<Collection, Refusal>) -> Shown
    ensures { (places : List ℕ) → result ≡ shown_of (collection_is a places) }
{
    match a {
        Ok(c) => Shown {
            word: c.freed,
            x: c.listed,
            ..NOTHING
        },
        Err(q) => refused(q),
    }
}

// An integer's word, if it has one inline.
#[tactic(auto, unfolding(crate::specs::Shows::answer_shown, crate::specs::Shows::reply_shown, crate::specs::Shows::shown_of, crate::specs::Shows::with_lent, crate::specs::Shows::inline_shown, crate::specs::Shows::or_zero, crate::specs::Shows::yielded, map_store::specs::View::position))]
pub fn inline(a: Option<u64>) -> Shown
    ensures { result ≡ shown_of (Heaps.answered (Replies.inline a)) }
{
    a.show()
}

// With another call's word beside the answer.
pub fn with_second(s: Shown, x: u64) -> Shown
    ensures { result ≡ with_second x s }
{
    Shown { x, ..s }
}
