// The heap: its record, what its calls answer, and the calls on the whole heap. What other crates
// build their calls on stands apart: `lookup`, `placing`; so does opening.
#![tactic(auto)]

pub mod lookup;
pub mod opening;
pub mod placing;
pub mod view;

ghost use Rattle.std.specs.Prelude.{◌≡◌};
ghost use Rattle.heap_slots.specs.declared.Miss.{Miss};
ghost use Rattle.model.specs.Calls as Calls;
ghost use Rattle.model.specs.Replies.{nothing, number, truth};
ghost use Rattle.heap.specs.Answers.{answered, done_is, kind_number, missing, number_of};
ghost use Rattle.heap.specs.declared.Refusal.TheVariants as No;
ghost use Rattle.heap.specs.Charging.{ZeroCharge};
ghost use Rattle.heap.specs.Locating.{RowOrDead};
ghost use Rattle.heap.specs.State.{state};
ghost use Rattle.heap.specs.Good.{Good};
ghost use Rattle.heap.specs.Promise.{Performs, Reads};
ghost use Rattle.heap.specs.View.{held};

use account::{Account, OverBudget};
use heap_slots::{Miss, kinds};
use layout::BadLayout;
use model::Weights;
pub use opening::open;
pub use view::HeapView;
use words::Raw;

// size: slots; fresh: slots ever used; free: length of the free list; top: regions of the cells lie
// below it; entries: length of the directory; taken: cells in use; present: objects present;
// coroutines: those of them that are coroutines.
#[derive(Clone, Copy, Debug, PartialEq, Eq)]
pub struct Heap {
    pub account: Account,
    pub weights: Weights,
    pub size: u64,
    pub fresh: u64,
    pub free: u64,
    pub top: u64,
    pub entries: u64,
    pub taken: u64,
    pub present: u64,
    pub coroutines: u64,
    pub collections: u64,
    pub freed: u64,
}

// Document 01, "Who can be turned back", by its numbers; document 02, (i): DeadReference.
#[derive(Clone, Copy, Debug, PartialEq, Eq)]
pub enum Refusal {
    NilTarget = 1,
    OtherKind = 2,
    Outside = 3,
    BadType = 4,
    OverBudget = 5,
    NoSlot = 6,
    NoCells = 7,
    TooShort = 8,
    Spent = 9,
    BadOpening = 10,
    DeadReference = 11,
}

impl From<Refusal> for u64 {
    ghost from_gives = { λ q n. n ≡ number_of q };

    #[tactic(auto, unfolding(crate::specs::Answers::number_of))]
    fn from(q: Refusal) -> Self {
        q as u64
    }
}

impl From<OverBudget> for Refusal {
    ghost from_gives = { λ _ q. q ≡ No.OverBudget };

    fn from(_: OverBudget) -> Self {
        Refusal::OverBudget
    }
}

impl From<BadLayout> for Refusal {
    ghost from_gives = { λ _ q. q ≡ No.BadOpening };

    fn from(_: BadLayout) -> Self {
        Refusal::BadOpening
    }
}

// A word that reaches no object.
impl From<Miss> for Refusal {
    ghost from_gives = { λ m q. q ≡ missing m };

    #[tactic(auto, unfolding(crate::specs::Answers::missing))]
    fn from(m: Miss) -> Self {
        match m {
            Miss::Nil => Refusal::NilTarget,
            Miss::Dead => Refusal::DeadReference,
            Miss::Wrong => Refusal::OtherKind,
        }
    }
}

// `kind` of heap.rs, by its numbers; document 02, (i): Dead.
#[derive(Clone, Copy, Debug, PartialEq, Eq)]
pub enum Kind {
    Nil = 0,
    String = 1,
    Integer = 2,
    Cell = 3,
    Error = 4,
    Box = 5,
    Array = 6,
    Map = 7,
    Struct = 8,
    Function = 9,
    Iterator = 10,
    Coroutine = 11,
    Truth = 12,
    Float = 13,
    Character = 14,
    Dead = 15,
}

impl From<Kind> for u64 {
    ghost from_gives = { λ k n. n ≡ kind_number k };

    #[tactic(auto, unfolding(crate::specs::Answers::kind_number))]
    fn from(k: Kind) -> Self {
        k as u64
    }
}

// The row of the object that a word reaches; 15 for a dead reference, 0 for any other word.
pub fn get(view: &HeapView<'_>, w: u64) -> u64
    ensures { Reads (Calls.get w) (held view.now) (answered (number result)) }
{
    lookup::row_at(view.slots, view.heap.fresh, w)
}

// A word seen through a box: one that reaches nothing gives nil.
pub fn deref(view: &HeapView<'_>, w: u64) -> u64
    ensures { Reads (Calls.deref_word w) (held view.now) (answered (number result)) }
{
    if !words::is_box(w) {
        return w;
    }
    match lookup::locate(view.slots, view.heap.fresh, w, kinds::BOX) {
        Ok(i) => heap_slots::read_header(view.slots, i).value,
        Err(_) => words::NIL,
    }
}

// The kind of what `row_at` answers.
fn kind_at(row: u64) -> Kind
    requires { RowOrDead row }
    ensures { kind_number result ≡ row }
{
    // A kind is a word of a slot here, and an enum from here on.
    match row {
        kinds::STRING => Kind::String,
        kinds::INTEGER => Kind::Integer,
        kinds::CELL => Kind::Cell,
        kinds::ERROR => Kind::Error,
        kinds::BOX => Kind::Box,
        kinds::ARRAY => Kind::Array,
        kinds::MAP => Kind::Map,
        kinds::STRUCT => Kind::Struct,
        kinds::FUNCTION => Kind::Function,
        kinds::ITERATOR => Kind::Iterator,
        kinds::COROUTINE => Kind::Coroutine,
        kinds::DEAD => Kind::Dead,
        _ => Kind::Nil,
    }
}

// `kind` of heap.rs, with a kind of its own for a dead reference.
pub fn kind_of(view: &HeapView<'_>, w: u64) -> Kind
    ensures { Reads (Calls.kind_of_word w) (held view.now) (answered (number (kind_number result))) }
{
    match words::decode(w) {
        Raw::Nil => Kind::Nil,
        Raw::Bool(b) => Kind::Truth,
        Raw::Int(z) => Kind::Integer,
        Raw::Float(x) => Kind::Float,
        Raw::Char(c) => Kind::Character,
        Raw::Ref(slot, tag) => kind_at(lookup::row_at(view.slots, view.heap.fresh, w)),
    }
}

// A charge of `bytes`, without an object.
pub fn charge(
    heap: &mut Heap,
    slots: &[u64],
    scalars: &[u64],
    list: &[u64],
    directory: &[u64],
    cells: &[u64],
    bytes: u64,
) -> Result<(), Refusal>
    requires { Good (state heap.old slots.now scalars.now list.now directory.now cells.now) }
    ensures { Performs (Calls.charge bytes) (state heap.old slots.now scalars.now list.now directory.now cells.now) (done_is result) (state heap.new slots.now scalars.now list.now directory.now cells.now) }
{
    heap.account = heap.account.charge(bytes)?;
    Ok(())
}

// "Zero bytes is a charge too": refused where used exceeds the limit, and it changes nothing.
pub fn zero_fits(account: Account) -> bool
    ensures { ZeroCharge account result }
{
    account.used <= account.limit
}

// Whether a charge of `bytes` would be accepted.
pub fn fits(view: &HeapView<'_>, bytes: u64) -> bool
    ensures { Reads (Calls.fits_bytes bytes) (held view.now) (answered (truth result)) }
{
    view.heap.account.allows(bytes)
}

// Whether a collection is due before `extra` bytes more.
pub fn wants_gc(view: &HeapView<'_>, extra: u64) -> bool
    ensures { Reads (Calls.wants_gc extra) (held view.now) (answered (truth result)) }
{
    view.heap.account.wants_gc(extra)
}

// How many collections there have been.
pub fn collection_count(view: &HeapView<'_>) -> u64
    ensures { Reads Calls.collection_count (held view.now) (answered (number result)) }
{
    view.heap.collections
}

// How many objects the collections have freed.
pub fn freed_count(view: &HeapView<'_>) -> u64
    ensures { Reads Calls.freed_count (held view.now) (answered (number result)) }
{
    view.heap.freed
}

// The bytes charged and not freed.
pub fn used_bytes(view: &HeapView<'_>) -> u64
    ensures { Reads Calls.used_bytes (held view.now) (answered (number result)) }
{
    view.heap.account.used
}

// How many objects are present.
pub fn present_count(view: &HeapView<'_>) -> u64
    ensures { Reads Calls.present_count (held view.now) (answered (number result)) }
{
    view.heap.present
}

// The cells of the objects present.
pub fn cells_in_use(view: &HeapView<'_>) -> u64
    ensures { Reads Calls.cells_in_use (held view.now) (answered (number result)) }
{
    view.heap.taken
}
