// A collection (document 01, "Kept set"): what the roots do not reach is freed.
#![tactic(auto)]

ghost use Rattle.std.specs.Prelude.{◌≡◌, ◌+◌, ◌*◌, ◌≤◌, ◌<◌, length};
ghost use Rattle.heap_slots.specs.Header.{header_at, scalars_at};
ghost use Rattle.heap_slots.specs.Limits.{GENERATIONS, HasSlot};
ghost use Rattle.layout.specs.Sections.{layout_of};
ghost use Rattle.model.specs.Calls as Calls;
ghost use Rattle.heap.specs.State.{state};
ghost use Rattle.heap.specs.Good.{Good, Rested, WeightsGood, coroutines_in};
ghost use Rattle.heap.specs.Promise.{Does};
ghost use Rattle.collector_marking.specs.Marks.{Sound};
ghost use Rattle.collector_finalizing.specs.Dropped.{dropped_words, marks_kept, Blanks};
ghost use Rattle.collector.specs.Answer.{collection_is};
ghost use Rattle.collector.specs.Sweep.{empty_header, frames_at, weight_at, Weighable, Looked, Lookable, Swept, Sweepable};
ghost use Rattle.collector.specs.Ending.{buffers, Ends};

use heap::{Heap, Refusal};
use heap_slots::limits::{GENERATIONS, HALF, LAST_GENERATION};
use heap_slots::{CoroutineScalars, Header, kinds};
use layout::ReadLayout;
use model::Weights;

// Objects freed and coroutines listed.
#[derive(Clone, Copy, Debug, PartialEq, Eq)]
pub struct Collection {
    pub freed: u64,
    pub listed: u64,
}

// The free list's length, the slots freed, and of what is kept the weight, the cells, the number and
// the number of coroutines.
#[derive(Clone, Copy, Debug, PartialEq, Eq)]
pub struct Tally {
    pub free: u64,
    pub freed: u64,
    pub weight: u64,
    pub taken: u64,
    pub present: u64,
    pub coroutines: u64,
}

// What the object in slot i weighs.
#[tactic(auto, using(std::proofs::lemmas::Bool::Decides::nat_tests), unfolding(crate::specs::Sweep::bytes_at))]
fn weigh(h: Header, scalars: &[u64], i: usize, w: Weights) -> u64
    requires has_slot { HasSlot scalars.now i }
    requires weighable { Weighable h (frames_at scalars.now i) }
    requires weights_good { WeightsGood w }
    ensures { result ≡ weight_at w h (frames_at scalars.now i) }
{
    let kind = h.kind;
    // A kind is a word of a slot: its weight is a row here.
    match kind {
        kinds::STRING => w.slot + h.len,
        kinds::ARRAY => w.slot + 8 * h.size,
        kinds::MAP => w.slot + (w.entry * h.value + 4 * h.mode),
        kinds::STRUCT => w.slot + 8 * h.len,
        kinds::FUNCTION => w.slot + 8 * h.len,
        kinds::ITERATOR => w.slot + w.iterator,
        kinds::COROUTINE => {
            let x: CoroutineScalars = heap_slots::read_part(scalars, i);
            w.slot + (w.coroutine + 8 * h.len + w.frame * x.frames)
        },
        _ => w.slot,
    }
}

// The header of a slot without an object, whose next one has this generation.
fn empty(h: Header, generation: u64) -> Header
    requires { generation ≤ GENERATIONS }
    ensures { result ≡ empty_header h generation }
{
    h.emptied(HALF + generation)
}

// Slot i: a marked object is weighed, another is freed. Its generation grows by 1 and it is listed
// as free, but for the last generation.
fn sweep_slot(
    i: usize,
    slots: &mut [u64],
    scalars: &[u64],
    list: &mut [u64],
    marks: &[u8],
    w: Weights,
    t: Tally,
) -> Tally
    requires { Lookable slots.old scalars.now list.old marks.now i w t }
    ensures { Looked slots.old scalars.now list.old marks.now i w t slots.new list.new result }
{
    let h = heap_slots::read_header(slots, i);
    if h.kind == kinds::NONE {
        return t;
    }
    if marks[i] != 0 {
        let weight = weigh(h, scalars, i, w);
        let coroutine = heap::placing::coroutine_of(h.kind);
        return Tally {
            weight: t.weight + weight,
            taken: t.taken + h.size,
            present: t.present + 1,
            coroutines: t.coroutines + coroutine,
            ..t
        };
    }
    let generation = h.half % GENERATIONS;
    if generation == LAST_GENERATION {
        heap_slots::write_header(slots, i, empty(h, generation));
        return Tally {
            freed: t.freed + 1,
            ..t
        };
    }
    heap_slots::write_header(slots, i, empty(h, generation + 1));
    let top = t.free as usize;
    list[top] = i as u64;
    Tally {
        free: t.free + 1,
        freed: t.freed + 1,
        ..t
    }
}

// All slots, from low to high.
fn sweep(
    fresh: usize,
    free: u64,
    slots: &mut [u64],
    scalars: &[u64],
    list: &mut [u64],
    marks: &[u8],
    w: Weights,
) -> Tally
    requires { Sweepable fresh w slots.old scalars.now list.old marks.now free }
    ensures { Swept fresh w slots.old scalars.now list.old marks.now free fresh slots.new list.new result }
{
    let mut t = Tally {
        free,
        freed: 0,
        weight: 0,
        taken: 0,
        present: 0,
        coroutines: 0,
    };
    for i in 0..fresh {
        t = sweep_slot(i, slots, scalars, list, marks, w, t);
    }
    t
}

// What the sweep counted, and the number of coroutines listed.
#[derive(Clone, Copy, Debug, PartialEq, Eq)]
pub struct Ending {
    pub tally: Tally,
    pub listed: usize,
}

// Marks what is kept, lists and finalizes F, frees the others, and undoes the marks. Of the heap's
// record it takes what its clauses name.
fn collect_slots(
    fresh: usize,
    free: u64,
    coroutines: u64,
    w: Weights,
    slots: &mut [u64],
    scalars: &mut [u64],
    list: &mut [u64],
    cells: &[u64],
    layout: ReadLayout<'_>,
    marks: &mut [u8],
    order: &mut [u32],
    roots: &[u64],
    places: &mut [u64],
) -> Result<Ending, Refusal>
    requires sound { Sound slots.old scalars.old cells.now fresh }
    requires blanks { Blanks fresh marks.old order.old }
    requires sweepable { Sweepable fresh w slots.old scalars.old list.old marks.old free }
    requires coroutines_value { coroutines ≡ coroutines_in slots.old fresh }
    ensures { Ends result fresh w free
        (dropped_words (layout_of layout.entry.bytes.now) slots.old scalars.old cells.now fresh roots.now)
        (marks_kept (layout_of layout.entry.bytes.now) slots.old scalars.old cells.now fresh roots.now)
        (buffers slots.old scalars.old list.old marks.old order.old places.old)
        (buffers slots.new scalars.new list.new marks.new order.new places.new) }
{
    let kept = collector_finalizing::mark_kept(
        roots, slots, scalars, cells, layout, fresh, coroutines, marks, order, places,
    )?;
    let listed = kept.listed;
    collector_finalizing::finalize(&places[..listed], scalars);
    let tally = sweep(fresh, free, slots, scalars, list, marks, w);
    collector_marking::unmark(marks, order, kept.marked);
    Ok(Ending { tally, listed })
}

// A collection: R is what the roots reach, F the waiting coroutines outside R, and what R and F
// reach is kept. F is finalized and listed in the first places; the other objects are freed. The
// marks and the order are at rest before and after; a refusal leaves every buffer as it was.
pub fn collect(
    heap: &mut Heap,
    slots: &mut [u64],
    scalars: &mut [u64],
    list: &mut [u64],
    directory: &[u64],
    cells: &[u64],
    layout: ReadLayout<'_>,
    marks: &mut [u8],
    order: &mut [u32],
    roots: &[u64],
    places: &mut [u64],
) -> Result<Collection, Refusal>
    requires good { Good (state heap.old slots.old scalars.old list.old directory.now cells.now) }
    requires rested { Rested heap.old.size marks.old order.old }
    ensures does { Does (layout_of layout.entry.bytes.now) (Calls.collect roots.now places.old)
        (state heap.old slots.old scalars.old list.old directory.now cells.now)
        (collection_is result places.new)
        (state heap.new slots.new scalars.new list.new directory.now cells.now) }
    ensures marks_unchanged { marks.new ≡ marks.old }
    ensures order_unchanged { order.new ≡ order.old }
{
    let fresh = heap.fresh as usize;
    let Ending { tally, listed } = collect_slots(
        fresh,
        heap.free,
        heap.coroutines,
        heap.weights,
        slots,
        scalars,
        list,
        cells,
        layout,
        &mut marks[..fresh],
        order,
        roots,
        places,
    )?;
    *heap = Heap {
        account: heap.account.after_sweep(tally.weight),
        free: tally.free,
        taken: tally.taken,
        present: tally.present,
        coroutines: tally.coroutines,
        collections: heap.collections.saturating_add(1),
        freed: heap.freed.saturating_add(tally.freed),
        ..*heap
    };
    Ok(Collection {
        freed: tally.freed,
        listed: listed as u64,
    })
}
