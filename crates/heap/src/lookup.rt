// The slot or the row of the object that a word reaches, for the calls.
ghost use Rattle.heap_slots.specs.Limits.{HasSlots};
ghost use Rattle.heap.specs.Locating.{Locates, Ranks};

use crate::Refusal;
use heap_slots::{Miss, kinds};

// The slot of the object of this kind that a word reaches; else 1, 11 or 2.
pub fn locate(slots: &[u64], fresh: u64, w: u64, kind: u64) -> Result<usize, Refusal>
    requires { HasSlots slots.now fresh }
    ensures { Locates slots.now fresh w kind result }
{
    let i = heap_slots::find(slots, fresh, w)?;
    if heap_slots::read_header(slots, i).kind == kind {
        Ok(i)
    } else {
        Err(Refusal::OtherKind)
    }
}

// The row of the object that a word reaches; DEAD for a dead reference, else NONE. A number, as `get`
// answers it; `kind_at` makes it an enum.
pub fn row_at(slots: &[u64], fresh: u64, w: u64) -> u64
    requires { HasSlots slots.now fresh }
    ensures { Ranks slots.now fresh w result }
{
    match heap_slots::find(slots, fresh, w) {
        Ok(i) => heap_slots::read_header(slots, i).kind,
        Err(Miss::Dead) => kinds::DEAD,
        Err(Miss::Nil) => kinds::NONE,
        Err(Miss::Wrong) => kinds::NONE,
    }
}
