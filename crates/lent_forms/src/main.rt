// Document 01's lent forms, reached by a program: frames as a lent list of records, and a cursor that
// is lent and moved by `next`. Prints a new coroutine's frames as they are read back, then each step
// of the cursor over a map of three entries.
#![tactic(auto)]

ghost use Rattle.std.specs.Prelude.{◌≡◌};
ghost use Rattle.map_store.specs.View.{cursor_is};
ghost use Rattle.model.specs.Calls as Calls;
ghost use Rattle.heap.specs.Answers.{made_is};
ghost use Rattle.heap.specs.Good.{Good};
ghost use Rattle.heap.specs.Promise.{Performs, Reads};
ghost use Rattle.heap.specs.View.{held};
ghost use Rattle.heap_allocation.specs.Coroutines.{call_of};
ghost use Rattle.collections_maps.specs.Answers.{lent_seen};
ghost use Rattle.lent_forms.specs.Held.{Opened, held_in};

use heap::{Heap, HeapView, Refusal};
use heap_allocation::Coroutine;
use map_store::Cursor;
use model::{Frame, Weights};
use std::io;

// A heap of four slots and 64 cells over its buffers.
#[derive(Drop)]
struct Small {
    heap: Heap,
    slots: [u64; 32],
    scalars: [u64; 32],
    list: [u64; 4],
    directory: [u64; 8],
    cells: [u64; 64],
}

// ---- lines

fn print_refusal(rt: &impl Print, q: Refusal) -> io::Result<()> {
    println!(rt; "refused {}", u64::from(q))
}

// Function, counter, base, closure; or the refusal.
fn print_frame(rt: &impl Print, frame: Result<Frame, Refusal>) -> io::Result<()> {
    match frame {
        Err(q) => print_refusal(rt, q),
        Ok(f) => println!(rt;
            "frame {} {} {} {}",
            f.function, f.counter, f.base, f.closure
        ),
    }
}

// A step's answer, and the cursor: the sequence number yielded last, if any; position, epoch.
fn print_step(rt: &impl Print, answer: Result<Option<u64>, Refusal>, c: Cursor) -> io::Result<()> {
    match answer {
        Ok(Some(pos)) => print!(rt; "at {pos}")?,
        Ok(None) => print!(rt; "end")?,
        Err(q) => print!(rt; "refused {}", u64::from(q))?,
    }
    match c.last {
        None => println!(rt; " cursor never {} {}", c.pos, c.epoch),
        Some(n) => println!(rt; " cursor {} {} {}", n, c.pos, c.epoch),
    }
}

// ---- calls

fn two_frames() -> [Frame; 2] {
    let first = Frame {
        function: 7,
        counter: 40,
        base: 0,
        closure: 0,
    };
    let second = Frame {
        function: 9,
        counter: 12,
        base: 1,
        closure: 281474976710656,
    };
    [first, second]
}

// Document 01's weights for `callsheet`.
fn weights() -> Weights {
    Weights {
        slot: 64,
        entry: 40,
        iterator: 80,
        coroutine: 160,
        frame: 32,
    }
}

impl Small {
    fn open() -> Result<Small, Refusal>
        ensures { Opened result }
    {
        let slots = [0; 32];
        let scalars = [0; 32];
        let list = [0; 4];
        let directory = [0; 8];
        let cells = [0; 64];
        let heap = heap::open(
            4,
            4096,
            weights(),
            &[0],
            &mut [0; 514],
            &mut [0; 4],
            &mut [0; 8],
            &slots,
            &scalars,
            &list,
            &directory,
            &cells,
        )?;
        Ok(Small {
            heap,
            slots,
            scalars,
            list,
            directory,
            cells,
        })
    }

    // What the readings see.
    fn view(&self) -> HeapView<'_>
        requires { Good (held_in self.now) }
        ensures { held result ≡ held_in self.now }
    {
        HeapView {
            heap: self.heap,
            slots: &self.slots,
            scalars: &self.scalars,
            list: &self.list,
            directory: &self.directory,
            cells: &self.cells,
        }
    }

    // ---- the lent forms

    fn made_from(
        &mut self,
        k: Coroutine,
        registers: &[u64],
        frames: &[Frame],
    ) -> Result<u64, Refusal>
        requires { Good (held_in self.old) }
        ensures { Performs (call_of k registers.now frames.now) (held_in self.old) (made_is result) (held_in self.new) }
    {
        heap_allocation::new_coroutine(
            &mut self.heap,
            &mut self.slots,
            &mut self.scalars,
            &self.list,
            &mut self.directory,
            &mut self.cells,
            k,
            registers,
            frames,
        )
    }

    fn next_from(&self, w: u64, cursor: &mut Cursor) -> Result<Option<u64>, Refusal>
        requires { Good (held_in self.now) }
        ensures { Reads (Calls.next w (cursor_is cursor.old)) (held_in self.now) (lent_seen (cursor_is cursor.new) result) }
    {
        collections_maps::next(&self.view(), w, cursor)
    }

    // ---- what is printed

    // A coroutine's two frames; a third is not there.
    fn frames(&self, rt: &impl Print, w: u64) -> io::Result<()>
        requires { Good (held_in self.now) }
    {
        let view = self.view();
        for i in 0..3 {
            print_frame(rt, heap_access::readings::read_frame(&view, w, i))?;
        }
        Ok(())
    }

    // A coroutine of two frames.
    fn coroutine(&mut self, rt: &impl Print) -> io::Result<()>
        requires { Good (held_in self.old) }
        ensures { Good (held_in self.new) }
    {
        let k = Coroutine {
            state: 2,
            sequence: 1,
            payload: 0,
            key: 0,
            result: 0,
            signal: 0,
        };
        match self.made_from(k, &[0; 3], &two_frames()) {
            Err(q) => print_refusal(rt, q),
            Ok(w) => self.frames(rt, w),
        }
    }

    fn put(&mut self, rt: &impl Print, w: u64, hash: u64, key: u64, value: u64) -> io::Result<()>
        requires { Good (held_in self.old) }
        ensures { Good (held_in self.new) }
    {
        let done = collections_maps::changes::put(
            &mut self.heap,
            &mut self.slots,
            &mut self.scalars,
            &self.list,
            &mut self.directory,
            &mut self.cells,
            w,
            hash,
            key,
            value,
        );
        match done {
            Err(q) => print_refusal(rt, q),
            Ok(()) => Ok(()),
        }
    }

    // Three entries: keys 5, 3 and 9.
    fn filled(&mut self, rt: &impl Print, w: u64) -> io::Result<()>
        requires { Good (held_in self.old) }
        ensures { Good (held_in self.new) }
    {
        self.put(rt, w, 11, 0xFFFE000000000005, 1)?;
        self.put(rt, w, 12, 0xFFFE000000000003, 2)?;
        self.put(rt, w, 13, 0xFFFE000000000009, 3)
    }

    // The cursor over a map, to the end and once more.
    fn steps(&self, rt: &impl Print, w: u64) -> io::Result<()>
        requires { Good (held_in self.now) }
    {
        let mut cursor = Cursor {
            last: None,
            pos: 0,
            epoch: 0,
        };
        for _ in 0..5 {
            let answer = self.next_from(w, &mut cursor);
            print_step(rt, answer, cursor)?;
        }
        Ok(())
    }

    fn map(&mut self, rt: &impl Print) -> io::Result<()>
        requires { Good (held_in self.old) }
    {
        let made = collections_maps::changes::new_map(
            &mut self.heap,
            &mut self.slots,
            &mut self.scalars,
            &self.list,
            &self.directory,
            &self.cells,
            0,
            0,
        );
        match made {
            Err(q) => print_refusal(rt, q),
            Ok(w) => {
                self.filled(rt, w)?;
                self.steps(rt, w)
            },
        }
    }
}

fn main(rt: HostRuntime) -> io::Result<()> {
    match Small::open() {
        Err(q) => print_refusal(&rt, q),
        Ok(mut small) => {
            small.coroutine(&rt)?;
            small.map(&rt)
        },
    }
}
