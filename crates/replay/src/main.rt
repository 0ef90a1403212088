// Reads a script from standard input, up to 1 MiB (what is longer is cut), and prints a line for
// each command.
#![tactic(auto)]

ghost use Rattle.std.specs.Prelude.{◌≡◌, ◌≤◌, IfOk, length};
ghost use Rattle.script.specs.Turns.{SessionReady, lent_in};

use script::{Lent, Session};
use std::io;
use std::io::Read;

// Zeros. The `ensures` gives only the length, which lending needs.
fn script_buffer() -> [u8; 1048577]
    ensures { 1048577 ≡ length result }
{
    [0; 1048577]
}

fn line_buffer() -> [u8; 1114279]
    ensures { 1114279 ≡ length result }
{
    [0; 1114279]
}

fn play(rt: &impl Print, mut session: Session, lent: &mut Lent<'_>, input: &[u8]) -> io::Result<()>
    requires { SessionReady input.now (lent_in lent.old) session }
{
    // How far a run goes is known when it is done.
    while session.at < input.len() {
        session.run(lent, input);
        let out: &[u8] = &mut *lent.out;
        rt.write_all(&out[..session.end])?;
    }
    Ok(())
}

fn run(rt: &impl Print, input: &[u8]) -> io::Result<()> {
    let mut slots = [0u64; 8192];
    let mut scalars = [0u64; 8192];
    let mut list = [0u64; 1024];
    let mut directory = [0u64; 2048];
    let mut cells = [0u64; 65536];
    let mut marks = [0u8; 1024];
    let mut order = [0u32; 2048];
    let mut table = [0u64; 514];
    let mut roots = [0u64; 64];
    let mut words = [0u64; 131073];
    let mut bytes = script_buffer();
    let mut places = [0u64; 65536];
    let mut out = line_buffer();
    let started = script::start(
        &slots, &scalars, &list, &directory, &cells, &mut marks, &mut order, &mut table, &roots,
        &words, &bytes, &places, &out, input,
    );
    let Ok(session) = started else {
        return Ok(());
    };
    let mut lent = Lent {
        slots: &mut slots,
        scalars: &mut scalars,
        list: &mut list,
        directory: &mut directory,
        cells: &mut cells,
        marks: &mut marks,
        order: &mut order,
        table: &mut table,
        roots: &mut roots,
        words: &mut words,
        bytes: &mut bytes,
        places: &mut places,
        out: &mut out,
    };
    play(rt, session, &mut lent, input)
}

// The layout 00 stands before the script.
fn read_script<R: Read>(reader: &mut R, input: &mut [u8]) -> io::Result<usize>
    requires { 1 ≤ length input.old }
    ensures { IfOk result (λ n. (1 ≤ n) × (n ≤ length input.new)) }
{
    let n = streams::read_full(reader, &mut input[1..])?;
    Ok(n + 1)
}

fn main(rt: HostRuntime) -> io::Result<()> {
    let mut input = script_buffer();
    let e = read_script(&mut rt.stdin(), &mut input)?;
    run(&rt, &input[..e])
}
