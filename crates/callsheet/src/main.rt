// Document 01's program `callsheet`: reads the first 65,536 bytes of standard input, and prints a
// line for each command.
#![tactic(auto)]

use std::io;

fn main(rt: HostRuntime) -> io::Result<()> {
    let mut input = [0u8; 65536];
    let n = streams::read_full(&mut rt.stdin(), &mut input)?;
    let mut out = sheet::text_buffer();
    match sheet::run(&input[..n], &mut out) {
        Some(end) => rt.write_all(&out[..end]),
        None => Ok(()),
    }
}
