// Reading a stream into a buffer of fixed size.
#![tactic(auto)]

ghost use Rattle.std.specs.Prelude.{IfOk, ◌<◌, length, take};
ghost use Rattle.std.specs.Io.{ReadsAtMost};
ghost use Rattle.std.specs.Io.KnownBytes.{Consumes, IsAtEnd};

use std::io::{Read, Result};

// Reads until the buffer is full or the input ends, and answers how many bytes stand at the buffer's
// start. A read that fails ends it with that error.
pub fn read_full<R: Read>(reader: &mut R, buf: &mut [u8]) -> Result<usize>
    ensures bound { ReadsAtMost result buf.new }
    ensures bytes { IfOk result (λ n. Consumes (R.remaining reader.old) (R.remaining reader.new) (take n buf.new)) }
    ensures end { IfOk result (λ n. n < length buf.new → IsAtEnd (R.remaining reader.new)) }
{
    let mut filled = 0;
    // How much a read gives is known when it is done.
    while filled < buf.len() {
        let n = reader.read(&mut buf[filled..])?;
        if n == 0 {
            break;
        }
        filled += n;
    }
    Ok(filled)
}

#[cfg(test)]
mod tests {
    use super::read_full;
    use std::io::{Error, ErrorKind, Read, Result};

    // Gives one byte a call, and fails once it has given two.
    #[derive(Drop)]
    struct Failing {
        given: u8,
    }

    impl Read for Failing {
        fn read(&mut self, buf: &mut [u8]) -> Result<usize> {
            if self.given >= 2 {
                return Err(Error::from(ErrorKind::BrokenPipe));
            }
            if buf.is_empty() {
                return Ok(0);
            }
            self.given += 1;
            buf[0] = self.given;
            Ok(1)
        }
    }

    #[test]
    fn fills_the_buffer(rt: HostRuntime) {
        let mut buf = [0u8; 2];
        let mut input: &[u8] = b"abc";
        assert_eq!(rt; read_full(&mut input, &mut buf).ok(), Some(2));
        assert_eq!(rt; buf, *b"ab");
        assert_eq!(rt; input, b"c".as_slice());
    }

    #[test]
    fn stops_at_the_end(rt: HostRuntime) {
        let mut buf = [0u8; 4];
        let mut input: &[u8] = b"abc";
        assert_eq!(rt; read_full(&mut input, &mut buf).ok(), Some(3));
        assert_eq!(rt; buf, *b"abc\0");
    }

    #[test]
    fn joins_short_reads(rt: HostRuntime) {
        let mut buf = [0u8; 2];
        assert_eq!(rt;
            read_full(&mut Failing { given: 0 }, &mut buf).ok(),
            Some(2)
        );
        assert_eq!(rt; buf, [1, 2]);
    }

    #[test]
    fn passes_an_error_on(rt: HostRuntime) {
        let mut buf = [0u8; 3];
        assert!(rt; read_full(&mut Failing { given: 0 }, &mut buf).is_err());
    }
}
