// Reading and writing, over any reader and writer.
#![tactic(auto)]

ghost use Rattle.std.specs.Prelude.{◌≤◌, ◌<◌, ◌≡◌, length, take, IfOk, OnOk};
ghost use Rattle.std.specs.Io.KnownBytes.{Appends, Consumes, IsAtEnd, ReadConsumes};

use std::io;
use std::io::{Read, Write};

// Writes all of the bytes. Where that fails, some of them may have been taken.
pub fn write_whole<W: Write>(writer: &mut W, bytes: &[u8]) -> io::Result<()>
    ensures { OnOk result (Appends (W.contents writer.old) (W.contents writer.new) bytes.now) }
{
    writer.write_all(bytes)
}

// Reads once, to the buffer's front. No bytes come at the input's end; a read that fails brings nothing.
pub fn read_some<R: Read>(reader: &mut R, buf: &mut [u8]) -> io::Result<usize>
    ensures within { IfOk result (λ count. count ≤ length buf.new) }
    ensures reads { ReadConsumes (R.remaining reader.old) (R.remaining reader.new) result buf.new }
{
    reader.read(buf)
}

// Reads until the buffer is full, the input ends or reading fails, and returns how many bytes came, and whether reading failed.
pub fn read_full<R: Read>(reader: &mut R, buf: &mut [u8]) -> (usize, io::Result<()>)
    ensures within { result.0 ≤ length buf.new }
    ensures reads { Consumes (R.remaining reader.old) (R.remaining reader.new) (take result.0 buf.new) }
    ensures ends { OnOk result.1 (result.0 < length buf.new → IsAtEnd (R.remaining reader.new)) }
{
    let mut done = 0;
    // A read brings what it brings, so that no range counts them.
    while done < buf.len() {
        match read_some(reader, &mut buf[done..]) {
            Ok(0) => return (done, Ok(())),
            Ok(count) => done += count,
            Err(error) => return (done, Err(error)),
        }
    }
    (done, Ok(()))
}

#[cfg(test)]
mod tests {
    use super::*;
    use std::io::ErrorKind;
    use std::test::Fail;

    // Gives or takes a byte at a time, so often, and fails then.
    #[derive(Drop)]
    struct Failing {
        left: usize,
    }

    impl Read for Failing {
        fn read(&mut self, buf: &mut [u8]) -> io::Result<usize> {
            if self.left == 0 || buf.is_empty() {
                return Err(io::Error::from(ErrorKind::Other));
            }
            self.left -= 1;
            buf[0] = b'x';
            Ok(1)
        }
    }

    impl Write for Failing {
        fn write(&mut self, buf: &[u8]) -> io::Result<usize> {
            if self.left == 0 || buf.is_empty() {
                return Err(io::Error::from(ErrorKind::Other));
            }
            self.left -= 1;
            Ok(1)
        }

        fn flush(&mut self) -> io::Result<()> {
            Ok(())
        }
    }

    #[test]
    fn reads_to_the_end(rt: HostRuntime) -> Result<(), Fail> {
        let mut reader: &[u8] = b"abc";
        let mut buf = [0u8; 5];
        let (count, ended) = read_full(&mut reader, &mut buf);
        assert_eq!(rt; count, 3);
        assert!(rt; ended.is_ok());
        assert_eq!(rt; &buf[..], b"abc\0\0".as_slice());
        assert_eq!(rt; read_some(&mut reader, &mut buf).ok(), Some(0));
        Ok(())
    }

    #[test]
    fn a_read_that_fails_brings_nothing(rt: HostRuntime) -> Result<(), Fail> {
        let mut reader = Failing { left: 2 };
        let mut buf = [0u8; 5];
        let (count, ended) = read_full(&mut reader, &mut buf);
        assert_eq!(rt; count, 2);
        assert!(rt; ended.is_err());
        assert_eq!(rt; &buf[..], b"xx\0\0\0".as_slice());
        assert!(rt; read_some(&mut reader, &mut buf).is_err());
        Ok(())
    }

    #[test]
    fn writes_all(rt: HostRuntime) -> Result<(), Fail> {
        let mut text = Vec::new(rt.alloc());
        assert!(rt; write_whole(&mut text, b"ab").is_ok());
        assert!(rt; write_whole(&mut text, b"c").is_ok());
        assert_eq!(rt; text.as_slice(), b"abc".as_slice());
        Ok(())
    }

    #[test]
    fn a_write_that_fails_is_told(rt: HostRuntime) -> Result<(), Fail> {
        let mut writer = Failing { left: 3 };
        assert!(rt; write_whole(&mut writer, b"ab").is_ok());
        assert!(rt; write_whole(&mut writer, b"ab").is_err());
        Ok(())
    }
}
