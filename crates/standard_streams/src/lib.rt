// What the programs that go from standard input to standard output have in common: bytes taken in and handed out, and
// what is told on standard error: a refusal, a read that failed, a write that failed. `input` and `output`
// name the program and the stream. The one error that is answered is of the stream on which it is told, and leaves there
// what was told before it; a buffer is left as it was read into.
#![tactic(auto)]

ghost use Rattle.std.specs.Prelude.{◌≡◌, ◌≤◌, length, IfOk, IfSome};

use fields::{Fault, Part};
use std::fmt::{Display, Formatter};
use std::io::{Cursor, Read, Write};
use std::{fmt, io};
use writer_reply::Written;

// Reads until `buf` is full, the input ends or a read fails, and answers how many bytes it put at the start of `buf`.
pub fn read_full<R: Read>(from: &mut R, buf: &mut [u8]) -> usize
    ensures { result ≤ length buf.new }
{
    let mut done = 0;
    // A loop by hand: std's read_exact answers no count where the input ends before it. And not replay_telling's, which
    // hands out the error of a failed read: here that ends the input.
    while done < buf.len() {
        match from.read(&mut buf[done..]) {
            Ok(n) if n > 0 => done += n,
            _ => break,
        }
    }
    done
}

// How many bytes of an input were put at the start of `buf`: all of it, or as much as there is room for. None where
// a read failed, which is told. A count and no slice of `buf`: the clause is on the count.
pub fn take_input<R: Read, E: Write>(
    from: &mut R,
    err: &mut E,
    buf: &mut [u8],
    input: &[u8],
) -> io::Result<Option<usize>>
    ensures { IfOk result (λ taken. IfSome taken (λ n. n ≤ length buf.new)) }
{
    let n = read_full(from, buf);
    if n < buf.len() {
        let got = from.read(&mut [0u8; 1]);
        if !matches!(got, Ok(0)) {
            tell_unread(err, got, input)?;
            return Ok(None);
        }
    }
    Ok(Some(n))
}

// Why an input that gave fewer bytes than it was asked for had not ended, by what one more read answered.
// `read_full` answers a short count both where the input ends and where a read fails. Asked once more, an
// input that has ended answers 0, and one whose read failed either fails again or goes on.
pub fn tell_unread<E: Write>(err: &mut E, got: io::Result<usize>, input: &[u8]) -> io::Result<()>
    ensures { IfOk result (λ done. done ≡ tt) }
{
    match got {
        Err(why) => tell_failed(err, input, why),
        Ok(_) => {
            err.write_all(input)?;
            err.write_all(b": a read failed before its end\n")
        }
    }
}

// The system's own words, without the number that std puts behind them.
fn without_number(text: &[u8]) -> &[u8] {
    let number = b" (os error ".as_slice();
    let at = text.windows(number.len()).position(|w| w == number);
    at.map_or(text, |at| &text[..at])
}

// An error in the system's own words.
#[derive(Drop)]
pub struct Said(pub io::Error);

impl Display for Said {
    fn fmt<W: fmt::Write>(&self, f: &mut Formatter<W>) -> fmt::Result {
        // What there is no room for is left out.
        let mut words = Cursor::new([0u8; 128]);
        let _ = write!(words, "{}", self.0);
        let said = Part {
            start: 0,
            length: words.position() as usize,
        };
        let all = words.into_inner();
        let text = without_number(fields::view(&all, said));
        f.write_str(str::from_utf8(text).unwrap_or(""))
    }
}

// What failed, as the caller names it, and why.
fn tell_failed<E: Write>(err: &mut E, what: &[u8], why: io::Error) -> io::Result<()> {
    err.write_all(what)?;
    writeln!(err, ": {}", Said(why))
}

// A refusal by its number, its count and its place.
pub fn tell_refused<E: Write>(err: &mut E, f: Fault) -> io::Result<()>
    ensures { IfOk result (λ done. done ≡ tt) }
{
    let number = f.why.number();
    let count = f.why.count();
    let at = f.at;
    writeln!(err, "refused {number} {count} {at}")
}

// What was written at the start of a buffer goes to standard output; a refusal is told, and so is a write that failed.
// The length and the buffer are two, as the writers answer them: hand_out_determined is stated so.
pub fn hand_out<O: Write, E: Write>(
    out: &mut O,
    err: &mut E,
    written: Written,
    buffer: &[u8],
    output: &[u8],
) -> io::Result<()>
    ensures { IfOk result (λ done. done ≡ tt) }
{
    match written {
        Err(f) => tell_refused(err, f),
        Ok(length) => {
            let whole = Part { start: 0, length };
            out.write_all(fields::view(buffer, whole))
                .or_else(|why| tell_failed(err, output, why))
        }
    }
}

#[cfg(test)]
mod tests {
    use super::*;
    use fields::Refusal;
    use std::test::Fail;

    // An input of so many bytes, given two at a time, after which its reads fail so many times before it ends.
    #[derive(Drop)]
    struct Input {
        bytes: usize,
        failures: usize,
    }

    impl Read for Input {
        fn read(&mut self, buf: &mut [u8]) -> io::Result<usize> {
            let n = self.bytes.min(buf.len()).min(2);
            self.bytes -= n;
            if n == 0 && self.failures > 0 {
                self.failures -= 1;
                return Err(io::Error::other("gone"));
            }
            Ok(n)
        }
    }

    // An output that takes nothing.
    #[derive(Drop)]
    struct Full;

    impl Write for Full {
        fn write(&mut self, _buf: &[u8]) -> io::Result<usize> {
            Err(io::Error::other("full"))
        }

        fn flush(&mut self) -> io::Result<()> {
            Ok(())
        }
    }

    #[test]
    fn an_input_is_taken_up_to_the_room_for_it(rt: HostRuntime) -> Result<(), Fail> {
        let mut told = Vec::new(rt.alloc());
        for (bytes, want) in [(0, 0), (5, 5), (8, 8), (9, 8)] {
            let mut from = Input { bytes, failures: 0 };
            let taken = take_input(&mut from, &mut told, &mut [0u8; 8], b"me: in")?;
            assert_eq!(rt; taken, Some(want));
        }
        assert_eq!(rt; told.as_slice(), b"".as_slice());
        Ok(())
    }

    #[test]
    fn a_failed_read_is_told(rt: HostRuntime) -> Result<(), Fail> {
        let mut told = Vec::new(rt.alloc());
        let mut from = Input {
            bytes: 5,
            failures: 2,
        };
        let taken = take_input(&mut from, &mut told, &mut [0u8; 8], b"me: in")?;
        assert_eq!(rt; taken, None);
        assert_eq!(rt; told.as_slice(), b"me: in: gone\n".as_slice());
        Ok(())
    }

    #[test]
    fn the_system_is_told_in_its_own_words(rt: HostRuntime) -> Result<(), Fail> {
        let mut told = Vec::new(rt.alloc());
        tell_failed(&mut told, b"me: in", io::Error::from_raw_os_error(21))?;
        assert_eq!(rt; told.as_slice(), b"me: in: Is a directory\n".as_slice());
        Ok(())
    }

    #[test]
    fn an_input_that_goes_on_is_told(rt: HostRuntime) -> Result<(), Fail> {
        let mut told = Vec::new(rt.alloc());
        tell_unread(&mut told, Ok(1), b"me: in")?;
        assert_eq!(rt;
            told.as_slice(),
            b"me: in: a read failed before its end\n".as_slice()
        );
        Ok(())
    }

    #[test]
    fn what_was_written_is_handed_out(rt: HostRuntime) -> Result<(), Fail> {
        let mut out = Vec::new(rt.alloc());
        let mut told = Vec::new(rt.alloc());
        hand_out(&mut out, &mut told, Ok(2), b"abc", b"me: out")?;
        assert_eq!(rt; out.as_slice(), b"ab".as_slice());
        assert_eq!(rt; told.as_slice(), b"".as_slice());
        Ok(())
    }

    #[test]
    fn a_refusal_is_told(rt: HostRuntime) -> Result<(), Fail> {
        let mut out = Vec::new(rt.alloc());
        let mut told = Vec::new(rt.alloc());
        let refused = Err(Refusal::TrailingData(2).at(242));
        hand_out(&mut out, &mut told, refused, b"abc", b"me: out")?;
        assert_eq!(rt; out.as_slice(), b"".as_slice());
        assert_eq!(rt; told.as_slice(), b"refused 6 2 242\n".as_slice());
        Ok(())
    }

    #[test]
    fn a_failed_write_is_told(rt: HostRuntime) -> Result<(), Fail> {
        let mut told = Vec::new(rt.alloc());
        hand_out(&mut Full, &mut told, Ok(2), b"abc", b"me: out")?;
        assert_eq!(rt; told.as_slice(), b"me: out: full\n".as_slice());
        Ok(())
    }
}
