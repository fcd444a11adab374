// Replays the stored calls of export and import: reads them from the file `calls` and writes for each its
// reply and all of the lent bytes afterwards.
//
// Every number in the file is four bytes, big-endian. Two buffers go from call to call, the given bytes and
// the lent ones; at first they are zeros. A call is its code, 1 for export and 2 for import, and then for
// each of the two buffers: how many of its bytes the call gets, a place, how many bytes are new there, and
// these.
#![tactic(auto)]

use fields::Part;
use replay_telling::{number_at, read_full, word};
use std::io;
use std::io::{Read, Write};
use writer_reply::Written;

// ---- reading the file

// Puts the new bytes into a buffer; answers how many of its bytes the call gets.
fn renew(file: &mut impl Read, buf: &mut [u8]) -> io::Result<usize> {
    let mut head = [0u8; 12];
    read_full(file, &mut head)?;
    let length = number_at(&head, 0) as usize;
    let at = number_at(&head, 4) as usize;
    let new = number_at(&head, 8) as usize;
    if at + new > buf.len() {
        return Ok(length);
    }
    read_full(file, &mut buf[at..at + new])?;
    Ok(length)
}

// ---- the calls

fn call(out: &mut impl Write, code: u32, given: &[u8], lent: &mut [u8]) -> io::Result<Written> {
    match code {
        1 => {
            word(out, b"export   ")?;
            Ok(armour_export::export(given, lent))
        }
        _ => {
            word(out, b"import   ")?;
            Ok(armour_import::import(given, lent))
        }
    }
}

fn called(out: &mut impl Write, code: u32, given: &[u8], lent: &mut [u8]) -> io::Result<()> {
    let written = call(out, code, given, lent)?;
    replay_telling::say_written(out, written)?;
    replay_telling::say_buffer(out, lent)
}

// ---- the vectors

// One call; whether there was one.
fn one(
    out: &mut impl Write,
    file: &mut impl Read,
    given: &mut [u8],
    lent: &mut [u8],
) -> io::Result<bool> {
    let mut head = [0u8; 4];
    let got = read_full(file, &mut head)?;
    if got < 4 {
        return Ok(false);
    }
    let length = renew(file, given)?;
    let room = renew(file, lent)?;
    if room > lent.len() {
        return Ok(false);
    }
    let part = Part { start: 0, length };
    called(
        out,
        number_at(&head, 0),
        fields::view(given, part),
        &mut lent[..room],
    )?;
    Ok(true)
}

// A proved loop has to end, so it counts its turns.
fn all(out: &mut impl Write, file: &mut impl Read) -> io::Result<()> {
    let mut given = [0u8; 90000];
    let mut lent = [0u8; 90000];
    for _ in 0..u64::MAX {
        if !one(out, file, &mut given, &mut lent)? {
            break;
        }
    }
    Ok(())
}

fn main(rt: HostRuntime) -> io::Result<()> {
    let Some(mut file) = replay_telling::open(&rt, "calls")? else {
        return Ok(());
    };
    all(&mut rt.stdout(), &mut file)
}
