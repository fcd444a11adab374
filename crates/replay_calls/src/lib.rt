// Replays stored calls of the writers of one key and of the comment change, for the program that does so: reads
// them from the file `calls` and writes for each its reply and the whole lent buffer afterwards.
//
// Every number in the file is four bytes, big-endian. The calls stand in rows: how many they are, the
// buffer that is lent to them one after another, the length of the image in it, and the calls. A call is
// its head and a text, in which its own texts stand one after another. The head has 18 numbers: the code,
// three more, and the place and the length of each of seven texts, of which the last are empty where fewer
// are named:
//   0 plain      algorithm, 1 to derive the checkint or 0, checkint; public, private, comment
//   1 encrypted  cipher, KDF, rounds; salt, blob, ciphertext, tag
//   2 rewrite    0, 0, 0; image
//   3 change     0 for the length that the last accepted call answered, or 1 for the number that follows,
//                its upper half and its lower half; comment
//   4 rsa        0, 1 to derive the checkint or 0, checkint; n, e, d, iqmp, p, q, comment
// A text is how many pieces it has, and then each piece: the length of a unit, the length of the piece, and
// the unit, which is to be repeated over the piece.
#![tactic(auto)]

ghost use Rattle.std.specs.Prelude.{◌≡◌, IfOk};

use key_material::Material;
use replay_telling::{Call, Entry, checkint_of, number_at, read_full};
use std::io;
use std::io::{Read, Write};
use std::rt::Files;
use writer_reply::Written;

// ---- reading the file

// A number; 0 at the end of the file.
fn number(file: &mut impl Read) -> io::Result<u32> {
    let mut head = [0u8; 4];
    read_full(file, &mut head)?;
    Ok(number_at(&head, 0))
}

// A unit repeated over so many bytes at a place; answers the place after them. No crate here takes from the heap, so no Vec.
fn repeated(
    file: &mut impl Read,
    buf: &mut [u8],
    at: usize,
    unit: usize,
    length: usize,
) -> io::Result<usize> {
    if buf.len() < at || buf.len() - at < length || length < unit {
        return Ok(at);
    }
    let (first, others) = buf[at..at + length].split_at_mut(unit);
    read_full(file, first)?;
    for (byte, again) in others.iter_mut().zip(first.iter().cycle()) {
        *byte = *again;
    }
    Ok(at + length)
}

// One piece of a text, put at a place; answers the place after it.
fn piece(file: &mut impl Read, buf: &mut [u8], at: usize) -> io::Result<usize> {
    let unit = number(file)? as usize;
    let length = number(file)? as usize;
    repeated(file, buf, at, unit, length)
}

// A text; answers its length, and no slice, since a row lends its buffer to the writers.
fn text(file: &mut impl Read, buf: &mut [u8]) -> io::Result<usize> {
    let pieces = number(file)?;
    let mut at: usize = 0;
    for _ in 0..pieces {
        at = piece(file, buf, at)?;
    }
    Ok(at)
}

// ---- the writers

// The length that was carried on, or the one that the file gives.
fn length_of(call: Call, n: usize) -> usize {
    if call.number(1) == 0 {
        return n;
    }
    replay_telling::halves(call.number(2), call.number(3))
}

fn call_plain(call: Call, lent: &mut [u8]) -> Written {
    let material = Material::new(
        replay_telling::elliptic_of(call.number(1)),
        call.text(0),
        call.text(1),
    );
    writer_plain::write_plain(
        material,
        checkint_of(call.number(2), call.number(3)),
        call.text(2),
        lent,
    )
}

fn call_encrypted(call: Call, lent: &mut [u8]) -> Written {
    writer_encrypted::write_encrypted(
        replay_telling::cipher_of(call.number(1)),
        replay_telling::kdf_of(call.number(2)),
        call.text(0),
        call.number(3),
        call.text(1),
        call.text(2),
        call.text(3),
        lent,
    )
}

fn call_rsa(call: Call, lent: &mut [u8]) -> Written {
    writer_rsa::write_rsa(
        call.text(0),
        call.text(1),
        call.text(2),
        call.text(3),
        call.text(4),
        call.text(5),
        checkint_of(call.number(2), call.number(3)),
        call.text(6),
        lent,
    )
}

// ---- the calls

fn written(call: Call, n: usize, lent: &mut [u8]) -> Written {
    match call.entry() {
        Some(Entry::Plain) => call_plain(call, lent),
        Some(Entry::Encrypted) => call_encrypted(call, lent),
        Some(Entry::Rewrite) => writer_again::rewrite(call.text(0), lent),
        Some(Entry::Rsa) => call_rsa(call, lent),
        _ => comment_change::change_comment(lent, length_of(call, n), call.text(0)),
    }
}

// Reads the texts that the head's entry is to be given, and calls it.
fn stored_call(
    file: &mut impl Read,
    head: &[u8],
    n: usize,
    lent: &mut [u8],
) -> io::Result<Written> {
    let mut texts = [0u8; 70000];
    text(file, &mut texts)?;
    let call = Call {
        head,
        texts: &texts,
    };
    Ok(written(call, n, lent))
}

// ---- the rows

fn say_call(out: &mut impl Write, written: Written, lent: &[u8]) -> io::Result<()> {
    replay_telling::say_written(out, written)?;
    replay_telling::say_buffer(out, lent)
}

// One call on the lent buffer; answers the length of the image in it from now on.
fn called(
    out: &mut impl Write,
    file: &mut impl Read,
    n: usize,
    lent: &mut [u8],
) -> io::Result<usize> {
    let mut head = [0u8; 72];
    read_full(file, &mut head)?;
    replay_telling::say_entry(out, number_at(&head, 0))?;
    let written = stored_call(file, &head, n, lent)?;
    say_call(out, written, lent)?;
    Ok(written.unwrap_or(n))
}

fn replay_row(out: &mut impl Write, file: &mut impl Read, calls: u32) -> io::Result<()> {
    let mut buffer = [0u8; 66000];
    let room = text(file, &mut buffer)?;
    let mut n = number(file)? as usize;
    let Some(lent) = buffer.get_mut(..room) else {
        return Ok(());
    };
    for _ in 0..calls {
        n = called(out, file, n, lent)?;
    }
    Ok(())
}

// One row; whether there was one.
fn row(out: &mut impl Write, file: &mut impl Read) -> io::Result<bool> {
    let calls = number(file)?;
    if calls == 0 {
        return Ok(false);
    }
    replay_row(out, file, calls)?;
    Ok(true)
}

// A proved loop has to end, so it counts its turns.
fn all(out: &mut impl Write, file: &mut impl Read) -> io::Result<()> {
    for _ in 0..u64::MAX {
        if !row(out, file)? {
            break;
        }
    }
    Ok(())
}

pub fn replay_calls<R: Files + Print + Eprint>(rt: &R) -> io::Result<()>
    ensures { IfOk result (λ done. done ≡ tt) }
{
    match replay_telling::open(rt, "calls")? {
        Some(mut file) => all(&mut io::writer(rt), &mut file),
        None => Ok(()),
    }
}
