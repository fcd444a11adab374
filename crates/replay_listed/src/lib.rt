// Replays stored calls over several keys, for the program that does so: reads them from the file `calls` and writes
// for each its reply and the whole lent buffer afterwards.
//
// Every number in the file is four bytes, big-endian. Two buffers go from call to call, the texts and the
// lent bytes; at first they are zeros. A vector is how many bytes it has, and these: a head of 25 numbers,
// and the bytes that are new in the two buffers. The head has the code and three numbers more, the place and
// the length of each of seven texts among the texts, and of the new texts and the new lent bytes in the
// vector; then where each of these two goes in its buffer, and how many of the lent bytes the call gets. The
// last texts are empty where fewer are named:
//   3 change     0, and the upper half and the lower half of the image's length; comment
//   5 keys       0, 1 to derive the checkint or 0, checkint; the table, its text
//   6 change_of  as 3; k, comment
//   7 add        as 3; algorithm, public, private, comment
//   8 add_rsa    as 3; n, e, d, iqmp, p, q, comment
//   9 remove     as 3; k
// k and each number of a table are eight bytes.
#![tactic(auto)]

ghost use Rattle.std.specs.Prelude.{◌≡◌, IfOk};

use replay_telling::{Call, Entry, checkint_of, halves, number_at, read_full};
use std::io;
use std::io::{Read, Write};
use std::rt::Files;
use writer_reply::Written;

// The number of the first eight bytes.
fn wide(bytes: &[u8]) -> usize {
    halves(number_at(bytes, 0), number_at(bytes, 4))
}

// ---- the writers

fn call_keys(call: Call, lent: &mut [u8]) -> Written {
    let mut table = [0usize; 640];
    let numbers = call.text(0);
    for (number, eight) in table.iter_mut().zip(numbers.chunks(8)) {
        *number = wide(eight);
    }
    let Some(table) = table.get(..numbers.len() / 8) else {
        return Ok(0);
    };
    writer_keys::write_keys(
        call.text(1),
        table,
        checkint_of(call.number(2), call.number(3)),
        lent,
    )
}

// ---- the edits

fn call_add(call: Call, n: usize, lent: &mut [u8]) -> Written {
    key_add::add_key(
        lent,
        n,
        replay_telling::elliptic_of(number_at(call.text(0), 0)),
        call.text(1),
        call.text(2),
        call.text(3),
    )
}

fn call_add_rsa(call: Call, n: usize, lent: &mut [u8]) -> Written {
    key_add::add_rsa(
        lent,
        n,
        call.text(0),
        call.text(1),
        call.text(2),
        call.text(3),
        call.text(4),
        call.text(5),
        call.text(6),
    )
}

// ---- the calls

fn written(call: Call, lent: &mut [u8]) -> Written {
    let n = halves(call.number(2), call.number(3));
    let k = wide(call.text(0));
    match call.entry() {
        Some(Entry::Keys) => call_keys(call, lent),
        Some(Entry::ChangeOf) => comment_change::change_comment_of(lent, n, k, call.text(1)),
        Some(Entry::Add) => call_add(call, n, lent),
        Some(Entry::AddRsa) => call_add_rsa(call, n, lent),
        Some(Entry::Remove) => key_remove::remove_key(lent, n, k),
        _ => comment_change::change_comment(lent, n, call.text(0)),
    }
}

fn called(out: &mut impl Write, call: Call, lent: &mut [u8]) -> io::Result<()> {
    replay_telling::say_entry(out, call.number(0))?;
    replay_telling::say_written(out, written(call, lent))?;
    replay_telling::say_buffer(out, lent)
}

// ---- the vectors

// A vector's head is its call's, and the texts of its own are what is new in the two buffers.
fn replay(
    out: &mut impl Write,
    vector: &[u8],
    texts: &mut [u8],
    lent: &mut [u8],
) -> io::Result<()> {
    let new = Call {
        head: vector,
        texts: vector,
    };
    buffer::put(texts, new.number(22) as usize, new.text(7));
    buffer::put(lent, new.number(23) as usize, new.text(8));
    let Some(lent) = lent.get_mut(..new.number(24) as usize) else {
        return Ok(());
    };
    let call = Call {
        head: vector,
        texts,
    };
    called(out, call, lent)
}

// One vector; whether there was one.
fn one(
    out: &mut impl Write,
    file: &mut impl Read,
    texts: &mut [u8],
    lent: &mut [u8],
) -> io::Result<bool> {
    let mut head = [0u8; 4];
    if read_full(file, &mut head)? < 4 {
        return Ok(false);
    }
    let mut room = [0u8; 140000];
    let length = number_at(&head, 0) as usize;
    let vector = replay_telling::next_bytes(file, &mut room, length)?;
    replay(out, vector, texts, lent)?;
    Ok(true)
}

// A proved loop has to end, so it counts its turns.
fn all(out: &mut impl Write, file: &mut impl Read) -> io::Result<()> {
    let mut texts = [0u8; 70000];
    let mut lent = [0u8; 66000];
    for _ in 0..u64::MAX {
        if !one(out, file, &mut texts, &mut lent)? {
            break;
        }
    }
    Ok(())
}

pub fn replay_lists<R: Files + Print + Eprint>(rt: &R) -> io::Result<()>
    ensures { IfOk result (λ done. done ≡ tt) }
{
    match replay_telling::open(rt, "calls")? {
        Some(mut file) => all(&mut io::writer(rt), &mut file),
        None => Ok(()),
    }
}
