// What the programs that replay stored vectors have in common: their file, the numbers and codes in what they have
// read, and what they say of a number, a reply and a buffer. What is said goes to a stream: the one error is the
// stream's own, and leaves there what was said before it.
#![tactic(auto)]

ghost use Rattle.std.specs.Prelude.{◌≡◌, ◌≤◌, ◌+◌, ◌*◌, ◌%◌, length, IfOk};
ghost use Rattle.fields.specs.Fields.{IsView};
ghost use Rattle.replay_telling.specs.Telling.{number_in, text_in, algorithm_of, elliptic_of, checkint_of, cipher_of, kdf_of, entry_of, next_rest, rest_of};

use fields::{Cursor, Fault, Part};
use names::{Algorithm, Cipher, Elliptic, Kdf};
use places::Places;
use standard_streams::Said;
use std::fmt::{Display, Formatter};
use std::io::{Read, Write};
use std::rt::Files;
use std::{fmt, fs, io};
use writer_reply::Written;

// ---- the file

// The file at a path. None where it can't be opened, which is told on standard error.
pub fn open<R: Files + Eprint>(rt: &R, path: &str) -> io::Result<Option<R::File>> {
    match fs::open(rt, path) {
        Ok(file) => Ok(Some(file)),
        Err(why) => {
            eprintln!(rt; "{path}: {}", Said(why))?;
            Ok(None)
        }
    }
}

// Reads until `buf` is full or the file ends, and answers how many bytes it put at the start of `buf`.
pub fn read_full(file: &mut impl Read, buf: &mut [u8]) -> io::Result<usize>
    ensures { IfOk result (λ n. n ≤ length buf.new) }
{
    let mut done = 0;
    // A loop by hand: std's read_exact answers no count where the file ends before it.
    while done < buf.len() {
        let n = file.read(&mut buf[done..])?;
        if n == 0 {
            break;
        }
        done += n;
    }
    Ok(done)
}

// As many as there are of the next `n` bytes, at the start of `room`; none where there is no room for `n`.
pub fn next_bytes<'a>(file: &mut impl Read, room: &'a mut [u8], n: usize) -> io::Result<&'a [u8]>
    ensures { IfOk result (λ bytes. length bytes.now ≤ n) }
{
    let Some(wanted) = room.get_mut(..n) else {
        return Ok(&[]);
    };
    let read = read_full(file, wanted)?;
    Ok(&wanted[..read])
}

// ---- numbers that were read

// The big-endian number of four bytes at a place; 0 where they aren't all there.
#[tactic(auto, unfolding(crate::specs::Telling::number_in))]
pub fn number_at(bytes: &[u8], at: usize) -> u32
    ensures { result ≡ number_in bytes.now at }
{
    let end = bytes.len();
    Cursor { at, end }.uint32(bytes).map_or(0, |(n, _)| n)
}

// A number of 64 bits from its halves.
pub fn halves(upper: u32, lower: u32) -> usize
    ensures { result ≡ upper * 4294967296 + lower }
{
    (upper as usize) * 4294967296 + (lower as usize)
}

// The i-th text of a call, whose place and length stand in its head after four numbers.
// Two slices and no Call: text_of_determined is stated of them.
#[tactic(auto, unfolding(crate::specs::Telling::text_in))]
pub fn text_of<'a>(head: &[u8], texts: &'a [u8], i: u8) -> &'a [u8]
    ensures { IsView result texts.entry (text_in head.now i) }
{
    let start = number_at(head, (i as usize) * 8 + 16) as usize;
    let length = number_at(head, (i as usize) * 8 + 20) as usize;
    fields::view(texts, Part { start, length })
}

// ---- codes that were read: the lowest byte of a number. One that names nothing isn't stored.

fn code(n: u32) -> u8
    ensures { result ≡ n % 256 }
{
    (n % 256) as u8
}

#[tactic(auto, unfolding(crate::specs::Telling::algorithm_of))]
pub fn algorithm_of(n: u32) -> Algorithm
    ensures { result ≡ algorithm_of n }
{
    names_codes::algorithm_coded(code(n)).unwrap_or(Algorithm::Elliptic(Elliptic::Ed25519))
}

// The kind of a key over a curve. A code of RSA isn't stored where one is wanted.
#[tactic(auto, unfolding(crate::specs::Telling::elliptic_of))]
pub fn elliptic_of(n: u32) -> Elliptic
    ensures { result ≡ elliptic_of n }
{
    match algorithm_of(n) {
        Algorithm::Elliptic(kind) => kind,
        Algorithm::Rsa => Elliptic::Ed25519,
    }
}

// 1 is for the derived checkint, which is None: a stored file has numbers only.
#[tactic(auto, unfolding(crate::specs::Telling::checkint_of))]
pub fn checkint_of(derive: u32, value: u32) -> Option<u32>
    ensures { result ≡ checkint_of derive value }
{
    if derive == 1 { None } else { Some(value) }
}

#[tactic(auto, unfolding(crate::specs::Telling::cipher_of))]
pub fn cipher_of(n: u32) -> Cipher
    ensures { result ≡ cipher_of n }
{
    names_codes::cipher_coded(code(n)).unwrap_or(Cipher::None)
}

#[tactic(auto, unfolding(crate::specs::Telling::kdf_of))]
pub fn kdf_of(n: u32) -> Kdf
    ensures { result ≡ kdf_of n }
{
    names_codes::kdf_coded(code(n)).unwrap_or(Kdf::None)
}

// ---- what is said

pub fn word(out: &mut impl Write, w: &[u8]) -> io::Result<()>
    ensures { IfOk result (λ done. done ≡ tt) }
{
    out.write_all(w)
}

// A number after a space. Not of any type that can be displayed: say_number_determined is stated of usize.
pub fn say_number(out: &mut impl Write, n: usize) -> io::Result<()>
    ensures { IfOk result (λ done. done ≡ tt) }
{
    write!(out, " {n}")
}

// What a stored call calls.
#[derive(Clone, Copy)]
pub enum Entry {
    Plain,
    Encrypted,
    Rewrite,
    Change,
    Rsa,
    Keys,
    ChangeOf,
    Add,
    AddRsa,
    Remove,
}

// The entry with a code. A code that names none isn't stored.
#[tactic(auto, unfolding(crate::specs::Telling::entry_of))]
pub fn entry_of(code: u32) -> Option<Entry>
    ensures { result ≡ entry_of code }
{
    match code {
        0 => Some(Entry::Plain),
        1 => Some(Entry::Encrypted),
        2 => Some(Entry::Rewrite),
        3 => Some(Entry::Change),
        4 => Some(Entry::Rsa),
        5 => Some(Entry::Keys),
        6 => Some(Entry::ChangeOf),
        7 => Some(Entry::Add),
        8 => Some(Entry::AddRsa),
        9 => Some(Entry::Remove),
        _ => None,
    }
}

impl Display for Entry {
    fn fmt<W: fmt::Write>(&self, f: &mut Formatter<W>) -> fmt::Result {
        f.write_str(match self {
            Entry::Plain => "plain    ",
            Entry::Encrypted => "encrypted",
            Entry::Rewrite => "rewrite  ",
            Entry::Change => "change   ",
            Entry::Rsa => "rsa      ",
            Entry::Keys => "keys     ",
            Entry::ChangeOf => "change_of",
            Entry::Add => "add      ",
            Entry::AddRsa => "add_rsa  ",
            Entry::Remove => "remove   ",
        })
    }
}

// The entry that a stored call is of; nothing where its code names none.
pub fn say_entry(out: &mut impl Write, code: u32) -> io::Result<()>
    ensures { IfOk result (λ done. done ≡ tt) }
{
    match entry_of(code) {
        Some(entry) => write!(out, "{entry}"),
        None => Ok(()),
    }
}

// A stored call: the numbers of its head, and the texts whose places stand there.
#[derive(Clone, Copy)]
pub struct Call<'a> {
    pub head: &'a [u8],
    pub texts: &'a [u8],
}

impl<'a> Call<'a> {
    // The i-th number of the head.
    pub fn number(self, i: u8) -> u32
        ensures { result ≡ number_in self.entry.head.now (i * 4) }
    {
        number_at(self.head, (i as usize) * 4)
    }

    // The i-th of its texts.
    pub fn text(self, i: u8) -> &'a [u8]
        ensures { IsView result self.entry.texts (text_in self.entry.head.now i) }
    {
        text_of(self.head, self.texts, i)
    }

    // What it calls; None where its code names nothing.
    pub fn entry(self) -> Option<Entry>
        ensures { result ≡ entry_of (number_in self.entry.head.now 0) }
    {
        entry_of(self.number(0))
    }
}

// Where a part begins, and its length.
pub fn say_place(out: &mut impl Write, part: Part) -> io::Result<()>
    ensures { IfOk result (λ done. done ≡ tt) }
{
    say_number(out, part.start)?;
    say_number(out, part.length)
}

// A reply: the refusal's number, count and place, or the length that was written. Four numbers and no struct:
// say_reply_determined is stated of them, and of a setting they are others.
pub fn say_reply(
    out: &mut impl Write,
    number: u8,
    count: usize,
    at: usize,
    length: usize,
) -> io::Result<()>
    ensures { IfOk result (λ done. done ≡ tt) }
{
    write!(out, " {number} {count} {at} {length}")
}

pub fn say_refused(out: &mut impl Write, f: Fault) -> io::Result<()>
    ensures { IfOk result (λ done. done ≡ tt) }
{
    say_reply(out, f.why.number(), f.why.count(), f.at, 0)
}

pub fn say_written(out: &mut impl Write, written: Written) -> io::Result<()>
    ensures { IfOk result (λ done. done ≡ tt) }
{
    match written {
        Err(f) => say_refused(out, f),
        Ok(length) => say_reply(out, 0, 0, 0, length),
    }
}

// Where the keypairs begin: the first key's, and the others' only where one of these isn't 0.
pub fn say_places(out: &mut impl Write, places: Places) -> io::Result<()>
    ensures { IfOk result (λ done. done ≡ tt) }
{
    let others = &places.all[1..];
    say_number(out, places.all[0] as usize)?;
    if others.iter().all(|place| *place == 0) {
        return Ok(());
    }
    for place in others {
        say_number(out, *place as usize)?;
    }
    Ok(())
}

fn say_hex(out: &mut impl Write, bytes: &[u8]) -> io::Result<()> {
    for byte in bytes {
        write!(out, "{byte:02x}")?;
    }
    Ok(())
}

// One byte more of a long buffer, which is taken as a single big-endian number modulo a prime.
fn next_rest(rest: u64, byte: u8) -> u64
    ensures { result ≡ next_rest rest byte }
{
    ((rest % 72057594037927931) * 256 + (byte as u64)) % 72057594037927931
}

// What remains of the bytes, as a single big-endian number, modulo a prime just below 2 to the 56th.
pub fn rest_of(bytes: &[u8]) -> u64
    ensures { result ≡ rest_of bytes.now }
{
    let mut rest: u64 = 0;
    for byte in bytes {
        rest = next_rest(rest, *byte);
    }
    rest
}

// A short buffer byte by byte, a long one by what remains of it modulo the prime.
pub fn say_buffer(out: &mut impl Write, bytes: &[u8]) -> io::Result<()>
    ensures { IfOk result (λ done. done ≡ tt) }
{
    say_number(out, bytes.len())?;
    if bytes.len() <= 256 {
        word(out, b" hex:")?;
        say_hex(out, bytes)?;
    } else {
        let rest = rest_of(bytes);
        write!(out, " mod:{rest}")?;
    }
    word(out, b"\n")
}
