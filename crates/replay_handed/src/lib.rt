// Replays records that are handed in by hand, for the programs that do so: reads them from the file `records`,
// has each written again with its image, and writes the reply, the whole lent buffer afterwards, and what
// `replay_saying` says of the record.
//
// Every number in the file is big-endian. A vector is the image's length and the lent buffer's, four bytes
// each, the record's 52 numbers, eight bytes each, and the image. The numbers are kind (1 plain, 2
// encrypted), algorithm, cipher, KDF, rounds, checkint, padding and section, then start and length of
// blob, point, scalar, comment, salt, ciphertext and tag, then RSA's: bits, and start and length of
// modulus, exponent, d, iqmp, p and q; and then the key count and the sixteen places.
#![tactic(auto)]

ghost use Rattle.std.specs.Prelude.{◌≡◌, ◌<◌, IfOk};

use fields::Part;
use key_pairs::Private;
use key_public::Public;
use places::Places;
use reader_header::Header;
use reader_image::Fields;
use reader_section::{Kind, Section};
use replay_telling::{number_at, read_full, word};
use std::io;
use std::io::{Read, Write};
use std::rt::Files;

// ---- the record's numbers, which follow the two lengths

// The lower half of the i-th number.
fn lower(head: &[u8], i: u8) -> u32 {
    number_at(head, (i as usize) * 8 + 12)
}

fn number(head: &[u8], i: u8) -> usize {
    replay_telling::halves(number_at(head, (i as usize) * 8 + 8), lower(head, i))
}

// A start, and the length that follows it.
fn place(head: &[u8], i: u8) -> Part
    requires { i < 255 }
{
    Part {
        start: number(head, i),
        length: number(head, i + 1),
    }
}

// ---- the record

// A stored file has numbers only.
fn kind_of(code: u32) -> Kind {
    match code {
        1 => Kind::Plain,
        _ => Kind::Encrypted,
    }
}

fn public_of(head: &[u8]) -> Public {
    Public {
        point: place(head, 10),
        modulus: place(head, 23),
        exponent: place(head, 25),
        bits: number(head, 22),
    }
}

fn private_of(head: &[u8]) -> Private {
    Private {
        scalar: place(head, 12),
        d: place(head, 27),
        iqmp: place(head, 29),
        p: place(head, 31),
        q: place(head, 33),
    }
}

// The lowest 16 bits of the i-th number.
fn short(head: &[u8], i: u8) -> u16 {
    (lower(head, i) % 65536) as u16
}

fn places_of(head: &[u8]) -> Places {
    let mut places = Places::none();
    for (place, i) in places.all.iter_mut().zip(36..52) {
        *place = short(head, i);
    }
    places
}

fn header_of(head: &[u8]) -> Header {
    Header {
        cipher: replay_telling::cipher_of(lower(head, 2)),
        kdf: replay_telling::kdf_of(lower(head, 3)),
        salt: place(head, 16),
        rounds: lower(head, 4),
        count: number(head, 35),
        algorithm: replay_telling::algorithm_of(lower(head, 1)),
        blob: place(head, 8),
        public: public_of(head),
        section: number(head, 7),
    }
}

fn section_of(head: &[u8]) -> Section {
    Section {
        kind: kind_of(lower(head, 0)),
        checkint: lower(head, 5),
        padding: number(head, 6),
        private: private_of(head),
        comment: place(head, 14),
        places: places_of(head),
        ciphertext: place(head, 18),
        tag: place(head, 20),
    }
}

fn record_of(head: &[u8]) -> Fields {
    Fields {
        header: header_of(head),
        section: section_of(head),
    }
}

// ---- the call

// What stands in a buffer before it is lent: no byte is 0, and no run is of one byte.
const STALE: [u8; 7] = *b"\xa1\xb2\xc3\xd4\xe5\xf6\x97";

fn fill(lent: &mut [u8]) {
    for (byte, stale) in lent.iter_mut().zip(STALE.iter().cycle()) {
        *byte = *stale;
    }
}

fn handed_in(out: &mut impl Write, image: &[u8], f: Fields, lent: &mut [u8]) -> io::Result<()> {
    fill(lent);
    word(out, b"record   ")?;
    replay_telling::say_written(out, writer_again::rewrite_record(image, f, lent))?;
    replay_telling::say_buffer(out, lent)?;
    replay_saying::say_record(out, image, f)
}

// ---- the vectors

fn replay(out: &mut impl Write, image: &[u8], head: &[u8]) -> io::Result<()> {
    let mut buffer = [0u8; 66000];
    match buffer.get_mut(..number_at(head, 4) as usize) {
        Some(lent) => handed_in(out, image, record_of(head), lent),
        None => Ok(()),
    }
}

// A vector, of which all but the image has been read.
fn vector(out: &mut impl Write, file: &mut impl Read, head: &[u8]) -> io::Result<()> {
    let mut room = [0u8; 66000];
    let length = number_at(head, 0) as usize;
    let image = replay_telling::next_bytes(file, &mut room, length)?;
    replay(out, image, head)
}

// One vector; whether there was one.
fn one(out: &mut impl Write, file: &mut impl Read) -> io::Result<bool> {
    let mut head = [0u8; 424];
    if read_full(file, &mut head)? < 424 {
        return Ok(false);
    }
    vector(out, file, &head)?;
    Ok(true)
}

// A proved loop has to end, so it counts its turns.
fn all(out: &mut impl Write, file: &mut impl Read) -> io::Result<()> {
    for _ in 0..u64::MAX {
        if !one(out, file)? {
            break;
        }
    }
    Ok(())
}

pub fn replay_records<R: Files + Print + Eprint>(rt: &R) -> io::Result<()>
    ensures { IfOk result (λ done. done ≡ tt) }
{
    match replay_telling::open(rt, "records")? {
        Some(mut file) => all(&mut io::writer(rt), &mut file),
        None => Ok(()),
    }
}
