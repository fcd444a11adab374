// Replays stored images, for the programs that do so: reads them from the file `vectors`, each a length of
// four bytes, big-endian, and that many bytes, and writes for each what the reads and the report say of it,
// and of an image of several keys what each of them is.
#![tactic(auto)]

ghost use Rattle.std.specs.Prelude.{◌≡◌, IfOk};

use fields::Part;
use key_pairs::Private;
use key_public::Public;
use reader_entries::KeyFields;
use reader_image::Fields;
use replay_telling::{number_at, read_full, say_number, say_place, word};
use std::io;
use std::io::{Read, Write};
use std::rt::Files;

// ---- the keys

fn say_public(out: &mut impl Write, public: Public) -> io::Result<()> {
    say_number(out, public.bits)?;
    say_place(out, public.point)?;
    say_place(out, public.modulus)?;
    say_place(out, public.exponent)
}

fn say_private(out: &mut impl Write, private: Private) -> io::Result<()> {
    say_place(out, private.scalar)?;
    say_place(out, private.d)?;
    say_place(out, private.iqmp)?;
    say_place(out, private.p)?;
    say_place(out, private.q)
}

fn say_key(out: &mut impl Write, key: KeyFields) -> io::Result<()> {
    say_number(out, key.algorithm.code() as usize)?;
    say_place(out, key.blob)?;
    say_public(out, key.public)?;
    say_number(out, key.begins)?;
    say_private(out, key.private)?;
    say_place(out, key.comment)
}

// Key k; of a number that no key has the number alone.
fn say_numbered(out: &mut impl Write, image: &[u8], f: Fields, k: usize) -> io::Result<()> {
    word(out, b"key")?;
    say_number(out, k)?;
    if let Some(key) = reader_keys::key_of(image, f, k) {
        say_key(out, key)?;
    }
    word(out, b"\n")
}

// Where there are several keys, each number from 0 to one more than there can be.
fn say_keys(out: &mut impl Write, image: &[u8], f: Fields) -> io::Result<()> {
    if f.header.count <= 1 {
        return Ok(());
    }
    for k in 0..18 {
        say_numbered(out, image, f, k)?;
    }
    Ok(())
}

fn say_keys_read(out: &mut impl Write, image: &[u8]) -> io::Result<()> {
    match reader_image::read(image) {
        Err(_) => Ok(()),
        Ok(f) => say_keys(out, image, f),
    }
}

// ---- the report

fn say_report(out: &mut impl Write, image: &[u8]) -> io::Result<()> {
    let mut text = [0u8; 256];
    let Ok(length) = inspect_report::write_report(image, &mut text) else {
        return Ok(());
    };
    word(out, fields::view(&text, Part { start: 0, length }))
}

// ---- the images

// One image; whether there was one.
fn one(out: &mut impl Write, file: &mut impl Read) -> io::Result<bool> {
    let mut head = [0u8; 4];
    if read_full(file, &mut head)? < 4 {
        return Ok(false);
    }
    let mut buf = [0u8; 66000];
    let length = number_at(&head, 0) as usize;
    let image = replay_telling::next_bytes(file, &mut buf, length)?;
    replay_reads::say_read(out, image)?;
    replay_reads::say_header_read(out, image)?;
    say_report(out, image)?;
    say_keys_read(out, image)?;
    Ok(true)
}

// A proved loop has to end, so it counts its turns.
fn all(out: &mut impl Write, file: &mut impl Read) -> io::Result<()> {
    for _ in 0..u64::MAX {
        if !one(out, file)? {
            break;
        }
    }
    Ok(())
}

pub fn replay_images<R: Files + Print + Eprint>(rt: &R) -> io::Result<()>
    ensures { IfOk result (λ done. done ≡ tt) }
{
    match replay_telling::open(rt, "vectors")? {
        Some(mut file) => all(&mut io::writer(rt), &mut file),
        None => Ok(()),
    }
}
