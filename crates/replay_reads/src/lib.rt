// What the replay of stored images says of the reads of an image: of the read its reply, the record and the
// sums of the views, of the header read its reply and the header. What is said of RSA alone is left out
// where all of it is 0.
#![tactic(auto)]

ghost use Rattle.std.specs.Prelude.{◌≡◌, IfOk};

use fields::{Fault, Part};
use key_pairs::Private;
use key_public::Public;
use reader_header::Header;
use reader_image::Fields;
use reader_parts::Which;
use replay_telling::{say_number, say_place, word};
use std::io;
use std::io::Write;

// A refusal, and nothing more.
fn say_refused(out: &mut impl Write, f: Fault) -> io::Result<()> {
    replay_telling::say_refused(out, f)?;
    word(out, b"\n")
}

// The record's kind and names, and then its numbers.
fn say_names(out: &mut impl Write, f: Fields) -> io::Result<()> {
    word(out, b" 0 0 0")?;
    say_number(out, handed_record::kind_code(f.section.kind) as usize)?;
    say_header_names(out, f.header)
}

fn say_header_names(out: &mut impl Write, header: Header) -> io::Result<()> {
    let algorithm = header.algorithm.code();
    let cipher = names_codes::cipher_code(header.cipher);
    let kdf = names_codes::kdf_code(header.kdf);
    write!(out, " {algorithm} {cipher} {kdf} {}", header.rounds)
}

fn say_numbers(out: &mut impl Write, f: Fields) -> io::Result<()> {
    let checkint = f.section.checkint;
    write!(
        out,
        " {checkint} {} {}",
        f.section.padding, f.header.section
    )
}

// The places of its fields, the key count, and where the keypairs begin.
fn say_places(out: &mut impl Write, f: Fields) -> io::Result<()> {
    let header = f.header;
    let section = f.section;
    say_place(out, header.blob)?;
    say_place(out, header.public.point)?;
    say_place(out, section.private.scalar)?;
    say_place(out, section.comment)?;
    say_place(out, header.salt)?;
    say_place(out, section.ciphertext)?;
    say_place(out, section.tag)?;
    say_number(out, header.count)?;
    replay_telling::say_places(out, section.places)
}

fn total(view: &[u8]) -> usize {
    view.iter()
        .fold(0, |sum: usize, byte| sum.wrapping_add(usize::from(*byte)))
}

fn say_sum(out: &mut impl Write, view: &[u8]) -> io::Result<()> {
    say_number(out, total(view))
}

// One loop for these sums and for what replay_saying says of parts would take the saying as a closure, and be no shorter.
fn say_sums(out: &mut impl Write, image: &[u8], f: Fields, parts: &[Which]) -> io::Result<()> {
    for which in parts {
        say_sum(out, reader_parts::part(image, f, *which))?;
    }
    Ok(())
}

// The sum of the bytes of each view; the comment's by the record that holds the image.
fn say_views(out: &mut impl Write, image: &[u8], f: Fields) -> io::Result<()> {
    word(out, b"\nviews")?;
    say_sums(out, image, f, &[Which::Blob, Which::Point, Which::Scalar])?;
    say_sum(out, record_comment::comment_of(image))?;
    say_sums(out, image, f, &[Which::Salt, Which::Ciphertext, Which::Tag])?;
    word(out, b"\n")
}

// ---- RSA's fields

fn no_public(public: Public) -> bool {
    public.bits == 0 && public.modulus == Part::ABSENT && public.exponent == Part::ABSENT
}

fn numbers_of(private: Private) -> [Part; 4] {
    [private.d, private.iqmp, private.p, private.q]
}

fn say_public(out: &mut impl Write, public: Public) -> io::Result<()> {
    say_number(out, public.bits)?;
    say_place(out, public.modulus)?;
    say_place(out, public.exponent)
}

fn say_rsa_views(out: &mut impl Write, image: &[u8], f: Fields) -> io::Result<()> {
    let numbers = [
        Which::Modulus,
        Which::Exponent,
        Which::D,
        Which::Iqmp,
        Which::P,
        Which::Q,
    ];
    say_sums(out, image, f, &numbers)
}

fn say_rsa(out: &mut impl Write, image: &[u8], f: Fields) -> io::Result<()> {
    let public = f.header.public;
    let numbers = numbers_of(f.section.private);
    if no_public(public) && numbers.iter().all(|part| *part == Part::ABSENT) {
        return Ok(());
    }
    word(out, b"rsa")?;
    say_public(out, public)?;
    for part in numbers {
        say_place(out, part)?;
    }
    say_rsa_views(out, image, f)?;
    word(out, b"\n")
}

fn say_header_rsa(out: &mut impl Write, public: Public) -> io::Result<()> {
    if no_public(public) {
        return Ok(());
    }
    word(out, b"header-rsa")?;
    say_public(out, public)?;
    word(out, b"\n")
}

// ---- the reads

pub fn say_read(out: &mut impl Write, image: &[u8]) -> io::Result<()>
    ensures { IfOk result (λ done. done ≡ tt) }
{
    word(out, b"read")?;
    match reader_image::read(image) {
        Err(f) => say_refused(out, f),
        Ok(f) => {
            say_names(out, f)?;
            say_numbers(out, f)?;
            say_places(out, f)?;
            say_views(out, image, f)?;
            say_rsa(out, image, f)
        }
    }
}

// What an accepted header read answers.
fn say_half(out: &mut impl Write, half: Header) -> io::Result<()> {
    word(out, b" 0 0 0")?;
    say_header_names(out, half)?;
    say_number(out, half.section)?;
    say_place(out, half.blob)?;
    say_place(out, half.public.point)?;
    say_place(out, half.salt)?;
    say_number(out, half.count)?;
    word(out, b"\n")?;
    say_header_rsa(out, half.public)
}

pub fn say_header_read(out: &mut impl Write, image: &[u8]) -> io::Result<()>
    ensures { IfOk result (λ done. done ≡ tt) }
{
    word(out, b"header")?;
    match reader_header::read_header(image) {
        Err(f) => say_refused(out, f),
        Ok(h) => say_half(out, h),
    }
}
