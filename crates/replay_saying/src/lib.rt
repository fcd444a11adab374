// What the programs that hand in records made by hand say of such a record: what its views of the image are,
// and what the section read makes of its header half. What is said of RSA alone is left out where all of it
// is 0.
#![tactic(auto)]

ghost use Rattle.std.specs.Prelude.{◌≡◌, IfOk};

use fields::Part;
use key_pairs::Private;
use reader_header::Header;
use reader_image::Fields;
use reader_parts::Which;
use reader_section::Section;
use replay_telling::{say_number, say_place, word};
use std::io;
use std::io::Write;

// ---- the views

// A view's length, and where that isn't 0 what remains of it modulo the prime.
fn say_view(out: &mut impl Write, view: &[u8]) -> io::Result<()> {
    say_number(out, view.len())?;
    if !view.is_empty() {
        say_number(out, replay_telling::rest_of(view) as usize)?;
    }
    Ok(())
}

fn say_parts(out: &mut impl Write, image: &[u8], f: Fields, parts: &[Which]) -> io::Result<()> {
    for which in parts {
        say_view(out, reader_parts::part(image, f, *which))?;
    }
    Ok(())
}

fn say_views(out: &mut impl Write, image: &[u8], f: Fields) -> io::Result<()> {
    word(out, b"views")?;
    say_parts(out, image, f, &[Which::Blob, Which::Point, Which::Scalar])?;
    say_view(out, reader_parts::comment(image, f))?;
    say_parts(out, image, f, &[Which::Salt, Which::Ciphertext, Which::Tag])?;
    word(out, b"\n")
}

fn say_rsa_views(out: &mut impl Write, image: &[u8], f: Fields) -> io::Result<()> {
    let numbers = [
        Which::Modulus,
        Which::Exponent,
        Which::D,
        Which::Iqmp,
        Which::P,
        Which::Q,
    ];
    if numbers
        .iter()
        .all(|which| reader_parts::part(image, f, *which).is_empty())
    {
        return Ok(());
    }
    word(out, b"views-rsa")?;
    say_parts(out, image, f, &numbers)?;
    word(out, b"\n")
}

// ---- what the section read says of its header half

fn say_rsa(out: &mut impl Write, private: Private) -> io::Result<()> {
    let numbers = [private.d, private.iqmp, private.p, private.q];
    if numbers.iter().all(|part| *part == Part::ABSENT) {
        return Ok(());
    }
    word(out, b"section-rsa")?;
    for part in numbers {
        say_place(out, part)?;
    }
    word(out, b"\n")
}

fn say_section(out: &mut impl Write, section: Section) -> io::Result<()> {
    word(out, b" 0 0 0")?;
    say_number(out, handed_record::kind_code(section.kind) as usize)?;
    write!(out, " {} {}", section.checkint, section.padding)?;
    say_place(out, section.private.scalar)?;
    say_place(out, section.comment)?;
    say_place(out, section.ciphertext)?;
    say_place(out, section.tag)?;
    replay_telling::say_places(out, section.places)?;
    word(out, b"\n")?;
    say_rsa(out, section.private)
}

fn say_section_read(out: &mut impl Write, image: &[u8], half: Header) -> io::Result<()> {
    word(out, b"section")?;
    match reader_image::read_section(image, half) {
        Err(f) => {
            replay_telling::say_refused(out, f)?;
            word(out, b"\n")
        }
        Ok(g) => say_section(out, g.section),
    }
}

// ---- the record

pub fn say_record(out: &mut impl Write, image: &[u8], f: Fields) -> io::Result<()>
    ensures { IfOk result (λ done. done ≡ tt) }
{
    say_views(out, image, f)?;
    say_rsa_views(out, image, f)?;
    say_section_read(out, image, f.header)
}
