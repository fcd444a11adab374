// Reads a plain image from standard input and writes its keys afresh to standard output: each with its material and
// its comment, in their order, with the checkint that is derived from the first. What can't be written is refused on
// standard error.
#![tactic(auto)]

use fields::Refusal;
use key_material::Material;
use names::Algorithm;
use reader_image::Fields;
use reader_parts::Which;
use reader_section::{Kind, Section};
use std::io;

// The checkint of the first key's private bytes, a scalar's filled to its size.
fn derived_checkint(image: &[u8], f: Fields) -> u32 {
    match f.header.algorithm {
        Algorithm::Elliptic(kind) => {
            let m = Material::filled(
                kind,
                reader_parts::part(image, f, Which::Point),
                reader_parts::part(image, f, Which::Scalar),
            );
            m.checkint(None)
        }
        Algorithm::Rsa => key_material::derived_checkint(reader_parts::part(image, f, Which::D)),
    }
}

// The same record under another checkint.
fn with_checkint(f: Fields, checkint: u32) -> Fields {
    let section = Section {
        checkint,
        ..f.section
    };
    Fields { section, ..f }
}

fn write(rt: HostRuntime, image: &[u8], f: Fields) -> io::Result<()> {
    match f.section.kind {
        Kind::Plain => {
            let mut out = [0u8; 65536];
            let record = with_checkint(f, derived_checkint(image, f));
            let written = writer_listed::write_listed(image, record, &mut out);
            standard_streams::hand_out(
                &mut rt.stdout(),
                &mut rt.stderr(),
                written,
                &out,
                b"afresh: standard output",
            )
        }
        Kind::Encrypted => {
            standard_streams::tell_refused(&mut rt.stderr(), Refusal::Encrypted.at(0))
        }
    }
}

fn main(rt: HostRuntime) -> io::Result<()> {
    let mut buffer = [0u8; 65536];
    let n = standard_streams::read_full(&mut rt.stdin(), &mut buffer);
    let image = &buffer[..n];
    match reader_image::read(image) {
        Err(f) => standard_streams::tell_refused(&mut rt.stderr(), f),
        Ok(f) => write(rt, image, f),
    }
}
