// What reading an image, its header or its section finds, in the rules' numbers, with no reference in it,
// and the bytes that a record or a half of it holds.
#![tactic(auto)]

ghost use Rattle.std.specs.Prelude.{◌≡◌};
ghost use Rattle.fields.specs.Fields.{IsView};
ghost use Rattle.reader_header.specs.Header.{no_header};
ghost use Rattle.reader_image.specs.Container.{no_fields};
ghost use Rattle.record_found.specs.Found.{found_of, found_at, section_found_at, header_found_at, held_part};

use fields::{Fault, Part};
use names::{Algorithm, Cipher, Elliptic, Kdf};
use places::Places;
use reader_header::Header;
use reader_image::Fields;
use reader_section::{Kind, Section};

// The refusal's number, count and place, 0 where the image is accepted, and the fields that were read, a record's or a half's.
// It isn't a Result, since the replies' promises, `IsReply` and its like, are stated by these three.
#[derive(Clone, Copy)]
pub struct Found<T> {
    pub number: u8,
    pub count: usize,
    pub at: usize,
    pub fields: T,
}

// The half of a refused image has no field.
#[tactic(auto, unfolding(key_public::specs::Keys::point_place))]
fn no_header() -> Header
    ensures { result ≡ no_header }
{
    Header {
        cipher: Cipher::None,
        kdf: Kdf::None,
        salt: Part::ABSENT,
        rounds: 0,
        count: 0,
        algorithm: Algorithm::Elliptic(Elliptic::Ed25519),
        blob: Part::ABSENT,
        public: key_public::at_point(Part::ABSENT),
        section: 0,
    }
}

// Nor has its record.
#[tactic(auto, unfolding(key_pairs::specs::Pairs::scalar_place))]
fn no_fields() -> Fields
    ensures { result ≡ no_fields }
{
    let section = Section {
        kind: Kind::Plain,
        checkint: 0,
        padding: 0,
        private: key_pairs::at_scalar(Part::ABSENT),
        comment: Part::ABSENT,
        places: Places::none(),
        ciphertext: Part::ABSENT,
        tag: Part::ABSENT,
    };
    Fields {
        header: no_header(),
        section,
    }
}

#[tactic(auto, unfolding(reader_image::specs::Container::told_read))]
fn found_of(read: Result<Fields, Fault>) -> Found<Fields>
    ensures { result ≡ found_of read }
{
    match read {
        Ok(fields) => Found {
            number: 0,
            count: 0,
            at: 0,
            fields,
        },
        Err(Fault { why, at }) => Found {
            number: why.number(),
            count: why.count(),
            at,
            fields: no_fields(),
        },
    }
}

#[tactic(auto, unfolding(crate::specs::Found::found_at))]
pub fn find(image: &[u8]) -> Found<Fields>
    ensures { result ≡ found_at image.now }
{
    found_of(reader_image::read(image))
}

#[tactic(auto, unfolding(crate::specs::Found::section_found_at))]
pub fn find_section(image: &[u8], half: Header) -> Found<Fields>
    ensures { result ≡ section_found_at image.now half }
{
    found_of(reader_image::read_section(image, half))
}

// Not by `found_of`: each is stated by a definition of its own, `told_read` and `told_header`.
#[tactic(auto, unfolding(crate::specs::Found::header_found_at, reader_header::specs::Header::told_header))]
pub fn find_header(image: &[u8]) -> Found<Header>
    ensures { result ≡ header_found_at image.now }
{
    match reader_header::read_header(image) {
        Ok(fields) => Found {
            number: 0,
            count: 0,
            at: 0,
            fields,
        },
        Err(Fault { why, at }) => Found {
            number: why.number(),
            count: why.count(),
            at,
            fields: no_header(),
        },
    }
}

// The image itself where it was accepted, else no bytes of it.
#[tactic(auto, unfolding(crate::specs::Found::held_part))]
fn held_by(image: &[u8], number: u8) -> &[u8]
    ensures { IsView result image.entry (held_part image.now number) }
{
    if number == 0 {
        let whole = Part {
            start: 0,
            length: image.len(),
        };
        return fields::view(image, whole);
    }
    fields::view(image, Part::ABSENT)
}

// This and the next aren't one generic function: each has its theorem, `held_determined` and `held_half_determined`.
pub fn held(image: &[u8], found: Found<Fields>) -> &[u8]
    ensures { IsView result image.entry (held_part image.now found.number) }
{
    held_by(image, found.number)
}

pub fn held_half(image: &[u8], half: Found<Header>) -> &[u8]
    ensures { IsView result image.entry (held_part image.now half.number) }
{
    held_by(image, half.number)
}
