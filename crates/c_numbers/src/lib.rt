// What a read found, the header read alone, or of one key, in plain numbers: the structs of the functions for C that
// read. Their layout is the C interface's: a code for each kind, and 0 for what isn't there.
#![tactic(auto)]

ghost use Rattle.std.specs.Prelude.{◌≡◌};
ghost use Rattle.fields.specs.Fields.{part};
ghost use Rattle.c_numbers.specs.Numbers.{place_of, refused_image, accepted_image, image_of, half_image, header_of, refused_key, accepted_key, looked_key};

use fields::{Fault, Part, Refusal};
use handed_record::kind_code;
use names_codes::{cipher_code, kdf_code};
use reader_entries::KeyFields;
use reader_header::Header;
use reader_image::Fields;

// Where a field stands; 0 and 0 where the image has none.
#[repr(C)]
#[derive(Clone, Copy, Default, PartialEq, Eq)]
pub struct Place {
    pub start: u64,
    pub length: u64,
}

#[repr(C)]
#[derive(Clone, Copy, Default, PartialEq, Eq)]
pub struct Image {
    pub number: u64,
    pub count: u64,
    pub at: u64,
    pub kind: u64,
    pub algorithm: u64,
    pub cipher: u64,
    pub kdf: u64,
    pub rounds: u64,
    pub checkint: u64,
    pub padding: u64,
    pub form: u64,
    pub blob: Place,
    pub point: Place,
    pub scalar: Place,
    pub comment: Place,
    pub salt: Place,
    pub ciphertext: Place,
    pub tag: Place,
    pub section: u64,
    pub bits: u64,
    pub modulus: Place,
    pub exponent: Place,
    pub d: Place,
    pub iqmp: Place,
    pub p: Place,
    pub q: Place,
    pub keys: u64,
}

// One key of an image.
#[repr(C)]
#[derive(Clone, Copy, Default)]
pub struct Key {
    pub number: u64,
    pub count: u64,
    pub at: u64,
    pub algorithm: u64,
    pub bits: u64,
    pub blob: Place,
    pub point: Place,
    pub scalar: Place,
    pub comment: Place,
    pub modulus: Place,
    pub exponent: Place,
    pub d: Place,
    pub iqmp: Place,
    pub p: Place,
    pub q: Place,
}

impl From<Part> for Place {
    ghost from_gives = { λ part place. place ≡ place_of part };

    fn from(part: Part) -> Place {
        Place {
            start: part.start as u64,
            length: part.length as u64,
        }
    }
}

impl From<Place> for Part {
    ghost from_gives = { λ place stands. stands ≡ part place.start place.length };

    fn from(place: Place) -> Part {
        Part {
            start: place.start as usize,
            length: place.length as usize,
        }
    }
}

// A place is converted by `From`, and all that a read answers by a function with the name of its definition, as docs/CONTRACTS.md has them.

fn refused_image(f: Fault) -> Image
    ensures { result ≡ refused_image f }
{
    Image {
        number: f.why.number() as u64,
        count: f.why.count() as u64,
        at: f.at as u64,
        ..Image::default()
    }
}

fn accepted_image(f: Fields, form: bool) -> Image
    ensures { result ≡ accepted_image f form }
{
    let Fields { header, section } = f;
    let public = header.public;
    let private = section.private;
    Image {
        kind: kind_code(section.kind) as u64,
        algorithm: header.algorithm.code() as u64,
        cipher: cipher_code(header.cipher) as u64,
        kdf: kdf_code(header.kdf) as u64,
        rounds: header.rounds as u64,
        checkint: section.checkint as u64,
        padding: section.padding as u64,
        form: u64::from(form),
        blob: header.blob.into(),
        point: public.point.into(),
        scalar: private.scalar.into(),
        comment: section.comment.into(),
        salt: header.salt.into(),
        ciphertext: section.ciphertext.into(),
        tag: section.tag.into(),
        section: header.section as u64,
        bits: public.bits as u64,
        modulus: public.modulus.into(),
        exponent: public.exponent.into(),
        d: private.d.into(),
        iqmp: private.iqmp.into(),
        p: private.p.into(),
        q: private.q.into(),
        keys: header.count as u64,
        ..Image::default()
    }
}

// What a read with the form answered, in numbers.
#[tactic(auto, unfolding(crate::specs::Numbers::image_of))]
pub fn image_of(read: Result<(Fields, bool), Fault>) -> Image
    ensures { result ≡ image_of read }
{
    match read {
        Ok((fields, form)) => accepted_image(fields, form),
        Err(f) => refused_image(f),
    }
}

// An accepted header: kind 3, and 0 for all that a section has.
pub fn half_image(h: Header) -> Image
    ensures { result ≡ half_image h }
{
    let key = h.public;
    Image {
        kind: 3,
        algorithm: h.algorithm.code() as u64,
        cipher: cipher_code(h.cipher) as u64,
        kdf: kdf_code(h.kdf) as u64,
        rounds: h.rounds as u64,
        blob: h.blob.into(),
        point: key.point.into(),
        salt: h.salt.into(),
        section: h.section as u64,
        bits: key.bits as u64,
        modulus: key.modulus.into(),
        exponent: key.exponent.into(),
        keys: h.count as u64,
        ..Image::default()
    }
}

// What a header read answered, in numbers.
#[tactic(auto, unfolding(crate::specs::Numbers::header_of))]
pub fn header_of(read: Result<Header, Fault>) -> Image
    ensures { result ≡ header_of read }
{
    match read {
        Ok(h) => half_image(h),
        Err(f) => refused_image(f),
    }
}

// Of a refused image no key is told.
pub fn refused_key(f: Fault) -> Key
    ensures { result ≡ refused_key f }
{
    Key {
        number: f.why.number() as u64,
        count: f.why.count() as u64,
        at: f.at as u64,
        ..Key::default()
    }
}

fn accepted_key(f: KeyFields) -> Key
    ensures { result ≡ accepted_key f }
{
    let public = f.public;
    let pair = f.private;
    Key {
        algorithm: f.algorithm.code() as u64,
        bits: public.bits as u64,
        blob: f.blob.into(),
        point: public.point.into(),
        scalar: pair.scalar.into(),
        comment: f.comment.into(),
        modulus: public.modulus.into(),
        exponent: public.exponent.into(),
        d: pair.d.into(),
        iqmp: pair.iqmp.into(),
        p: pair.p.into(),
        q: pair.q.into(),
        ..Key::default()
    }
}

// What was found of a key by its number.
#[tactic(auto, unfolding(crate::specs::Numbers::looked_key))]
pub fn looked_key(found: Option<KeyFields>) -> Key
    ensures { result ≡ looked_key found }
{
    match found {
        Some(key) => accepted_key(key),
        None => refused_key(Refusal::Length.at(0)),
    }
}
