// The parts of an image that its record names. Each is that part of the caller's own image, the empty part
// where the record lacks the field or its place isn't within the image.
#![tactic(auto)]

ghost use Rattle.std.specs.Prelude.{◌≡◌};
ghost use Rattle.fields.specs.Fields.{IsView};
ghost use Rattle.reader_parts.specs.Parts.{place_of};

use fields::Part;
use reader_image::Fields;

// Which part of a record: the blob's fields, the section's, and an RSA key's six numbers.
#[derive(Clone, Copy)]
pub enum Which {
    Blob,
    Point,
    Salt,
    Scalar,
    Comment,
    Ciphertext,
    Tag,
    Modulus,
    Exponent,
    D,
    Iqmp,
    P,
    Q,
}

fn place(f: Fields, which: Which) -> Part
    ensures { result ≡ place_of which f }
{
    match which {
        Which::Blob => f.header.blob,
        Which::Point => f.header.public.point,
        Which::Salt => f.header.salt,
        Which::Scalar => f.section.private.scalar,
        Which::Comment => f.section.comment,
        Which::Ciphertext => f.section.ciphertext,
        Which::Tag => f.section.tag,
        Which::Modulus => f.header.public.modulus,
        Which::Exponent => f.header.public.exponent,
        Which::D => f.section.private.d,
        Which::Iqmp => f.section.private.iqmp,
        Which::P => f.section.private.p,
        Which::Q => f.section.private.q,
    }
}

pub fn part(image: &[u8], f: Fields, which: Which) -> &[u8]
    ensures { IsView result image.entry (place_of which f) }
{
    fields::view(image, place(f, which))
}

pub fn comment(image: &[u8], f: Fields) -> &[u8]
    ensures { IsView result image.entry f.section.comment }
{
    fields::view(image, f.section.comment)
}
