// A record that holds the lent image itself, and thin accessors over it. Each is that part of the caller's
// own image, the empty part where the record lacks the field or its place isn't within the image.
#![tactic(auto)]

ghost use Rattle.fields.specs.Fields.{IsView};
ghost use Rattle.reader_parts.specs.Parts.{place_of};

use reader_image::Fields;
use reader_parts::Which;

#[derive(Clone, Copy)]
pub struct Record<'a> {
    pub image: &'a [u8],
    pub fields: Fields,
}

pub fn part<'a>(r: Record<'a>, which: Which) -> &'a [u8]
    ensures { IsView result r.entry.image (place_of which r.entry.fields) }
{
    reader_parts::part(r.image, r.fields, which)
}

pub fn comment<'a>(r: Record<'a>) -> &'a [u8]
    ensures { IsView result r.entry.image r.entry.fields.section.comment }
{
    reader_parts::comment(r.image, r.fields)
}
