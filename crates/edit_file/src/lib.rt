// The image that an edit is given: the first n bytes of a lent buffer, which have to be an accepted plain image in the
// writer's form; and where its keys stand. Buffer and n are two parameters, as C hands them in: what is past n is written to.
#![tactic(auto)]

ghost use Rattle.std.specs.Prelude.{◌≡◌};
ghost use Rattle.reader_image.specs.Container.{read_at};
ghost use Rattle.reader_image.specs.Form.{form_of};
ghost use Rattle.edit_file.specs.Edits.{editable_at};
ghost use Rattle.edit_file.specs.Find.{key_stands};

use edit_shells::EditPlaces;
use fields::{Fault, Refusal};
use reader_image::Fields;
use reader_section::Kind;

// Whether an accepted image is in the writer's form, by its record.
fn in_form(image: &[u8], f: Fields) -> bool
    requires { read_at image.now ≡ Ok f }
    ensures { result ≡ form_of image.now f }
{
    let Fields { header, section } = f;
    reader_image::scalars_in_form(
        image,
        section.kind,
        header.algorithm,
        section.private.scalar,
        header.blob.start + header.blob.length,
        header.count,
        section.places,
    )
}

// The record of the image that the first n bytes of a buffer are, if it may be edited.
#[tactic(auto, unfolding(crate::specs::Edits::editable_at, crate::specs::Edits::record_editable))]
pub fn read_to_edit(lent: &[u8], n: usize) -> Result<Fields, Fault>
    ensures { result ≡ editable_at lent.now n }
{
    if 65535 < n {
        return Err(Refusal::Size.at(0));
    }
    if lent.len() < n {
        return Err(Refusal::Length.at(0));
    }
    let image = &lent[..n];
    let fields = reader_image::read(image)?;
    match fields.section.kind {
        Kind::Encrypted => Err(Refusal::Encrypted.at(0)),
        Kind::Plain => {
            if in_form(image, fields) {
                return Ok(fields);
            }
            Err(Refusal::Form.at(0))
        }
    }
}

// How many keys an image that may be edited has, and where its key k stands. Keys count from 1; a missing one is
// refused.
#[tactic(auto, unfolding(crate::specs::Find::key_stands))]
pub fn find_key(lent: &[u8], n: usize, k: usize) -> Result<(usize, EditPlaces), Fault>
    ensures { result ≡ key_stands lent.now n k }
{
    let fields = read_to_edit(lent, n)?;
    let Some(key) = reader_keys::key_of(&lent[..n], fields, k) else {
        return Err(Refusal::Length.at(0));
    };
    let Fields { header, section } = fields;
    let at = EditPlaces {
        blob: key.blob.start - 4,
        after: key.blob.start + key.blob.length,
        section: header.section,
        pair: key.begins,
        field: key.comment.start - 4,
        past: key.comment.start + key.comment.length,
        end: n - section.padding,
    };
    Ok((header.count, at))
}
