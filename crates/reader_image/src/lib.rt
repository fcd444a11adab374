// An image read whole, and its section read from a header half that is handed in. Both go through one
// section step. The record's fields are plain data, places in the image among them.
#![tactic(auto)]

ghost use Rattle.std.specs.Prelude.{◌≡◌, ◌+◌, ◌≤◌, ◌<◌, length};
ghost use Rattle.reader_image.specs.Container.{section_at, AnswersRead, AnswersSection};
ghost use Rattle.reader_image.specs.Form.{scalar_stands, scalar_in_form, others_in_form, scalars_in_form, record_in_form, AnswersForm, AnswersSectionForm};
ghost use Rattle.key_pairs.specs.Pairs.{begins_before};

use fields::{Cursor, Fault, Part, Refusal};
use names::{Algorithm, Elliptic, Kdf};
use places::Places;
use reader_header::Header;
use reader_section::{Kind, Section};

// What an accepted image holds.
#[derive(Clone, Copy)]
pub struct Fields {
    pub header: Header,
    pub section: Section,
}

// The section that goes on from a header. A plain one needs the KDF `none`, whose name begins at 23 after
// the cipher's.
#[tactic(auto, unfolding(crate::specs::Container::section_at, format::specs::Format::magic, fields::specs::Bytes::string, fields::specs::Bytes::uint32))]
fn section_step(image: &[u8], header: Header) -> Result<Section, Fault>
    requires { (header.blob.start + header.blob.length ≤ length image.now) × (0 < header.count) }
    ensures { result ≡ section_at image.now header }
{
    let end = image.len();
    let c = Cursor {
        at: header.section,
        end,
    };
    if !header.cipher.is_none() {
        return reader_section::read_encrypted(c, image, header.cipher);
    }
    match header.kdf {
        Kdf::None => {
            let at = header.blob.start + header.blob.length;
            let second = Cursor { at, end };
            let more = header.count - 1;
            reader_section::read_plain(c, image, header.algorithm, header.public, second, more)
        }
        Kdf::Bcrypt => Err(Refusal::Crypto.at(23)),
    }
}

// The full read: the header read, then the section.
#[tactic(auto, unfolding(crate::specs::Container::read_at))]
pub fn read(image: &[u8]) -> Result<Fields, Fault>
    ensures { AnswersRead image.now result }
{
    let header = reader_header::read_header(image)?;
    let section = section_step(image, header)?;
    Ok(Fields { header, section })
}

// The section read. The half is judged first, by a header read of the image.
#[tactic(auto, unfolding(crate::specs::Container::section_read_at))]
pub fn read_section(image: &[u8], half: Header) -> Result<Fields, Fault>
    ensures { AnswersSection image.now half result }
{
    if !handed_header::is_header(image, half) {
        return Err(Refusal::Length.at(0));
    }
    let section = section_step(image, half)?;
    Ok(Fields {
        header: half,
        section,
    })
}

// Does the string that holds a part begin so many bytes before it? Its length's last byte then stands there.
fn begins_before(image: &[u8], part: Part, zeros: usize) -> bool
    requires { zeros < 2 }
    ensures { result ≡ begins_before image.now part zeros }
{
    if part.start <= zeros {
        return false;
    }
    let last = fields::byte(image, part.start - (zeros + 1)) as usize;
    if last < zeros {
        return false;
    }
    last - zeros == part.length
}

// Does a scalar stand as the writer would write it? A seed always does.
#[tactic(auto, unfolding(crate::specs::Form::scalar_stands))]
fn scalar_stands(image: &[u8], e: Elliptic, scalar: Part) -> bool
    ensures { result ≡ scalar_stands image.now e scalar }
{
    match e {
        Elliptic::Ed25519 => true,
        Elliptic::Ecdsa(_) => {
            if key_public::needs_leading_zero(fields::view(image, scalar)) {
                return begins_before(image, scalar, 1);
            }
            begins_before(image, scalar, 0)
        }
    }
}

// Does it stand so, in a section of this kind and of a key of this algorithm? RSA has none, and of an encrypted image none is
// known.
#[tactic(auto, unfolding(crate::specs::Form::scalar_in_form))]
fn scalar_in_form(image: &[u8], kind: Kind, algorithm: Algorithm, scalar: Part) -> bool
    ensures { result ≡ scalar_in_form image.now kind algorithm scalar }
{
    match kind {
        Kind::Encrypted => true,
        Kind::Plain => match algorithm {
            Algorithm::Elliptic(e) => scalar_stands(image, e, scalar),
            Algorithm::Rsa => true,
        },
    }
}

// Do the scalars of keys stand so that begin at these places, their blobs from b on?
fn others_in_form(image: &[u8], b: Cursor, places: &[u16]) -> bool
    ensures { result ≡ others_in_form image.now b places.now }
{
    let mut blob = b;
    for at in places {
        let Some((key, next)) = reader_entries::read_key(blob, image, *at as usize) else {
            return false;
        };
        if !scalar_in_form(image, Kind::Plain, key.algorithm, key.private.scalar) {
            return false;
        }
        blob = next;
    }
    true
}

// Do all scalars of a record stand so, the first key's and those of the others, whose blobs are from `second` on? Of an
// image's own record, that is whether the image is in the writer's form. No record is handed in: of any record the sum
// `second` could be too large for a number.
#[tactic(auto, unfolding(crate::specs::Form::scalars_in_form), using(places::specs::Places::others_listed))]
pub fn scalars_in_form(
    image: &[u8],
    kind: Kind,
    algorithm: Algorithm,
    scalar: Part,
    second: usize,
    count: usize,
    places: Places,
) -> bool
    ensures { result ≡ scalars_in_form image.now kind algorithm scalar second count places }
{
    if !scalar_in_form(image, kind, algorithm, scalar) {
        return false;
    }
    if count < 2 {
        return true;
    }
    let b = Cursor {
        at: second,
        end: image.len(),
    };
    others_in_form(image, b, &places.all[1..][..(count - 1).min(15)])
}

// The same of a record. With one key its places aren't looked at, nor copied.
fn record_in_form(image: &[u8], f: Fields) -> bool
    requires { f.header.blob.start + f.header.blob.length ≤ length image.now }
    ensures { result ≡ record_in_form image.now f }
{
    let Fields { header, section } = f;
    let scalar = section.private.scalar;
    if header.count < 2 {
        return scalar_in_form(image, section.kind, header.algorithm, scalar);
    }
    scalars_in_form(
        image,
        section.kind,
        header.algorithm,
        scalar,
        header.blob.start + header.blob.length,
        header.count,
        section.places,
    )
}

// The full read, and whether the image is in the writer's form.
#[tactic(auto, unfolding(crate::specs::Form::form_read_at))]
pub fn read_with_form(image: &[u8]) -> Result<(Fields, bool), Fault>
    ensures { AnswersForm image.now result }
{
    let fields = read(image)?;
    Ok((fields, record_in_form(image, fields)))
}

// The section read, and whether the image is in the writer's form.
#[tactic(auto, unfolding(crate::specs::Form::section_form_at))]
pub fn read_section_with_form(image: &[u8], half: Header) -> Result<(Fields, bool), Fault>
    ensures { AnswersSectionForm image.now half result }
{
    let fields = read_section(image, half)?;
    Ok((fields, record_in_form(image, fields)))
}
