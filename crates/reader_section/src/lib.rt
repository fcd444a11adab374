// The container's section: plain, with its keys and padding, or encrypted, with its tag.
// An image and its cursor are two parameters, since a struct of both would put a reference into each answer.
#![tactic(auto)]

ghost use Rattle.std.specs.Prelude.{◌≡◌, ◌<◌, take};
ghost use Rattle.fields.specs.Bytes.{same_bytes};
ghost use Rattle.format.specs.Format.{padding_bytes};
ghost use Rattle.reader_entries.specs.Entries.{keys_at};
ghost use Rattle.reader_section.specs.Section.{checkints_at, padding_at, plain_of, closed_at, read_more, ends_at, content_at, ended_at, plain_at, encrypted_of, present_of, encrypted_at};

use fields::{Cursor, Fault, Part, Read, Refusal};
use key_pairs::Private;
use key_public::Public;
use names::{Algorithm, Cipher};
use places::Places;

#[derive(Clone, Copy, PartialEq, Eq)]
pub enum Kind {
    Plain,
    Encrypted,
}

// What the section adds to a header. A field that its kind doesn't have is absent, a number 0. private and
// comment are the first key's, and places says where each key begins. A scalar's place is that of its bytes
// without leading zeros; for Ed25519 the seed's. The order is for speed: a number stands between
// private and comment, and each is then copied by itself.
#[derive(Clone, Copy, PartialEq, Eq)]
pub struct Section {
    pub padding: usize,
    pub private: Private,
    pub kind: Kind,
    pub checkint: u32,
    pub comment: Part,
    pub places: Places,
    pub ciphertext: Part,
    pub tag: Part,
}

// What the public blobs say of a section's keys: the first one's kind and public key, where the next blob begins, and how
// many more there are.
#[derive(Clone, Copy)]
struct Blobs {
    algorithm: Algorithm,
    public: Public,
    next: Cursor,
    more: usize,
}

// Two checkints, which must be equal.
#[tactic(auto, unfolding(crate::specs::Section::checkints_at))]
fn read_checkints(c: Cursor, image: &[u8]) -> Read<u32>
    ensures { result ≡ checkints_at image.now c }
{
    let (first, c) = c.uint32(image)?;
    let (second, next) = c.uint32(image)?;
    if second == first {
        return Ok((first, next));
    }
    Err(Refusal::Crypto.at(c.at))
}

// Are they the padding of so many bytes, which are 1, 2, 3 and so on?
#[tactic(auto, unfolding(format::specs::Format::padding_bytes))]
fn counts_up(bytes: &[u8], count: usize) -> bool
    requires { count < 8 }
    ensures { result ≡ same_bytes bytes.now (take count padding_bytes) }
{
    let padding: [u8; 7] = [1, 2, 3, 4, 5, 6, 7];
    fields::same(bytes, &padding[..count])
}

// The padding is what remains: fewer than 8 bytes, which are 1, 2, 3 and so on.
#[tactic(auto, unfolding(crate::specs::Section::padding_at))]
fn read_padding(c: Cursor, image: &[u8]) -> Result<(), Fault>
    ensures { result ≡ padding_at image.now c }
{
    let padding = Part {
        start: c.at,
        length: c.remaining(),
    };
    if 8 <= padding.length {
        return Err(Refusal::Length.at(c.at));
    }
    if counts_up(fields::view(image, padding), padding.length) {
        return Ok(());
    }
    Err(Refusal::FormatEncoding.at(c.at))
}

fn plain(checkint: u32, padding: usize, private: Private, comment: Part, places: Places) -> Section
    ensures { result ≡ plain_of checkint padding private comment places }
{
    Section {
        kind: Kind::Plain,
        checkint,
        padding,
        private,
        comment,
        places,
        ciphertext: Part::ABSENT,
        tag: Part::ABSENT,
    }
}

// Where so many keys from c on begin, their blobs from b on, and the place after the last. It calls itself, as was asked
// (docs/DECISIONS.md, 133): a key's place goes before those of the keys after it.
#[tactic(auto, using(crate::specs::Section::more_none, crate::specs::Section::more_next))]
fn read_more(c: Cursor, image: &[u8], b: Cursor, remaining: usize) -> Read<Places>
    ensures { result ≡ read_more image.now c b remaining }
{
    if remaining == 0 {
        return Ok((Places::none(), c));
    }
    let ((algorithm, _, public), b) = reader_blobs::read_blob_field(b, image)?;
    let (_, next) = reader_entries::read_entry(c, image, algorithm, public)?;
    let (places, end) = read_more(next, image, b, remaining - 1)?;
    Ok((places.push(c.at), end))
}

// The same. After a key alone nothing is called: what a function that calls itself answers is handed up by copies
// (docs/DECISIONS.md, 136).
#[tactic(auto, using(crate::specs::Section::more_none))]
fn read_others(c: Cursor, image: &[u8], b: Cursor, more: usize) -> Read<Places>
    ensures { result ≡ read_more image.now c b more }
{
    if more == 0 {
        return Ok((Places::none(), c));
    }
    read_more(c, image, b, more)
}

// What is left after the last key is padding; past the section the image ends.
#[tactic(auto, unfolding(crate::specs::Section::ends_at))]
fn read_end(c: Cursor, image: &[u8], past: Cursor) -> Result<(), Fault>
    ensures { result ≡ ends_at image.now c past }
{
    read_padding(c, image)?;
    past.finish()
}

// The keys from c on, those of these blobs, the padding after the last and the image's end. The first key's two parts are
// read one by one: as one entry they would be copied once more.
#[tactic(auto, unfolding(crate::specs::Section::followed_at), using(crate::specs::Section::keys_followed, reader_entries::proofs::Pairing::entry_paired))]
fn read_keys(
    c: Cursor,
    image: &[u8],
    blobs: Blobs,
    checkint: u32,
    past: Cursor,
) -> Result<Section, Fault>
    ensures { result ≡ ended_at past (closed_at image.now checkint (keys_at image.now c blobs.algorithm blobs.public blobs.next blobs.more)) }
{
    let (private, next) = reader_entries::read_pair(c, image, blobs.algorithm, blobs.public)?;
    let (comment, next) = reader_entries::read_comment(next, image)?;
    let (others, end) = read_others(next, image, blobs.next, blobs.more)?;
    read_end(end, image, past)?;
    Ok(plain(
        checkint,
        end.remaining(),
        private,
        comment,
        others.push(c.at),
    ))
}

// The inside of a plain section, of which c is the whole, and the image's end. Its keys are those of these blobs.
#[tactic(auto, unfolding(crate::specs::Section::content_at, crate::specs::Section::ended_at))]
fn read_content(c: Cursor, image: &[u8], blobs: Blobs, past: Cursor) -> Result<Section, Fault>
    ensures { result ≡ ended_at past (content_at image.now c blobs.algorithm blobs.public blobs.next blobs.more) }
{
    if c.remaining() % 8 != 0 {
        return Err(Refusal::Length.at(c.at));
    }
    let (checkint, next) = read_checkints(c, image)?;
    read_keys(next, image, blobs, checkint, past)
}

// A plain section and the image's end; what is wrong within the section comes first. The first key is of this algorithm
// and public key; so many more have their blobs from b on. They come one by one, since this crate knows no header.
#[tactic(auto, unfolding(crate::specs::Section::plain_at))]
pub fn read_plain(
    c: Cursor,
    image: &[u8],
    algorithm: Algorithm,
    public: Public,
    b: Cursor,
    more: usize,
) -> Result<Section, Fault>
    ensures { result ≡ plain_at image.now c algorithm public b more }
{
    let (section, past) = c.string(image)?;
    let inside = Cursor {
        at: section.start,
        end: section.start + section.length,
    };
    let blobs = Blobs {
        algorithm,
        public,
        next: b,
        more,
    };
    read_content(inside, image, blobs, past)
}

#[tactic(auto, unfolding(key_pairs::specs::Pairs::scalar_place))]
fn encrypted(ciphertext: Part, tag: Part) -> Section
    ensures { result ≡ encrypted_of ciphertext tag }
{
    Section {
        kind: Kind::Encrypted,
        checkint: 0,
        padding: 0,
        private: key_pairs::at_scalar(Part::ABSENT),
        comment: Part::ABSENT,
        places: Places::none(),
        ciphertext,
        tag,
    }
}

// A tag of no bytes is absent.
#[tactic(auto, unfolding(crate::specs::Section::present_of))]
fn present(tag: Part) -> Part
    ensures { result ≡ present_of tag }
{
    if tag.length == 0 { Part::ABSENT } else { tag }
}

// The ciphertext and, outside its string, the tag of a cipher that has one.
#[tactic(auto, unfolding(crate::specs::Section::encrypted_at))]
pub fn read_encrypted(c: Cursor, image: &[u8], cipher: Cipher) -> Result<Section, Fault>
    ensures { result ≡ encrypted_at image.now c cipher }
{
    let (ciphertext, next) = c.string(image)?;
    if ciphertext.length % cipher.block_size() != 0 {
        return Err(Refusal::Crypto.at(c.at));
    }
    let (tag, end) = next.bytes(image, cipher.tag_length())?;
    end.finish()?;
    Ok(encrypted(ciphertext, present(tag)))
}
