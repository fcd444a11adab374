// A record's keys, one by its number: the first by the record's own fields, another by the blob of its number and by the
// place at which its keypair begins.
#![tactic(auto)]

ghost use Rattle.std.specs.Prelude.{◌≡◌};
ghost use Rattle.reader_keys.specs.Keys.{first_fields, other_key, key_numbered};

use fields::{Cursor, Part};
use reader_entries::KeyFields;
use reader_image::Fields;

fn first_key(f: Fields) -> KeyFields
    ensures { result ≡ first_fields f }
{
    let Fields { header, section } = f;
    KeyFields {
        algorithm: header.algorithm,
        blob: header.blob,
        public: header.public,
        begins: section.places.get(0) as usize,
        private: section.private,
        comment: section.comment,
    }
}

// A key after the first: so many blobs stand between the first one's and its own, and its keypair begins at a place.
#[tactic(auto, unfolding(crate::specs::Keys::other_key))]
fn other_key(image: &[u8], first: Part, between: usize, at: usize) -> Option<KeyFields>
    ensures { result ≡ other_key image.now first between at }
{
    let Part { start, length } = first;
    if image.len() < start || image.len() - start < length {
        return None;
    }
    let second = Cursor {
        at: start + length,
        end: image.len(),
    };
    let blob = reader_blobs::read_blobs(second, image, between).ok()?;
    let (key, _) = reader_entries::read_key(blob, image, at)?;
    Some(key)
}

// Key k of a record. Keys count from 1.
#[tactic(auto, unfolding(crate::specs::Keys::key_numbered))]
pub fn key_of(image: &[u8], f: Fields, k: usize) -> Option<KeyFields>
    ensures { result ≡ key_numbered image.now f k }
{
    if k == 0 || f.header.count < k {
        return None;
    }
    if k == 1 {
        return Some(first_key(f));
    }
    let at = f.section.places.get(k - 1) as usize;
    other_key(image, f.header.blob, k - 2, at)
}
