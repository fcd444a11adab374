// A key of a plain section: its keypair, held to the blob of its number, and its comment. The definitions are of one
// key after the other. An image and its cursor are two parameters, since a struct of both would put a reference into each
// answer; kind and public key are two, as in those definitions and in the fields of a header.
#![tactic(auto)]

ghost use Rattle.std.specs.Prelude.{◌≡◌};
ghost use Rattle.fields.specs.Bytes.{same_bytes};
ghost use Rattle.fields.specs.Fields.{view_of};
ghost use Rattle.reader_entries.specs.Entries.{same_key, pair_at, entry_at, comment_at, key_placed};

use fields::{Cursor, Part, Read, Refusal};
use key_pairs::Private;
use key_public::Public;
use names::Algorithm;

// Are the bytes of two parts the same? Two that have none are, and nothing is looked at.
fn same_bytes(image: &[u8], p: Part, q: Part) -> bool
    ensures { result ≡ same_bytes (view_of image.now p) (view_of image.now q) }
{
    if p.length == 0 && q.length == 0 {
        return true;
    }
    fields::same(fields::view(image, p), fields::view(image, q))
}

// Is it the same public key, kind included? Inlined, for `read_pair`.
#[inline(always)]
#[tactic(auto, unfolding(crate::specs::Entries::same_key, names::specs::Algorithms::same_algorithm))]
fn same_key(image: &[u8], a: Algorithm, p: Public, b: Algorithm, q: Public) -> bool
    ensures { result ≡ same_key image.now a p b q }
{
    a == b
        && same_bytes(image, p.point, q.point)
        && same_bytes(image, p.modulus, q.modulus)
        && same_bytes(image, p.exponent, q.exponent)
}

// A comment's string, which must be UTF-8.
#[tactic(auto, unfolding(crate::specs::Entries::comment_at))]
pub fn read_comment(c: Cursor, image: &[u8]) -> Read<Part>
    ensures { result ≡ comment_at image.now c }
{
    let (comment, next) = c.string(image)?;
    if utf8::is_utf8(fields::view(image, comment)) {
        return Ok((comment, next));
    }
    Err(Refusal::CharacterEncoding.at(c.at))
}

// A private key, and the place after its keypair, which is held to the public key of its blob. RSA and the curves go apart: the compiler
// then knows what a kind lacks, and neither compares nor copies it.
#[tactic(auto, unfolding(crate::specs::Entries::pair_at))]
pub fn read_pair(c: Cursor, image: &[u8], algorithm: Algorithm, public: Public) -> Read<Private>
    ensures { result ≡ pair_at image.now c algorithm public }
{
    let ((a, p, private), next) = key_pairs::read_keypair(c, image)?;
    match a {
        Algorithm::Rsa => {
            if same_key(image, Algorithm::Rsa, p, algorithm, public) {
                return Ok((private, next));
            }
        }
        Algorithm::Elliptic(_) => {
            if same_key(image, a, p, algorithm, public) {
                return Ok((private, next));
            }
        }
    }
    Err(Refusal::PublicKey.at(c.at))
}

// One key of a section: its keypair, held to the public key of its blob, and its comment.
#[tactic(auto, using(crate::proofs::Pairing::entry_paired))]
pub fn read_entry(
    c: Cursor,
    image: &[u8],
    algorithm: Algorithm,
    public: Public,
) -> Read<(Private, Part)>
    ensures { result ≡ entry_at image.now c algorithm public }
{
    let (private, next) = read_pair(c, image, algorithm, public)?;
    let (comment, next) = read_comment(next, image)?;
    Ok(((private, comment), next))
}

// One key of an image: its kind, its blob and the public key there, where its keypair begins, its private key and its
// comment.
#[derive(Clone, Copy)]
pub struct KeyFields {
    pub algorithm: Algorithm,
    pub blob: Part,
    pub public: Public,
    pub begins: usize,
    pub private: Private,
    pub comment: Part,
}

// The key whose blob is at b and whose keypair begins at a place, and the place after its blob.
#[tactic(auto, unfolding(crate::specs::Entries::key_placed))]
pub fn read_key(b: Cursor, image: &[u8], at: usize) -> Option<(KeyFields, Cursor)>
    ensures { result ≡ key_placed image.now b at }
{
    let ((algorithm, blob, public), next) = reader_blobs::read_blob_field(b, image).ok()?;
    let c = Cursor {
        at,
        end: image.len(),
    };
    let ((private, comment), _) = read_entry(c, image, algorithm, public).ok()?;
    let key = KeyFields {
        algorithm,
        blob,
        public,
        begins: at,
        private,
        comment,
    };
    Some((key, next))
}
