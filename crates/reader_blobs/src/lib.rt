// The public blobs of a container, one after the other.
// An image and its cursor are two parameters, since a struct of both would put a reference into each answer.
#![tactic(auto)]

ghost use Rattle.std.specs.Prelude.{◌≡◌};
ghost use Rattle.reader_blobs.specs.Blobs.{blob_field_at, blobs_at};

use fields::{Cursor, Fault, Part, Read};
use key_public::Public;
use names::Algorithm;

// A public blob: a string that is a public key and nothing after it.
#[tactic(auto, unfolding(crate::specs::Blobs::blob_field_at))]
pub fn read_blob_field(c: Cursor, image: &[u8]) -> Read<(Algorithm, Part, Public)>
    ensures { result ≡ blob_field_at image.now c }
{
    let (blob, next) = c.string(image)?;
    let inside = Cursor {
        at: blob.start,
        end: blob.start + blob.length,
    };
    let (algorithm, public) = key_public::read_blob(inside, image)?;
    Ok(((algorithm, blob, public), next))
}

// So many blobs, each whole before the next is looked at: the place after the last.
pub fn read_blobs(c: Cursor, image: &[u8], remaining: usize) -> Result<Cursor, Fault>
    ensures { result ≡ blobs_at image.now c remaining }
{
    let mut place = c;
    for _ in 0..remaining {
        let (_, next) = read_blob_field(place, image)?;
        place = next;
    }
    Ok(place)
}
