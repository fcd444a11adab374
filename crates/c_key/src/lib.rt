// One key of an image, for C.
#![tactic(auto)]

ghost use Rattle.std.specs.Prelude.{◌≡◌};
ghost use Rattle.c_key.specs.Key.{key_c};

use c_numbers::{Key, looked_key, refused_key};

// Key k of an image. Keys count from 1; one that the image doesn't have is 1.
#[tactic(auto, unfolding(crate::specs::Key::key_c))]
pub fn saltorchard_read_key(image: &[u8], k: usize) -> Key
    ensures { result ≡ key_c image.now k }
{
    match reader_image::read(image) {
        Ok(fields) => looked_key(reader_keys::key_of(image, fields, k)),
        Err(f) => refused_key(f),
    }
}
