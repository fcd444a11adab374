// The read of one key, exported to C.
// The export says word for word what the function of c_key does: the C interface needs it in a static library, which no crate can use.
#![tactic(auto)]

ghost use Rattle.std.specs.Prelude.{◌≡◌};
ghost use Rattle.c_key.specs.Key.{key_c};

use c_numbers::Key;

#[unsafe(no_mangle)]
pub extern "C" fn saltorchard_read_key(image: &[u8], k: usize) -> Key
    ensures { result ≡ key_c image.now k }
{
    c_key::saltorchard_read_key(image, k)
}
