// The full read, exported to C.
// The export says word for word what the function of c_read does: the C interface needs it in a static library, which no crate can use.
#![tactic(auto)]

ghost use Rattle.std.specs.Prelude.{◌≡◌};
ghost use Rattle.reader_image.specs.Form.{form_read_at};
ghost use Rattle.c_numbers.specs.Numbers.{image_of};

use c_numbers::Image;

#[unsafe(no_mangle)]
pub extern "C" fn saltorchard_read(image: &[u8]) -> Image
    ensures { result ≡ image_of (form_read_at image.now) }
{
    c_read::saltorchard_read(image)
}
