// The header read, exported to C.
// The export says word for word what the function of c_header does: the C interface needs it in a static library, which no crate can use.
#![tactic(auto)]

ghost use Rattle.std.specs.Prelude.{◌≡◌};
ghost use Rattle.reader_header.specs.Header.{header_at};
ghost use Rattle.c_numbers.specs.Numbers.{header_of};

use c_numbers::Image;

#[unsafe(no_mangle)]
pub extern "C" fn saltorchard_read_header(image: &[u8]) -> Image
    ensures { result ≡ header_of (header_at image.now) }
{
    c_header::saltorchard_read_header(image)
}
