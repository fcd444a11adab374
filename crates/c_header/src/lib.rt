// The header read for C.
#![tactic(auto)]

ghost use Rattle.std.specs.Prelude.{◌≡◌};
ghost use Rattle.reader_header.specs.Header.{header_at};
ghost use Rattle.c_numbers.specs.Numbers.{header_of};

use c_numbers::{Image, header_of};

// Up to and with the last public blob, whatever follows.
pub fn saltorchard_read_header(image: &[u8]) -> Image
    ensures { result ≡ header_of (header_at image.now) }
{
    header_of(reader_header::read_header(image))
}
