// The section read, exported to C.
// The export says word for word what the function of c_section does: the C interface needs it in a static library, which no crate can use.
#![tactic(auto)]

ghost use Rattle.std.specs.Prelude.{◌≡◌};
ghost use Rattle.c_section.specs.Sections.{section_c};

use c_numbers::Image;

#[unsafe(no_mangle)]
pub extern "C" fn saltorchard_read_section(image: &[u8], header: Image) -> Image
    ensures { result ≡ section_c image.now header }
{
    c_section::saltorchard_read_section(image, header)
}
