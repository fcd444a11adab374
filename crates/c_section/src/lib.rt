// The section read for C. Before all else a half that isn't the image's is refused with 1.
#![tactic(auto)]

ghost use Rattle.std.specs.Prelude.{◌≡◌};
ghost use Rattle.c_section.specs.Sections.{forged_half, section_c};

use c_handed::half_of;
use c_numbers::{Image, image_of};
use fields::Refusal;

#[tactic(auto, unfolding(c_numbers::specs::Numbers::image_of))]
fn forged_half() -> Image
    ensures { result ≡ forged_half }
{
    image_of(Err(Refusal::Length.at(0)))
}

// The section that goes on from a header, with all that a full read answers.
pub fn saltorchard_read_section(image: &[u8], header: Image) -> Image
    ensures { result ≡ section_c image.now header }
{
    match half_of(header) {
        Some(half) => image_of(reader_image::read_section_with_form(image, half)),
        None => forged_half(),
    }
}
