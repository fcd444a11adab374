// Records that are handed in: is every field what an accepted read of the image gives?
#![tactic(auto)]

ghost use Rattle.std.specs.Prelude.{◌≡◌};
ghost use Rattle.handed_record.specs.Judge.{kind_code, same_private, same_section, is_read};

use handed_header::same_header;
use key_pairs::Private;
use reader_image::Fields;
use reader_section::{Kind, Section};

// 1 plain, 2 encrypted: the C interface's numbers.
pub fn kind_code(kind: Kind) -> u8
    ensures { result ≡ kind_code kind }
{
    match kind {
        Kind::Plain => 1,
        Kind::Encrypted => 2,
    }
}

#[tactic(auto, unfolding(crate::specs::Judge::same_private))]
pub fn same_private(a: Private, b: Private) -> bool
    ensures { result ≡ same_private a b }
{
    a == b // every part
}

#[tactic(auto, unfolding(crate::specs::Judge::same_section, crate::specs::Judge::same_private))]
pub fn same_section(a: Section, b: Section) -> bool
    ensures { result ≡ same_section a b }
{
    a == b
}

#[tactic(auto, unfolding(crate::specs::Judge::is_read))]
pub fn is_read(image: &[u8], f: Fields) -> bool
    ensures { result ≡ is_read image.now f }
{
    match reader_image::read(image) {
        Ok(g) => same_header(f.header, g.header) && same_section(f.section, g.section),
        Err(_) => false,
    }
}
