// Halves that are handed in: is every field what an accepted header read of the image gives?
#![tactic(auto)]

ghost use Rattle.std.specs.Prelude.{◌≡◌, eqb};
ghost use Rattle.names.specs.Algorithms.{algorithm_code};
ghost use Rattle.names_codes.specs.Codes.{cipher_code, kdf_code};
ghost use Rattle.handed_header.specs.Halves.{same_part, same_public, same_header, is_header};

use fields::Part;
use key_public::Public;
use names::{Algorithm, Cipher, Kdf};
use reader_header::Header;

pub fn same_part(a: Part, b: Part) -> bool
    ensures { result ≡ same_part a b }
{
    a == b
}

#[tactic(auto, unfolding(crate::specs::Halves::same_public))]
pub fn same_public(a: Public, b: Public) -> bool
    ensures { result ≡ same_public a b }
{
    a == b // bits too
}

// Each kind by a function of its own, and a header field by field: the cases of the three kinds together are too many for the
// proof of the derived `==` of a whole header.
fn same_cipher(a: Cipher, b: Cipher) -> bool
    ensures { result ≡ eqb (cipher_code a) (cipher_code b) }
{
    a == b
}

fn same_kdf(a: Kdf, b: Kdf) -> bool
    ensures { result ≡ eqb (kdf_code a) (kdf_code b) }
{
    a == b
}

fn same_algorithm(a: Algorithm, b: Algorithm) -> bool
    ensures { result ≡ eqb (algorithm_code a) (algorithm_code b) }
{
    a == b
}

#[tactic(auto, unfolding(crate::specs::Halves::same_header, crate::specs::Halves::same_public))]
pub fn same_header(a: Header, b: Header) -> bool
    ensures { result ≡ same_header a b }
{
    same_cipher(a.cipher, b.cipher)
        && same_kdf(a.kdf, b.kdf)
        && a.salt == b.salt
        && a.rounds == b.rounds
        && a.count == b.count
        && same_algorithm(a.algorithm, b.algorithm)
        && a.blob == b.blob
        && a.public == b.public
        && a.section == b.section
}

#[tactic(auto, unfolding(crate::specs::Halves::is_header))]
pub fn is_header(image: &[u8], half: Header) -> bool
    ensures { result ≡ is_header image.now half }
{
    match reader_header::read_header(image) {
        Ok(header) => same_header(half, header),
        Err(_) => false,
    }
}
