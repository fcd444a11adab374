// A header half that is handed in as plain numbers: the half, if they are an accepted header's.
#![tactic(auto)]

ghost use Rattle.std.specs.Prelude.{◌≡◌};
ghost use Rattle.c_handed.specs.Handed.{code_of, rounds_of, half_from, placed_half, half_of};

use c_numbers::Image;
use key_public::Public;
use names::{Algorithm, Cipher, Kdf};
use names_codes::{algorithm_coded, cipher_coded, kdf_coded};
use reader_header::Header;

// A code is a byte, and 255 names nothing: no `Option`, as `code_of` and `rounds_of`, under `half_own`, are numbers.
#[tactic(auto, unfolding(crate::specs::Handed::code_of))]
fn code_of(number: u64) -> u8
    ensures { result ≡ code_of number }
{
    u8::try_from(number).unwrap_or(255)
}

// Rounds are 32 bits.
#[tactic(auto, unfolding(crate::specs::Handed::rounds_of))]
fn rounds_of(number: u64) -> u32
    ensures { result ≡ rounds_of number }
{
    u32::try_from(number).unwrap_or(0)
}

#[tactic(auto, unfolding(crate::specs::Handed::half_from))]
fn half_from(x: Image, algorithm: Algorithm, cipher: Cipher, kdf: Kdf) -> Header
    ensures { result ≡ half_from x algorithm cipher kdf }
{
    let public = Public {
        point: x.point.into(),
        modulus: x.modulus.into(),
        exponent: x.exponent.into(),
        bits: x.bits as usize,
    };
    Header {
        cipher,
        kdf,
        salt: x.salt.into(),
        rounds: rounds_of(x.rounds),
        count: x.keys as usize,
        algorithm,
        blob: x.blob.into(),
        public,
        section: x.section as usize,
    }
}

// The half with these names and the numbers' places, if all the numbers are that half's.
#[tactic(auto, unfolding(crate::specs::Handed::placed_half, crate::specs::Handed::same_image))]
fn placed(x: Image, algorithm: Algorithm, cipher: Cipher, kdf: Kdf) -> Option<Header>
    ensures { result ≡ placed_half x algorithm cipher kdf }
{
    let half = half_from(x, algorithm, cipher, kdf);
    if x == c_numbers::half_image(half) {
        return Some(half);
    }
    None
}

#[tactic(auto, unfolding(crate::specs::Handed::half_of))]
pub fn half_of(x: Image) -> Option<Header>
    ensures { result ≡ half_of x }
{
    let algorithm = algorithm_coded(code_of(x.algorithm))?;
    let cipher = cipher_coded(code_of(x.cipher))?;
    let kdf = kdf_coded(code_of(x.kdf))?;
    placed(x, algorithm, cipher, kdf)
}
