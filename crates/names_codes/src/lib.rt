// The numbers that stand for an algorithm, a cipher and a KDF where there is nothing but numbers: the C interface has
// them. The algorithm's own is `Algorithm::code`.
#![tactic(auto)]

ghost use Rattle.std.specs.Prelude.{◌≡◌};
ghost use Rattle.names_codes.specs.Codes.{cipher_code, kdf_code, algorithm_coded, cipher_coded, kdf_coded};

use names::{Algorithm, Cipher, Curve, Elliptic, Kdf};

pub fn cipher_code(cipher: Cipher) -> u8
    ensures { result ≡ cipher_code cipher }
{
    cipher as u8
}

pub fn kdf_code(kdf: Kdf) -> u8
    ensures { result ≡ kdf_code kdf }
{
    kdf as u8
}

#[tactic(auto, unfolding(crate::specs::Codes::algorithm_coded))]
pub fn algorithm_coded(code: u8) -> Option<Algorithm>
    ensures { result ≡ algorithm_coded code }
{
    match code {
        0 => Some(Algorithm::Elliptic(Elliptic::Ed25519)),
        1 => Some(Algorithm::Elliptic(Elliptic::Ecdsa(Curve::Nistp256))),
        2 => Some(Algorithm::Elliptic(Elliptic::Ecdsa(Curve::Nistp384))),
        3 => Some(Algorithm::Elliptic(Elliptic::Ecdsa(Curve::Nistp521))),
        4 => Some(Algorithm::Rsa),
        _ => None,
    }
}

#[tactic(auto, unfolding(crate::specs::Codes::cipher_coded))]
pub fn cipher_coded(code: u8) -> Option<Cipher>
    ensures { result ≡ cipher_coded code }
{
    match code {
        0 => Some(Cipher::None),
        1 => Some(Cipher::TripleDesCbc),
        2 => Some(Cipher::Aes128Cbc),
        3 => Some(Cipher::Aes192Cbc),
        4 => Some(Cipher::Aes256Cbc),
        5 => Some(Cipher::Aes128Ctr),
        6 => Some(Cipher::Aes192Ctr),
        7 => Some(Cipher::Aes256Ctr),
        8 => Some(Cipher::Aes128Gcm),
        9 => Some(Cipher::Aes256Gcm),
        _ => None,
    }
}

#[tactic(auto, unfolding(crate::specs::Codes::kdf_coded))]
pub fn kdf_coded(code: u8) -> Option<Kdf>
    ensures { result ≡ kdf_coded code }
{
    match code {
        0 => Some(Kdf::None),
        1 => Some(Kdf::Bcrypt),
        _ => None,
    }
}
