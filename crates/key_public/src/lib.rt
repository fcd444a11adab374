// Public keys, Ed25519, ECDSA over three curves and RSA, and the lengths of their parts.
#![tactic(auto)]

ghost use Rattle.std.specs.Prelude.{◌≡◌};
ghost use Rattle.fields.specs.Fields.{absent};
ghost use Rattle.format.specs.Format.{public_length, private_length, leading_zero};
ghost use Rattle.key_public.specs.Keys.{point_at, ecdsa_public_at, point_place, modulus_place, ecdsa_key_at, elliptic_key_at, rsa_key_at, public_key_at, blob_at};

use fields::{Cursor, Fault, Part, Read, Refusal};
use names::{Algorithm, Curve, Elliptic};

// A point of the curve's length that begins with 4: uncompressed.
#[tactic(auto, unfolding(crate::specs::Keys::point_at))]
pub fn read_point(c: Cursor, image: &[u8], curve: Curve) -> Read<Part>
    ensures { result ≡ point_at image.now c curve }
{
    let (point, next) = c.fixed(image, curve.point_length())?;
    if image[point.start] == 4 {
        return Ok((point, next));
    }
    Err(Refusal::FormatEncoding.at(c.at))
}

// The curve's name and the point; an unknown curve is refused before the point is read.
#[tactic(auto, unfolding(crate::specs::Keys::ecdsa_public_at))]
pub fn read_ecdsa_public(c: Cursor, image: &[u8]) -> Read<(Curve, Part)>
    ensures { result ≡ ecdsa_public_at image.now c }
{
    let (name, next) = c.string(image)?;
    let Some(curve) = names::curve_named(fields::view(image, name)) else {
        return Err(Refusal::AlgorithmUnknown.at(c.at));
    };
    let (point, next) = read_point(next, image, curve)?;
    Ok(((curve, point), next))
}

// Where a public key's parts are: the point, or Ed25519's public string; or RSA's modulus and exponent, and how
// many bits the modulus has. What its kind lacks is absent, and the bits are 0. It is no enum: a caller hands any of these
// back, and `handed_header::same_public` compares each.
#[derive(Clone, Copy, PartialEq, Eq)]
pub struct Public {
    pub point: Part,
    pub modulus: Part,
    pub exponent: Part,
    pub bits: usize,
}

#[tactic(auto, unfolding(crate::specs::Keys::point_place))]
pub fn at_point(point: Part) -> Public
    ensures { result ≡ point_place point }
{
    Public {
        point,
        modulus: Part::ABSENT,
        exponent: Part::ABSENT,
        bits: 0,
    }
}

#[tactic(auto, unfolding(crate::specs::Keys::modulus_place))]
pub fn at_modulus(modulus: Part, exponent: Part, bits: usize) -> Public
    ensures { result ≡ modulus_place modulus exponent bits }
{
    Public {
        point: Part::ABSENT,
        modulus,
        exponent,
        bits,
    }
}

// The fields of an ECDSA public key whose name says the curve; the two are compared after the point.
#[tactic(auto, unfolding(crate::specs::Keys::ecdsa_key_at, names::specs::Algorithms::same_algorithm))]
pub fn read_ecdsa_key(c: Cursor, image: &[u8], named: Curve) -> Read<(Algorithm, Public)>
    ensures { result ≡ ecdsa_key_at image.now c named }
{
    let ((curve, point), next) = read_ecdsa_public(c, image)?;
    if curve == named {
        let known = Algorithm::Elliptic(Elliptic::Ecdsa(named));
        return Ok(((known, at_point(point)), next));
    }
    Err(Refusal::AlgorithmUnknown.at(c.at))
}

// The fields of a key over a curve.
#[tactic(auto, unfolding(crate::specs::Keys::elliptic_key_at))]
pub fn read_elliptic_key(c: Cursor, image: &[u8], named: Elliptic) -> Read<(Algorithm, Public)>
    ensures { result ≡ elliptic_key_at image.now c named }
{
    match named {
        Elliptic::Ecdsa(curve) => read_ecdsa_key(c, image, curve),
        Elliptic::Ed25519 => {
            let (point, next) = c.fixed(image, 32)?;
            Ok(((Algorithm::Elliptic(named), at_point(point)), next))
        }
    }
}

// The numbers of an RSA key.
#[tactic(auto, unfolding(crate::specs::Keys::rsa_key_at))]
pub fn read_rsa_key(c: Cursor, image: &[u8]) -> Read<(Algorithm, Public)>
    ensures { result ≡ rsa_key_at image.now c }
{
    let ((n, e, bits), next) = key_rsa::read_rsa_public(c, image)?;
    Ok(((Algorithm::Rsa, at_modulus(n, e, bits)), next))
}

// A public key: its algorithm's name and its fields.
#[tactic(auto, unfolding(crate::specs::Keys::public_key_at))]
pub fn read_public_key(c: Cursor, image: &[u8]) -> Read<(Algorithm, Public)>
    ensures { result ≡ public_key_at image.now c }
{
    let (name, next) = c.string(image)?;
    match names::algorithm_named(fields::view(image, name)) {
        Some(Algorithm::Elliptic(named)) => read_elliptic_key(next, image, named),
        Some(Algorithm::Rsa) => read_rsa_key(next, image),
        None => Err(Refusal::AlgorithmUnknown.at(c.at)),
    }
}

// The inside of a public blob: a public key and nothing after it.
#[tactic(auto, unfolding(crate::specs::Keys::blob_at))]
pub fn read_blob(c: Cursor, image: &[u8]) -> Result<(Algorithm, Public), Fault>
    ensures { result ≡ blob_at image.now c }
{
    let (key, end) = read_public_key(c, image)?;
    end.finish()?;
    Ok(key)
}

// ssh-key's `needs_leading_zero`, of a scalar of any size.
pub fn needs_leading_zero(scalar: &[u8]) -> bool
    ensures { result ≡ leading_zero scalar.now }
{
    0x80 <= fields::byte(scalar, 0)
}

// The length of a public string or point.
pub fn public_length(a: Elliptic) -> usize
    ensures { result ≡ public_length a }
{
    match a {
        Elliptic::Ed25519 => 32,
        Elliptic::Ecdsa(curve) => curve.point_length(),
    }
}

// The length of a seed, or of a scalar as a writer takes it.
pub fn private_length(a: Elliptic) -> usize
    ensures { result ≡ private_length a }
{
    match a {
        Elliptic::Ed25519 => 32,
        Elliptic::Ecdsa(curve) => curve.size(),
    }
}
