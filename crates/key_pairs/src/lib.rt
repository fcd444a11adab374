// Scalars and keypairs, as a plain section has them.
#![tactic(auto)]

ghost use Rattle.std.specs.Prelude.{◌≡◌, cond, Ok, Err};
ghost use Rattle.fields.specs.Fields.{fault, view_of};
ghost use Rattle.fields.specs.declared.Refusal.TheVariants.{FormatEncoding};
ghost use Rattle.mpint.specs.Mpint.{zeros_before};
ghost use Rattle.key_pairs.specs.Pairs.{is_scalar, significant_part, scalar_at, scalar_place, numbers_place, ed25519_pair_at, ecdsa_pair_at, elliptic_pair_at, rsa_keypair_at, keypair_at};

use fields::{Cursor, Part, Read, Refusal};
use key_public::{Public, at_modulus, at_point};
use key_rsa::Six;
use names::{Algorithm, Curve, Elliptic};

// May a scalar's string have these bytes, so many of them leading zeros? Not zeros alone, and of more than size
// the first is a zero.
#[tactic(auto, unfolding(crate::specs::Pairs::is_scalar))]
fn is_scalar(bytes: &[u8], zeros: usize, size: usize) -> bool
    requires { zeros ≡ zeros_before bytes.now }
    ensures { result ≡ is_scalar size bytes.now }
{
    zeros < bytes.len() && (bytes.len() <= size || fields::byte(bytes, 0) == 0)
}

// A scalar in its string, without leading zeros. The string's field begins at `at`.
fn scalar_in(image: &[u8], stored: Part, next: Cursor, size: usize, at: usize) -> Read<Part>
    ensures { result ≡ cond (is_scalar size (view_of image.now stored)) (Ok (significant_part image.now stored, next)) (Err (fault FormatEncoding at)) }
{
    let bytes = fields::view(image, stored);
    let zeros = mpint::zeros_before(bytes);
    if is_scalar(bytes, zeros, size) {
        let scalar = Part {
            start: stored.start + zeros,
            length: bytes.len() - zeros,
        };
        return Ok((scalar, next));
    }
    Err(Refusal::FormatEncoding.at(at))
}

// A scalar of any size: 1 to size bytes, or size + 1 that begin with a zero. What is read has no leading zeros.
// A longer string is refused like a fixed field of size.
#[tactic(auto, unfolding(crate::specs::Pairs::scalar_at))]
pub fn read_scalar(c: Cursor, image: &[u8], size: usize) -> Read<Part>
    ensures { result ≡ scalar_at image.now c size }
{
    let (stored, next) = c.string(image)?;
    if stored.length == 0 {
        return Err(Refusal::Length.at(c.at));
    }
    if stored.length.saturating_sub(size) > 1 {
        return c.fixed(image, size);
    }
    scalar_in(image, stored, next, size, c.at)
}

// Where a keypair's private parts are: the scalar without leading zeros, or Ed25519's seed; or RSA's d, iqmp, p
// and q. What its kind lacks is absent. It is no enum: a caller hands any of these back, and `handed_record::same_private` compares each.
#[derive(Clone, Copy, PartialEq, Eq)]
pub struct Private {
    pub scalar: Part,
    pub d: Part,
    pub iqmp: Part,
    pub p: Part,
    pub q: Part,
}

#[tactic(auto, unfolding(crate::specs::Pairs::scalar_place))]
pub fn at_scalar(scalar: Part) -> Private
    ensures { result ≡ scalar_place scalar }
{
    Private {
        scalar,
        d: Part::ABSENT,
        iqmp: Part::ABSENT,
        p: Part::ABSENT,
        q: Part::ABSENT,
    }
}

#[tactic(auto, unfolding(crate::specs::Pairs::numbers_place))]
pub fn at_numbers(x: Six) -> Private
    ensures { result ≡ numbers_place x }
{
    let Six { d, iqmp, p, q, .. } = x;
    Private {
        scalar: Part::ABSENT,
        d,
        iqmp,
        p,
        q,
    }
}

// The public string, then seed and public string again in one string of 64.
#[tactic(auto, unfolding(crate::specs::Pairs::ed25519_pair_at))]
pub fn read_ed25519_pair(c: Cursor, image: &[u8]) -> Read<(Algorithm, Public, Private)>
    ensures { result ≡ ed25519_pair_at image.now c }
{
    let (public, c) = c.fixed(image, 32)?;
    let (both, next) = c.fixed(image, 64)?;
    let start = both.start;
    let half = Part {
        start: start + 32,
        length: 32,
    };
    if !fields::same(fields::view(image, half), fields::view(image, public)) {
        return Err(Refusal::Crypto.at(c.at));
    }
    let seed = Part { start, length: 32 };
    let algorithm = Algorithm::Elliptic(Elliptic::Ed25519);
    Ok(((algorithm, at_point(public), at_scalar(seed)), next))
}

// The curve string sets the scalar's size; it is compared with the name's curve only after the scalar.
#[tactic(auto, unfolding(crate::specs::Pairs::ecdsa_pair_at, names::specs::Algorithms::same_algorithm))]
pub fn read_ecdsa_pair(c: Cursor, image: &[u8], named: Curve) -> Read<(Algorithm, Public, Private)>
    ensures { result ≡ ecdsa_pair_at image.now c named }
{
    let ((curve, point), next) = key_public::read_ecdsa_public(c, image)?;
    let (scalar, next) = read_scalar(next, image, curve.size())?;
    if curve != named {
        return Err(Refusal::AlgorithmUnknown.at(c.at));
    }
    let algorithm = Algorithm::Elliptic(Elliptic::Ecdsa(named));
    Ok(((algorithm, at_point(point), at_scalar(scalar)), next))
}

// The fields of a keypair over a curve.
#[tactic(auto, unfolding(crate::specs::Pairs::elliptic_pair_at))]
pub fn read_elliptic_pair(
    c: Cursor,
    image: &[u8],
    named: Elliptic,
) -> Read<(Algorithm, Public, Private)>
    ensures { result ≡ elliptic_pair_at image.now c named }
{
    match named {
        Elliptic::Ed25519 => read_ed25519_pair(c, image),
        Elliptic::Ecdsa(curve) => read_ecdsa_pair(c, image, curve),
    }
}

// The numbers of an RSA keypair.
#[tactic(auto, unfolding(crate::specs::Pairs::rsa_keypair_at))]
pub fn read_rsa_keypair(c: Cursor, image: &[u8]) -> Read<(Algorithm, Public, Private)>
    ensures { result ≡ rsa_keypair_at image.now c }
{
    let ((x, bits), next) = key_rsa::read_rsa_pair(c, image)?;
    Ok((
        (Algorithm::Rsa, at_modulus(x.n, x.e, bits), at_numbers(x)),
        next,
    ))
}

// A keypair, by its own name.
#[tactic(auto, unfolding(crate::specs::Pairs::keypair_at))]
pub fn read_keypair(c: Cursor, image: &[u8]) -> Read<(Algorithm, Public, Private)>
    ensures { result ≡ keypair_at image.now c }
{
    let (name, next) = c.string(image)?;
    match names::algorithm_named(fields::view(image, name)) {
        Some(Algorithm::Elliptic(named)) => read_elliptic_pair(next, image, named),
        Some(Algorithm::Rsa) => read_rsa_keypair(next, image),
        None => Err(Refusal::AlgorithmUnknown.at(c.at)),
    }
}
