// RSA's numbers, as a public blob and a keypair have them: first all are read, then their sizes are looked at.
#![tactic(auto)]

ghost use Rattle.std.specs.Prelude.{◌≡◌, [], ◌∷◌};
ghost use Rattle.fields.specs.Fields.{view_of};
ghost use Rattle.mpint.specs.Mpint.{modulus_size};
ghost use Rattle.key_rsa.specs.Rsa.{two_at, six_at, outside, others_at, others_of, rsa_public_at, rsa_pair_at};

use fields::{Cursor, Fault, Part, Read, Refusal};

// Two mpints, one after the other.
#[tactic(auto, unfolding(crate::specs::Rsa::two_at))]
pub fn read_two(c: Cursor, image: &[u8]) -> Read<(Part, Part)>
    ensures { result ≡ two_at image.now c }
{
    let (a, c) = mpint::read_mpint(c, image)?;
    let (b, c) = mpint::read_mpint(c, image)?;
    Ok(((a, b), c))
}

// A size outside is 1, at the number's field.
#[tactic(auto, unfolding(crate::specs::Rsa::outside))]
fn outside_at(number: Part) -> Fault
    ensures { result ≡ outside number }
{
    Refusal::Length.at(number.start.saturating_sub(4))
}

// Has a number at most as many bits as the modulus n has? One that has no more bytes than these bits fill is
// not looked at.
#[tactic(auto, unfolding(crate::specs::Rsa::others_at))]
fn fits(image: &[u8], n: Part, bits: usize, number: Part) -> Result<(), Fault>
    requires { modulus_size (view_of image.now n) ≡ Some bits }
    ensures { result ≡ others_at image.now n (number ∷ []) }
{
    if number.length <= bits / 8
        || mpint::at_most(fields::view(image, number), fields::view(image, n))
    {
        return Ok(());
    }
    Err(outside_at(number))
}

// A public blob has e before n. What is answered is n, e, and how many bits n has.
#[tactic(auto, unfolding(crate::specs::Rsa::rsa_public_at, crate::specs::Rsa::others_at))]
pub fn read_rsa_public(c: Cursor, image: &[u8]) -> Read<(Part, Part, usize)>
    ensures { result ≡ rsa_public_at image.now c }
{
    let ((e, n), c) = read_two(c, image)?;
    let modulus = fields::view(image, n);
    match mpint::modulus_size(modulus) {
        Some(bits) => {
            fits(image, n, bits, e)?;
            Ok(((n, e, bits), c))
        }
        None => {
            if mpint::at_most(fields::view(image, e), modulus) {
                return Err(outside_at(n));
            }
            Err(outside_at(e))
        }
    }
}

// The six numbers of a keypair, in the order in which they stand.
#[derive(Clone, Copy)]
pub struct Six {
    pub n: Part,
    pub e: Part,
    pub d: Part,
    pub iqmp: Part,
    pub p: Part,
    pub q: Part,
}

#[tactic(auto, unfolding(crate::specs::Rsa::six_at))]
pub fn read_six(c: Cursor, image: &[u8]) -> Read<Six>
    ensures { result ≡ six_at image.now c }
{
    let ((n, e), c) = read_two(c, image)?;
    let ((d, iqmp), c) = read_two(c, image)?;
    let ((p, q), c) = read_two(c, image)?;
    Ok((
        Six {
            n,
            e,
            d,
            iqmp,
            p,
            q,
        },
        c,
    ))
}

// The first, in that order, that has more bits than the modulus.
#[tactic(auto, unfolding(crate::specs::Rsa::others_at))]
fn others_fit(image: &[u8], x: Six, bits: usize) -> Result<(), Fault>
    requires { modulus_size (view_of image.now x.n) ≡ Some bits }
    ensures { result ≡ others_at image.now x.n (others_of x) }
{
    let Six { n, .. } = x;
    fits(image, n, bits, x.e)?;
    fits(image, n, bits, x.d)?;
    fits(image, n, bits, x.iqmp)?;
    fits(image, n, bits, x.p)?;
    fits(image, n, bits, x.q)
}

// The six numbers, and the modulus's bits.
#[tactic(auto, unfolding(crate::specs::Rsa::rsa_pair_at))]
pub fn read_rsa_pair(c: Cursor, image: &[u8]) -> Read<(Six, usize)>
    ensures { result ≡ rsa_pair_at image.now c }
{
    let (six, next) = read_six(c, image)?;
    let Some(bits) = mpint::modulus_size(fields::view(image, six.n)) else {
        return Err(outside_at(six.n));
    };
    others_fit(image, six, bits)?;
    Ok(((six, bits), next))
}
