// RFC 4251's mpint, positive and minimal, of any length, and how many bits it has.
#![tactic(auto)]

ghost use Rattle.std.specs.Prelude.{◌≡◌};
ghost use Rattle.mpint.specs.Mpint.{is_mpint, mpint_at, zeros_before, at_most, modulus_size};

use fields::{Cursor, Part, Read, Refusal};

// Is it a number above zero, with no needless zero before it? Of no bytes, or of one zero, the second byte
// is missing, and counts as 0.
pub fn is_mpint(bytes: &[u8]) -> bool
    ensures { result ≡ is_mpint bytes.now }
{
    let first = fields::byte(bytes, 0);
    if first == 0 {
        return 0x80 <= fields::byte(bytes, 1);
    }
    first < 0x80
}

// A string that is such a number.
#[tactic(auto, unfolding(crate::specs::Mpint::mpint_at))]
pub fn read_mpint(c: Cursor, image: &[u8]) -> Read<Part>
    ensures { result ≡ mpint_at image.now c }
{
    let (number, next) = c.string(image)?;
    if is_mpint(fields::view(image, number)) {
        return Ok((number, next));
    }
    Err(Refusal::FormatEncoding.at(c.at))
}

// How many zeros stand before the first byte that isn't zero.
pub fn zeros_before(bytes: &[u8]) -> usize
    ensures { result ≡ zeros_before bytes.now }
{
    for (i, byte) in bytes.iter().enumerate() {
        if *byte != 0 {
            return i;
        }
    }
    bytes.len()
}

// Has x at most as many bits as y? The bytes from the first that isn't zero say it, and where these are as
// many, that byte's leading zeros.
pub fn at_most(x: &[u8], y: &[u8]) -> bool
    ensures { result ≡ at_most x.now y.now }
{
    let i = zeros_before(x);
    let j = zeros_before(y);
    let x_left = x.len() - i;
    let y_left = y.len() - j;
    if x_left == y_left {
        return u8::leading_zeros(fields::byte(y, j)) <= u8::leading_zeros(fields::byte(x, i));
    }
    x_left < y_left
}

// How many bits a modulus has, if as many as a modulus may have.
pub fn modulus_size(bytes: &[u8]) -> Option<usize>
    ensures { result ≡ modulus_size bytes.now }
{
    let i = zeros_before(bytes);
    let left = bytes.len() - i;
    if left < 128 || 1024 < left {
        return None;
    }
    let bits = 8 * left - u8::leading_zeros(fields::byte(bytes, i)) as usize;
    if bits < 1024 {
        return None;
    }
    Some(bits)
}
