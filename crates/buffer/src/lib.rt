// Writing into a lent buffer. A put writes all of its bytes at a place and answers the place past them;
// where they don't fit it changes nothing and answers the place that it was given.
#![tactic(auto)]

ghost use Rattle.std.specs.Prelude.{◌≡◌, ◌+◌, ◌≤◌, ◌↔◌, IsTrue, length, take, drop};
ghost use Rattle.fields.specs.Bytes.{uint32, string};
ghost use Rattle.format.specs.Format.{padding_length, padding_bytes};
ghost use Rattle.buffer.specs.Decimal.{last_digit, decimal};
ghost use Rattle.buffer.specs.Puts.{IsPut, zeros};

// Is there room for n bytes at a place?
fn has_room(out: &[u8], at: usize, n: usize) -> bool
    ensures { IsTrue result ↔ (at + n ≤ length out.now) }
{
    at <= out.len() && n <= out.len() - at
}

// By a loop: the library's copy is a memmove, which nothing else here needs.
pub fn put(out: &mut [u8], at: usize, bytes: &[u8]) -> usize
    ensures { IsPut out.old at bytes.now result out.new }
{
    if !has_room(out, at, bytes.len()) {
        return at;
    }
    for i in 0..bytes.len() {
        out[at + i] = bytes[i];
    }
    at + bytes.len()
}

// A number as a uint32: its four lowest bytes, the highest first.
#[tactic(auto, unfolding(fields::specs::Bytes::uint32))]
pub fn put_uint32(out: &mut [u8], at: usize, n: usize) -> usize
    ensures { IsPut out.old at (uint32 n) result out.new }
{
    put(out, at, &n.to_be_bytes()[4..])
}

// A string: its length as a uint32, and its bytes.
pub fn put_string(out: &mut [u8], at: usize, bytes: &[u8]) -> usize
    ensures { IsPut out.old at (string bytes.now) result out.new }
{
    if !has_room(out, at, 4) || !has_room(out, at + 4, bytes.len()) {
        return at;
    }
    let body = put_uint32(out, at, bytes.len());
    put(out, body, bytes)
}

// How many padding bytes take n to a multiple of 8.
pub fn padding(n: usize) -> usize
    ensures { result ≡ padding_length n }
{
    (8 - n % 8) % 8
}

// The first n of the padding bytes, or all seven.
pub fn put_padding(out: &mut [u8], at: usize, n: usize) -> usize
    ensures { IsPut out.old at (take n padding_bytes) result out.new }
{
    let bytes: [u8; 7] = [1, 2, 3, 4, 5, 6, 7];
    put(out, at, &bytes[..n.min(7)])
}

// n zeros.
#[tactic(auto, unfolding(crate::specs::Puts::next, crate::specs::Puts::placed, crate::specs::Puts::fits, crate::specs::Puts::splice, crate::specs::Puts::zeros))]
pub fn put_zeros(out: &mut [u8], at: usize, n: usize) -> usize
    ensures { IsPut out.old at (zeros n) result out.new }
{
    if !has_room(out, at, n) {
        return at;
    }
    let past = at + n;
    out[at..past].fill(0);
    past
}

// The last digit of a number.
fn last_digit(n: usize) -> u8
    ensures { result ≡ last_digit n }
{
    48 + (n % 10) as u8
}

// Writes the digits of a number at the end of a text that has room for any, and answers where they begin.
// The digits come last first, and how many there are is known at their end: no iterator goes so, and the index stays.
fn spell(n: usize, text: &mut [u8; 20]) -> usize
    ensures { (result ≤ 20) × (length text.new ≡ 20) × (drop result text.new ≡ decimal n) }
{
    let mut i = text.len();
    let mut rest = n;
    loop {
        i -= 1;
        text[i] = last_digit(rest);
        rest /= 10;
        if rest == 0 {
            return i;
        }
    }
}

// A number in decimal digits.
pub fn put_decimal(out: &mut [u8], at: usize, n: usize) -> usize
    ensures { IsPut out.old at (decimal n) result out.new }
{
    let mut text = [0u8; 20];
    let start = spell(n, &mut text);
    put(out, at, &text[start..])
}
