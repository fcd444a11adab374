// The alphabet of base64 (RFC 4648, table 1): the sign of each value, the value of each sign, and which bytes are signs.
//
// A table is handed out whole, so that a caller builds it once and lends it to what looks into it.
#![tactic(auto)]

ghost use Rattle.std.specs.Prelude.{◌≡◌, ◌&&◌, ◌+◌, leb, length};
ghost use Rattle.armour_signs.specs.Alphabet.{signs, value_of, values, is_sign, all_signs};

// The signs, each at its value.
#[tactic(auto, unfolding(crate::specs::Alphabet::signs))]
pub fn sign_table() -> [u8; 64]
    ensures { result ≡ signs }
{
    *b"ABCDEFGHIJKLMNOPQRSTUVWXYZabcdefghijklmnopqrstuvwxyz0123456789+/"
}

// The value of each byte. Where it is no sign: 64, which is `@`.
#[tactic(auto, unfolding(crate::specs::Alphabet::values, crate::specs::Alphabet::value_of, crate::specs::Alphabet::signs))]
pub fn value_table() -> [u8; 256]
    ensures { result ≡ values }
{
    *b"@@@@@@@@@@@@@@@@@@@@@@@@@@@@@@@@@@@@@@@@@@@\x3e@@@\x3f\x34\x35\x36\x37\x38\x39\x3a\x3b\x3c\x3d@@@@@@\
        @\x00\x01\x02\x03\x04\x05\x06\x07\x08\x09\x0a\x0b\x0c\x0d\x0e\x0f\x10\x11\x12\x13\x14\x15\x16\x17\x18\x19@@@@@@\x1a\x1b\x1c\x1d\x1e\x1f\x20\x21\x22\x23\x24\x25\x26\x27\x28\x29\x2a\x2b\x2c\x2d\x2e\x2f\x30\x31\x32\x33@@@@@\
        @@@@@@@@@@@@@@@@@@@@@@@@@@@@@@@@@@@@@@@@@@@@@@@@@@@@@@@@@@@@@@@@\
        @@@@@@@@@@@@@@@@@@@@@@@@@@@@@@@@@@@@@@@@@@@@@@@@@@@@@@@@@@@@@@@@"
}

// One byte's value. What looks up many lends itself the table instead.
pub fn value(c: u8) -> u8
    ensures { result ≡ value_of c }
{
    value_table()[c as usize]
}

// By ranges, without a jump, and not by the table: of many bytes, compiled, it is vector code.
pub fn is_sign(c: u8) -> bool
    ensures { result ≡ is_sign c }
{
    ((b'A' <= c) & (c <= b'Z'))
        | ((b'a' <= c) & (c <= b'z'))
        | ((b'0' <= c) & (c <= b'9'))
        | (c == b'+')
        | (c == b'/')
}

// Are the n bytes from the place on there, and all signs? All are looked at, without a jump: compiled, it is vector code.
pub fn all_signs(text: &[u8], at: usize, n: usize) -> bool
    ensures { result ≡ (leb (at + n) (length text.now) && all_signs n text.now at) }
{
    if text.len() < n || text.len() - n < at {
        return false;
    }
    let mut good = true;
    for c in &text[at..at + n] {
        good &= is_sign(*c);
    }
    good
}
