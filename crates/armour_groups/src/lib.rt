// Groups of four signs: how many bytes each gives.
#![tactic(auto)]

ghost use Rattle.std.specs.Prelude.{◌≡◌, ◌&&◌, cond, eqb};
ghost use Rattle.armour_signs.specs.Alphabet.{value_of};
ghost use Rattle.armour_groups.specs.Kinds.{kind_of, counted, one_of, two_of};

use armour_signs::{is_sign, value};

// Are these the values of the signs of one byte, and of two? With bits beside the last byte's they are not.

fn is_one(w: u8, x: u8) -> bool
    ensures { result ≡ one_of w x }
{
    (w < 64) & ((x < 64) & (x % 16 == 0))
}

fn is_two(w: u8, x: u8, y: u8) -> bool
    ensures { result ≡ two_of w x y }
{
    (w < 64) & ((x < 64) & ((y < 64) & (y % 4 == 0)))
}

// Before `=`, and before another.
#[tactic(auto, unfolding(crate::specs::Kinds::counted))]
fn one(w: u8, x: u8, z: u8) -> Option<usize>
    ensures { result ≡ counted (cond (eqb z 61 && one_of (value_of w) (value_of x)) 1 0) }
{
    if (z == b'=') & is_one(value(w), value(x)) {
        return Some(1);
    }
    None
}

// Before one `=`.
#[tactic(auto, unfolding(crate::specs::Kinds::counted))]
fn two(w: u8, x: u8, y: u8) -> Option<usize>
    ensures { result ≡ counted (cond (two_of (value_of w) (value_of x) (value_of y)) 2 0) }
{
    if is_two(value(w), value(x), value(y)) {
        return Some(2);
    }
    None
}

// How many bytes four signs give, if they are the signs of some: three, or two before one `=`, or one before two.
pub fn kind(w: u8, x: u8, y: u8, z: u8) -> Option<usize>
    ensures { result ≡ counted (kind_of w x y z) }
{
    if y == b'=' {
        return one(w, x, z);
    }
    if z == b'=' {
        return two(w, x, y);
    }
    if is_sign(w) & (is_sign(x) & (is_sign(y) & is_sign(z))) {
        return Some(3);
    }
    None
}
