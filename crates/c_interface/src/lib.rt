// The number of the C interface that an archive has.
#![tactic(auto)]

ghost use Rattle.std.specs.Prelude.{◌≡◌};

// Its name is what counts: header and Rust crate refer to it, so that they link only with an archive of their own number.
pub fn saltorchard_interface_10() -> u64
    ensures { result ≡ 10 }
{
    10
}

// The number before settings were there. Nothing that it numbers has changed, but an archive has only the number above.
pub fn saltorchard_interface_9() -> u64
    ensures { result ≡ 9 }
{
    9
}
