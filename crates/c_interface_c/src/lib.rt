// The number of the C interface that an archive has, exported. Header and Rust crate refer to this name, so that they link only with an
// archive of their own number.
// The export says word for word what the function of c_interface does: the C interface needs it in a static library, which no crate can use.
#![tactic(auto)]

ghost use Rattle.std.specs.Prelude.{◌≡◌};

#[unsafe(no_mangle)]
pub extern "C" fn saltorchard_interface_10() -> u64
    ensures { result ≡ 10 }
{
    c_interface::saltorchard_interface_10()
}
