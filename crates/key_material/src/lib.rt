// The material for a new key, and its checkint.
#![tactic(auto)]

ghost use Rattle.std.specs.Prelude.{◌≡◌, ◌+◌, ◌<◌, ◌^◌, length};
ghost use Rattle.format.specs.Format.{standing, scalar_filled};
ghost use Rattle.key_material.specs.Material.{private_of, derived_checkint, checkint_of, zeros_missing, material_of};

use fields::{Cursor, Part};
use names::Elliptic;

// Key material for a new image: one value with room for 133 public and 66 private bytes and their lengths,
// the kind as an enum beside them. A length above its room holds no bytes.
// A rule of the project lays it out so: no heap, fixed memory.
#[derive(Clone, Copy)]
pub struct Material {
    pub algorithm: Elliptic,
    pub public: [u8; 133],
    pub public_length: usize,
    pub private: [u8; 66],
    pub private_length: usize,
}

// The xor of the private bytes' big-endian groups of four; a shorter rest is ignored. Each turn goes on from the place that
// reading a group answers.
pub fn derived_checkint(private: &[u8]) -> u32
    ensures { result ≡ derived_checkint private.now }
{
    let mut checkint = 0;
    let mut at = Cursor {
        at: 0,
        end: private.len(),
    };
    while let Ok((group, next)) = at.uint32(private) {
        checkint ^= group;
        at = next;
    }
    checkint
}

// How many zeros a scalar lacks in front to have its size; a seed lacks none.
#[tactic(auto, unfolding(crate::specs::Material::zeros_missing))]
pub fn zeros_missing(algorithm: Elliptic, private: &[u8]) -> usize
    ensures { result ≡ zeros_missing algorithm private.now }
{
    match algorithm {
        Elliptic::Ed25519 => 0,
        Elliptic::Ecdsa(curve) => curve.size().saturating_sub(private.len()),
    }
}

// The value of public and private bytes, so many zeros before the private ones. A room that is too short has
// zeros only.
fn laid_out(algorithm: Elliptic, public: &[u8], zeros: usize, private: &[u8]) -> Material
    requires { zeros + length private.now < 2 ^ 64 }
    ensures { result ≡ material_of algorithm public.now (standing zeros private.now) }
{
    let mut public_room = [0u8; 133];
    buffer::put(&mut public_room, 0, public);
    let mut private_room = [0u8; 66];
    buffer::put(&mut private_room, zeros, private);
    Material {
        algorithm,
        public: public_room,
        public_length: public.len(),
        private: private_room,
        private_length: zeros + private.len(),
    }
}

impl Material {
    // Public and private bytes with their lengths.
    pub fn new(algorithm: Elliptic, public: &[u8], private: &[u8]) -> Material
        ensures { result ≡ material_of algorithm public.now private.now }
    {
        laid_out(algorithm, public, 0, private)
    }

    // The material of a record's parts: a scalar without leading zeros is filled with zeros in front to its size.
    pub fn filled(algorithm: Elliptic, public: &[u8], private: &[u8]) -> Material
        ensures { result ≡ material_of algorithm public.now (scalar_filled algorithm private.now) }
    {
        laid_out(
            algorithm,
            public,
            zeros_missing(algorithm, private),
            private,
        )
    }

    // The given checkint, or where none is given, that derived from the private bytes.
    #[tactic(auto, unfolding(crate::specs::Material::private_of))]
    pub fn checkint(self, given: Option<u32>) -> u32
        ensures { result ≡ checkint_of given (private_of self) }
    {
        let part = Part {
            start: 0,
            length: self.private_length,
        };
        given.unwrap_or_else(|| derived_checkint(fields::view(&self.private, part)))
    }
}
