// The names that a container may hold: ciphers with block size and tag length, KDFs, algorithms and
// curves with SIZE.
#![tactic(auto)]

ghost use Rattle.std.specs.Prelude.{◌≡◌, ◌+◌, ◌*◌};
ghost use Rattle.names.specs.Ciphers.{cipher_named, cbc_named, ctr_named, gcm_named, is_none, block_size, tag_length, kdf_named};
ghost use Rattle.names.specs.Algorithms.{curve_named, size_of, algorithm_named, algorithm_code};

use words::spells;

#[derive(Clone, Copy, PartialEq, Eq)]
pub enum Cipher {
    None,
    TripleDesCbc,
    Aes128Cbc,
    Aes192Cbc,
    Aes256Cbc,
    Aes128Ctr,
    Aes192Ctr,
    Aes256Ctr,
    Aes128Gcm,
    Aes256Gcm,
}

// The table's rows, one after the other. `spells` compares up to eight bytes at once; a `match` on byte strings, compiled, compares each.
pub fn cipher_named(name: &[u8]) -> Option<Cipher>
    ensures { result ≡ cipher_named name.now }
{
    if spells(b"none", name) {
        return Some(Cipher::None);
    }
    if spells(b"3des-cbc", name) {
        return Some(Cipher::TripleDesCbc);
    }
    cbc_named(name)
}

fn cbc_named(name: &[u8]) -> Option<Cipher>
    ensures { result ≡ cbc_named name.now }
{
    if spells(b"aes128-cbc", name) {
        return Some(Cipher::Aes128Cbc);
    }
    if spells(b"aes192-cbc", name) {
        return Some(Cipher::Aes192Cbc);
    }
    if spells(b"aes256-cbc", name) {
        return Some(Cipher::Aes256Cbc);
    }
    ctr_named(name)
}

fn ctr_named(name: &[u8]) -> Option<Cipher>
    ensures { result ≡ ctr_named name.now }
{
    if spells(b"aes128-ctr", name) {
        return Some(Cipher::Aes128Ctr);
    }
    if spells(b"aes192-ctr", name) {
        return Some(Cipher::Aes192Ctr);
    }
    if spells(b"aes256-ctr", name) {
        return Some(Cipher::Aes256Ctr);
    }
    gcm_named(name)
}

fn gcm_named(name: &[u8]) -> Option<Cipher>
    ensures { result ≡ gcm_named name.now }
{
    if spells(b"aes128-gcm@openssh.com", name) {
        return Some(Cipher::Aes128Gcm);
    }
    if spells(b"aes256-gcm@openssh.com", name) {
        return Some(Cipher::Aes256Gcm);
    }
    None
}

impl Cipher {
    pub const SMALL_BLOCK: usize = 8;

    pub const LARGE_BLOCK: usize = 16;

    pub fn is_none(self) -> bool
        ensures { result ≡ is_none self }
    {
        self == Cipher::None
    }

    pub fn block_size(self) -> usize
        ensures { result ≡ block_size self }
    {
        match self {
            Cipher::None | Cipher::TripleDesCbc => Cipher::SMALL_BLOCK,
            _ => Cipher::LARGE_BLOCK,
        }
    }

    pub fn tag_length(self) -> usize
        ensures { result ≡ tag_length self }
    {
        match self {
            Cipher::Aes128Gcm | Cipher::Aes256Gcm => Cipher::LARGE_BLOCK,
            _ => 0,
        }
    }
}

#[derive(Clone, Copy, PartialEq, Eq)]
pub enum Kdf {
    None,
    Bcrypt,
}

#[tactic(auto, unfolding(crate::specs::Ciphers::kdf_named))]
pub fn kdf_named(name: &[u8]) -> Option<Kdf>
    ensures { result ≡ kdf_named name.now }
{
    if spells(b"none", name) {
        return Some(Kdf::None);
    }
    if spells(b"bcrypt", name) {
        return Some(Kdf::Bcrypt);
    }
    None
}

#[derive(Clone, Copy, PartialEq, Eq)]
pub enum Curve {
    Nistp256,
    Nistp384,
    Nistp521,
}

impl Curve {
    // SIZE, the length of a coordinate, and of a scalar as a writer takes it.
    pub fn size(self) -> usize
        ensures { result ≡ size_of self }
    {
        match self {
            Curve::Nistp256 => 32,
            Curve::Nistp384 => 48,
            Curve::Nistp521 => 66,
        }
    }

    // The length of an uncompressed point.
    pub fn point_length(self) -> usize
        ensures { result ≡ 1 + 2 * size_of self }
    {
        1 + 2 * self.size()
    }
}

pub fn curve_named(name: &[u8]) -> Option<Curve>
    ensures { result ≡ curve_named name.now }
{
    if spells(b"nistp256", name) {
        return Some(Curve::Nistp256);
    }
    if spells(b"nistp384", name) {
        return Some(Curve::Nistp384);
    }
    if spells(b"nistp521", name) {
        return Some(Curve::Nistp521);
    }
    None
}

// The four whose keys are a point and a scalar, or a public string and a seed, of a length that the name tells.
#[derive(Clone, Copy, PartialEq, Eq)]
pub enum Elliptic {
    Ed25519,
    Ecdsa(Curve),
}

#[derive(Clone, Copy, PartialEq, Eq)]
pub enum Algorithm {
    Elliptic(Elliptic),
    Rsa,
}

pub fn algorithm_named(name: &[u8]) -> Option<Algorithm>
    ensures { result ≡ algorithm_named name.now }
{
    if spells(b"ssh-ed25519", name) {
        return Some(Algorithm::Elliptic(Elliptic::Ed25519));
    }
    if spells(b"ecdsa-sha2-nistp256", name) {
        return Some(Algorithm::Elliptic(Elliptic::Ecdsa(Curve::Nistp256)));
    }
    if spells(b"ecdsa-sha2-nistp384", name) {
        return Some(Algorithm::Elliptic(Elliptic::Ecdsa(Curve::Nistp384)));
    }
    if spells(b"ecdsa-sha2-nistp521", name) {
        return Some(Algorithm::Elliptic(Elliptic::Ecdsa(Curve::Nistp521)));
    }
    if spells(b"ssh-rsa", name) {
        return Some(Algorithm::Rsa);
    }
    None
}

impl Algorithm {
    // A number for each algorithm, another for another: the C interface's.
    pub fn code(self) -> u8
        ensures { result ≡ algorithm_code self }
    {
        match self {
            Algorithm::Elliptic(e) => match e {
                Elliptic::Ed25519 => 0,
                Elliptic::Ecdsa(curve) => match curve {
                    Curve::Nistp256 => 1,
                    Curve::Nistp384 => 2,
                    Curve::Nistp521 => 3,
                },
            },
            Algorithm::Rsa => 4,
        }
    }
}
