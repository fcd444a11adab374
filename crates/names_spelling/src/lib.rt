// The names of algorithms, ciphers and KDFs spelled out: all stand in one table, from which they are put.
#![tactic(auto)]

ghost use Rattle.std.specs.Prelude.{◌≡◌};
ghost use Rattle.fields.specs.Bytes.{string};
ghost use Rattle.fields.specs.Fields.{part, view_of};
ghost use Rattle.names.specs.Ciphers.{cipher_name, kdf_name};
ghost use Rattle.buffer.specs.Puts.{IsPut};
ghost use Rattle.names_spelling.specs.Spelling.{name_table, algorithm_place, cipher_place, kdf_place};

use fields::Part;
use names::{Algorithm, Cipher, Curve, Elliptic, Kdf};

fn named(start: usize, length: usize) -> Part
    ensures { result ≡ part start length }
{
    Part { start, length }
}

// Where each name stands in the table: a place is what these promise, and `algorithm_spelled` and its neighbours are about it.

pub fn algorithm_name(algorithm: Algorithm) -> Part
    ensures { result ≡ algorithm_place algorithm }
{
    match algorithm {
        Algorithm::Elliptic(Elliptic::Ed25519) => named(133, 11),
        Algorithm::Elliptic(Elliptic::Ecdsa(Curve::Nistp256)) => named(145, 19),
        Algorithm::Elliptic(Elliptic::Ecdsa(Curve::Nistp384)) => named(165, 19),
        Algorithm::Elliptic(Elliptic::Ecdsa(Curve::Nistp521)) => named(185, 19),
        Algorithm::Rsa => named(205, 7),
    }
}

pub fn cipher_name(cipher: Cipher) -> Part
    ensures { result ≡ cipher_place cipher }
{
    match cipher {
        Cipher::None => named(0, 4),
        Cipher::TripleDesCbc => named(12, 8),
        Cipher::Aes128Cbc => named(21, 10),
        Cipher::Aes192Cbc => named(32, 10),
        Cipher::Aes256Cbc => named(43, 10),
        Cipher::Aes128Ctr => named(54, 10),
        Cipher::Aes192Ctr => named(65, 10),
        Cipher::Aes256Ctr => named(76, 10),
        Cipher::Aes128Gcm => named(87, 22),
        Cipher::Aes256Gcm => named(110, 22),
    }
}

pub fn kdf_name(kdf: Kdf) -> Part
    ensures { result ≡ kdf_place kdf }
{
    match kdf {
        Kdf::None => named(0, 4),
        Kdf::Bcrypt => named(5, 6),
    }
}

pub fn put_name(out: &mut [u8], at: usize, name: Part) -> usize
    ensures { IsPut out.old at (view_of name_table name) result out.new }
{
    let table =
        b"none bcrypt 3des-cbc aes128-cbc aes192-cbc aes256-cbc aes128-ctr aes192-ctr aes256-ctr \
        aes128-gcm@openssh.com aes256-gcm@openssh.com ssh-ed25519 ecdsa-sha2-nistp256 ecdsa-sha2-nistp384 \
        ecdsa-sha2-nistp521 ssh-rsa";
    buffer::put(out, at, fields::view(table, name))
}

// A name as a string, as an image has it. It is put from bytes of its own: the table would be copied to the stack at each put.

#[tactic(auto, unfolding(fields::specs::Bytes::string, fields::specs::Bytes::uint32))]
pub fn put_cipher(out: &mut [u8], at: usize, cipher: Cipher) -> usize
    ensures { IsPut out.old at (string (cipher_name cipher)) result out.new }
{
    match cipher {
        Cipher::None => buffer::put(out, at, b"\0\0\0\x04none"),
        Cipher::TripleDesCbc => buffer::put(out, at, b"\0\0\0\x083des-cbc"),
        Cipher::Aes128Cbc => buffer::put(out, at, b"\0\0\0\x0aaes128-cbc"),
        Cipher::Aes192Cbc => buffer::put(out, at, b"\0\0\0\x0aaes192-cbc"),
        Cipher::Aes256Cbc => buffer::put(out, at, b"\0\0\0\x0aaes256-cbc"),
        Cipher::Aes128Ctr => buffer::put(out, at, b"\0\0\0\x0aaes128-ctr"),
        Cipher::Aes192Ctr => buffer::put(out, at, b"\0\0\0\x0aaes192-ctr"),
        Cipher::Aes256Ctr => buffer::put(out, at, b"\0\0\0\x0aaes256-ctr"),
        Cipher::Aes128Gcm => buffer::put(out, at, b"\0\0\0\x16aes128-gcm@openssh.com"),
        Cipher::Aes256Gcm => buffer::put(out, at, b"\0\0\0\x16aes256-gcm@openssh.com"),
    }
}

#[tactic(auto, unfolding(fields::specs::Bytes::string, fields::specs::Bytes::uint32))]
pub fn put_kdf(out: &mut [u8], at: usize, kdf: Kdf) -> usize
    ensures { IsPut out.old at (string (kdf_name kdf)) result out.new }
{
    match kdf {
        Kdf::None => buffer::put(out, at, b"\0\0\0\x04none"),
        Kdf::Bcrypt => buffer::put(out, at, b"\0\0\0\x06bcrypt"),
    }
}
