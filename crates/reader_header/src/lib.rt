// The container's header: magic, cipher, KDF with its options, key count, public blobs.
// An image and its cursor are two parameters, since a struct of both would put a reference into each answer.
#![tactic(auto)]

ghost use Rattle.std.specs.Prelude.{◌≡◌};
ghost use Rattle.reader_blobs.specs.Blobs.{blobs_at};
ghost use Rattle.reader_header.specs.Header.{magic_at, cipher_at, none_at, bcrypt_at, kdf_at, keys_allowed, count_at, keys_at, AnswersHeader};

use fields::{Cursor, Fault, Part, Read, Refusal};
use key_public::Public;
use names::{Algorithm, Cipher, Kdf};

// The first half of a record. A salt that the KDF doesn't have is absent, and its rounds are 0. algorithm, blob
// and public are the first key's. section is the place of the section's length field.
#[derive(Clone, Copy)]
pub struct Header {
    pub cipher: Cipher,
    pub kdf: Kdf,
    pub salt: Part,
    pub rounds: u32,
    pub count: usize,
    pub algorithm: Algorithm,
    pub blob: Part,
    pub public: Public,
    pub section: usize,
}

// The magic, 15 bytes.
#[tactic(auto, unfolding(crate::specs::Header::magic_at, format::specs::Format::magic))]
fn read_magic(image: &[u8]) -> Read<Part>
    ensures { result ≡ magic_at image.now }
{
    let whole = Cursor {
        at: 0,
        end: image.len(),
    };
    let (magic, next) = whole.bytes(image, 15)?;
    if words::spells(b"openssh-key-v1\x00", fields::view(image, magic)) {
        return Ok((magic, next));
    }
    Err(Refusal::FormatEncoding.at(0))
}

// The image's size, the magic and the cipher's name.
#[tactic(auto, unfolding(crate::specs::Header::cipher_at))]
fn read_cipher(image: &[u8]) -> Read<Cipher>
    ensures { result ≡ cipher_at image.now }
{
    if 65535 < image.len() {
        return Err(Refusal::Size.at(0));
    }
    let (_, c) = read_magic(image)?;
    let (name, next) = c.string(image)?;
    match names::cipher_named(fields::view(image, name)) {
        Some(cipher) => Ok((cipher, next)),
        None => Err(Refusal::AlgorithmUnknown.at(c.at)),
    }
}

// The options of `none`: empty.
#[tactic(auto, unfolding(crate::specs::Header::none_at))]
fn none_options(c: Cursor, image: &[u8]) -> Read<(Kdf, Part, u32)>
    ensures { result ≡ none_at image.now c }
{
    let (options, next) = c.string(image)?;
    if options.length == 0 {
        return Ok(((Kdf::None, Part::ABSENT, 0), next));
    }
    Err(Refusal::Crypto.at(c.at))
}

// The options of `bcrypt`: a salt and the rounds, and nothing after them.
#[tactic(auto, unfolding(crate::specs::Header::bcrypt_at))]
fn bcrypt_options(c: Cursor, image: &[u8]) -> Read<(Kdf, Part, u32)>
    ensures { result ≡ bcrypt_at image.now c }
{
    let (options, next) = c.string(image)?;
    let inside = Cursor {
        at: options.start,
        end: options.start + options.length,
    };
    let (salt, inside) = inside.string(image)?;
    let (rounds, inside) = inside.uint32(image)?;
    inside.finish()?;
    Ok(((Kdf::Bcrypt, salt, rounds), next))
}

// The KDF's name, then its options: kind, salt and rounds.
#[tactic(auto, unfolding(crate::specs::Header::kdf_at))]
fn read_kdf(c: Cursor, image: &[u8]) -> Read<(Kdf, Part, u32)>
    ensures { result ≡ kdf_at image.now c }
{
    let (name, next) = c.string(image)?;
    match names::kdf_named(fields::view(image, name)) {
        Some(Kdf::None) => none_options(next, image),
        Some(Kdf::Bcrypt) => bcrypt_options(next, image),
        None => Err(Refusal::AlgorithmUnknown.at(c.at)),
    }
}

const MOST_KEYS: u32 = 16;

// May an image have so many keys? With a cipher one.
fn keys_allowed(cipher: Cipher, n: u32) -> bool
    ensures { result ≡ keys_allowed cipher n }
{
    n == 1 || (cipher.is_none() && 1 <= n && n <= MOST_KEYS)
}

// The key count.
#[tactic(auto, unfolding(crate::specs::Header::count_at))]
fn read_count(c: Cursor, image: &[u8], cipher: Cipher) -> Read<u32>
    ensures { result ≡ count_at image.now c cipher }
{
    let (n, next) = c.uint32(image)?;
    if keys_allowed(cipher, n) {
        return Ok((n, next));
    }
    Err(Refusal::Length.at(c.at))
}

// The place after so many more blobs; after none it is known, and nothing is called.
#[tactic(auto, unfolding(reader_blobs::specs::Blobs::blobs_at))]
fn read_others(c: Cursor, image: &[u8], more: usize) -> Result<Cursor, Fault>
    ensures { result ≡ blobs_at image.now c more }
{
    if more == 0 {
        return Ok(c);
    }
    reader_blobs::read_blobs(c, image, more)
}

// The first public blob, and the place after the last of those that follow it.
#[tactic(auto, unfolding(crate::specs::Header::keys_at))]
fn read_keys(c: Cursor, image: &[u8], more: usize) -> Read<(Algorithm, Part, Public)>
    ensures { result ≡ keys_at image.now c more }
{
    let (first, next) = reader_blobs::read_blob_field(c, image)?;
    let end = read_others(next, image, more)?;
    Ok((first, end))
}

// The header read: up to and with the last public blob. Whether there is a section, and what it holds, isn't
// looked at.
#[tactic(auto, unfolding(crate::specs::Header::header_at))]
pub fn read_header(image: &[u8]) -> Result<Header, Fault>
    ensures { AnswersHeader image.now result }
{
    let (cipher, c) = read_cipher(image)?;
    let ((kdf, salt, rounds), c) = read_kdf(c, image)?;
    let (n, c) = read_count(c, image, cipher)?;
    let ((algorithm, blob, public), end) = read_keys(c, image, n as usize - 1)?;
    Ok(Header {
        cipher,
        kdf,
        salt,
        rounds,
        count: n as usize,
        algorithm,
        blob,
        public,
        section: end.at,
    })
}
