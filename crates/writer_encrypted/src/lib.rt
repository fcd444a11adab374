// The writer of encrypted images, from the public blob, the ciphertext and the tag as they are given. It
// checks all, in the rules' order, before it changes a byte.
#![tactic(auto)]

ghost use Rattle.std.specs.Prelude.{◌≡◌, true, ◌+◌, ◌<◌, ◌≤◌, length};
ghost use Rattle.fields.specs.Bytes.{string};
ghost use Rattle.names.specs.Ciphers.{cipher_name, kdf_name};
ghost use Rattle.format.specs.Format.{options};
ghost use Rattle.buffer.specs.Runs.{IsRun};
ghost use Rattle.writer_reply.specs.Reply.{IsSized};
ghost use Rattle.writer_encrypted.specs.Encrypted.{options_fit, IsEncrypted};
ghost use Rattle.writer_encrypted.specs.Parts.{front};
ghost use Rattle.writer_encrypted.specs.Sealed.{sealed_image};

use fields::{Cursor, Refusal};
use names::{Cipher, Kdf};
use writer_reply::Written;

// What an encrypted image is made of.
#[derive(Clone, Copy)]
struct Sealed<'a> {
    cipher: Cipher,
    kdf: Kdf,
    salt: &'a [u8],
    rounds: u32,
    blob: &'a [u8],
    ciphertext: &'a [u8],
    tag: &'a [u8],
}

impl<'a> Sealed<'a> {
    // `none` has no salt and no rounds.
    fn options_fit(&self) -> bool
        ensures { result ≡ options_fit self.now.kdf self.now.salt.now self.now.rounds }
    {
        match self.kdf {
            Kdf::Bcrypt => true,
            Kdf::None => self.salt.is_empty() && self.rounds == 0,
        }
    }

    fn options_length(&self) -> usize
        ensures { (result ≡ length (options self.now.kdf self.now.salt.now self.now.rounds)) × (result ≤ 8 + length self.now.salt.now) }
    {
        match self.kdf {
            Kdf::None => 0,
            Kdf::Bcrypt => 8 + self.salt.len(),
        }
    }

    // The lengths of the two names.
    fn names_length(&self) -> usize
        ensures { (result ≡ length (cipher_name self.now.cipher) + length (kdf_name self.now.kdf)) × (result < 256) }
    {
        names_spelling::cipher_name(self.cipher).length + names_spelling::kdf_name(self.kdf).length
    }

    // The KDF's options, as a string.
    fn put_options(&self, out: &mut [u8], at: usize) -> usize
        ensures { IsRun out.old at (string (options self.now.kdf self.now.salt.now self.now.rounds)) result out.new }
    {
        match self.kdf {
            Kdf::None => buffer::put_uint32(out, at, 0),
            Kdf::Bcrypt => {
                let a = buffer::put_uint32(out, at, 8 + self.salt.len());
                let b = buffer::put_string(out, a, self.salt);
                buffer::put_uint32(out, b, self.rounds as usize)
            }
        }
    }

    // All that stands before the public blob, its length too.
    fn put_front(&self, out: &mut [u8]) -> usize
        ensures { IsRun out.old 0 (front self.now.cipher self.now.kdf self.now.salt.now self.now.rounds (length self.now.blob.now)) result out.new }
    {
        let a = buffer::put(out, 0, b"openssh-key-v1\0");
        let b = names_spelling::put_cipher(out, a, self.cipher);
        let c = names_spelling::put_kdf(out, b, self.kdf);
        let d = self.put_options(out, c);
        let e = buffer::put_uint32(out, d, 1);
        buffer::put_uint32(out, e, self.blob.len())
    }

    // Puts every field. The caller has seen to lengths and room.
    fn put(&self, out: &mut [u8]) -> usize
        ensures { IsRun out.old 0 (sealed_image self.now) result out.new }
    {
        let a = self.put_front(out);
        let b = buffer::put(out, a, self.blob);
        let c = buffer::put_string(out, b, self.ciphertext);
        buffer::put(out, c, self.tag)
    }

    // Writes parts that were checked, if their size and the room allow.
    fn write(&self, out: &mut [u8]) -> Written
        requires { (length self.now.tag.now < 256) × (options_fit self.now.kdf self.now.salt.now self.now.rounds ≡ true) }
        ensures { IsSized (sealed_image self.now) out.old result out.new }
    {
        if 65535 < self.blob.len() || 65535 < self.ciphertext.len() || 65535 < self.salt.len() {
            return writer_reply::refused(Refusal::Size);
        }
        let head = 39 + self.names_length() + self.options_length();
        let size = head + self.blob.len() + self.ciphertext.len() + self.tag.len();
        if 65535 < size {
            return writer_reply::refused(Refusal::Size);
        }
        if out.len() < size {
            return writer_reply::refused(Refusal::Room);
        }
        Ok(self.put(out))
    }
}

// An encrypted image: the public blob, the ciphertext and the tag as they are given. They are seven parameters, as C
// hands them in.
#[tactic(auto, unfolding(crate::specs::Encrypted::encrypted_reply, crate::specs::Encrypted::encrypted_left))]
pub fn write_encrypted(
    cipher: Cipher,
    kdf: Kdf,
    salt: &[u8],
    rounds: u32,
    blob: &[u8],
    ciphertext: &[u8],
    tag: &[u8],
    out: &mut [u8],
) -> Written
    ensures { IsEncrypted cipher kdf salt.now rounds blob.now ciphertext.now tag.now out.old result out.new }
{
    let sealed = Sealed {
        cipher,
        kdf,
        salt,
        rounds,
        blob,
        ciphertext,
        tag,
    };
    if cipher.is_none() || !sealed.options_fit() {
        return writer_reply::refused(Refusal::Crypto);
    }
    let whole = Cursor {
        at: 0,
        end: blob.len(),
    };
    key_public::read_blob(whole, blob).map_err(|f| f.why.at(0))?;
    if ciphertext.len() % cipher.block_size() != 0 {
        return writer_reply::refused(Refusal::Crypto);
    }
    if tag.len() != cipher.tag_length() {
        return writer_reply::refused(Refusal::Length);
    }
    sealed.write(out)
}
