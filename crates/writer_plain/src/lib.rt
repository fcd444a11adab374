// The plain writer of one key, over a curve or of RSA: the key's parts and a comment to an image. It checks all, in
// the rules' order, before it changes a byte.
#![tactic(auto)]

ghost use Rattle.std.specs.Prelude.{◌≡◌, ◌<◌, length};
ghost use Rattle.fields.specs.Bytes.{string};
ghost use Rattle.names.specs.declared.Algorithm.TheVariants.{Elliptic as OnCurve};
ghost use Rattle.format.specs.Format.{of_point, of_scalar, entry, key_of, alone, blob, written_pair, written_image};
ghost use Rattle.format.specs.Lengths.{entries_length};
ghost use Rattle.buffer.specs.Puts.{IsPut};
ghost use Rattle.buffer.specs.Runs.{IsRun};
ghost use Rattle.key_material.specs.Material.{public_of, private_of, checkint_of};
ghost use Rattle.writer_reply.specs.Reply.{IsSized};
ghost use Rattle.writer_parts.specs.Checks.{key_checked, passed};
ghost use Rattle.writer_parts.specs.Sizes.{capped};
ghost use Rattle.writer_plain.specs.Plain.{IsPlain};
ghost use Rattle.writer_plain.specs.Lent.{lent_algorithm, lent_public, lent_private, lent_taken};

use fields::{Part, Refusal};
use key_material::Material;
use names::Elliptic;
use writer_numbers::Numbers;
use writer_parts::added;
use writer_reply::Written;

// A key's parts, as they are lent: the public string or point and the seed or scalar, or RSA's six numbers.
#[derive(Clone, Copy)]
pub enum KeyParts<'a> {
    Curve {
        algorithm: Elliptic,
        point: &'a [u8],
        scalar: &'a [u8],
    },
    Rsa(Numbers<'a>),
}

// All inlined: who knows the kind of key then calls its functions, and looks up no part that they don't use.
impl<'a> KeyParts<'a> {
    // What a writer refuses of a key, or the length 0. A record's scalar is filled with zeros in front. `filling` is a
    // bool, as in `scalar_taken`.
    #[inline(always)]
    pub fn check(&self, filling: bool) -> Written
        ensures { result ≡ key_checked (lent_algorithm self.now) (lent_public self.now) (lent_taken filling self.now) passed }
    {
        match self {
            KeyParts::Curve {
                algorithm,
                point,
                scalar,
            } => writer_curve::check(filling, *algorithm, point, scalar),
            KeyParts::Rsa(numbers) => numbers.check(),
        }
    }

    // The length of its public blob.
    #[inline(always)]
    pub fn blob_length(&self) -> usize
        ensures { result ≡ capped (length (blob (lent_algorithm self.now) (lent_public self.now))) }
    {
        match self {
            KeyParts::Curve {
                algorithm,
                point,
                ..
            } => writer_curve::blob_length(*algorithm, point),
            KeyParts::Rsa(numbers) => writer_numbers::blob_length(numbers.n, numbers.e),
        }
    }

    // Its public blob, as a string.
    #[inline(always)]
    pub fn put_blob(&self, out: &mut [u8], at: usize) -> usize
        ensures { IsPut out.old at (string (blob (lent_algorithm self.now) (lent_public self.now))) result out.new }
    {
        match self {
            KeyParts::Curve {
                algorithm,
                point,
                ..
            } => writer_curve::put_blob(out, at, *algorithm, point),
            KeyParts::Rsa(numbers) => writer_numbers::put_blob(out, at, numbers.n, numbers.e),
        }
    }

    // The length of its keypair.
    #[inline(always)]
    pub fn pair_length(&self) -> usize
        ensures { result ≡ capped (length (written_pair (lent_algorithm self.now) (lent_public self.now) (lent_private self.now))) }
    {
        match self {
            KeyParts::Curve {
                algorithm,
                point,
                scalar,
            } => writer_curve::pair_length(*algorithm, point, scalar),
            KeyParts::Rsa(numbers) => numbers.pair_length(),
        }
    }

    // Its keypair.
    #[inline(always)]
    pub fn put_pair(&self, out: &mut [u8], at: usize) -> usize
        ensures { IsPut out.old at (written_pair (lent_algorithm self.now) (lent_public self.now) (lent_private self.now)) result out.new }
    {
        match self {
            KeyParts::Curve {
                algorithm,
                point,
                scalar,
            } => writer_curve::put_pair(out, at, *algorithm, point, scalar),
            KeyParts::Rsa(numbers) => numbers.put_pair(out, at),
        }
    }
}

// Puts every field of a plain image. The caller has seen to the section's length and to room.
fn put_plain(out: &mut [u8], key: &KeyParts, checkint: u32, comment: &[u8], entries: usize) -> usize
    requires { (entries ≡ entries_length (alone (entry (written_pair (lent_algorithm key.now) (lent_public key.now) (lent_private key.now)) comment.now))) × (entries < 65536) }
    ensures { IsRun out.old 0 (written_image checkint (alone (key_of (lent_algorithm key.now) (lent_public key.now) (lent_private key.now) comment.now))) result out.new }
{
    let content = 8 + entries;
    let padding = buffer::padding(content);
    let front = b"openssh-key-v1\0\0\0\0\x04none\0\0\0\x04none\0\0\0\0\0\0\0\x01";
    let a = buffer::put(out, 0, front);
    let b = key.put_blob(out, a);
    let c = buffer::put_uint32(out, b, content + padding);
    let d = buffer::put_uint32(out, c, checkint as usize);
    let e = buffer::put_uint32(out, d, checkint as usize);
    let f = key.put_pair(out, e);
    let g = buffer::put_string(out, f, comment);
    buffer::put_padding(out, g, padding)
}

// A plain image of parts that were checked, if its size and the room allow.
fn write_sized(key: &KeyParts, checkint: u32, comment: &[u8], out: &mut [u8]) -> Written
    ensures { IsSized (written_image checkint (alone (key_of (lent_algorithm key.now) (lent_public key.now) (lent_private key.now) comment.now))) out.old result out.new }
{
    let blob = added(4, key.blob_length());
    let pair = added(4, key.pair_length());
    let entries = added(pair, comment.len());
    let size = writer_parts::image_length(blob, entries);
    if 65535 < size {
        return writer_reply::refused(Refusal::Size);
    }
    if out.len() < size {
        return writer_reply::refused(Refusal::Room);
    }
    Ok(put_plain(out, key, checkint, comment, entries))
}

// A plain image of a key's lent parts: a seed or scalar of exactly its length.
pub fn write_key(key: &KeyParts, checkint: u32, comment: &[u8], out: &mut [u8]) -> Written
    ensures { IsPlain (lent_algorithm key.now) (lent_public key.now) (lent_private key.now) checkint comment.now out.old result out.new }
{
    key.check(false)?;
    if !utf8::is_utf8(comment) {
        return writer_reply::refused(Refusal::CharacterEncoding);
    }
    write_sized(key, checkint, comment, out)
}

// The same over a curve: the public string or point, the seed or scalar. They are parameters, as C hands them in.
pub fn write_parts(
    algorithm: Elliptic,
    point: &[u8],
    scalar: &[u8],
    checkint: u32,
    comment: &[u8],
    out: &mut [u8],
) -> Written
    ensures { IsPlain (OnCurve algorithm) (of_point point.now) (of_scalar scalar.now) checkint comment.now out.old result out.new }
{
    let key = KeyParts::Curve {
        algorithm,
        point,
        scalar,
    };
    write_key(&key, checkint, comment, out)
}

// A plain image of key material, with the given checkint or the derived one.
pub fn write_plain(m: Material, given: Option<u32>, comment: &[u8], out: &mut [u8]) -> Written
    ensures { IsPlain (OnCurve m.algorithm) (of_point (public_of m)) (of_scalar (private_of m)) (checkint_of given (private_of m)) comment.now out.old result out.new }
{
    let publics = Part {
        start: 0,
        length: m.public_length,
    };
    let privates = Part {
        start: 0,
        length: m.private_length,
    };
    let point = fields::view(&m.public, publics);
    let scalar = fields::view(&m.private, privates);
    let checkint = m.checkint(given);
    write_parts(m.algorithm, point, scalar, checkint, comment, out)
}
