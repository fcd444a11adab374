// The writers for C. A code that names nothing is refused with 4 before all else.
#![tactic(auto)]

ghost use Rattle.std.specs.Prelude.{◌≡◌, false, length};
ghost use Rattle.names.specs.declared.Algorithm.TheVariants.{Rsa};
ghost use Rattle.format.specs.Format.{of_modulus, of_numbers};
ghost use Rattle.writer_plain.specs.Plain.{plain_reply, plain_left};
ghost use Rattle.writer_keys.specs.Named.{named_reply, named_left, first_private};
ghost use Rattle.c_reply.specs.Replies.{AnswersC};
ghost use Rattle.c_writing.specs.Coded.{checkint_for, given_for, coded_plain_reply, coded_plain_left, coded_encrypted_reply, coded_encrypted_left};

use c_reply::{Reply, names_nothing, reply_of};
use names::Algorithm;
use names_codes::{algorithm_coded, cipher_coded, kdf_coded};

// The given checkint, unless one is to be derived.
fn given_checkint(derive: u8, given: u32) -> Option<u32>
    ensures { result ≡ given_for derive given }
{
    (derive == 0).then_some(given)
}

fn checkint_of(derive: u8, given: u32, private: &[u8]) -> u32
    ensures { result ≡ checkint_for derive given private.now }
{
    given_checkint(derive, given).unwrap_or_else(|| key_material::derived_checkint(private))
}

// Keys on a curve. RSA has a writer of its own, and its code names nothing here.
#[tactic(auto, unfolding(crate::specs::Coded::coded_plain_reply, crate::specs::Coded::coded_plain_left))]
pub fn saltorchard_write_plain(
    algorithm: u8,
    public: &[u8],
    private: &[u8],
    derive: u8,
    checkint: u32,
    comment: &[u8],
    out: &mut [u8],
) -> Reply
    ensures { AnswersC (coded_plain_reply algorithm public.now private.now (checkint_for derive checkint private.now) comment.now (length out.old)) (coded_plain_left algorithm public.now private.now (checkint_for derive checkint private.now) comment.now out.old) result out.new }
{
    match algorithm_coded(algorithm) {
        Some(Algorithm::Elliptic(e)) => reply_of(writer_plain::write_parts(
            e,
            public,
            private,
            checkint_of(derive, checkint, private),
            comment,
            out,
        )),
        Some(Algorithm::Rsa) | None => names_nothing(),
    }
}

pub fn saltorchard_write_rsa(
    n: &[u8],
    e: &[u8],
    d: &[u8],
    iqmp: &[u8],
    p: &[u8],
    q: &[u8],
    derive: u8,
    checkint: u32,
    comment: &[u8],
    out: &mut [u8],
) -> Reply
    ensures { AnswersC (plain_reply Rsa (of_modulus n.now e.now) (of_numbers d.now iqmp.now p.now q.now) (checkint_for derive checkint d.now) comment.now (length out.old)) (plain_left Rsa (of_modulus n.now e.now) (of_numbers d.now iqmp.now p.now q.now) (checkint_for derive checkint d.now) comment.now out.old) result out.new }
{
    reply_of(writer_rsa::write_parts(
        n,
        e,
        d,
        iqmp,
        p,
        q,
        checkint_of(derive, checkint, d),
        comment,
        out,
    ))
}

// 1 to 16 keys of any kind, 19 numbers each: the algorithm's code, then start and length within the bytes of
// public, private, comment, n, e, d, iqmp, p and q.
#[tactic(auto, using(crate::specs::Coded::given_checkint))]
pub fn saltorchard_write_keys(
    keys: &[usize],
    bytes: &[u8],
    derive: u8,
    checkint: u32,
    out: &mut [u8],
) -> Reply
    ensures { AnswersC (named_reply false bytes.now keys.now (checkint_for derive checkint (first_private bytes.now keys.now)) (length out.old)) (named_left false bytes.now keys.now (checkint_for derive checkint (first_private bytes.now keys.now)) out.old) result out.new }
{
    reply_of(writer_keys::write_keys(bytes, keys, given_checkint(derive, checkint), out))
}

#[tactic(auto, unfolding(crate::specs::Coded::coded_encrypted_reply, crate::specs::Coded::coded_encrypted_left))]
pub fn saltorchard_write_encrypted(
    cipher: u8,
    kdf: u8,
    salt: &[u8],
    rounds: u32,
    blob: &[u8],
    ciphertext: &[u8],
    tag: &[u8],
    out: &mut [u8],
) -> Reply
    ensures { AnswersC (coded_encrypted_reply cipher kdf salt.now rounds blob.now ciphertext.now tag.now (length out.old)) (coded_encrypted_left cipher kdf salt.now rounds blob.now ciphertext.now tag.now out.old) result out.new }
{
    let (Some(c), Some(k)) = (cipher_coded(cipher), kdf_coded(kdf)) else {
        return names_nothing();
    };
    reply_of(writer_encrypted::write_encrypted(c, k, salt, rounds, blob, ciphertext, tag, out))
}
