// The writers, exported to C.
// Each export says word for word what the function of c_writing does: the C interface needs it in a static library, which no crate can use.
#![tactic(auto)]

ghost use Rattle.std.specs.Prelude.{false, length};
ghost use Rattle.names.specs.declared.Algorithm.TheVariants.{Rsa};
ghost use Rattle.format.specs.Format.{of_modulus, of_numbers};
ghost use Rattle.writer_plain.specs.Plain.{plain_reply, plain_left};
ghost use Rattle.writer_keys.specs.Named.{named_reply, named_left, first_private};
ghost use Rattle.c_reply.specs.Replies.{AnswersC};
ghost use Rattle.c_writing.specs.Coded.{checkint_for, coded_plain_reply, coded_plain_left, coded_encrypted_reply, coded_encrypted_left};

use c_reply::Reply;

#[unsafe(no_mangle)]
pub extern "C" fn saltorchard_write_plain(
    algorithm: u8,
    public: &[u8],
    private: &[u8],
    derive: u8,
    checkint: u32,
    comment: &[u8],
    out: &mut [u8],
) -> Reply
    ensures { AnswersC (coded_plain_reply algorithm public.now private.now (checkint_for derive checkint private.now) comment.now (length out.old)) (coded_plain_left algorithm public.now private.now (checkint_for derive checkint private.now) comment.now out.old) result out.new }
{
    c_writing::saltorchard_write_plain(algorithm, public, private, derive, checkint, comment, out)
}

#[unsafe(no_mangle)]
pub extern "C" fn saltorchard_write_rsa(
    n: &[u8],
    e: &[u8],
    d: &[u8],
    iqmp: &[u8],
    p: &[u8],
    q: &[u8],
    derive: u8,
    checkint: u32,
    comment: &[u8],
    out: &mut [u8],
) -> Reply
    ensures { AnswersC (plain_reply Rsa (of_modulus n.now e.now) (of_numbers d.now iqmp.now p.now q.now) (checkint_for derive checkint d.now) comment.now (length out.old)) (plain_left Rsa (of_modulus n.now e.now) (of_numbers d.now iqmp.now p.now q.now) (checkint_for derive checkint d.now) comment.now out.old) result out.new }
{
    c_writing::saltorchard_write_rsa(n, e, d, iqmp, p, q, derive, checkint, comment, out)
}

#[unsafe(no_mangle)]
pub extern "C" fn saltorchard_write_keys(
    keys: &[usize],
    bytes: &[u8],
    derive: u8,
    checkint: u32,
    out: &mut [u8],
) -> Reply
    ensures { AnswersC (named_reply false bytes.now keys.now (checkint_for derive checkint (first_private bytes.now keys.now)) (length out.old)) (named_left false bytes.now keys.now (checkint_for derive checkint (first_private bytes.now keys.now)) out.old) result out.new }
{
    c_writing::saltorchard_write_keys(keys, bytes, derive, checkint, out)
}

#[unsafe(no_mangle)]
pub extern "C" fn saltorchard_write_encrypted(
    cipher: u8,
    kdf: u8,
    salt: &[u8],
    rounds: u32,
    blob: &[u8],
    ciphertext: &[u8],
    tag: &[u8],
    out: &mut [u8],
) -> Reply
    ensures { AnswersC (coded_encrypted_reply cipher kdf salt.now rounds blob.now ciphertext.now tag.now (length out.old)) (coded_encrypted_left cipher kdf salt.now rounds blob.now ciphertext.now tag.now out.old) result out.new }
{
    c_writing::saltorchard_write_encrypted(cipher, kdf, salt, rounds, blob, ciphertext, tag, out)
}
