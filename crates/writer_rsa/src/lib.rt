// The plain writer of RSA keys: six lent mpints and a comment to an image, by the one writer of a key's parts.
#![tactic(auto)]

ghost use Rattle.names.specs.declared.Algorithm.TheVariants.{Rsa};
ghost use Rattle.format.specs.Format.{of_modulus, of_numbers};
ghost use Rattle.key_material.specs.Material.{checkint_of};
ghost use Rattle.writer_plain.specs.Plain.{IsPlain};

use writer_numbers::Numbers;
use writer_plain::KeyParts;
use writer_reply::Written;

// A plain image of six lent mpints. They are six parameters, as C hands them in.
pub fn write_parts(
    n: &[u8],
    e: &[u8],
    d: &[u8],
    iqmp: &[u8],
    p: &[u8],
    q: &[u8],
    checkint: u32,
    comment: &[u8],
    out: &mut [u8],
) -> Written
    ensures { IsPlain Rsa (of_modulus n.now e.now) (of_numbers d.now iqmp.now p.now q.now) checkint comment.now out.old result out.new }
{
    let numbers = Numbers {
        n,
        e,
        d,
        iqmp,
        p,
        q,
    };
    writer_plain::write_key(&KeyParts::Rsa(numbers), checkint, comment, out)
}

// The same, with the given checkint or the one derived from d's bytes as they are lent.
pub fn write_rsa(
    n: &[u8],
    e: &[u8],
    d: &[u8],
    iqmp: &[u8],
    p: &[u8],
    q: &[u8],
    given: Option<u32>,
    comment: &[u8],
    out: &mut [u8],
) -> Written
    ensures { IsPlain Rsa (of_modulus n.now e.now) (of_numbers d.now iqmp.now p.now q.now) (checkint_of given d.now) comment.now out.old result out.new }
{
    let checkint = given.unwrap_or_else(|| key_material::derived_checkint(d));
    write_parts(n, e, d, iqmp, p, q, checkint, comment, out)
}
