// A key added in place, last, to the image that the first n bytes of a lent buffer are. All is checked, in the
// rules' order, before a byte changes; then room is made, and the key is put into it.
#![tactic(auto)]

ghost use Rattle.std.specs.Prelude.{◌≡◌};
ghost use Rattle.names.specs.declared.Algorithm.TheVariants.{Elliptic as OnCurve, Rsa};
ghost use Rattle.format.specs.Format.{key_of, of_point, of_scalar, of_modulus, of_numbers};
ghost use Rattle.writer_plain.specs.Lent.{lent_algorithm, lent_public, lent_private};
ghost use Rattle.edit_file.specs.Edits.{IsAdd};
ghost use Rattle.key_add.specs.More.{more_at, IsRoom};
ghost use Rattle.key_add.specs.Add.{MayAdd};

use edit_add::Gaps;
use fields::{Fault, Refusal};
use names::Elliptic;
use reader_image::Fields;
use writer_numbers::Numbers;
use writer_parts::added;
use writer_plain::KeyParts;
use writer_reply::Written;

// The record of the image, if it may be edited and has fewer than 16 keys.
#[tactic(auto, unfolding(crate::specs::More::more_at))]
fn read_for_more(lent: &[u8], n: usize) -> Result<Fields, Fault>
    ensures { result ≡ more_at lent.now n }
{
    let fields = edit_file::read_to_edit(lent, n)?;
    if fields.header.count < 16 {
        return Ok(fields);
    }
    Err(Refusal::Length.at(0))
}

// Makes room for a key whose blob takes `blob` bytes as a string and whose keypair has `pair`, if its comment is
// UTF-8.
#[tactic(auto, using(crate::specs::Add::padding_inside, crate::specs::Add::one_more), unfolding(crate::specs::More::room_reply))]
fn make_room(
    lent: &mut [u8],
    n: usize,
    f: Fields,
    blob: usize,
    pair: usize,
    comment: &[u8],
) -> Written
    requires { more_at lent.old n ≡ Ok f }
    ensures { IsRoom lent.old n f blob pair comment.now result lent.new }
{
    if !utf8::is_utf8(comment) {
        return writer_reply::refused(Refusal::CharacterEncoding);
    }
    let Fields { header, section } = f;
    let gaps = Gaps {
        section: header.section,
        blob,
        end: n - section.padding,
        own: added(pair, 4 + comment.len()),
    };
    edit_add::open(lent, n, header.count + 1, gaps)
}

// Adds a key that was checked.
#[tactic(auto, using(crate::specs::Add::padding_inside))]
fn add_checked(lent: &mut [u8], n: usize, f: Fields, key: &KeyParts, comment: &[u8]) -> Written
    requires { MayAdd lent.old n f (key_of (lent_algorithm key.now) (lent_public key.now) (lent_private key.now) comment.now) }
    ensures { IsAdd lent.old n (key_of (lent_algorithm key.now) (lent_public key.now) (lent_private key.now) comment.now) result lent.new }
{
    let Fields { header, section } = f;
    let blob = added(4, key.blob_length());
    let pair = key.pair_length();
    let size = make_room(lent, n, f, blob, pair, comment)?;
    let entry = n - section.padding + blob;
    key.put_blob(lent, header.section);
    let past = key.put_pair(lent, entry);
    buffer::put_string(lent, past, comment);
    Ok(size)
}

// Adds a key of lent parts: the image's tests come first, then the key's own.
fn add_parts(lent: &mut [u8], n: usize, key: &KeyParts, comment: &[u8]) -> Written
    ensures { IsAdd lent.old n (key_of (lent_algorithm key.now) (lent_public key.now) (lent_private key.now) comment.now) result lent.new }
{
    let fields = read_for_more(lent, n)?;
    key.check(false)?;
    add_checked(lent, n, fields, key, comment)
}

// Adds a key over a curve: the public string or point, the seed or scalar of exactly its length, the comment.
pub fn add_key(
    lent: &mut [u8],
    n: usize,
    e: Elliptic,
    public: &[u8],
    private: &[u8],
    comment: &[u8],
) -> Written
    ensures { IsAdd lent.old n (key_of (OnCurve e) (of_point public.now) (of_scalar private.now) comment.now) result lent.new }
{
    let key = KeyParts::Curve {
        algorithm: e,
        point: public,
        scalar: private,
    };
    add_parts(lent, n, &key, comment)
}

// Adds an RSA key: its six mpints, the modulus m first, and the comment. They are six parameters, as C hands them in.
pub fn add_rsa(
    lent: &mut [u8],
    n: usize,
    m: &[u8],
    e: &[u8],
    d: &[u8],
    iqmp: &[u8],
    p: &[u8],
    q: &[u8],
    comment: &[u8],
) -> Written
    ensures { IsAdd lent.old n (key_of Rsa (of_modulus m.now e.now) (of_numbers d.now iqmp.now p.now q.now) comment.now) result lent.new }
{
    let numbers = Numbers {
        n: m,
        e,
        d,
        iqmp,
        p,
        q,
    };
    add_parts(lent, n, &KeyParts::Rsa(numbers), comment)
}
