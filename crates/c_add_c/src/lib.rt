// The addition of a key, exported to C.
// Each export says word for word what the function of c_add does: the C interface needs it in a static library, which no crate can use.
#![tactic(auto)]

ghost use Rattle.names.specs.declared.Algorithm.TheVariants.{Rsa};
ghost use Rattle.format.specs.Format.{key_of, of_modulus, of_numbers};
ghost use Rattle.edit_file.specs.Edits.{add_reply, add_left};
ghost use Rattle.c_reply.specs.Replies.{AnswersC};
ghost use Rattle.c_add.specs.Added.{coded_add_reply, coded_add_left};

use c_reply::Reply;

#[unsafe(no_mangle)]
pub extern "C" fn saltorchard_add_key(
    buffer: &mut [u8],
    n: usize,
    algorithm: u8,
    public: &[u8],
    private: &[u8],
    comment: &[u8],
) -> Reply
    ensures { AnswersC (coded_add_reply buffer.old n algorithm public.now private.now comment.now) (coded_add_left buffer.old n algorithm public.now private.now comment.now) result buffer.new }
{
    c_add::saltorchard_add_key(buffer, n, algorithm, public, private, comment)
}

#[unsafe(no_mangle)]
pub extern "C" fn saltorchard_add_rsa(
    buffer: &mut [u8],
    n: usize,
    m: &[u8],
    e: &[u8],
    d: &[u8],
    iqmp: &[u8],
    p: &[u8],
    q: &[u8],
    comment: &[u8],
) -> Reply
    ensures { AnswersC (add_reply buffer.old n (key_of Rsa (of_modulus m.now e.now) (of_numbers d.now iqmp.now p.now q.now) comment.now)) (add_left buffer.old n (key_of Rsa (of_modulus m.now e.now) (of_numbers d.now iqmp.now p.now q.now) comment.now)) result buffer.new }
{
    c_add::saltorchard_add_rsa(buffer, n, m, e, d, iqmp, p, q, comment)
}
