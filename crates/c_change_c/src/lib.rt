// The comment change, exported to C.
// Each export says word for word what the function of c_change does: the C interface needs it in a static library, which no crate can use.
#![tactic(auto)]

ghost use Rattle.edit_file.specs.Edits.{change_reply, change_left};
ghost use Rattle.c_reply.specs.Replies.{AnswersC};

use c_reply::Reply;

#[unsafe(no_mangle)]
pub extern "C" fn saltorchard_change_comment(buffer: &mut [u8], n: usize, comment: &[u8]) -> Reply
    ensures { AnswersC (change_reply buffer.old n 1 comment.now) (change_left buffer.old n 1 comment.now) result buffer.new }
{
    c_change::saltorchard_change_comment(buffer, n, comment)
}

#[unsafe(no_mangle)]
pub extern "C" fn saltorchard_change_comment_of(
    buffer: &mut [u8],
    n: usize,
    k: usize,
    comment: &[u8],
) -> Reply
    ensures { AnswersC (change_reply buffer.old n k comment.now) (change_left buffer.old n k comment.now) result buffer.new }
{
    c_change::saltorchard_change_comment_of(buffer, n, k, comment)
}
