// The comment change for C.
#![tactic(auto)]

ghost use Rattle.edit_file.specs.Edits.{change_reply, change_left};
ghost use Rattle.c_reply.specs.Replies.{AnswersC};

use c_reply::{Reply, reply_of};

pub fn saltorchard_change_comment(buffer: &mut [u8], n: usize, comment: &[u8]) -> Reply
    ensures { AnswersC (change_reply buffer.old n 1 comment.now) (change_left buffer.old n 1 comment.now) result buffer.new }
{
    reply_of(comment_change::change_comment(buffer, n, comment))
}

pub fn saltorchard_change_comment_of(buffer: &mut [u8], n: usize, k: usize, comment: &[u8]) -> Reply
    ensures { AnswersC (change_reply buffer.old n k comment.now) (change_left buffer.old n k comment.now) result buffer.new }
{
    reply_of(comment_change::change_comment_of(buffer, n, k, comment))
}
