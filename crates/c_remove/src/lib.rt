// A key removed, for C.
#![tactic(auto)]

ghost use Rattle.edit_file.specs.Edits.{remove_reply, remove_left};
ghost use Rattle.c_reply.specs.Replies.{AnswersC};

use c_reply::{Reply, reply_of};

pub fn saltorchard_remove_key(buffer: &mut [u8], n: usize, k: usize) -> Reply
    ensures { AnswersC (remove_reply buffer.old n k) (remove_left buffer.old n k) result buffer.new }
{
    reply_of(key_remove::remove_key(buffer, n, k))
}
