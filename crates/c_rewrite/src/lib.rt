// An image written again, for C.
#![tactic(auto)]

ghost use Rattle.std.specs.Prelude.{length};
ghost use Rattle.writer_again.specs.Rewrite.{rewrite_reply, rewrite_left};
ghost use Rattle.c_reply.specs.Replies.{AnswersC};

use c_reply::{Reply, reply_of};

// The image's record, with its own checkint.
pub fn saltorchard_rewrite(image: &[u8], out: &mut [u8]) -> Reply
    ensures { AnswersC (rewrite_reply image.now (length out.old)) (rewrite_left image.now out.old) result out.new }
{
    reply_of(writer_again::rewrite(image, out))
}
