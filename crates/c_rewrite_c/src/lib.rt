// An image written again, exported to C.
// The export says word for word what the function of c_rewrite does: the C interface needs it in a static library, which no crate can use.
#![tactic(auto)]

ghost use Rattle.std.specs.Prelude.{length};
ghost use Rattle.writer_again.specs.Rewrite.{rewrite_reply, rewrite_left};
ghost use Rattle.c_reply.specs.Replies.{AnswersC};

use c_reply::Reply;

#[unsafe(no_mangle)]
pub extern "C" fn saltorchard_rewrite(image: &[u8], out: &mut [u8]) -> Reply
    ensures { AnswersC (rewrite_reply image.now (length out.old)) (rewrite_left image.now out.old) result out.new }
{
    c_rewrite::saltorchard_rewrite(image, out)
}
