// The removal of a key, exported to C.
// The export says word for word what the function of c_remove does: the C interface needs it in a static library, which no crate can use.
#![tactic(auto)]

ghost use Rattle.edit_file.specs.Edits.{remove_reply, remove_left};
ghost use Rattle.c_reply.specs.Replies.{AnswersC};

use c_reply::Reply;

#[unsafe(no_mangle)]
pub extern "C" fn saltorchard_remove_key(buffer: &mut [u8], n: usize, k: usize) -> Reply
    ensures { AnswersC (remove_reply buffer.old n k) (remove_left buffer.old n k) result buffer.new }
{
    c_remove::saltorchard_remove_key(buffer, n, k)
}
