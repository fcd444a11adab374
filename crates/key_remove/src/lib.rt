// One key of an image removed in place. The rest moves up, the counts and lengths follow, and what the old image
// had more than the new one becomes zero.
#![tactic(auto)]

ghost use Rattle.edit_file.specs.Edits.{IsRemove};

use fields::Refusal;
use writer_reply::Written;

// Removes key k of the image that the first n bytes of a lent buffer are, and answers the new length. Keys count
// from 1; the only one stays.
pub fn remove_key(lent: &mut [u8], n: usize, k: usize) -> Written
    ensures { IsRemove lent.old n k result lent.new }
{
    let (count, at) = edit_file::find_key(lent, n, k)?;
    if count < 2 {
        return writer_reply::refused(Refusal::Length);
    }
    edit_remove::remove(lent, n, count - 1, at)
}
