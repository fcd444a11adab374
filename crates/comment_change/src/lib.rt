// A key's comment changed in place. All before the comment's field stays, but the four bytes of the section's
// length; what follows the comment moves, and what the old image had more than the new one becomes zero.
#![tactic(auto)]

ghost use Rattle.edit_file.specs.Edits.{IsChange};

use fields::Refusal;
use writer_reply::Written;

// Changes the comment of key k of the image that the first n bytes of a lent buffer are, and answers the new
// length. Keys count from 1.
pub fn change_comment_of(lent: &mut [u8], n: usize, k: usize, comment: &[u8]) -> Written
    ensures { IsChange lent.old n k comment.now result lent.new }
{
    let (_, at) = edit_file::find_key(lent, n, k)?;
    if !utf8::is_utf8(comment) {
        return Err(Refusal::CharacterEncoding.at(at.field));
    }
    edit_change::change(lent, n, at, comment)
}

// The same of the first key.
pub fn change_comment(lent: &mut [u8], n: usize, comment: &[u8]) -> Written
    ensures { IsChange lent.old n 1 comment.now result lent.new }
{
    change_comment_of(lent, n, 1, comment)
}
