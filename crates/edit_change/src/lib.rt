// The comment of one key changed in place, at places that the caller has found. What follows it moves, and
// what the old image had more than the new one becomes zero.
#![tactic(auto)]

ghost use Rattle.edit_shells.specs.Shells.{changed_at};
ghost use Rattle.edit_shells.specs.Edits.{changed_by_places, IsEdit, IsRenewed};
ghost use Rattle.edit_change.specs.Change.{Ordered};

use edit_shells::{EditPlaces, check_places, check_size};
use fields::Refusal;
use writer_reply::Written;

// The same at places that are in order.
fn change_within(lent: &mut [u8], n: usize, at: EditPlaces, comment: &[u8]) -> Written
    requires { Ordered lent.old n at.section at.field at.past at.end }
    ensures { IsRenewed (changed_at lent.old at.section at.field at.past at.end comment.now) n lent.old result lent.new }
{
    let EditPlaces {
        section,
        field,
        past,
        end,
        ..
    } = at;
    if 65535 < comment.len() {
        return writer_reply::refused(Refusal::Size);
    }
    let to = field + (4 + comment.len());
    let follows = end - past;
    let content = to - (section + 4) + follows;
    let padding = buffer::padding(content);
    check_size(section + 4 + (content + padding), lent.len())?;
    buffer_moves::move_bytes(lent, past, to, follows);
    buffer::put_uint32(lent, section, content + padding);
    buffer::put_string(lent, field, comment);
    Ok(edit_shells::put_ending(lent, to + follows, padding, n))
}

// Puts another comment into the image that the first n bytes are, for the key that stands at these places. The
// blob's and the keypair's aren't looked at; where the others aren't in order within the n bytes, it is refused.
pub fn change(lent: &mut [u8], n: usize, at: EditPlaces, comment: &[u8]) -> Written
    ensures { IsEdit (changed_by_places at.section at.field at.past at.end) (changed_at lent.old at.section at.field at.past at.end comment.now) n lent.old result lent.new }
{
    // A sum that stops at the largest number is past n, as the true one is.
    let inside = at.section.saturating_add(4);
    check_places(n, &[inside, at.field, at.past, at.end, n, lent.len()])?;
    change_within(lent, n, at, comment)
}
