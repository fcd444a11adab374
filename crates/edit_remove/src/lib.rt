// One key removed in place, at places that the caller has found. The rest moves up, and what the old image
// had more than the new one becomes zero.
#![tactic(auto)]

ghost use Rattle.edit_shells.specs.Shells.{removed_at};
ghost use Rattle.edit_shells.specs.Edits.{removed_by_places, IsEdit, IsRenewed};
ghost use Rattle.edit_remove.specs.Remove.{Ordered};

use edit_shells::{EditPlaces, check_places, check_size};
use writer_reply::Written;

// The same at places that are in order.
fn remove_within(lent: &mut [u8], n: usize, count: usize, at: EditPlaces) -> Written
    requires { Ordered lent.old n at.blob at.after at.section at.pair at.past at.end }
    ensures { IsRenewed (removed_at lent.old count at.blob at.after at.section at.pair at.past at.end) n lent.old result lent.new }
{
    let EditPlaces {
        blob,
        after,
        section,
        pair,
        past,
        end,
        ..
    } = at;
    let field = section - (after - blob);
    let follows = end - past;
    let content = pair - (section + 4) + follows;
    let padding = buffer::padding(content);
    check_size(field + 4 + (content + padding), lent.len())?;
    buffer_moves::move_bytes(lent, after, blob, pair - after);
    let to = blob + (pair - after);
    buffer_moves::move_bytes(lent, past, to, follows);
    buffer::put_uint32(lent, 35, count);
    buffer::put_uint32(lent, field, content + padding);
    Ok(edit_shells::put_ending(lent, to + follows, padding, n))
}

// Removes the key that stands at these places from the image that the first n bytes are, which leaves `count` keys.
// The comment's field isn't looked at; where the other places aren't in order within the n bytes, it is refused.
pub fn remove(lent: &mut [u8], n: usize, count: usize, at: EditPlaces) -> Written
    ensures { IsEdit (removed_by_places at.blob at.after at.section at.pair at.past at.end) (removed_at lent.old count at.blob at.after at.section at.pair at.past at.end) n lent.old result lent.new }
{
    // A sum that stops at the largest number is past n, as the true one is.
    let inside = at.section.saturating_add(4);
    let places = [
        39,
        at.blob,
        at.after,
        at.section,
        inside,
        at.pair,
        at.past,
        at.end,
        n,
        lent.len(),
    ];
    check_places(n, &places)?;
    remove_within(lent, n, count, at)
}
