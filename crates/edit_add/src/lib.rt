// Room for one key more made in place, at places that the caller has found: a gap for its blob's string
// after the last blob, and one for its entry after the last entry. The caller then puts the key.
#![tactic(auto)]

ghost use Rattle.edit_shells.specs.Shells.{opened_at, opened_size};
ghost use Rattle.edit_shells.specs.Edits.{added_by_places, IsOpened, IsRoomMade};
ghost use Rattle.edit_add.specs.Open.{Ordered};

use edit_shells::{check_places, check_size};
use fields::Refusal;
use writer_reply::Written;

// Where an image gets room for a key: `blob` bytes at the section's length field, which stands at `section`, and
// `own` bytes where the padding begins, at `end`.
#[derive(Clone, Copy)]
pub struct Gaps {
    pub section: usize,
    pub blob: usize,
    pub end: usize,
    pub own: usize,
}

// The same at places that are in order.
fn open_within(lent: &mut [u8], count: usize, gaps: Gaps) -> Written
    requires { Ordered lent.old gaps.section gaps.end }
    ensures { IsRoomMade (opened_size gaps.section gaps.end gaps.blob gaps.own) (opened_at lent.old count gaps.section gaps.end gaps.blob gaps.own) lent.old result lent.new }
{
    let Gaps {
        section,
        blob,
        end,
        own,
    } = gaps;
    if 65535 < blob || 65535 < own {
        return writer_reply::refused(Refusal::Size);
    }
    let field = section + blob;
    let kept = end - (section + 4);
    let content = kept + own;
    let padding = buffer::padding(content);
    let size = check_size(field + 4 + (content + padding), lent.len())?;
    buffer_moves::move_bytes(lent, section + 4, field + 4, kept);
    buffer::put_uint32(lent, 35, count);
    buffer::put_uint32(lent, field, content + padding);
    buffer::put_padding(lent, field + 4 + content, padding);
    Ok(size)
}

// Makes the image that the first n bytes are one of `count` keys, one more than it has, but for that key's
// blob, whose string takes the first gap, and its entry, which takes the second. Places that aren't in order
// within the n bytes are refused.
pub fn open(lent: &mut [u8], n: usize, count: usize, gaps: Gaps) -> Written
    ensures { IsOpened (added_by_places gaps.section gaps.end) (opened_size gaps.section gaps.end gaps.blob gaps.own) (opened_at lent.old count gaps.section gaps.end gaps.blob gaps.own) n lent.old result lent.new }
{
    // A sum that stops at the largest number is past n, as the true one is.
    let inside = gaps.section.saturating_add(4);
    check_places(n, &[39, gaps.section, inside, gaps.end, n, lent.len()])?;
    open_within(lent, count, gaps)
}
