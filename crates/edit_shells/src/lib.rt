// What the edits of an image of several keys have in common: the places of a key, the tests of the places and of
// the new image's length, and how the new image ends.
#![tactic(auto)]

ghost use Rattle.std.specs.Prelude.{◌≡◌};
ghost use Rattle.writer_reply.specs.Reply.{sized_by};
ghost use Rattle.edit_shells.specs.Parts.{rises};
ghost use Rattle.edit_shells.specs.Edits.{places_checked, IsEnding};

use fields::{Fault, Refusal};
use writer_reply::Written;

// Where a key stands in an image: its blob's string from `blob` to `after`, its keypair from `pair`, its comment's
// field from `field` to `past`. The section's length field is at `section`, and the padding begins at `end`.
#[derive(Clone, Copy)]
pub struct EditPlaces {
    pub blob: usize,
    pub after: usize,
    pub section: usize,
    pub pair: usize,
    pub field: usize,
    pub past: usize,
    pub end: usize,
}

// Whether each place is at or past the one before it.
pub fn in_order(places: &[usize]) -> bool
    ensures { result ≡ rises 0 places.now }
{
    places.is_sorted()
}

// Refuses an image of more than 65,535 bytes, and places that aren't in order.
pub fn check_places(n: usize, places: &[usize]) -> Result<(), Fault>
    ensures { result ≡ places_checked n places.now }
{
    if 65535 < n {
        return Err(Refusal::Size.at(0));
    }
    if !in_order(places) {
        return Err(Refusal::Length.at(0));
    }
    Ok(())
}

// The length of a new image, if it is at most 65,535 and a buffer of `room` bytes holds it.
pub fn check_size(size: usize, room: usize) -> Written
    ensures { result ≡ sized_by size room }
{
    if 65535 < size {
        return writer_reply::refused(Refusal::Size);
    }
    if room < size {
        return writer_reply::refused(Refusal::Room);
    }
    Ok(size)
}

// Puts so many padding bytes at `at`, and zeros from their end to n, and answers where the padding ends.
pub fn put_ending(out: &mut [u8], at: usize, padding: usize, n: usize) -> usize
    ensures { IsEnding out.old at padding n result out.new }
{
    let end = buffer::put_padding(out, at, padding);
    buffer::put_zeros(out, end, n.saturating_sub(end));
    end
}
