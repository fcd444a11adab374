// What the plain writers have in common: lengths that are added up, and whether there is room for them.
#![tactic(auto)]

ghost use Rattle.std.specs.Prelude.{◌≡◌, ◌+◌, leb};
ghost use Rattle.writer_parts.specs.Sizes.{capped};
ghost use Rattle.writer_parts.specs.Fields.{image_length};

// One length more, up to 2^63: no slice is so long.
#[tactic(auto, unfolding(crate::specs::Sizes::capped))]
pub fn added(sum: usize, n: usize) -> usize
    ensures { result ≡ capped (sum + n) }
{
    sum.saturating_add(n).min(9223372036854775808)
}

// Is there room for so many bytes at a place of a buffer of that length? Of a length, and not of a buffer as in `buffer`: its
// promise is a definition that others cite.
#[tactic(auto, using(crate::specs::Sizes::leb_left))]
pub fn has_room(length: usize, at: usize, need: usize) -> bool
    ensures { result ≡ leb (at + need) length }
{
    at <= length && need <= length - at
}

// The length of a plain image, by those of its blobs with their length fields, and of its entries.
#[tactic(auto, unfolding(crate::specs::Sizes::capped))]
pub fn image_length(blobs: usize, entries: usize) -> usize
    ensures { result ≡ capped (image_length blobs entries) }
{
    let content = added(8, entries);
    added(43 + content + buffer::padding(content), blobs)
}
