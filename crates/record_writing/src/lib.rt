// A record that holds its image, written again.
#![tactic(auto)]

ghost use Rattle.writer_again.specs.Rewrite.{IsHanded};

use record_views::Record;
use writer_reply::Written;

// If it is what an accepted read of its image gives.
pub fn rewrite<'a, 'b>(r: Record<'a>, out: &'b mut [u8]) -> Written
    ensures { IsHanded r.entry.image.now r.entry.fields out.old result out.new }
{
    writer_again::rewrite_record(r.image, r.fields, out)
}
