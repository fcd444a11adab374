// The comment of an image, by way of a record that holds it.
#![tactic(auto)]

ghost use Rattle.fields.specs.Fields.{IsView};
ghost use Rattle.record_found.specs.Found.{found_at};

// Of a refused or an encrypted image, which has no comment, the empty part.
pub fn comment_of(image: &[u8]) -> &[u8]
    ensures { IsView result image.entry (found_at image.now).fields.section.comment }
{
    let reply = record_reading::read(image);
    record_views::comment(reply.held)
}
