// The text form for C.
#![tactic(auto)]

ghost use Rattle.std.specs.Prelude.{length};
ghost use Rattle.armour_text.specs.Text.{export_reply, export_left};
ghost use Rattle.armour_text.specs.Import.{import_reply, import_left};
ghost use Rattle.c_reply.specs.Replies.{AnswersC};

use c_reply::{Reply, reply_of};

// The text form of any bytes within the limit.
#[tactic(auto, using(c_reply::specs::Replies::handed_on))]
pub fn saltorchard_export(image: &[u8], out: &mut [u8]) -> Reply
    ensures { AnswersC (export_reply image.now (length out.old)) (export_left image.now out.old) result out.new }
{
    reply_of(armour_export::export(image, out))
}

// The bytes that such a text carries.
#[tactic(auto, using(c_reply::specs::Replies::handed_on))]
pub fn saltorchard_import(text: &[u8], out: &mut [u8]) -> Reply
    ensures { AnswersC (import_reply text.now (length out.old)) (import_left text.now out.old) result out.new }
{
    reply_of(armour_import::import(text, out))
}
