// The text form, exported to C.
// Each export says word for word what the function of c_armour does: the C interface needs it in a static library, which no crate can use.
#![tactic(auto)]

ghost use Rattle.std.specs.Prelude.{length};
ghost use Rattle.armour_text.specs.Text.{export_reply, export_left};
ghost use Rattle.armour_text.specs.Import.{import_reply, import_left};
ghost use Rattle.c_reply.specs.Replies.{AnswersC};

use c_reply::Reply;

#[unsafe(no_mangle)]
pub extern "C" fn saltorchard_export(image: &[u8], out: &mut [u8]) -> Reply
    ensures { AnswersC (export_reply image.now (length out.old)) (export_left image.now out.old) result out.new }
{
    c_armour::saltorchard_export(image, out)
}

#[unsafe(no_mangle)]
pub extern "C" fn saltorchard_import(text: &[u8], out: &mut [u8]) -> Reply
    ensures { AnswersC (import_reply text.now (length out.old)) (import_left text.now out.old) result out.new }
{
    c_armour::saltorchard_import(text, out)
}
