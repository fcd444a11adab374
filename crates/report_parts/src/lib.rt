// What the reports have in common: the line of a refused image, and a finished text handed to a lent buffer.
#![tactic(auto)]

ghost use Rattle.std.specs.Prelude.{◌≤◌, length};
ghost use Rattle.fields.specs.Refusals.{number_of, count_of};
ghost use Rattle.buffer.specs.Puts.{IsPut};
ghost use Rattle.report_parts.specs.Parts.{refused_line, IsHandedText, IsShort};

use fields::Refusal;
use writer_reply::Written;

// The line at the start of a text: number, count, and the byte at which the failing field began.
fn spell_refused(text: &mut [u8], why: Refusal, place: usize) -> usize
    ensures { IsShort 71 text.old 0 (refused_line (number_of why) (count_of why) place) result text.new }
{
    let number = why.number();
    let a = buffer::put(text, 0, b"refused ");
    let b = buffer::put_decimal(text, a, number as usize);
    let c = buffer::put(text, b, b" ");
    let d = buffer::put_decimal(text, c, why.count());
    let e = buffer::put(text, d, b" ");
    let f = buffer::put_decimal(text, e, place);
    buffer::put(text, f, b"\n")
}

// The line of a refused image, which has at most 71 bytes.
pub fn put_refused(out: &mut [u8], at: usize, why: Refusal, place: usize) -> usize
    ensures { (length (refused_line (number_of why) (count_of why) place) ≤ 71) × IsPut out.old at (refused_line (number_of why) (count_of why) place) result out.new }
{
    let mut text = [0u8; 71];
    let n = spell_refused(&mut text, why, place);
    buffer::put(out, at, &text[..n])
}

// A finished text goes to the start of a lent buffer, which keeps every byte past it, and all of them where it is
// shorter than the text.
#[tactic(auto, unfolding(buffer::specs::Puts::fits, buffer::specs::Puts::placed, buffer::specs::Puts::next))]
pub fn hand_text(text: &[u8], out: &mut [u8]) -> Written
    ensures { IsHandedText text.now out.old result out.new }
{
    if out.len() < text.len() {
        return writer_reply::refused(Refusal::Room);
    }
    Ok(buffer::put(out, 0, text))
}
