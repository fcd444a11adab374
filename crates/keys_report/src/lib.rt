// The keys of an image, a line each, or how it is refused, and at which byte. What writes a line is handed a key's
// kind, numbers and lengths, and no byte of the image.
#![tactic(auto)]

ghost use Rattle.std.specs.Prelude.{◌+◌, ◌*◌, ◌≤◌};
ghost use Rattle.fields.specs.Bytes.{join};
ghost use Rattle.buffer.specs.Runs.{IsRun};
ghost use Rattle.report_parts.specs.Parts.{IsShort};
ghost use Rattle.keys_report.specs.Lines.{bits_word, last_word, key_line, line_of, lines_from, keys_report, IsKeysReport};

use names::Algorithm;
use reader_image::Fields;
use reader_section::Kind;
use writer_reply::Written;

// How many bits an RSA key's modulus has; of another key, nothing.
fn put_bits(out: &mut [u8], at: usize, algorithm: Algorithm, bits: usize) -> usize
    ensures { IsRun out.old at (bits_word algorithm bits) result out.new }
{
    match algorithm {
        Algorithm::Elliptic(_) => at,
        Algorithm::Rsa => {
            let a = buffer::put(out, at, b" bits ");
            buffer::put_decimal(out, a, bits)
        }
    }
}

// How long the comment is; of an encrypted image, whose comment isn't known, that it is encrypted.
fn put_last(out: &mut [u8], at: usize, kind: Kind, comment: usize) -> usize
    ensures { IsRun out.old at (last_word kind comment) result out.new }
{
    match kind {
        Kind::Plain => {
            let a = buffer::put(out, at, b" comment ");
            buffer::put_decimal(out, a, comment)
        }
        Kind::Encrypted => buffer::put(out, at, b" encrypted"),
    }
}

// The line of a key. Its parameters are all that the line says: so nothing else of the image can be in it.
fn put_line(
    out: &mut [u8],
    at: usize,
    number: usize,
    algorithm: Algorithm,
    bits: usize,
    kind: Kind,
    comment: usize,
) -> usize
    ensures { IsShort 96 out.old at (key_line number algorithm bits kind comment) result out.new }
{
    let a = buffer::put_decimal(out, at, number);
    let b = buffer::put(out, a, b" ");
    let c = names_spelling::put_name(out, b, names_spelling::algorithm_name(algorithm));
    let d = put_bits(out, c, algorithm, bits);
    let e = put_last(out, d, kind, comment);
    buffer::put(out, e, b"\n")
}

// The line of a record's key k.
#[tactic(auto, unfolding(crate::specs::Lines::line_of))]
fn put_key(out: &mut [u8], at: usize, image: &[u8], f: Fields, k: usize) -> usize
    ensures { IsShort 96 out.old at (line_of image.now f k) result out.new }
{
    match reader_keys::key_of(image, f, k) {
        None => at,
        Some(key) => put_line(
            out,
            at,
            k,
            key.algorithm,
            key.public.bits,
            f.section.kind,
            key.comment.length,
        ),
    }
}

// The lines of a record's keys, at the start of a text.
fn put_keys(out: &mut [u8], image: &[u8], f: Fields) -> usize
    requires { f.header.count ≤ 16 }
    ensures { IsShort (96 * f.header.count) out.old 0 (join (lines_from image.now f 1 f.header.count)) result out.new }
{
    let mut at = 0;
    for k in 1..f.header.count + 1 {
        at = put_key(out, at, image, f, k);
    }
    at
}

fn put_report(out: &mut [u8], image: &[u8]) -> usize
    ensures { IsShort 1536 out.old 0 (keys_report image.now) result out.new }
{
    match reader_image::read(image) {
        Err(f) => report_parts::put_refused(out, 0, f.why, f.at),
        Ok(f) => put_keys(out, image, f),
    }
}

// Writes the lines of an image's keys to the start of a lent buffer, which keeps every byte past them, and all of
// them where it is shorter than the lines. 1,536 bytes are always enough.
pub fn write_keys_report(image: &[u8], out: &mut [u8]) -> Written
    ensures { IsKeysReport image.now out.old result out.new }
{
    // A room of its own, with a length beside it: the library allocates nothing.
    let mut text = [0u8; 1536];
    let n = put_report(&mut text, image);
    report_parts::hand_text(&text[..n], out)
}
