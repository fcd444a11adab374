// The inspection's lines: what an image is, by its kind, names, lengths and form, or how it is refused, and
// at which byte. What writes them is handed the record, which has no byte of the image.
#![tactic(auto)]

ghost use Rattle.std.specs.Prelude.{◌<◌, ◌^◌};
ghost use Rattle.fields.specs.Bytes.{ascii, join};
ghost use Rattle.fields.specs.Fields.{view_of};
ghost use Rattle.buffer.specs.Decimal.{decimal};
ghost use Rattle.buffer.specs.Puts.{IsPut};
ghost use Rattle.buffer.specs.Runs.{IsRun};
ghost use Rattle.names_spelling.specs.Spelling.{name_table};
ghost use Rattle.inspect_report.specs.Report.{accepted, summary_of, line, bits_line, names, form_name, IsText, IsReport};

use fields::Part;
use names::Algorithm;
use reader_header::Header;
use reader_image::Fields;
use reader_section::Kind;
use writer_reply::Written;

// A line whose value is a number, which fits 64 bits.
fn put_number(out: &mut [u8], at: usize, label: &[u8], n: usize) -> usize
    ensures run { IsRun out.old at (line label.now (decimal n)) result out.new }
    ensures fits { n < 2 ^ 64 }
{
    let a = buffer::put(out, at, label);
    let b = buffer::put_decimal(out, a, n);
    buffer::put(out, b, b"\n")
}

// A line whose value is a name.
fn put_name(out: &mut [u8], at: usize, label: &[u8], name: Part) -> usize
    ensures { IsRun out.old at (line label.now (view_of name_table name)) result out.new }
{
    let a = buffer::put(out, at, label);
    let b = names_spelling::put_name(out, a, name);
    buffer::put(out, b, b"\n")
}

// How many bits an RSA key's modulus has; of another key, nothing.
fn put_bits(out: &mut [u8], at: usize, algorithm: Algorithm, bits: usize) -> usize
    ensures run { IsRun out.old at (bits_line algorithm bits) result out.new }
    ensures fits { bits < 2 ^ 64 }
{
    match algorithm {
        Algorithm::Elliptic(_) => at,
        Algorithm::Rsa => put_number(out, at, b"bits ", bits),
    }
}

fn put_names(out: &mut [u8], at: usize, header: &Header) -> usize
    ensures run { IsRun out.old at (join (names header.now.algorithm header.now.public.bits header.now.cipher header.now.kdf)) result out.new }
    ensures fits { header.now.public.bits < 2 ^ 64 }
{
    let algorithm = names_spelling::algorithm_name(header.algorithm);
    let a = put_name(out, at, b"algorithm ", algorithm);
    let b = put_bits(out, a, header.algorithm, header.public.bits);
    let c = put_name(
        out,
        b,
        b"cipher ",
        names_spelling::cipher_name(header.cipher),
    );
    put_name(out, c, b"kdf ", names_spelling::kdf_name(header.kdf))
}

#[tactic(auto, unfolding(crate::specs::Report::line))]
fn put_form(out: &mut [u8], at: usize, form: bool) -> usize
    ensures { IsPut out.old at (line (ascii "form ") (form_name form)) result out.new }
{
    if form {
        buffer::put(out, at, b"form yes\n")
    } else {
        buffer::put(out, at, b"form no\n")
    }
}

// The lines of an accepted image, at the start of a text: by its kind the lengths of the comment and the padding, or
// of the ciphertext and the tag, and then the image's.
fn put_accepted(out: &mut [u8], f: &Fields, image: usize, form: bool) -> usize
    ensures { IsText out.old (accepted f.now.header f.now.section image form) result out.new }
{
    match f.section.kind {
        Kind::Plain => {
            let a = buffer::put(out, 0, b"kind plain\n");
            let b = put_names(out, a, &f.header);
            let c = put_number(out, b, b"comment ", f.section.comment.length);
            let d = put_number(out, c, b"padding ", f.section.padding);
            let e = put_number(out, d, b"image ", image);
            put_form(out, e, form)
        }
        Kind::Encrypted => {
            let a = buffer::put(out, 0, b"kind encrypted\n");
            let b = put_names(out, a, &f.header);
            let c = put_number(out, b, b"ciphertext ", f.section.ciphertext.length);
            let d = put_number(out, c, b"tag ", f.section.tag.length);
            put_number(out, d, b"image ", image)
        }
    }
}

fn put_report(out: &mut [u8], image: &[u8]) -> usize
    ensures { IsText out.old (summary_of image.now) result out.new }
{
    match reader_image::read_with_form(image) {
        Err(f) => report_parts::put_refused(out, 0, f.why, f.at),
        Ok((f, form)) => put_accepted(out, &f, image.len(), form),
    }
}

// Writes the report on an image to the start of a lent buffer, which keeps every byte past it, and all of
// them where it is shorter than the report. 256 bytes are always enough.
pub fn write_report(image: &[u8], out: &mut [u8]) -> Written
    ensures { IsReport image.now out.old result out.new }
{
    // A room of its own, with a length beside it: the library allocates nothing.
    let mut text = [0u8; 256];
    let n = put_report(&mut text, image);
    report_parts::hand_text(&text[..n], out)
}
