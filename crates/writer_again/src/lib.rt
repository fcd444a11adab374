// An image's record written again.
#![tactic(auto)]

ghost use Rattle.std.specs.Prelude.{◌≡◌, ◌≤◌, length};
ghost use Rattle.reader_image.specs.Container.{read_at};
ghost use Rattle.writer_reply.specs.Reply.{IsSized};
ghost use Rattle.writer_again.specs.Rewrite.{IsRewrite, IsRewritten, IsHanded};

use fields::Refusal;
use reader_image::Fields;
use reader_parts::Which;
use reader_section::Kind;
use writer_reply::Written;

// A record that an accepted read of the image gave, written again by its kind's writer, all its keys in their order.
fn write_record(image: &[u8], f: Fields, out: &mut [u8]) -> Written
    requires { read_at image.now ≡ Ok f }
    ensures { IsRewrite image.now f out.old result out.new }
{
    let header = f.header;
    match f.section.kind {
        Kind::Plain => writer_listed::write_listed(image, f, out),
        Kind::Encrypted => writer_encrypted::write_encrypted(
            header.cipher,
            header.kdf,
            reader_parts::part(image, f, Which::Salt),
            header.rounds,
            reader_parts::part(image, f, Which::Blob),
            reader_parts::part(image, f, Which::Ciphertext),
            reader_parts::part(image, f, Which::Tag),
            out,
        ),
    }
}

// An image written as it is.
fn write_as_is(image: &[u8], out: &mut [u8]) -> Written
    requires { length image.now ≤ 65535 }
    ensures { IsSized image.now out.old result out.new }
{
    if out.len() < image.len() {
        return writer_reply::refused(Refusal::Room);
    }
    Ok(buffer::put(out, 0, image))
}

// An image's record written again, with its own checkint where it is plain. In the form that is the image itself.
pub fn rewrite(image: &[u8], out: &mut [u8]) -> Written
    ensures { IsRewritten image.now out.old result out.new }
{
    let fields = reader_image::read(image)?;
    let Fields { header, section } = fields;
    let form = reader_image::scalars_in_form(
        image,
        section.kind,
        header.algorithm,
        section.private.scalar,
        header.blob.start + header.blob.length,
        header.count,
        section.places,
    );
    if form {
        return write_as_is(image, out);
    }
    write_record(image, fields, out)
}

// A record that is handed in, written again: it has to be what an accepted read of its image gives.
pub fn rewrite_record(image: &[u8], f: Fields, out: &mut [u8]) -> Written
    ensures { IsHanded image.now f out.old result out.new }
{
    if !handed_record::is_read(image, f) {
        return writer_reply::refused(Refusal::Length);
    }
    write_record(image, f, out)
}
