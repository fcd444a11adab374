// A record's keys as the table that the writer of several takes: their parts are places in the image itself. The
// first key's are the record's own; the others are read anew, each where it begins, with the blob of its number.
#![tactic(auto)]

ghost use Rattle.std.specs.Prelude.{◌≡◌};
ghost use Rattle.fields.specs.Bytes.{join};
ghost use Rattle.buffer.specs.Puts.{IsPut};
ghost use Rattle.buffer.specs.Runs.{IsRun};
ghost use Rattle.writer_listed.specs.Listed.{kept_part, IsListed};
ghost use Rattle.writer_listed.specs.Rows.{row_of};
ghost use Rattle.writer_listed.specs.Steps.{rows_at};

use fields::{Cursor, Part};
use places::Places;
use reader_entries::KeyFields;
use reader_image::Fields;
use writer_reply::Written;

// A part that lies within the image; the absent one for any other, which has no bytes either.
#[tactic(auto, unfolding(crate::specs::Listed::kept_part))]
fn kept(image: &[u8], part: Part) -> Part
    ensures { result ≡ kept_part image.now part }
{
    if writer_parts::has_room(image.len(), part.start, part.length) {
        return part;
    }
    Part::ABSENT
}

// Puts numbers into the table, as `buffer::put` does bytes. One put for both would be generic, and `IsPut`, by which
// the contracts and theorems of puts are stated, is of lists of numbers, not of a type parameter.
fn put_numbers(table: &mut [usize], at: usize, numbers: &[usize]) -> usize
    ensures { IsPut table.old at numbers.now result table.new }
{
    if !writer_parts::has_room(table.len(), at, numbers.len()) {
        return at;
    }
    for i in 0..numbers.len() {
        table[at + i] = numbers[i];
    }
    at + numbers.len()
}

// Puts the 19 numbers of a key.
fn put_row(table: &mut [usize], at: usize, image: &[u8], k: KeyFields) -> usize
    ensures { IsPut table.old at (row_of image.now k) result table.new }
{
    let KeyFields {
        public,
        private,
        ..
    } = k;
    let point = kept(image, public.point);
    let scalar = kept(image, private.scalar);
    let comment = kept(image, k.comment);
    let n = kept(image, public.modulus);
    let e = kept(image, public.exponent);
    let d = kept(image, private.d);
    let iqmp = kept(image, private.iqmp);
    let p = kept(image, private.p);
    let q = kept(image, private.q);
    let row: [usize; 19] = [
        k.algorithm.code() as usize,
        point.start,
        point.length,
        scalar.start,
        scalar.length,
        comment.start,
        comment.length,
        n.start,
        n.length,
        e.start,
        e.length,
        d.start,
        d.length,
        iqmp.start,
        iqmp.length,
        p.start,
        p.length,
        q.start,
        q.length,
    ];
    put_numbers(table, at, &row)
}

// Puts those of the keys after the first, up to the last or the first that isn't there. The second one's blob is
// at `second`.
fn put_others(
    table: &mut [usize],
    at: usize,
    image: &[u8],
    places: Places,
    count: usize,
    second: Cursor,
) -> usize
    ensures { IsRun table.old at (join (rows_at image.now second places 1 count)) result table.new }
{
    let mut past = at;
    let mut blob = second;
    for k in 1..count.min(16) {
        let Some((key, next)) = reader_entries::read_key(blob, image, places.get(k) as usize) else {
            return past;
        };
        past = put_row(table, past, image, key);
        blob = next;
    }
    past
}

// An image of a record's keys, in their order, with its checkint.
pub fn write_listed(image: &[u8], f: Fields, out: &mut [u8]) -> Written
    ensures { IsListed image.now f out.old result out.new }
{
    let Fields { header, section } = f;
    let places = section.places;
    let key = KeyFields {
        algorithm: header.algorithm,
        blob: header.blob,
        public: header.public,
        begins: places.get(0) as usize,
        private: section.private,
        comment: section.comment,
    };
    let first = kept(image, header.blob);
    let blob = Cursor {
        at: first.start + first.length,
        end: image.len(),
    };
    // There is no heap: the table has room for sixteen keys' numbers, and what is filled has its length beside it.
    let mut table = [0usize; 304];
    let one = put_row(&mut table, 0, image, key);
    let size = put_others(&mut table, one, image, places, header.count, blob);
    writer_keys::write_filled(image, &table[..size], section.checkint, out)
}
