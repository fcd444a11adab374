// The plain writer of 1 to 16 keys, which are handed in as one lent text and a table of numbers. It checks all, in
// the rules' order, before it changes a byte; then it puts the blobs and, in a second pass, the entries.
#![tactic(auto)]

ghost use Rattle.std.specs.Prelude.{◌≡◌, true, false, map, ◌+◌, ◌*◌, ◌≤◌, ◌<◌, length};
ghost use Rattle.fields.specs.Bytes.{join};
ghost use Rattle.format.specs.Format.{key_blob, written_entry, written_image};
ghost use Rattle.format.specs.Lengths.{blobs_length, entries_length};
ghost use Rattle.buffer.specs.Runs.{IsRun};
ghost use Rattle.key_material.specs.Material.{checkint_of};
ghost use Rattle.writer_reply.specs.Reply.{IsSized};
ghost use Rattle.writer_parts.specs.Checks.{passed};
ghost use Rattle.writer_parts.specs.Sizes.{capped};
ghost use Rattle.writer_plain.specs.Plain.{keys_checked};
ghost use Rattle.writer_rows.specs.Taken.{keys_taken};
ghost use Rattle.writer_keys.specs.Named.{IsNamed, first_private};
ghost use Rattle.writer_keys.specs.Passes.{keys_from, blobs_of, entries_of};

use fields::Refusal;
use names::Algorithm;
use writer_parts::added;
use writer_reply::Written;
use writer_table::part_at;

// Keys that are handed in as one text and a table of their numbers, and how many they are.
#[derive(Clone, Copy)]
struct Keys<'a> {
    text: &'a [u8],
    table: &'a [usize],
    count: usize,
    ghost counted: { count * 19 ≤ length table.now },
}

impl<'a> Keys<'a> {
    // What is refused of them, in their order, or the length 0.
    fn check(&self, filling: bool) -> Written
        ensures { result ≡ keys_checked (keys_taken filling (keys_from self.now.text.now self.now.table.now 0 self.now.count)) passed }
    {
        for i in 0..self.count {
            writer_rows::check_at(filling, self.text, self.table, 19 * i)?;
        }
        Ok(0)
    }

    // The length of their blobs, each with its length field.
    fn blobs_length(&self) -> usize
        ensures { result ≡ capped (blobs_length (map key_blob (keys_from self.now.text.now self.now.table.now 0 self.now.count))) }
    {
        let mut sum = 0;
        for i in 0..self.count {
            let one = added(
                4,
                writer_rows::blob_length_at(self.text, self.table, 19 * i),
            );
            sum = added(sum, one);
        }
        sum
    }

    // The length of their entries: each keypair, and its comment with its length field.
    fn entries_length(&self) -> usize
        ensures { result ≡ capped (entries_length (map written_entry (keys_from self.now.text.now self.now.table.now 0 self.now.count))) }
    {
        let mut sum = 0;
        for i in 0..self.count {
            let pair = added(
                4,
                writer_rows::pair_length_at(self.text, self.table, 19 * i),
            );
            let comment = part_at(self.text, self.table, 19 * i, 5);
            sum = added(sum, added(pair, comment.len()));
        }
        sum
    }

    // Puts their blobs.
    fn put_blobs(&self, out: &mut [u8], at: usize) -> usize
        ensures { IsRun out.old at (join (blobs_of (keys_from self.now.text.now self.now.table.now 0 self.now.count))) result out.new }
    {
        let mut past = at;
        for i in 0..self.count {
            past = writer_rows::put_blob_at(out, past, self.text, self.table, 19 * i);
        }
        past
    }

    // Puts their entries.
    fn put_entries(&self, out: &mut [u8], at: usize) -> usize
        ensures { IsRun out.old at (join (entries_of (keys_from self.now.text.now self.now.table.now 0 self.now.count))) result out.new }
    {
        let mut past = at;
        for i in 0..self.count {
            let pair = writer_rows::put_pair_at(out, past, self.text, self.table, 19 * i);
            past = buffer::put_string(out, pair, part_at(self.text, self.table, 19 * i, 5));
        }
        past
    }

    // Puts every field of an image. The caller has seen to the entries' length and to room. `writer_plain::put_plain`
    // puts one key alike: one for both would take a closure for the blobs and one for the entries, to save eight lines.
    fn put(&self, out: &mut [u8], checkint: u32, entries: usize) -> usize
        requires { (entries ≡ entries_length (map written_entry (keys_from self.now.text.now self.now.table.now 0 self.now.count))) × (entries < 65536) }
        ensures { IsRun out.old 0 (written_image checkint (keys_from self.now.text.now self.now.table.now 0 self.now.count)) result out.new }
    {
        let content = 8 + entries;
        let padding = buffer::padding(content);
        let front = b"openssh-key-v1\0\0\0\0\x04none\0\0\0\x04none\0\0\0\0";
        let a = buffer::put(out, 0, front);
        let b = buffer::put_uint32(out, a, self.count);
        let c = self.put_blobs(out, b);
        let d = buffer::put_uint32(out, c, content + padding);
        let e = buffer::put_uint32(out, d, checkint as usize);
        let f = buffer::put_uint32(out, e, checkint as usize);
        let g = self.put_entries(out, f);
        buffer::put_padding(out, g, padding)
    }

    // An image of keys that were checked, if its size and the room allow.
    fn write(&self, checkint: u32, out: &mut [u8]) -> Written
        ensures { IsSized (written_image checkint (keys_from self.now.text.now self.now.table.now 0 self.now.count)) out.old result out.new }
    {
        let entries = self.entries_length();
        let size = writer_parts::image_length(self.blobs_length(), entries);
        if 65535 < size {
            return writer_reply::refused(Refusal::Size);
        }
        if out.len() < size {
            return writer_reply::refused(Refusal::Room);
        }
        Ok(self.put(out, checkint, entries))
    }
}

// An image of the keys that the table names, their scalars filled with zeros in front, or as they are: `filling` is a
// bool, as in the contracts (`IsNamed`).
fn write_named(
    filling: bool,
    text: &[u8],
    table: &[usize],
    checkint: u32,
    out: &mut [u8],
) -> Written
    ensures { IsNamed filling text.now table.now checkint out.old result out.new }
{
    writer_table::check(text, table)?;
    let keys = Keys {
        text,
        table,
        count: table.len() / 19,
    };
    keys.check(filling)?;
    keys.write(checkint, out)
}

// An image of the keys that the table names, whose scalars may lack leading zeros, as a record's do.
pub fn write_filled(text: &[u8], table: &[usize], checkint: u32, out: &mut [u8]) -> Written
    ensures { IsNamed true text.now table.now checkint out.old result out.new }
{
    write_named(true, text, table, checkint, out)
}

// The private bytes of the first key: a seed or a scalar, and of RSA d.
fn first_private<'a>(text: &'a [u8], table: &[usize]) -> &'a [u8]
    ensures { result.now ≡ first_private text.now table.now }
{
    match writer_table::algorithm_at(table, 0) {
        Algorithm::Elliptic(_) => part_at(text, table, 0, 3),
        Algorithm::Rsa => part_at(text, table, 0, 11),
    }
}

// An image of the keys that the table names, each part of exactly its length, with the given checkint or the
// derived one.
pub fn write_keys(text: &[u8], table: &[usize], given: Option<u32>, out: &mut [u8]) -> Written
    ensures { IsNamed false text.now table.now (checkint_of given (first_private text.now table.now)) out.old result out.new }
{
    let checkint = given.unwrap_or_else(|| key_material::derived_checkint(first_private(
        text, table,
    )));
    write_named(false, text, table, checkint, out)
}
