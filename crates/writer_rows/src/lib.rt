// One key of a table, as the writer of several keys checks, measures and puts it. Text, table and place stay
// parameters: the first two are the caller's for all keys, and only the place is another for each.
#![tactic(auto)]

ghost use Rattle.std.specs.Prelude.{◌≡◌, length};
ghost use Rattle.fields.specs.Bytes.{string};
ghost use Rattle.format.specs.Format.{alone, key_blob, written_entry};
ghost use Rattle.buffer.specs.Puts.{IsPut};
ghost use Rattle.writer_parts.specs.Checks.{key_checked, passed};
ghost use Rattle.writer_parts.specs.Sizes.{capped};
ghost use Rattle.writer_plain.specs.Plain.{keys_checked};
ghost use Rattle.writer_plain.specs.Lent.{lent_algorithm, lent_public, lent_private};
ghost use Rattle.writer_table.specs.Table.{key_at};
ghost use Rattle.writer_rows.specs.Taken.{key_taken};

use fields::Refusal;
use names::Algorithm;
use writer_numbers::Numbers;
use writer_plain::KeyParts;
use writer_reply::Written;
use writer_table::{algorithm_at, part_at};

// The parts of the key whose numbers begin at j. Inlined, so that each of those who ask looks up only the parts that it uses.
#[inline(always)]
fn parts_at<'a>(text: &'a [u8], table: &[usize], j: usize) -> KeyParts<'a>
    ensures algorithm { lent_algorithm result ≡ (key_at text.now table.now j).algorithm }
    ensures public { lent_public result ≡ (key_at text.now table.now j).public }
    ensures private { lent_private result ≡ (key_at text.now table.now j).private }
{
    match algorithm_at(table, j) {
        Algorithm::Elliptic(algorithm) => KeyParts::Curve {
            algorithm,
            point: part_at(text, table, j, 1),
            scalar: part_at(text, table, j, 3),
        },
        Algorithm::Rsa => KeyParts::Rsa(Numbers {
            n: part_at(text, table, j, 7),
            e: part_at(text, table, j, 9),
            d: part_at(text, table, j, 11),
            iqmp: part_at(text, table, j, 13),
            p: part_at(text, table, j, 15),
            q: part_at(text, table, j, 17),
        }),
    }
}

// What a writer refuses of a key but for its comment, or the length 0. A record's scalar is filled with zeros.
fn check_key(filling: bool, text: &[u8], table: &[usize], j: usize) -> Written
    ensures { result ≡ key_checked (key_taken filling (key_at text.now table.now j)).algorithm (key_taken filling (key_at text.now table.now j)).public (key_taken filling (key_at text.now table.now j)).private passed }
{
    let key = parts_at(text, table, j);
    key.check(filling)
}

// What it refuses of a key with its comment.
pub fn check_at(filling: bool, text: &[u8], table: &[usize], j: usize) -> Written
    ensures { result ≡ keys_checked (alone (key_taken filling (key_at text.now table.now j))) passed }
{
    check_key(filling, text, table, j)?;
    if !utf8::is_utf8(part_at(text, table, j, 5)) {
        return writer_reply::refused(Refusal::CharacterEncoding);
    }
    Ok(0)
}

// The length of its public blob.
pub fn blob_length_at(text: &[u8], table: &[usize], j: usize) -> usize
    ensures { result ≡ capped (length (key_blob (key_at text.now table.now j))) }
{
    let key = parts_at(text, table, j);
    key.blob_length()
}

// Its public blob, as a string.
pub fn put_blob_at(out: &mut [u8], at: usize, text: &[u8], table: &[usize], j: usize) -> usize
    ensures { IsPut out.old at (string (key_blob (key_at text.now table.now j))) result out.new }
{
    let key = parts_at(text, table, j);
    key.put_blob(out, at)
}

// The length of its keypair.
pub fn pair_length_at(text: &[u8], table: &[usize], j: usize) -> usize
    ensures { result ≡ capped (length (written_entry (key_at text.now table.now j)).pair) }
{
    let key = parts_at(text, table, j);
    key.pair_length()
}

// Its keypair.
pub fn put_pair_at(out: &mut [u8], at: usize, text: &[u8], table: &[usize], j: usize) -> usize
    ensures { IsPut out.old at (written_entry (key_at text.now table.now j)).pair result out.new }
{
    let key = parts_at(text, table, j);
    key.put_pair(out, at)
}
