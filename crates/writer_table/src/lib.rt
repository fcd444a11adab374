// The table of keys that a caller hands in beside one text: its numbers, its parts, and whether it can be used. Text
// and table are two parameters, as C hands them in, and the place of a key's numbers is another at each call.
#![tactic(auto)]

ghost use Rattle.std.specs.Prelude.{◌≡◌, ◌+◌, ◌*◌, ◌≤◌, length, get_or};
ghost use Rattle.fields.specs.Fields.{IsView};
ghost use Rattle.names_codes.specs.Codes.{algorithm_coded};
ghost use Rattle.writer_parts.specs.Checks.{passed};
ghost use Rattle.writer_table.specs.Table.{rows, part_at, code_known, algorithm_at, part_within, row_is_within, every, table_fits, table_checked};

use fields::{Part, Refusal};
use names::Algorithm;
use writer_parts::added;
use writer_reply::Written;

// A number of the table, or 0 past its end.
#[tactic(auto, using(crate::specs::Rows::past_end))]
fn number(table: &[usize], i: usize) -> usize
    ensures { result ≡ get_or table.now i 0 }
{
    table.get(i).copied().unwrap_or(0)
}

// The part that the two numbers k after j name.
fn named_part(table: &[usize], j: usize, k: usize) -> Part
    ensures { result ≡ part_at table.now (j + k) }
{
    let i = added(j, k);
    Part {
        start: number(table, i),
        length: number(table, added(i, 1)),
    }
}

// Its bytes.
pub fn part_at<'a>(text: &'a [u8], table: &[usize], j: usize, k: usize) -> &'a [u8]
    ensures { IsView result text.entry (part_at table.now (j + k)) }
{
    fields::view(text, named_part(table, j, k))
}

// Is it within the text?
#[tactic(auto, unfolding(crate::specs::Table::part_within))]
fn part_within(text: &[u8], table: &[usize], j: usize, k: usize) -> bool
    ensures { result ≡ part_within text.now table.now (j + k) }
{
    let Part { start, length } = named_part(table, j, k);
    writer_parts::has_room(text.len(), start, length)
}

// Are all nine parts of a key?
#[tactic(auto, unfolding(crate::specs::Table::row_is_within))]
fn row_within(text: &[u8], table: &[usize], j: usize) -> bool
    ensures { result ≡ row_is_within text.now table.now j }
{
    part_within(text, table, j, 1)
        && part_within(text, table, j, 3)
        && part_within(text, table, j, 5)
        && part_within(text, table, j, 7)
        && part_within(text, table, j, 9)
        && part_within(text, table, j, 11)
        && part_within(text, table, j, 13)
        && part_within(text, table, j, 15)
        && part_within(text, table, j, 17)
}

// Are those of every key?
fn rows_within(text: &[u8], table: &[usize]) -> bool
    ensures { result ≡ every (row_is_within text.now table.now) (rows table.now) }
{
    (0..table.len() / 19).all(|i| row_within(text, table, 19 * i))
}

// Has the table the numbers of 1 to 16 keys, whose parts are all within the text?
#[tactic(auto, unfolding(crate::specs::Table::table_fits))]
fn table_fits(text: &[u8], table: &[usize]) -> bool
    ensures { result ≡ table_fits text.now table.now }
{
    let count = table.len() / 19;
    table.len() % 19 == 0 && 1 <= count && count <= 16 && rows_within(text, table)
}

// The algorithm whose code it is.
#[tactic(auto, using(crate::specs::Rows::code_large))]
fn named(code: usize) -> Option<Algorithm>
    ensures { result ≡ algorithm_coded code }
{
    names_codes::algorithm_coded(u8::try_from(code).ok()?)
}

// The algorithm of the key whose numbers begin at j, RSA where its code names nothing.
#[tactic(auto, unfolding(crate::specs::Table::algorithm_at))]
pub fn algorithm_at(table: &[usize], j: usize) -> Algorithm
    ensures { result ≡ algorithm_at table.now j }
{
    named(number(table, j)).unwrap_or(Algorithm::Rsa)
}

#[tactic(auto, unfolding(crate::specs::Table::code_known))]
fn code_known(table: &[usize], j: usize) -> bool
    ensures { result ≡ code_known table.now j }
{
    named(number(table, j)).is_some()
}

// Does the code of every key name something?
fn rows_known(table: &[usize]) -> bool
    ensures { result ≡ every (code_known table.now) (rows table.now) }
{
    (0..table.len() / 19).all(|i| code_known(table, 19 * i))
}

// What a writer refuses of a table before it looks at a key, or the length 0.
#[tactic(auto, unfolding(crate::specs::Table::table_checked))]
pub fn check(text: &[u8], table: &[usize]) -> Written
    ensures { result ≡ table_checked text.now table.now passed }
{
    if !table_fits(text, table) {
        return writer_reply::refused(Refusal::Length);
    }
    if !rows_known(table) {
        return writer_reply::refused(Refusal::AlgorithmUnknown);
    }
    Ok(0)
}
