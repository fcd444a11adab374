// Is a text UTF-8 (RFC 3629)?
#![tactic(auto)]

ghost use Rattle.std.specs.Prelude.{◌≡◌, ◌+◌, ◌/◌, ◌≤◌, ◌<◌, true, length, drop, get_or};
ghost use Rattle.std.specs.Int.Count.{count_trailing_zeros};
ghost use Rattle.utf8.specs.Utf8.{◌to◌, UTF8-char, rest, utf8};
ghost use Rattle.utf8.specs.Laws.{leaves};
ghost use Rattle.utf8.specs.Steps.{ascii_run, top_bits, lies_at, ranges, Ends, Passes};
ghost use Rattle.utf8.specs.Follow.{lowest_after, highest_after, may_follow, all_follow, begin_of};

// What is left of a character after its first byte: a byte from .0 to .1, and then .2 bytes from 0x80 to 0xBF.
#[derive(Clone, Copy)]
struct Rest(u8, u8, u8);

// Does a byte from low to high stand at the place?
#[tactic(auto, using(crate::proofs::Bytes::lies_found, crate::proofs::Bytes::lies_nowhere))]
fn lies_at(text: &[u8], at: usize, low: u8, high: u8) -> bool
    ensures { result ≡ lies_at (low to high) text.now at }
{
    match text.get(at) {
        Some(b) => low <= *b && *b <= high,
        None => false,
    }
}

// Where the character ends of which this is left, from the place on, if it stands there whole.
fn end_of(text: &[u8], from: usize, left: Rest) -> Option<usize>
    ensures { Ends text.now from (ranges left) result }
{
    let Rest(low, high, tails) = left;
    if !lies_at(text, from, low, high) {
        return None;
    }
    let tails = tails as usize;
    for k in 0..tails {
        if !lies_at(text, from + 1 + k, 0x80, 0xBF) {
            return None;
        }
    }
    Some(from + 1 + tails)
}

// Where the characters of one row end, from the place on: a first byte lies from low to high, as the one at the place is known to, and
// this is left after it. Compiled, each row has a loop of its own, whose bounds are constants. It goes on from where a character ended, so
// it is no `for`.
fn past_row(text: &[u8], from: usize, low: u8, high: u8, left: Rest) -> Option<usize>
    requires from_in_bounds { from < length text.now }
    requires left_value { leaves low high (ranges left) ≡ true }
    ensures { Ends text.now (from + 1) (ranges left) result }
{
    let mut at = from;
    loop {
        let end = end_of(text, at + 1, left)?;
        if !lies_at(text, end, low, high) {
            return Some(end);
        }
        at = end;
    }
}

// The same, of the row that the byte at the place begins, one other than ASCII. The length first: the characters of a text mostly have one
// length, so the processor guesses the branch right.
fn past_others(text: &[u8], from: usize, lead: u8) -> Option<usize>
    requires from_in_bounds { from < length text.now }
    requires le_lead { 0x80 ≤ lead }
    ensures { Ends text.now (from + 1) (rest lead UTF8-char) result }
{
    if lead < 0xE0 {
        if lead < 0xC2 {
            return None;
        }
        return past_row(text, from, 0xC2, 0xDF, Rest(0x80, 0xBF, 0));
    }
    if lead < 0xF0 {
        return match lead {
            0xE0 => past_row(text, from, 0xE0, 0xE0, Rest(0xA0, 0xBF, 1)),
            0xE1..=0xEC => past_row(text, from, 0xE1, 0xEC, Rest(0x80, 0xBF, 1)),
            0xED => past_row(text, from, 0xED, 0xED, Rest(0x80, 0x9F, 1)),
            _ => past_row(text, from, 0xEE, 0xEF, Rest(0x80, 0xBF, 1)),
        };
    }
    match lead {
        0xF0 => past_row(text, from, 0xF0, 0xF0, Rest(0x90, 0xBF, 2)),
        0xF1..=0xF3 => past_row(text, from, 0xF1, 0xF3, Rest(0x80, 0xBF, 2)),
        0xF4 => past_row(text, from, 0xF4, 0xF4, Rest(0x80, 0x8F, 2)),
        _ => None,
    }
}

// The range of the byte after a character's first byte.

fn lowest_after(lead: u8) -> u8
    ensures { result ≡ lowest_after lead }
{
    match lead {
        0xE0 => 0xA0,
        0xF0 => 0x90,
        _ => 0x80,
    }
}

fn highest_after(lead: u8) -> u8
    ensures { result ≡ highest_after lead }
{
    match lead {
        0xED => 0x9F,
        0xF4 => 0x8F,
        _ => 0xBF,
    }
}

// May b stand after the three bytes z, y and x? Where one of them asks for it, as a tail, and else as a first byte.
fn may_follow(z: u8, y: u8, x: u8, b: u8) -> bool
    ensures { result ≡ may_follow z y x b }
{
    if (0xC0 <= x) | (0xE0 <= y) | (0xF0 <= z) {
        return (lowest_after(x) <= b) & (b <= highest_after(x));
    }
    (b < 0x80) | ((0xC2 <= b) & (b <= 0xF4))
}

// May each of 32 bytes stand where it does, after the three from the place on? All are looked at, without a jump: compiled, it is vector code.
fn all_follow(text: &[u8], at: usize) -> bool
    requires { at + 35 ≤ length text.now }
    ensures { result ≡ all_follow 32 text.now at }
{
    let mut good = true;
    for k in 0..32 {
        good &= may_follow(
            text[at + k],
            text[at + k + 1],
            text[at + k + 2],
            text[at + k + 3],
        );
    }
    good
}

// Where the character begins that is not whole before the place: one to three bytes before; else the place itself.
fn begin_of(text: &[u8], at: usize) -> usize
    requires { (3 ≤ at) × (at ≤ length text.now) }
    ensures { result ≡ begin_of text.now at }
{
    if 0xC0 <= text[at - 1] {
        return at - 1;
    }
    if 0xE0 <= text[at - 2] {
        return at - 2;
    }
    if 0xF0 <= text[at - 3] {
        return at - 3;
    }
    at
}

// Past characters that aren't ASCII, from the place on, of which this is the first byte: those that are whole within 32 bytes, where so many
// are left; else those of one row.
fn past_characters(text: &[u8], from: usize, lead: u8) -> Option<usize>
    requires { (from < length text.now) × (lead ≡ get_or text.now from 0) × (0x80 ≤ lead) }
    ensures { Passes text.now from result }
{
    if 32 <= text.len() - from && 3 <= from && begin_of(text, from) == from {
        if all_follow(text, from - 3) {
            return Some(begin_of(text, from + 32));
        }
        return None;
    }
    past_others(text, from, lead)
}

// The top bits of the eight bytes at the place, in a number whose lowest byte is the first of them. Compiled, the bytes are one load.
fn top_bits(text: &[u8], at: usize) -> u64
    requires { at + 8 ≤ length text.now }
    ensures { result ≡ top_bits 8 (drop at text.now) }
{
    let number = u64::from_le_bytes([
        text[at],
        text[at + 1],
        text[at + 2],
        text[at + 3],
        text[at + 4],
        text[at + 5],
        text[at + 6],
        text[at + 7],
    ]);
    number & 0x8080808080808080
}

// How many ASCII bytes stand before the first other one, from the top bits, which aren't all 0: below the lowest that is set stand eight
// zeros for each of them, and seven more.
fn before_top(tops: u64) -> usize
    ensures { (result ≡ count_trailing_zeros 64 tops / 8) × (result ≤ 8) }
{
    tops.trailing_zeros() as usize / 8
}

// How many ASCII bytes the text begins with, a byte at a time.
fn ascii_bytes(text: &[u8]) -> usize
    ensures { result ≡ ascii_run text.now }
{
    for (i, b) in text.iter().enumerate() {
        if 0x80 <= *b {
            return i;
        }
    }
    text.len()
}

// Where the ASCII ends that begins at the place, of the text's last eight bytes.
fn past_last(text: &[u8], from: usize) -> usize
    requires { from + 8 ≡ length text.now }
    ensures { result ≡ from + ascii_run (drop from text.now) }
{
    let tops = top_bits(text, from);
    if tops == 0 {
        return from + 8;
    }
    from + before_top(tops)
}

// The same, eight bytes at a step, and two steps to a round of the loop: with one the processor would spend as much on the round as on the
// step. The last step is over the last eight bytes, whatever of them was looked at before; a byte at a time where there are fewer.
fn past_ascii(text: &[u8], from: usize) -> usize
    requires { from ≤ length text.now }
    ensures { result ≡ from + ascii_run (drop from text.now) }
{
    let n = text.len();
    if n < from + 8 {
        return from + ascii_bytes(&text[from..]);
    }
    let last = n - 8;
    let mut at = from;
    while at + 8 < last {
        let tops = top_bits(text, at);
        if tops != 0 {
            return at + before_top(tops);
        }
        let more = top_bits(text, at + 8);
        if more != 0 {
            return at + 8 + before_top(more);
        }
        at += 16;
    }
    if last <= at {
        return past_last(text, last);
    }
    let tops = top_bits(text, at);
    if tops != 0 {
        return at + before_top(tops);
    }
    past_last(text, last)
}

// Is the block ASCII? It is if all its bytes or'ed together have no top bit. Compiled, the loop is vector code.
fn ascii_block(block: &[u8; 128]) -> bool
    ensures { result ≡ true → 128 ≤ ascii_run block.now }
{
    let mut all: u8 = 0;
    for b in block {
        all |= *b;
    }
    all < 0x80
}

// How many bytes at the beginning of the text pass as blocks of ASCII.
fn past_blocks(text: &[u8]) -> usize
    ensures { result ≤ ascii_run text.now }
{
    let (blocks, _) = text.as_chunks();
    for (i, block) in blocks.iter().enumerate() {
        if !ascii_block(block) {
            return i * 128;
        }
    }
    blocks.len() * 128
}

// Is the text UTF-8? ASCII at its beginning passes by blocks. After another character a block would mostly be tried in vain: there ASCII
// passes as far as it goes, and others 32 bytes at a step or by their row: a step says only afterwards how far it went, so it is no `for`.
pub fn is_utf8(text: &[u8]) -> bool
    ensures { result ≡ utf8 text.now }
{
    let mut i = past_blocks(text);
    while i < text.len() {
        let b = text[i];
        if b < 0x80 {
            i = past_ascii(text, i);
        } else {
            let Some(at) = past_characters(text, i, b) else {
                return false;
            };
            i = at;
        }
    }
    true
}
