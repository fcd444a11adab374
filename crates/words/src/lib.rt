// Bytes compared by words: a name is held to a text a few bytes at a time.
//
// A word is some bytes as one number, the first the lowest; two words are equal exactly if their bytes are.
#![tactic(auto)]

ghost use Rattle.std.specs.Prelude.{◌≡◌, ◌+◌, ◌%◌, ◌≤◌, ◌<◌, length, drop};
ghost use Rattle.fields.specs.Bytes.{same_bytes};
ghost use Rattle.words.specs.Words.{IsWord, same_piece};

// The bytes at the place as a number, the first the lowest: two, four or eight of them. Compiled, each is one load.
fn two(bytes: &[u8], at: usize) -> u16
    requires { at + 2 ≤ length bytes.now }
    ensures { IsWord 2 bytes.now at result }
{
    u16::from_le_bytes([bytes[at], bytes[at + 1]])
}

fn four(bytes: &[u8], at: usize) -> u32
    requires { at + 4 ≤ length bytes.now }
    ensures { IsWord 4 bytes.now at result }
{
    u32::from_le_bytes([bytes[at], bytes[at + 1], bytes[at + 2], bytes[at + 3]])
}

fn eight(bytes: &[u8], at: usize) -> u64
    requires { at + 8 ≤ length bytes.now }
    ensures { IsWord 8 bytes.now at result }
{
    u64::from_le_bytes([
        bytes[at],
        bytes[at + 1],
        bytes[at + 2],
        bytes[at + 3],
        bytes[at + 4],
        bytes[at + 5],
        bytes[at + 6],
        bytes[at + 7],
    ])
}

// A text of fewer than 32 bytes is pieces of 1, 2, 4, 8 and 16 bytes, one for each binary digit that its length has, the shortest first.
// The next five compare one piece each; what the text doesn't have is the same. Each reads a number of another type: one generic function
// would need a trait of them with an impl for each.
fn same_one(text: &[u8], name: &[u8]) -> bool
    requires { length name.now ≡ length text.now }
    ensures { result ≡ same_piece 1 name.now text.now }
{
    if text.len() % 2 < 1 {
        return true;
    }
    name[0] == text[0]
}

fn same_two(text: &[u8], name: &[u8]) -> bool
    requires { length name.now ≡ length text.now }
    ensures { result ≡ same_piece 2 name.now text.now }
{
    let n = text.len();
    if n % 4 < 2 {
        return true;
    }
    two(name, n % 2) == two(text, n % 2)
}

fn same_four(text: &[u8], name: &[u8]) -> bool
    requires { length name.now ≡ length text.now }
    ensures { result ≡ same_piece 4 name.now text.now }
{
    let n = text.len();
    if n % 8 < 4 {
        return true;
    }
    four(name, n % 4) == four(text, n % 4)
}

fn same_eight(text: &[u8], name: &[u8]) -> bool
    requires { length name.now ≡ length text.now }
    ensures { result ≡ same_piece 8 name.now text.now }
{
    let n = text.len();
    if n % 16 < 8 {
        return true;
    }
    eight(name, n % 8) == eight(text, n % 8)
}

// What is left after the others: sixteen bytes or none.
fn same_sixteen(text: &[u8], name: &[u8]) -> bool
    requires { (length name.now ≡ length text.now) × (length text.now < 32) }
    ensures { result ≡ same_bytes (drop (length text.now % 16) name.now) (drop (length text.now % 16) text.now) }
{
    let n = text.len();
    if n < 16 {
        return true;
    }
    let at = n % 16;
    if eight(name, at) != eight(text, at) {
        return false;
    }
    eight(name, at + 8) == eight(text, at + 8)
}

// Is the name that text? By pieces, none of which overlaps another: of a text that is known when this is compiled each piece is then one
// number to compare with, of sixteen bytes two. The text comes first, so that the compiler goes by its length.
pub fn spells(text: &[u8], name: &[u8]) -> bool
    ensures { result ≡ same_bytes name.now text.now }
{
    let n = text.len();
    if name.len() != n {
        return false;
    }
    if 32 <= n {
        return fields::same(name, text);
    }
    if !same_one(text, name) {
        return false;
    }
    if !same_two(text, name) {
        return false;
    }
    if !same_four(text, name) {
        return false;
    }
    if !same_eight(text, name) {
        return false;
    }
    same_sixteen(text, name)
}
