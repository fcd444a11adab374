// Bytes moved within one lent buffer, to the left or to the right. The two places may overlap. By loops: the library's `copy_within` is a
// memmove, which nothing else here needs.
#![tactic(auto)]

ghost use Rattle.std.specs.Prelude.{◌≡◌, ◌+◌, ◌≤◌, length};
ghost use Rattle.buffer_moves.specs.Moves.{run, moved};

// To the left, the first byte first.
fn move_left(out: &mut [u8], from: usize, to: usize, n: usize)
    requires { (to ≤ from) × (from + n ≤ length out.old) }
    ensures { out.new ≡ run out.old from to n }
{
    for i in 0..n {
        out[to + i] = out[from + i];
    }
}

// To the right, the last byte first.
fn move_right(out: &mut [u8], from: usize, to: usize, n: usize)
    requires { (from ≤ to) × (to + n ≤ length out.old) }
    ensures { out.new ≡ run out.old from to n }
{
    for i in (0..n).rev() {
        out[to + i] = out[from + i];
    }
}

// Puts the n bytes that stand at `from` at `to`; where either place isn't within the buffer all stays.
#[tactic(auto, unfolding(crate::specs::Moves::moved))]
pub fn move_bytes(out: &mut [u8], from: usize, to: usize, n: usize)
    ensures { out.new ≡ moved out.old from to n }
{
    if out.len() < n {
        return;
    }
    let last = out.len() - n;
    if from > last || to > last {
        return;
    }
    if to <= from {
        move_left(out, from, to, n);
    } else {
        move_right(out, from, to, n);
    }
}
