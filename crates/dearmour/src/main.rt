// Reads a text armour from standard input and writes the bytes that it carries to standard output. A refusal,
// and why a read or a write failed, stands on standard error. A text of a mebibyte or more, which
// is more than ten times the longest that is taken, is above the limit whatever it holds.
#![tactic(auto)]

ghost use Rattle.std.specs.Prelude.{◌≡◌, length};

use fields::Refusal;
use std::io;

// The `ensures` gives only the length, which is all that lending it needs.
fn mebibyte() -> [u8; 1048576]
    ensures { 1048576 ≡ length result }
{
    [0; 1048576]
}

fn main(rt: HostRuntime) -> io::Result<()> {
    let mut text = mebibyte();
    let taken = standard_streams::take_input(
        &mut rt.stdin(),
        &mut rt.stderr(),
        &mut text,
        b"dearmour: standard input",
    )?;
    let Some(n) = taken else {
        return Ok(());
    };
    if n == 1048576 {
        return standard_streams::tell_refused(&mut rt.stderr(), Refusal::Size.at(0));
    }
    let mut bytes = [0u8; 65535];
    let written = armour_import::import(&text[..n], &mut bytes);
    standard_streams::hand_out(
        &mut rt.stdout(),
        &mut rt.stderr(),
        written,
        &bytes,
        b"dearmour: standard output",
    )
}
