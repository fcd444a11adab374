// Reads bytes from standard input and writes them in their text armour to standard output. One byte more than
// may be carried is read, so that a longer input is above the limit too. A refusal, and why a read or a write
// failed, stands on standard error.
#![tactic(auto)]

use std::io;

fn main(rt: HostRuntime) -> io::Result<()> {
    let mut bytes = [0u8; 65536];
    let taken = standard_streams::take_input(
        &mut rt.stdin(),
        &mut rt.stderr(),
        &mut bytes,
        b"armour: standard input",
    )?;
    let Some(n) = taken else {
        return Ok(());
    };
    let mut text = [0u8; 88699];
    let written = armour_export::export(&bytes[..n], &mut text);
    standard_streams::hand_out(
        &mut rt.stdout(),
        &mut rt.stderr(),
        written,
        &text,
        b"armour: standard output",
    )
}
