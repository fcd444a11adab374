// Reads an image from standard input and writes the report on it to standard output. One byte more than
// an image may have is read, so that a longer input is above the limit too. Where a read fails there is no
// report: why stands on standard error. Both rooms are of fixed size, the longest input that is looked at and the longest report.
// `keys` names other words, another room and another function; all that the two share is in standard_streams.
#![tactic(auto)]

use std::io;

fn main(rt: HostRuntime) -> io::Result<()> {
    let mut image = [0u8; 65536];
    let taken = standard_streams::take_input(
        &mut rt.stdin(),
        &mut rt.stderr(),
        &mut image,
        b"inspect: standard input",
    )?;
    let Some(n) = taken else {
        return Ok(());
    };
    let mut report = [0u8; 256];
    let written = inspect_report::write_report(&image[..n], &mut report);
    standard_streams::hand_out(
        &mut rt.stdout(),
        &mut rt.stderr(),
        written,
        &report,
        b"inspect: standard output",
    )
}
