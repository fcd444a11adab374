// Replays the stored calls over reconnect settings: reads them from the file `calls` and writes for each its
// reply and all of the lent bytes afterwards.
//
// Every number in the file is four bytes, big-endian. A call is a head of eight numbers, and the lent bytes.
// The head has the code, the version, the kind, the upper and the lower half of the milliseconds and of the
// device, and how many bytes are lent; what an entry doesn't take is 0:
//   1 read   2 write   3 get   4 put   5 move
#![tactic(auto)]

use fields::Refusal;
use replay_telling::{number_at, read_full, say_reply, say_written, word};
use setting_record::Setting;
use std::io;
use std::io::{Read, Write};

// ---- what a call's head says

fn given(head: &[u8], i: u8) -> u32 {
    number_at(head, (i as usize) * 4)
}

// The version or the kind; none above 255 is stored.
fn byte(head: &[u8], i: u8) -> u8 {
    (given(head, i) % 256) as u8
}

fn milliseconds(head: &[u8]) -> u64 {
    replay_telling::halves(given(head, 3), given(head, 4)) as u64
}

fn device(head: &[u8]) -> u64 {
    replay_telling::halves(given(head, 5), given(head, 6)) as u64
}

// ---- the calls

// The refusal's number; whether there is a setting, its kind and its milliseconds.
fn say_found(out: &mut impl Write, answer: Result<Option<Setting>, Refusal>) -> io::Result<()> {
    match answer {
        Ok(Some(s)) => say_reply(out, 0, 1, s.kind as usize, s.milliseconds as usize),
        Ok(None) => say_reply(out, 0, 0, 0, 0),
        Err(why) => say_reply(out, why.number(), 0, 0, 0),
    }
}

fn reply(out: &mut impl Write, head: &[u8], lent: &mut [u8]) -> io::Result<()> {
    let version = byte(head, 1);
    let kind = byte(head, 2);
    let delay = milliseconds(head);
    match given(head, 0) {
        1 => {
            word(out, b"read     ")?;
            say_found(out, setting_record::read(lent))
        }
        2 => {
            word(out, b"write    ")?;
            say_written(out, setting_record::write(version, kind, delay, lent))
        }
        3 => {
            word(out, b"get      ")?;
            say_found(out, setting_store::get(lent, device(head)))
        }
        4 => {
            word(out, b"put      ")?;
            let put = setting_store::put(lent, device(head), version, kind, delay);
            say_written(out, put)
        }
        _ => {
            word(out, b"move     ")?;
            say_written(out, setting_store::move_to_v2(lent))
        }
    }
}

// ---- the vectors

fn stored(
    out: &mut impl Write,
    file: &mut impl Read,
    head: &[u8],
    lent: &mut [u8],
) -> io::Result<()> {
    read_full(file, lent)?;
    reply(out, head, lent)?;
    replay_telling::say_buffer(out, lent)
}

// One call; whether there was one.
fn one(out: &mut impl Write, file: &mut impl Read) -> io::Result<bool> {
    let mut head = [0u8; 32];
    let mut lent = [0u8; 256];
    let got = read_full(file, &mut head)?;
    let length = given(&head, 7) as usize;
    if got < 32 || length > 256 {
        return Ok(false);
    }
    stored(out, file, &head, &mut lent[..length])?;
    Ok(true)
}

// A proved loop has to end, so it counts its turns.
fn all(out: &mut impl Write, file: &mut impl Read) -> io::Result<()> {
    for _ in 0..u64::MAX {
        if !one(out, file)? {
            break;
        }
    }
    Ok(())
}

fn main(rt: HostRuntime) -> io::Result<()> {
    let Some(mut file) = replay_telling::open(&rt, "calls")? else {
        return Ok(());
    };
    all(&mut rt.stdout(), &mut file)
}
