// A reconnect setting's record of four bytes: read by itself, and written.
//
// The record is a number of 32 bits. What its bits say, and which settings it can hold, is decided here for the store too.
#![tactic(auto)]

ghost use Rattle.std.specs.Prelude.{◌≡◌};
ghost use Rattle.writer_reply.specs.Reply.{Answers};
ghost use Rattle.setting_record.specs.Bits.{version_in, is_version, unit, is_known, kind_in, milliseconds_in, answer_of};
ghost use Rattle.setting_record.specs.Packing.{writable, pack_of};
ghost use Rattle.setting_record.specs.Record.{record_at, read_reply, write_reply, write_left};

use fields::{Cursor, Refusal};
use writer_reply::Written;

// A kind of key and a delay. The kind is its code: `told_setting` and the theorems of claims/Settings tell it as the record's number.
#[derive(Clone, Copy, Debug, PartialEq, Eq)]
pub struct Setting {
    pub kind: u8,
    pub milliseconds: u64,
}

#[tactic(auto, unfolding(crate::specs::Bits::is_version))]
fn is_version(version: u8) -> bool
    ensures { result ≡ is_version version }
{
    version == 1 || version == 2
}

// How many milliseconds a delay of 1 is.
#[tactic(auto, unfolding(crate::specs::Bits::unit))]
fn unit(version: u8) -> u64
    ensures { result ≡ unit version }
{
    if version == 1 { 1000 } else { 1 }
}

// The number in the place-th four bytes; 0 where they aren't there.
#[tactic(auto, unfolding(crate::specs::Record::record_at))]
pub fn record_at(bytes: &[u8], place: u8) -> u32
    ensures { result ≡ record_at bytes.now place }
{
    let at = 4 * (place as usize);
    let four = Cursor { at, end: at + 4 };
    four.uint32(bytes).map_or(0, |(n, _)| n)
}

fn version_in(n: u32) -> u8
    ensures { result ≡ version_in n }
{
    (n / 268435456) as u8
}

// Has the record a version and a kind that there are?
#[tactic(auto, unfolding(crate::specs::Bits::is_known))]
pub fn is_known(n: u32) -> bool
    ensures { result ≡ is_known n }
{
    is_version(version_in(n)) && kind_in(n) <= 4
}

pub fn kind_in(n: u32) -> u8
    ensures { result ≡ kind_in n }
{
    (n / 16777216 % 16) as u8
}

// The record's delay, whatever its version says.
#[tactic(auto, unfolding(crate::specs::Bits::milliseconds_in, crate::specs::Bits::unit))]
pub fn milliseconds_in(n: u32) -> u64
    ensures { result ≡ milliseconds_in n }
{
    (n % 16777216) as u64 * unit(version_in(n))
}

// What a record says. A record is never an empty place, which only a store can have.
#[tactic(auto, unfolding(crate::specs::Bits::answer_of))]
pub fn answer_of(n: u32) -> Result<Option<Setting>, Refusal>
    ensures { result ≡ answer_of n }
{
    if !is_known(n) {
        return Err(Refusal::AlgorithmUnknown);
    }
    Ok(Some(Setting {
        kind: kind_in(n),
        milliseconds: milliseconds_in(n),
    }))
}

// Is the delay a whole number of the version's unit that fits 24 bits?
#[tactic(auto, unfolding(crate::specs::Packing::writable, crate::specs::Bits::unit))]
pub fn writable(version: u8, milliseconds: u64) -> bool
    ensures { result ≡ writable version milliseconds }
{
    let one = unit(version);
    milliseconds % one == 0 && milliseconds / one < 16777216
}

// A setting as a record's number, or why there is none. What is asked for comes as the numbers that the C interface hands in, any of
// them: here those that are none are refused.
#[tactic(auto, unfolding(crate::specs::Packing::pack_of, crate::specs::Packing::writable, crate::specs::Bits::is_version, crate::specs::Bits::unit))]
pub fn pack(version: u8, kind: u8, milliseconds: u64) -> Result<u32, Refusal>
    ensures { result ≡ pack_of version kind milliseconds }
{
    if !is_version(version) || 4 < kind {
        return Err(Refusal::AlgorithmUnknown);
    }
    if !writable(version, milliseconds) {
        return Err(Refusal::Size);
    }
    let delay = (milliseconds / unit(version)) as u32;
    Ok(version as u32 * 268435456 + kind as u32 * 16777216 + delay)
}

// Reads a record by itself.
#[tactic(auto, unfolding(crate::specs::Record::read_reply))]
pub fn read(bytes: &[u8]) -> Result<Option<Setting>, Refusal>
    ensures { result ≡ read_reply bytes.now }
{
    if bytes.len() != 4 {
        return Err(Refusal::Length);
    }
    answer_of(record_at(bytes, 0))
}

// Writes a record into four lent bytes.
#[tactic(auto, unfolding(crate::specs::Record::packed_reply, crate::specs::Record::packed_left))]
pub fn write(version: u8, kind: u8, milliseconds: u64, bytes: &mut [u8]) -> Written
    ensures { Answers (write_reply version kind milliseconds bytes.old) (write_left version kind milliseconds bytes.old) result bytes.new }
{
    if bytes.len() != 4 {
        return writer_reply::refused(Refusal::Length);
    }
    match pack(version, kind, milliseconds) {
        Err(why) => writer_reply::refused(why),
        Ok(n) => {
            buffer::put_uint32(bytes, 0, n as usize);
            Ok(4)
        }
    }
}
