// Reconnect settings for C: a record by itself, and the store.
#![tactic(auto)]

ghost use Rattle.std.specs.Prelude.{◌≡◌};
ghost use Rattle.setting_record.specs.Record.{read_reply, write_reply, write_left};
ghost use Rattle.setting_store.specs.Store.{get_reply, put_reply, put_left};
ghost use Rattle.setting_store.specs.Move.{move_reply, move_left};
ghost use Rattle.c_reply.specs.Replies.{AnswersC};
ghost use Rattle.c_settings.specs.Settings.{setting_of};

use c_reply::{Reply, reply_of};
use fields::Refusal;

// A setting in plain numbers, laid out as the C interface has it. Refused or empty, all after `number` is 0.
#[repr(C)]
#[derive(Clone, Copy, Debug, PartialEq, Eq)]
pub struct Setting {
    pub number: u64,
    pub used: u64,
    pub kind: u64,
    pub milliseconds: u64,
}

// A function and no `From`, as c_numbers has it: the contract names the definition.
#[tactic(auto, unfolding(crate::specs::Settings::setting_of, setting_record::specs::Bits::told_setting))]
fn setting_of(answer: Result<Option<setting_record::Setting>, Refusal>) -> Setting
    ensures { result ≡ setting_of answer }
{
    let nothing = Setting {
        number: 0,
        used: 0,
        kind: 0,
        milliseconds: 0,
    };
    match answer {
        Ok(Some(s)) => Setting {
            used: 1,
            kind: s.kind as u64,
            milliseconds: s.milliseconds,
            ..nothing
        },
        Ok(None) => nothing,
        Err(why) => Setting {
            number: why.number() as u64,
            ..nothing
        },
    }
}

// A record by itself.
pub fn saltorchard_read_setting(bytes: &[u8]) -> Setting
    ensures { result ≡ setting_of (read_reply bytes.now) }
{
    setting_of(setting_record::read(bytes))
}

// A record, into four lent bytes.
#[tactic(auto, using(c_reply::specs::Replies::handed_on))]
pub fn saltorchard_write_setting(
    version: u8,
    kind: u8,
    milliseconds: u64,
    bytes: &mut [u8],
) -> Reply
    ensures { AnswersC (write_reply version kind milliseconds bytes.old) (write_left version kind milliseconds bytes.old) result bytes.new }
{
    reply_of(setting_record::write(version, kind, milliseconds, bytes))
}

// A device's setting, or that its place is empty.
pub fn saltorchard_store_get(store: &[u8], device: u64) -> Setting
    ensures { result ≡ setting_of (get_reply store.now device) }
{
    setting_of(setting_store::get(store, device))
}

// A device's record, into its place.
#[tactic(auto, using(c_reply::specs::Replies::handed_on))]
pub fn saltorchard_store_put(
    store: &mut [u8],
    device: u64,
    version: u8,
    kind: u8,
    milliseconds: u64,
) -> Reply
    ensures { AnswersC (put_reply store.old device version kind milliseconds) (put_left store.old device version kind milliseconds) result store.new }
{
    reply_of(setting_store::put(store, device, version, kind, milliseconds))
}

// A store, moved to version 2.
#[tactic(auto, using(c_reply::specs::Replies::handed_on))]
pub fn saltorchard_store_move(store: &mut [u8]) -> Reply
    ensures { AnswersC (move_reply store.old) (move_left store.old) result store.new }
{
    reply_of(setting_store::move_to_v2(store))
}
