// The store of reconnect settings: 128 lent bytes with a place for each device number from 0 to 31.
//
// A move judges all places before it changes one.
#![tactic(auto)]

ghost use Rattle.std.specs.Prelude.{◌≡◌, ◌*◌, ◌<◌, ℕ, Bool, length};
ghost use Rattle.writer_reply.specs.Reply.{Answers};
ghost use Rattle.setting_store.specs.Store.{has_place, get_reply, put_reply, put_left};
ghost use Rattle.setting_store.specs.Move.{known, fitting, all_places, moved_record, moved_places, move_reply, move_left};

use fields::Refusal;
use setting_record::Setting;
use writer_reply::Written;

// Has the store its length, and a place for the device?
fn has_place(store: &[u8], device: u64) -> bool
    ensures { result ≡ has_place store.now device }
{
    device <= 31 && store.len() == 128
}

// Answers a device's setting, or that its place is empty.
#[tactic(auto, unfolding(crate::specs::Store::get_reply, crate::specs::Store::place_answer))]
pub fn get(store: &[u8], device: u64) -> Result<Option<Setting>, Refusal>
    ensures { result ≡ get_reply store.now device }
{
    if !has_place(store, device) {
        return Err(Refusal::Length);
    }
    let n = setting_record::record_at(store, device as u8);
    if n == 0 {
        return Ok(None);
    }
    setting_record::answer_of(n)
}

// Puts a device's record in its place.
#[tactic(auto, unfolding(setting_record::specs::Record::packed_reply, setting_record::specs::Record::packed_left))]
pub fn put(store: &mut [u8], device: u64, version: u8, kind: u8, milliseconds: u64) -> Written
    ensures { Answers (put_reply store.old device version kind milliseconds) (put_left store.old device version kind milliseconds) result store.new }
{
    if !has_place(store, device) {
        return writer_reply::refused(Refusal::Length);
    }
    match setting_record::pack(version, kind, milliseconds) {
        Err(why) => writer_reply::refused(why),
        Ok(n) => {
            buffer::put_uint32(store, 4 * (device as usize), n as usize);
            Ok(128)
        }
    }
}

// Is the place unused, or its record known?
fn known(n: u32) -> bool
    ensures { result ≡ known n }
{
    n == 0 || setting_record::is_known(n)
}

// Is the place unused, or its record's delay one that version 2 can hold?
fn fitting(n: u32) -> bool
    ensures { result ≡ fitting n }
{
    n == 0 || setting_record::writable(2, setting_record::milliseconds_in(n))
}

// Do all places pass the test?
fn all_pass<F: Fn(u32) -> bool>(store: &[u8], passes: F) -> bool
    requires { F.IsAlwaysCallable passes }
    ensures { (test : ℕ → Bool) → ((n : ℕ) (r : Bool) → F.post passes n r → r ≡ test n) → result ≡ all_places test 32 store.now }
{
    for device in 0..32 {
        if !passes(setting_record::record_at(store, device)) {
            return false;
        }
    }
    true
}

// A record in version 2; an unused place's stays, and so does one that version 2 can't hold.
#[tactic(auto, unfolding(crate::specs::Move::moved_record))]
fn moved_record(n: u32) -> u32
    ensures { result ≡ moved_record n }
{
    if n == 0 {
        return 0;
    }
    let kind = setting_record::kind_in(n);
    let milliseconds = setting_record::milliseconds_in(n);
    setting_record::pack(2, kind, milliseconds).unwrap_or(n)
}

// Writes every place anew.
fn move_all(store: &mut [u8])
    requires { length store.old ≡ 128 }
    ensures { store.new ≡ moved_places 32 store.old }
{
    for device in 0..32 {
        let n = moved_record(setting_record::record_at(store, device));
        buffer::put_uint32(store, 4 * (device as usize), n as usize);
    }
}

// Moves a store to version 2.
#[tactic(auto, unfolding(crate::specs::Move::move_reply, crate::specs::Move::move_left))]
pub fn move_to_v2(store: &mut [u8]) -> Written
    ensures { Answers (move_reply store.old) (move_left store.old) result store.new }
{
    if store.len() != 128 {
        return writer_reply::refused(Refusal::Length);
    }
    if !all_pass(store, known) {
        return writer_reply::refused(Refusal::AlgorithmUnknown);
    }
    if !all_pass(store, fitting) {
        return writer_reply::refused(Refusal::Size);
    }
    move_all(store);
    Ok(128)
}
