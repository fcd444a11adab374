// Reconnect settings, exported to C.
// Each export says word for word what the function of c_settings does: the C interface needs it in a static library, which no crate can use.
#![tactic(auto)]

ghost use Rattle.std.specs.Prelude.{◌≡◌};
ghost use Rattle.setting_record.specs.Record.{read_reply, write_reply, write_left};
ghost use Rattle.setting_store.specs.Store.{get_reply, put_reply, put_left};
ghost use Rattle.setting_store.specs.Move.{move_reply, move_left};
ghost use Rattle.c_reply.specs.Replies.{AnswersC};
ghost use Rattle.c_settings.specs.Settings.{setting_of};

use c_reply::Reply;
use c_settings::Setting;

#[unsafe(no_mangle)]
pub extern "C" fn saltorchard_read_setting(bytes: &[u8]) -> Setting
    ensures { result ≡ setting_of (read_reply bytes.now) }
{
    c_settings::saltorchard_read_setting(bytes)
}

#[unsafe(no_mangle)]
pub extern "C" fn saltorchard_write_setting(
    version: u8,
    kind: u8,
    milliseconds: u64,
    bytes: &mut [u8],
) -> Reply
    ensures { AnswersC (write_reply version kind milliseconds bytes.old) (write_left version kind milliseconds bytes.old) result bytes.new }
{
    c_settings::saltorchard_write_setting(version, kind, milliseconds, bytes)
}

#[unsafe(no_mangle)]
pub extern "C" fn saltorchard_store_get(store: &[u8], device: u64) -> Setting
    ensures { result ≡ setting_of (get_reply store.now device) }
{
    c_settings::saltorchard_store_get(store, device)
}

#[unsafe(no_mangle)]
pub extern "C" fn saltorchard_store_put(
    store: &mut [u8],
    device: u64,
    version: u8,
    kind: u8,
    milliseconds: u64,
) -> Reply
    ensures { AnswersC (put_reply store.old device version kind milliseconds) (put_left store.old device version kind milliseconds) result store.new }
{
    c_settings::saltorchard_store_put(store, device, version, kind, milliseconds)
}

#[unsafe(no_mangle)]
pub extern "C" fn saltorchard_store_move(store: &mut [u8]) -> Reply
    ensures { AnswersC (move_reply store.old) (move_left store.old) result store.new }
{
    c_settings::saltorchard_store_move(store)
}
