// Replays the stored header halves, each handed in within a record, and the records of RSA keys and of
// several keys.
// Two programs, this and replay_records, since one is run over the files of its own folder only.
#![tactic(auto)]

use std::io;

fn main(rt: HostRuntime) -> io::Result<()> {
    replay_handed::replay_records(&rt)
}
