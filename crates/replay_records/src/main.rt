// Replays the stored records of keys over a curve.
// Two programs, this and replay_halves, since one is run over the files of its own folder only.
#![tactic(auto)]

use std::io;

fn main(rt: HostRuntime) -> io::Result<()> {
    replay_handed::replay_records(&rt)
}
