// Replays the stored calls over several keys: the writer of a list and the edits.
#![tactic(auto)]

use std::io;

fn main(rt: HostRuntime) -> io::Result<()> {
    replay_listed::replay_lists(&rt)
}
