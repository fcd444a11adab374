// Replays the stored calls of the writers of one key and of the comment change.
#![tactic(auto)]

use std::io;

fn main(rt: HostRuntime) -> io::Result<()> {
    replay_calls::replay_calls(&rt)
}
