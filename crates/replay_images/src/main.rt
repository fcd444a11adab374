// Replays the stored images of one key.
// Two programs, this and replay_several, since one is run over the files of its own folder only.
#![tactic(auto)]

use std::io;

fn main(rt: HostRuntime) -> io::Result<()> {
    replay_vectors::replay_images(&rt)
}
