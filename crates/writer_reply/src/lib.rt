// What a writer, a comment change or the report answers: a length, or the refusal. `refused` makes a
// writer's own, which is at 0.
#![tactic(auto)]

ghost use Rattle.std.specs.Prelude.{◌≡◌};
ghost use Rattle.writer_reply.specs.Reply.{refused};

use fields::{Fault, Refusal};

pub type Written = Result<usize, Fault>;

pub fn refused(why: Refusal) -> Written
    ensures { result ≡ refused why }
{
    Err(why.at(0))
}
