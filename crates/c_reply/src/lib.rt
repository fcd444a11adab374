// What a writer answered, in plain numbers: the struct of the functions for C that write.
#![tactic(auto)]

ghost use Rattle.std.specs.Prelude.{◌≡◌};
ghost use Rattle.c_reply.specs.Replies.{names_nothing, reply_of};

use fields::{Fault, Refusal};
use writer_reply::Written;

#[repr(C)]
#[derive(Clone, Copy)]
pub struct Reply {
    pub number: u64,
    pub count: u64,
    pub at: u64,
    pub length: u64,
}

// What a writer answered, in numbers.
#[tactic(auto, unfolding(crate::specs::Replies::reply_of, writer_reply::specs::Reply::told))]
pub fn reply_of(written: Written) -> Reply
    ensures { result ≡ reply_of written }
{
    match written {
        Ok(length) => Reply {
            number: 0,
            count: 0,
            at: 0,
            length: length as u64,
        },
        Err(Fault { why, at }) => Reply {
            number: why.number() as u64,
            count: why.count() as u64,
            at: at as u64,
            length: 0,
        },
    }
}

// A code that names nothing is 4.
pub fn names_nothing() -> Reply
    ensures { result ≡ reply_of names_nothing }
{
    reply_of(writer_reply::refused(Refusal::AlgorithmUnknown))
}
