// Reading an image, or its header, into a record or a half that holds it, and its section from such a half.
#![tactic(auto)]

ghost use Rattle.record_reading.specs.Reply.{IsFound, IsReply, IsSectionReply, IsHeaderReply};

use reader_image::Fields;
use record_found::Found;
use record_views::Record;

// What a read answers: the refusal's number, count and place, 0 where the image is accepted, and the record or the header,
// over no bytes and with no field where it is refused. It isn't a Result, since `IsReply`, `IsSectionReply` and `IsHeaderReply`
// are stated by the three.
#[derive(Clone, Copy)]
pub struct Reply<H> {
    pub number: u8,
    pub count: usize,
    pub at: usize,
    pub held: H,
}

// What was found, over the image where it was accepted.
fn answer<'a>(image: &'a [u8], found: Found<Fields>) -> Reply<Record<'a>>
    ensures { IsFound found result.number result.count result.at result.held.image result.held.fields image.entry }
{
    let over = record_found::held(image, found);
    Reply {
        number: found.number,
        count: found.count,
        at: found.at,
        held: Record {
            image: over,
            fields: found.fields,
        },
    }
}

pub fn read<'a>(image: &'a [u8]) -> Reply<Record<'a>>
    ensures { IsReply result.number result.count result.at result.held.image result.held.fields image.entry }
{
    let found = record_found::find(image);
    answer(image, found)
}

// The first half of a record: the lent image itself, and what its header says.
#[derive(Clone, Copy)]
pub struct Header<'a> {
    pub image: &'a [u8],
    pub half: reader_header::Header,
}

// What was found of a header, over the image where it was accepted. Not one function with `answer`: a record and a header
// are two structs.
fn answer_half<'a>(image: &'a [u8], found: Found<reader_header::Header>) -> Reply<Header<'a>>
    ensures { IsFound found result.number result.count result.at result.held.image result.held.half image.entry }
{
    let over = record_found::held_half(image, found);
    Reply {
        number: found.number,
        count: found.count,
        at: found.at,
        held: Header {
            image: over,
            half: found.fields,
        },
    }
}

pub fn read_header<'a>(image: &'a [u8]) -> Reply<Header<'a>>
    ensures { IsHeaderReply result.number result.count result.at result.held.image result.held.half image.entry }
{
    let found = record_found::find_header(image);
    answer_half(image, found)
}

// The section read, if the half is what an accepted header read of its image gives.
pub fn read_section<'a>(h: Header<'a>) -> Reply<Record<'a>>
    ensures { IsSectionReply result.number result.count result.at result.held.image result.held.fields h.entry.image h.entry.half }
{
    let found = record_found::find_section(h.image, h.half);
    answer(h.image, found)
}
