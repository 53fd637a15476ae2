// Responses, parts and the room for them as plain numbers.
#![tactic(auto)]

ghost use Rattle.panel_stated.specs.Promises.{ResponsePlain, WroteResponsePlain, RefusedPart, SentPart, RoomPlain};

use outcome::Refusal;
use panel_stated::{ResponseSaid, RoomSaid, Wrote};
use response_stated::Response;

// What was asked for is there.
const DONE: u16 = 0x9000;

pub fn response_plain(read: Result<Response, Refusal>) -> ResponseSaid
    ensures { ResponsePlain read result }
{
    match read {
        Err(why) => ResponseSaid {
            answer: outcome::refusal_number(why) as u16,
            status: 0,
            length: 0,
        },
        Ok(read) => ResponseSaid {
            answer: DONE,
            status: read.status,
            length: read.length,
        },
    }
}

pub fn wrote_response_plain(written: Result<usize, Refusal>) -> Wrote
    ensures { WroteResponsePlain written result }
{
    match written {
        Err(why) => refused_part(why),
        Ok(length) => sent_part(length),
    }
}

// A part that is refused, and one that is sent: a response that is written is said by the same two.
pub fn refused_part(why: Refusal) -> Wrote
    ensures { RefusedPart why result }
{
    Wrote {
        answer: outcome::refusal_number(why) as u16,
        length: 0,
    }
}

pub fn sent_part(length: usize) -> Wrote
    ensures { SentPart length result }
{
    Wrote {
        answer: DONE,
        length,
    }
}

// The answer of `wrote_response_plain` in another struct: in the C interface room and length are two types.
pub fn room_plain(room: Result<usize, Refusal>) -> RoomSaid
    ensures { RoomPlain room result }
{
    match room {
        Err(why) => RoomSaid {
            answer: outcome::refusal_number(why) as u16,
            length: 0,
        },
        Ok(length) => RoomSaid {
            answer: DONE,
            length,
        },
    }
}
