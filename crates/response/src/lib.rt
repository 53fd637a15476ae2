// Responses of ISO 7816-4: body, then two status bytes; and a body that goes out in parts, for a reader that takes 256 bytes at a time.
#![tactic(auto)]

ghost use Rattle.std.specs.Prelude.{◌≡◌, ◌≤◌, eqb};
ghost use Rattle.outcome.specs.Notation.{when◌then◌else◌};
ghost use Rattle.response_stated.specs.Parts.{part_length, left_status};
ghost use Rattle.response_stated.specs.Promises.{Limit, Nothing, WriteResponse, ReadsResponse, ResponseBody, PartNext, RoomFor};

use apdu_stated::{Apdu, Case};
use outcome::Refusal;
pub use response_stated::{Remainder, Response, Sent};

// Done, and done with so many bytes waiting: 61 XX.
const DONE: u16 = 0x9000;

const WAITING: u16 = 0x6100;

// No limit: a body goes out whole. A number and no Option: C holds it so, in a session.
const WHOLE: u64 = 0;

// A response is its part and two bytes of status: of a longer part no length can say the response's.
const LONGEST_PART: usize = 0xfffffffffffffffd;

// What a short frame takes where it does not say.
const LONGEST: u64 = 256;

// An absent Le is 0.
fn short_limit(le: u32) -> u64
    ensures { result ≡ (when eqb le 0 then 256 else le) }
{
    if le == 0 {
        return LONGEST;
    }
    le as u64
}

// How many bytes of body a frame that says this takes at a time: Le, or 256 where there is none, in the short shapes; no limit in the
// extended ones.
pub fn limit(says: Apdu) -> u64
    ensures { Limit says result }
{
    let shape = says.shape;
    let le = says.le;
    match shape {
        Case::Instruction => short_limit(le),
        Case::Le1 => short_limit(le),
        Case::Lc1Data => short_limit(le),
        Case::Lc1DataLe1 => short_limit(le),
        Case::Lc3Data => WHOLE,
        Case::Lc3DataLe2 => WHOLE,
        Case::Le3 => WHOLE,
    }
}

// Nothing is left to fetch.
pub fn nothing() -> Remainder
    ensures { Nothing result }
{
    Remainder { place: 0, count: 0 }
}

// Writes body and status at the front of out.
pub fn write_response(body: &[u8], status: u16, out: &mut [u8]) -> Result<usize, Refusal>
    ensures { WriteResponse body.now status out.old result out.new }
{
    let n = body.len();
    if out.len() < 2 {
        return Err(Refusal::R2);
    }
    if out.len() - 2 < n {
        return Err(Refusal::R2);
    }
    octets::put(out, body);
    octets::put_pair(&mut out[n..], status);
    Ok(n + 2)
}

// Reads any bytes as a response.
pub fn read_response(response: &[u8]) -> Result<Response, Refusal>
    ensures { ReadsResponse response.now result }
{
    let n = response.len();
    if n < 2 {
        return Err(Refusal::R2);
    }
    Ok(Response {
        length: n - 2,
        status: octets::pair(response[n - 2], response[n - 1]),
    })
}

// A response's body, as a part of it; empty where there is no response.
pub fn response_body(response: &[u8]) -> &[u8]
    ensures { ResponseBody response.now result.now }
{
    let n = response.len();
    if n < 2 {
        return &response[..0];
    }
    &response[..n - 2]
}

// How many bytes of `count` go out under a limit.
#[tactic(auto, unfolding(response_stated::specs::Parts::part_length))]
fn part_length(limit: u64, count: usize) -> usize
    ensures { (result ≡ part_length limit count) × (result ≤ count) }
{
    if limit == WHOLE {
        return count;
    }
    count.min(limit as usize)
}

// The status that tells how much is left after a part.
fn left_status(left: usize) -> u16
    ensures { result ≡ left_status left }
{
    if left == 0 {
        return DONE;
    }
    if left < 256 {
        return WAITING + (left as u16);
    }
    WAITING
}

// Writes the next part of what remains of a body, with its status, at the front of out. A first part is the next one of (0, n).
pub fn next_part(
    body: &[u8],
    remainder: Remainder,
    limit: u64,
    out: &mut [u8],
) -> Result<Sent, Refusal>
    ensures { PartNext body.now remainder limit out.old result out.new }
{
    let place = remainder.place;
    let count = remainder.count;
    if body.len() < count {
        return Err(Refusal::R2);
    }
    if body.len() - count < place {
        return Err(Refusal::R2);
    }
    let n = part_length(limit, count);
    let left = count - n;
    let length = write_response(octets::part(body, place, place + n), left_status(left), out)?;
    Ok(Sent {
        length,
        remainder: Remainder {
            place: place + n,
            count: left,
        },
    })
}

// How many bytes the first part of a body can take with its status, under a limit, where no body is longer than `longest`.
pub fn room(limit: u64, longest: usize) -> Result<usize, Refusal>
    ensures { RoomFor limit longest result }
{
    let part = part_length(limit, longest);
    if LONGEST_PART < part {
        return Err(Refusal::R2);
    }
    Ok(part + 2)
}
