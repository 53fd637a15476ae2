// A session with a reader: what a frame is answered, in document 01's order, and what its transport goes on with. R6, R8 and R1, whether CTAP1 is allowed,
// the frame and its command; then GET RESPONSE, which is decided here, or ctap1's command.
#![tactic(auto)]

ghost use Rattle.std.specs.Prelude.{◌≡◌, length};
ghost use Rattle.apdu_stated.specs.Answers.{reading_of};
ghost use Rattle.apdu_stated.specs.Reading.{read_of};
ghost use Rattle.u2f_up_stated.specs.Moments.{moved_to};
ghost use Rattle.u2f_up_stated.specs.Numbers.{presence_in};
ghost use Rattle.response_stated.specs.Parts.{part_response};
ghost use Rattle.ctap1_stated.specs.Words.{handed_of, handed_from};
ghost use Rattle.ctap1_stated.specs.Path.{limit_on, frame_limit, fetch_path};
ghost use Rattle.ctap1_stated.specs.Decision.{along};
ghost use Rattle.ctap1_stated.specs.Session.{is_get_response, part_after};
ghost use Rattle.session_stated.specs.Promises.{to_decide, Commanded, RemainderLent, Decide, Stated, Dropped, Left, RoomForResponse};

use apdu::Apdu;
use command::U2fCommand;
use ctap1::{Call, Decision, DecisionAnswer, HardwareSaid, NewKey};
use outcome::{ApduStatusCode, Refusal};
use response::Remainder;
pub use session_stated::{SessionDecision, SessionRecord};
use u2f_up::PresenceRecord;

// Whether CTAP1 is allowed, by its number; above yes it could not be found out.
const NO: u32 = 0;

const YES: u32 = 1;

const GET_RESPONSE: u8 = 0xc0;

// What remains of a body, of a session's three numbers.
pub fn remainder_lent(session: &SessionRecord) -> Remainder
    ensures { RemainderLent session.now result }
{
    Remainder {
        place: session.place as usize,
        count: session.count as usize,
    }
}

// How many bytes of body a frame takes that was read so; bytes in no shape get no body, and 0 stands there: C holds it so, in a session.
fn limit_of(reading: Result<Apdu, ApduStatusCode>) -> u64
    ensures { result ≡ limit_on (reading_of reading) }
{
    match reading {
        Ok(says) => response::limit(says),
        Err(_) => 0,
    }
}

// Whether a frame that was read so is a GET RESPONSE, whatever it is answered.
fn is_get_response(reading: Result<Apdu, ApduStatusCode>) -> bool
    ensures { result ≡ is_get_response (reading_of reading) }
{
    match reading {
        Ok(says) => says.header.ins == GET_RESPONSE,
        Err(_) => false,
    }
}

// A GET RESPONSE that comes so far: 6985 where nothing is left, else the next part of the body in `reply`.
fn fetched(
    presence: &mut PresenceRecord,
    t: u64,
    remainder: Remainder,
    limit: u64,
    reply: &[u8],
    part: &mut [u8],
) -> Decision
    ensures presence_after { handed_from result (presence_in presence.new) ≡ handed_of (along (fetch_path (length reply.now) remainder limit (length part.old))
        (presence_in presence.old) (moved_to (presence_in presence.old) t) 0 0) }
    ensures part_after { part.new ≡ part_after (along (fetch_path (length reply.now) remainder limit (length part.old))
        (presence_in presence.old) (moved_to (presence_in presence.old) t) 0 0).answer
        (part_response reply.now remainder limit) part.old }
{
    if remainder.count == 0 {
        u2f_up::moved(presence, t);
        return ctap1::answered(ApduStatusCode::CondUseNotSatisfied);
    }
    let next = response::next_part(reply, remainder, limit, part);
    match next {
        Err(why) => ctap1::refused(why),
        Ok(sent) => {
            u2f_up::moved(presence, t);
            Decision {
                answer: DecisionAnswer::Part(sent.length, sent.remainder),
                order: signing::blank(),
                taken: false,
            }
        }
    }
}

// By the command. What is lent for writing comes one by one: a struct of it would be lent as a whole.
fn commanded(
    presence: &mut PresenceRecord,
    session: &SessionRecord,
    call: Call,
    reading: Result<Apdu, ApduStatusCode>,
    hardware: &HardwareSaid,
    key: NewKey,
    limit: u64,
    reply: &mut [u8],
    block: &mut [u8; 385],
    part: &mut [u8],
) -> Decision
    requires { (reading_of reading ≡ read_of call.frame.now) × (limit ≡ frame_limit call.frame.now) }
    ensures { Commanded (to_decide presence.old session.now call.entry hardware.now key.entry reply.old block.old part.old)
        result presence.new reply.new block.new part.new }
{
    let room = reply.len();
    match command::on_reading(call.frame, reading) {
        Err(status) => {
            u2f_up::moved(presence, call.t);
            ctap1::answered(status)
        }
        Ok(U2fCommand::Version) => ctap1::version(presence, call.t, reply),
        Ok(U2fCommand::GetResponse) => fetched(
            presence,
            call.t,
            remainder_lent(session),
            limit,
            reply,
            part,
        ),
        Ok(U2fCommand::Register(says)) => ctap1::register(
            call, says, presence, *hardware, key, room, block,
        ),
        Ok(U2fCommand::Authenticate(flags, says)) => ctap1::authenticate(
            call, flags, says, presence, *hardware, room, block,
        ),
    }
}

// A decision that its frame has no part in, and what the frame says to the session.
fn beside_frame(decision: Decision, frame: &[u8]) -> SessionDecision
    ensures { (result.decision ≡ decision) × (result.limit ≡ frame_limit frame.now) × (result.fetches ≡ is_get_response (read_of frame.now)) }
{
    let reading = apdu::read(frame);
    SessionDecision {
        decision,
        limit: limit_of(reading),
        fetches: is_get_response(reading),
    }
}

// What a frame is answered, for the side that it came from, at moment t: a refusal, a status word, Version's body, an order to sign, or the next part of a body;
// and what the frame says to the session. `handle` and `certificate` are the new handle and the attestation certificate that a Register would use, x and y its
// public key. The block is written for an order alone. The frame is read in each case by itself, and what it says to the session is found before its command
// is looked at: else a decision took up to 40 instructions more (counted by the kit before this one).
pub fn decide(
    presence: &mut PresenceRecord,
    session: &SessionRecord,
    call: Call,
    hardware: &HardwareSaid,
    key: NewKey,
    reply: &mut [u8],
    block: &mut [u8; 385],
    part: &mut [u8],
) -> SessionDecision
    ensures { Decide (record {
      presence = presence.old;
      session = session.now;
      frame = call.entry.frame.now;
      side = call.entry.side;
      moment = call.entry.t;
      hardware = hardware.now;
      new_handle = key.entry.handle.now;
      certificate = key.entry.certificate.now;
      x = key.entry.x.now;
      y = key.entry.y.now;
      reply = reply.old;
      block = block.old;
      part = part.old;
    }) result presence.new reply.new block.new part.new }
{
    match u2f_up::settle(u2f_up::record_lent(presence), call.side, call.t) {
        Err(why) => beside_frame(ctap1::refused(why), call.frame),
        Ok(_) => {
            let allowed = hardware.allowed;
            if YES < allowed {
                u2f_up::moved(presence, call.t);
                return beside_frame(
                    ctap1::answered(ApduStatusCode::InternalException),
                    call.frame,
                );
            }
            if allowed == NO {
                u2f_up::moved(presence, call.t);
                return beside_frame(
                    ctap1::answered(ApduStatusCode::CommandNotAllowed),
                    call.frame,
                );
            }
            let reading = apdu::read(call.frame);
            let limit = limit_of(reading);
            let fetches = is_get_response(reading);
            let decision = commanded(
                presence, session, call, reading, hardware, key, limit, reply, block, part,
            );
            SessionDecision {
                decision,
                limit,
                fetches,
            }
        }
    }
}

// What the transport goes on with, after each answer but a refusal, which leaves it: a status word to a GET RESPONSE keeps what remains, and any other frame drops
// it; after a part it is what that left. The limit is the frame's.
pub fn stated(fetches: bool, limit: u64, session: &mut SessionRecord)
    ensures { Stated fetches limit session.old session.new }
{
    if !fetches {
        session.place = 0;
        session.count = 0;
        session.limit = limit;
        return;
    }
    session.limit = limit;
}

pub fn dropped(limit: u64, session: &mut SessionRecord)
    ensures { Dropped limit session.new }
{
    session.place = 0;
    session.count = 0;
    session.limit = limit;
}

pub fn left(remainder: Remainder, limit: u64, session: &mut SessionRecord)
    ensures { Left remainder limit session.new }
{
    session.place = remainder.place as u64;
    session.count = remainder.count as u64;
    session.limit = limit;
}

// How many bytes a response to this frame can take, where no body to it is longer than `longest`: in no shape a status word alone.
#[tactic(auto, unfolding(session_stated::specs::Held::frame_room_of))]
pub fn response_room(frame: &[u8], longest: usize) -> Result<usize, Refusal>
    ensures { RoomForResponse frame.now longest result }
{
    match apdu::read(frame) {
        Ok(says) => response::room(response::limit(says), longest),
        Err(_) => Ok(2),
    }
}
