// What the panel's C firmware links: every call of the core over plain numbers and byte slices. include/brinecandle.h says
// the same in C, and .ci/header compares the two. The structs stand in panel_stated, the conversions in panel_frames,
// panel_presence, panel_orders and panel_responses.
#![tactic(auto)]

ghost use Rattle.std.specs.Prelude.{◌≡◌};
ghost use Rattle.apdu_table_stated.specs.Answers.{table_reading_of};
ghost use Rattle.panel_stated.specs.Exports.{frame_numbers};
ghost use Rattle.panel_stated.specs.Promises.{BrinecandleRead, BrinecandleReadStrict, BrinecandleReadByTable, BrinecandleReadStrictByTable, BrinecandleWrite, BrinecandleWriteStrict, BrinecandleReadCommand, BrinecandleNew, BrinecandleGrantUp, BrinecandleConsumeUp, BrinecandleIsUpNeeded, BrinecandleDecide, BrinecandleFinish, BrinecandleWriteResponse, BrinecandleReadResponse, BrinecandleNextPart, BrinecandleResponseRoom};

use apdu_table::RowSays;
use ctap1_stated::{Call, DecisionAnswer, HardwareSaid, NewKey};
use outcome::{ApduStatusCode, Refusal};
use panel_stated::{
    Asked, CommandSaid, DecisionSaid, FrameSaid, OrderNumbers, ResponseSaid, RoomSaid, Wrote,
};
use session::SessionRecord;
use signing::Head;
use u2f_up::PresenceRecord;

// Reads any bytes as a frame; its data comes back as a place in the caller's frame. By cases, and each is a return of its own:
// so each is written to the caller at once. With one function for this and the strict one, shape 1 took 53 instructions for 38, and the Rust 46.
#[unsafe(no_mangle)]
pub extern "C" fn brinecandle_read(frame: &[u8]) -> FrameSaid
    ensures { BrinecandleRead frame.now result }
{
    let reading = apdu::read(frame);
    match reading {
        Ok(says) => return panel_frames::frame_numbers(says),
        Err(status) => return panel_frames::frame_status(status),
    }
}

// The same by ISO's seven cases: without an extended Lc of 0. By cases too.
#[unsafe(no_mangle)]
pub extern "C" fn brinecandle_read_strict(frame: &[u8]) -> FrameSaid
    ensures { BrinecandleReadStrict frame.now result }
{
    let reading = apdu::read_strict(frame);
    match reading {
        Ok(says) => return panel_frames::frame_numbers(says),
        Err(status) => return panel_frames::frame_status(status),
    }
}

// A frame by its row, or a status word, as plain numbers.
fn table_plain(reading: Result<RowSays, ApduStatusCode>) -> FrameSaid
    ensures { result ≡ frame_numbers (table_reading_of reading) }
{
    match reading {
        Ok(says) => {
            let header = says.header;
            let start = says.start as usize;
            FrameSaid {
                answer: 0x9000,
                fault: 0,
                cla: header.cla,
                ins: header.ins,
                p1: header.p1,
                p2: header.p2,
                shape: says.number as u32,
                lc: says.lc,
                le: says.le,
                start,
                end: start + (says.lc as usize),
                place: 0,
            }
        }
        Err(status) => panel_frames::frame_status(status),
    }
}

// The second reader, by document 01's table as data. It answers as brinecandle_read.
#[unsafe(no_mangle)]
pub extern "C" fn brinecandle_read_by_table(frame: &[u8]) -> FrameSaid
    ensures { BrinecandleReadByTable frame.now result }
{
    table_plain(apdu_table::read(frame))
}

// By ISO's table as data, as brinecandle_read_strict.
#[unsafe(no_mangle)]
pub extern "C" fn brinecandle_read_strict_by_table(frame: &[u8]) -> FrameSaid
    ensures { BrinecandleReadStrictByTable frame.now result }
{
    table_plain(apdu_table::read_strict(frame))
}

// Writes a frame at the front of out. The parameters are C's, one by one.
#[unsafe(no_mangle)]
pub extern "C" fn brinecandle_write(
    cla: u8,
    ins: u8,
    p1: u8,
    p2: u8,
    shape: u32,
    content: &[u8],
    le: u32,
    out: &mut [u8],
) -> Wrote
    ensures { BrinecandleWrite (record {
      header = record { cla = cla; ins = ins; p1 = p1; p2 = p2 };
      shape = shape;
      content = content.now;
      le = le;
      out = out.old;
    }) result out.new }
{
    let header = apdu::ApduHeader { cla, ins, p1, p2 };
    panel_frames::write_plain(header, shape, content, le, out)
}

// The same by ISO's seven cases: R5 for shape 7 without data, then as the writer.
#[unsafe(no_mangle)]
pub extern "C" fn brinecandle_write_strict(
    cla: u8,
    ins: u8,
    p1: u8,
    p2: u8,
    shape: u32,
    content: &[u8],
    le: u32,
    out: &mut [u8],
) -> Wrote
    ensures { BrinecandleWriteStrict (record {
      header = record { cla = cla; ins = ins; p1 = p1; p2 = p2 };
      shape = shape;
      content = content.now;
      le = le;
      out = out.old;
    }) result out.new }
{
    if !panel_frames::strict_plain(shape, content.len()) {
        return panel_responses::refused_part(Refusal::R5);
    }
    brinecandle_write(cla, ins, p1, p2, shape, content, le, out)
}

// Reads any bytes as a command; its parts come back as places in the caller's frame.
#[unsafe(no_mangle)]
pub extern "C" fn brinecandle_read_command(frame: &[u8]) -> CommandSaid
    ensures { BrinecandleReadCommand frame.now result }
{
    panel_frames::read_command_plain(frame)
}

// A fresh record, or R6, which leaves the numbers as they were.
#[unsafe(no_mangle)]
pub extern "C" fn brinecandle_new(presence: &mut PresenceRecord, w: u64) -> u16
    ensures { BrinecandleNew presence.old w result presence.new }
{
    let made = u2f_up::new(w);
    match made {
        Err(why) => outcome::refusal_number(why) as u16,
        Ok(_) => {
            panel_presence::fresh(w, presence);
            0x9000
        }
    }
}

// A finger touches at t.
#[unsafe(no_mangle)]
pub extern "C" fn brinecandle_grant_up(presence: &mut PresenceRecord, t: u64) -> Asked
    ensures { BrinecandleGrantUp presence.old t result presence.new }
{
    let held = u2f_up::record_lent(presence);
    match u2f_up::settle(held, held.asker, t) {
        Err(why) => panel_presence::refused_plain(why),
        Ok(_) => panel_presence::found_plain(u2f_up::touch_granted(presence, t)),
    }
}

// The touch check at t, for the side that checks.
#[unsafe(no_mangle)]
pub extern "C" fn brinecandle_consume_up(presence: &mut PresenceRecord, side: u64, t: u64) -> Asked
    ensures { BrinecandleConsumeUp presence.old side t result presence.new }
{
    match u2f_up::settle(u2f_up::record_lent(presence), side, t) {
        Err(why) => panel_presence::refused_plain(why),
        Ok(_) => panel_presence::found_plain(u2f_up::touch_checked(presence, side, t)),
    }
}

// Whether a prompt is live at t. The record is only read.
#[unsafe(no_mangle)]
pub extern "C" fn brinecandle_is_up_needed(presence: &PresenceRecord, t: u64) -> Asked
    ensures { BrinecandleIsUpNeeded presence.now t result }
{
    panel_presence::asked_plain(u2f_up::is_up_needed(u2f_up::record_lent(presence), t))
}

// Decides what a frame is answered, for the side that it came from. The block is written for an order alone: a refused call leaves an order that waits
// for its signature whole. By cases, as brinecandle_read. The parameters are C's, one by one.
#[unsafe(no_mangle)]
pub extern "C" fn brinecandle_decide(
    presence: &mut PresenceRecord,
    session: &mut SessionRecord,
    frame: &[u8],
    side: u64,
    t: u64,
    hardware: &HardwareSaid,
    handle: &[u8],
    certificate: &[u8],
    x: &[u8; 32],
    y: &[u8; 32],
    reply: &mut [u8],
    block: &mut [u8; 385],
    part: &mut [u8],
) -> DecisionSaid
    ensures { BrinecandleDecide (record {
      presence = presence.old;
      session = session.old;
      frame = frame.now;
      side = side;
      moment = t;
      hardware = hardware.now;
      new_handle = handle.now;
      certificate = certificate.now;
      x = x.now;
      y = y.now;
      reply = reply.old;
      block = block.old;
      part = part.old;
    }) result presence.new session.new reply.new block.new part.new }
{
    let call = Call { frame, side, t };
    let key = NewKey {
        handle,
        certificate,
        x,
        y,
    };
    let decided = session::decide(presence, session, call, hardware, key, reply, block, part);
    let decision = decided.decision;
    let limit = decided.limit;
    let answer = decision.answer;
    let order = decision.order;
    let taken = decision.taken;
    match answer {
        DecisionAnswer::Refused(why) => return panel_orders::refused_numbers(why, taken),
        DecisionAnswer::Status(number, kind, place) => {
            session::stated(decided.fetches, limit, session);
            return panel_orders::status_numbers(number, kind, place, taken);
        }
        DecisionAnswer::Body(length) => {
            session::dropped(limit, session);
            return panel_orders::body_numbers(length, taken);
        }
        DecisionAnswer::Order => {
            session::dropped(limit, session);
            return panel_orders::order_numbers(order, taken);
        }
        DecisionAnswer::Part(length, left) => {
            session::left(left, limit, session);
            return panel_orders::part_numbers(length, left, taken);
        }
    }
}

// Turns an order and its signature into a reply. The order is whatever the firmware hands in: a kind that is none is R7.
#[unsafe(no_mangle)]
pub extern "C" fn brinecandle_finish(
    order: OrderNumbers,
    block: &[u8; 385],
    certificate: &[u8],
    is_signed: u32,
    signature: &[u8],
    reply: &mut [u8],
) -> Wrote
    ensures { BrinecandleFinish (record {
      order = order;
      block = block.now;
      certificate = certificate.now;
      signed = is_signed;
      signature = signature.now;
      reply = reply.old;
    }) result reply.new }
{
    let Some(kind) = panel_orders::kind_numbered(order.kind) else {
        return panel_responses::refused_part(Refusal::R7);
    };
    let made = Head {
        kind,
        to_sign: order.to_sign,
        certificate_length: order.certificate_length,
    };
    panel_orders::finished_plain(signing::finish(
        made,
        block,
        certificate,
        is_signed == 1,
        signature,
        reply,
    ))
}

// Writes a response, body and status, at the front of out.
#[unsafe(no_mangle)]
pub extern "C" fn brinecandle_write_response(body: &[u8], status: u16, out: &mut [u8]) -> Wrote
    ensures { BrinecandleWriteResponse body.now status out.old result out.new }
{
    panel_responses::wrote_response_plain(response::write_response(body, status, out))
}

// Reads any bytes as a response; its body is the front of the caller's bytes.
#[unsafe(no_mangle)]
pub extern "C" fn brinecandle_read_response(response: &[u8]) -> ResponseSaid
    ensures { BrinecandleReadResponse response.now result }
{
    panel_responses::response_plain(response::read_response(response))
}

// Writes the next part of what remains of a body, and its status, at the front of part. A first part is the next one of (0, n).
#[unsafe(no_mangle)]
pub extern "C" fn brinecandle_next_part(
    session: &mut SessionRecord,
    body: &[u8],
    part: &mut [u8],
) -> Wrote
    ensures { BrinecandleNextPart session.old body.now part.old result session.new part.new }
{
    let limit = session.limit;
    let next = response::next_part(body, session::remainder_lent(session), limit, part);
    match next {
        Err(why) => panel_responses::refused_part(why),
        Ok(sent) => {
            session::left(sent.remainder, limit, session);
            panel_responses::sent_part(sent.length)
        }
    }
}

// How many bytes a response to this frame can take, where no body to it is longer than `longest`.
#[unsafe(no_mangle)]
pub extern "C" fn brinecandle_response_room(frame: &[u8], longest: usize) -> RoomSaid
    ensures { BrinecandleResponseRoom frame.now longest result }
{
    panel_responses::room_plain(session::response_room(frame, longest))
}
