// Frames and commands as plain numbers, and a shape from its number.
#![tactic(auto)]

ghost use Rattle.std.specs.Prelude.{◌≡◌};
ghost use Rattle.outcome.specs.Outcome.{Gives};
ghost use Rattle.apdu_stated.specs.Answers.{says_of};
ghost use Rattle.command_stated.specs.Command.{flags_no, Register, Authenticate};
ghost use Rattle.panel_stated.specs.Exports.{bare_command, command_numbers};
ghost use Rattle.panel_stated.specs.Promises.{ShapeNumbered, FramePlain, FrameStatusPlain, StrictPlain, WritePlain, CommandPlain, BrinecandleReadCommand};

use apdu::{Apdu, ApduHeader, Case};
use command::{Ctap1Flags, U2fCommand};
use outcome::{ApduStatusCode, FaultNumbers, Refusal};
use panel_stated::{CommandSaid, FrameSaid, Wrote};

// A number of C is a shape's or none; a TryFrom would want an error that says no more than None.
#[tactic(auto, unfolding(panel_stated::specs::Numbers::shape_of))]
pub fn shape_numbered(number: u32) -> Option<Case>
    ensures { ShapeNumbered number result }
{
    match number {
        1 => Some(Case::Instruction),
        2 => Some(Case::Le1),
        3 => Some(Case::Lc1Data),
        4 => Some(Case::Lc1DataLe1),
        5 => Some(Case::Lc3Data),
        7 => Some(Case::Lc3DataLe2),
        8 => Some(Case::Le3),
        _ => None,
    }
}

// A reading in numbers, by its two cases: one that is answered case by case is written where its caller wants it, at once.
pub fn frame_numbers(says: Apdu) -> FrameSaid
    ensures { FramePlain says result }
{
    let header = says.header;
    let shape = says.shape;
    let at = apdu::data_place(says);
    FrameSaid {
        answer: 0x9000,
        fault: 0,
        cla: header.cla,
        ins: header.ins,
        p1: header.p1,
        p2: header.p2,
        shape: apdu::shape_number(shape) as u32,
        lc: says.lc,
        le: says.le,
        start: at.start,
        end: at.end,
        place: 0,
    }
}

pub fn frame_status(status: ApduStatusCode) -> FrameSaid
    ensures { FrameStatusPlain status result }
{
    let fault = outcome::fault(status);
    FrameSaid {
        answer: outcome::status_number(status),
        fault: fault.kind,
        cla: 0,
        ins: 0,
        p1: 0,
        p2: 0,
        shape: 0,
        lc: 0,
        le: 0,
        start: 0,
        end: 0,
        place: fault.place,
    }
}

// Whether the strict writer may write so many bytes of data in the shape of this number; what it may not is R5.
pub fn strict_plain(number: u32, count: usize) -> bool
    ensures { StrictPlain number count result }
{
    shape_numbered(number).is_some_and(|case| apdu::strict_has(case, count))
}

pub fn write_plain(header: ApduHeader, shape: u32, content: &[u8], le: u32, out: &mut [u8]) -> Wrote
    ensures { WritePlain (record { header = header; shape = shape; content = content.now; le = le; out = out.old }) result out.new }
{
    let Some(case) = shape_numbered(shape) else {
        return panel_responses::refused_part(Refusal::R5);
    };
    // A frame that is written is said as a response is: its length, or why not.
    panel_responses::wrote_response_plain(apdu::write(header, case, content, le, out))
}

fn register_numbers(says: Apdu) -> CommandSaid
    ensures { result ≡ command_numbers (Gives (Register (says_of says))) }
{
    let at = apdu::data_place(says);
    CommandSaid {
        answer: 0x9000,
        fault: 0,
        command: 0x01,
        p1: 0,
        challenge: at.start,
        application: at.start + 32,
        handle: 0,
        handle_end: 0,
        place: 0,
    }
}

fn authenticate_numbers(flags: Ctap1Flags, says: Apdu) -> CommandSaid
    ensures { result ≡ command_numbers (Gives (Authenticate (flags_no flags) (says_of says))) }
{
    let at = apdu::data_place(says);
    let handle = command::handle_place(says);
    CommandSaid {
        answer: 0x9000,
        fault: 0,
        command: 0x02,
        p1: command::flags_number(flags),
        challenge: at.start,
        application: at.start + 32,
        handle: handle.start,
        handle_end: handle.end,
        place: 0,
    }
}

// A command that has no parts, or a status word.
fn bare(answer: u16, command: u8, fault: FaultNumbers) -> CommandSaid
    ensures { result ≡ bare_command (record { number = answer; kind = fault.kind; place = fault.place }) command }
{
    CommandSaid {
        answer,
        fault: fault.kind,
        command,
        p1: 0,
        challenge: 0,
        application: 0,
        handle: 0,
        handle_end: 0,
        place: fault.place,
    }
}

pub fn command_plain(read: Result<U2fCommand, ApduStatusCode>) -> CommandSaid
    ensures { CommandPlain read result }
{
    match read {
        Ok(U2fCommand::Register(says)) => register_numbers(says),
        Ok(U2fCommand::Authenticate(flags, says)) => authenticate_numbers(flags, says),
        Ok(U2fCommand::Version) => bare(0x9000, 0x03, outcome::no_fault()),
        Ok(U2fCommand::GetResponse) => bare(0x9000, 0xc0, outcome::no_fault()),
        Err(status) => bare(outcome::status_number(status), 0, outcome::fault(status)),
    }
}

// Reads any bytes as a command. Not by `on_reading`: that has one caller in the archive, the decision, so that it is compiled into it.
#[tactic(auto, unfolding(command_stated::specs::Command::command_of, command_stated::specs::Command::on_reading))]
pub fn read_command_plain(frame: &[u8]) -> CommandSaid
    ensures { BrinecandleReadCommand frame.now result }
{
    let reading = apdu::read(frame);
    match reading {
        Ok(says) => command_plain(command::instructed(frame, says)),
        Err(status) => command_plain(Err(status)),
    }
}
