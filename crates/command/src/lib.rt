// From frame to command: the `U2fCommand` of the Rust's ctap1.rs.
//
// Register      challenge (32) | application (32)
// Authenticate  challenge (32) | application (32) | h | key handle (h)
//
// Challenge, application and handle stay in the caller's frame and are handed out as parts of it.
#![tactic(auto)]

ghost use Rattle.std.specs.Prelude.{◌<◌, ◌≡◌};
ghost use Rattle.outcome.specs.Outcome.{against_ins};
ghost use Rattle.octets.specs.Bytes.{byte};
ghost use Rattle.apdu_stated.specs.Answers.{says_of};
ghost use Rattle.command_stated.specs.Command.{command_said, authenticate_of, get_response_of};
ghost use Rattle.command_stated.specs.Promises.{FlagsNumber, Instructed, OnReading, ReadCommand, ChallengePlace, ApplicationPlace, HandlePlace, Challenge, Application, KeyHandle};

use apdu::{Apdu, Place};
pub use command_stated::{Ctap1Flags, U2fCommand};
use outcome::{ApduStatusCode, LengthFault};

const CTAP1_CLA: u8 = 0;

const U2F_REGISTER: u8 = 0x01;

const U2F_AUTHENTICATE: u8 = 0x02;

const U2F_VERSION: u8 = 0x03;

// ISO 7816-4's GET RESPONSE.
const GET_RESPONSE: u8 = 0xc0;

// The control byte as its number.
pub fn flags_number(flags: Ctap1Flags) -> u8
    ensures { FlagsNumber flags result }
{
    flags as u8
}

// The length that the byte at i says, and 0 where there is no byte.
fn length_at(s: &[u8], i: usize) -> usize
    ensures { (result ≡ byte s.now i) × (result < 256) }
{
    if i < s.len() { octets::wide(s[i]) } else { 0 }
}

// 6700 for an Lc that does not fit INS.
fn against_ins() -> Result<U2fCommand, ApduStatusCode>
    ensures { command_said result ≡ against_ins }
{
    Err(ApduStatusCode::WrongLength(LengthFault::LcAgainstIns, 4))
}

// The handle's length is looked at before P1, as the Rust does.
#[tactic(auto, unfolding(command_stated::specs::Command::authenticate_of))]
fn authenticate(frame: &[u8], says: Apdu) -> Result<U2fCommand, ApduStatusCode>
    ensures { command_said result ≡ authenticate_of frame.now (says_of says) }
{
    let lc = says.lc as usize;
    if lc < 65 {
        return against_ins();
    }
    let content = apdu::data(frame, says);
    if lc != 65 + length_at(content, 64) {
        return against_ins();
    }
    let header = says.header;
    match header.p1 {
        0x03 => Ok(U2fCommand::Authenticate(Ctap1Flags::EnforceUpAndSign, says)),
        0x07 => Ok(U2fCommand::Authenticate(Ctap1Flags::CheckOnly, says)),
        0x08 => Ok(U2fCommand::Authenticate(Ctap1Flags::DontEnforceUpAndSign, says)),
        _ => Err(ApduStatusCode::WrongData),
    }
}

#[tactic(auto, unfolding(command_stated::specs::Command::get_response_of))]
fn get_response(says: Apdu) -> Result<U2fCommand, ApduStatusCode>
    ensures { command_said result ≡ get_response_of (says_of says) }
{
    let header = says.header;
    let lc = says.lc;
    if header.p1 != 0 {
        return Err(ApduStatusCode::IncorrectP1P2);
    }
    if header.p2 != 0 {
        return Err(ApduStatusCode::IncorrectP1P2);
    }
    if lc != 0 {
        return against_ins();
    }
    Ok(U2fCommand::GetResponse)
}

// What a frame that says this asks for: by CLA, then by INS.
#[tactic(auto, unfolding(command_stated::specs::Command::by_instruction, command_stated::specs::Command::register_of, command_stated::specs::Command::version_of))]
pub fn instructed(frame: &[u8], says: Apdu) -> Result<U2fCommand, ApduStatusCode>
    ensures { Instructed frame.now says result }
{
    let header = says.header;
    if header.cla != CTAP1_CLA {
        return Err(ApduStatusCode::ClaInvalid);
    }
    match header.ins {
        U2F_REGISTER if says.lc != 64 => against_ins(),
        U2F_REGISTER => Ok(U2fCommand::Register(says)),
        U2F_AUTHENTICATE => authenticate(frame, says),
        U2F_VERSION if says.lc != 0 => against_ins(),
        U2F_VERSION => Ok(U2fCommand::Version),
        GET_RESPONSE => get_response(says),
        _ => Err(ApduStatusCode::InsInvalid),
    }
}

// What a frame asks for that was read so.
#[tactic(auto, unfolding(command_stated::specs::Command::on_reading))]
pub fn on_reading(
    frame: &[u8],
    reading: Result<Apdu, ApduStatusCode>,
) -> Result<U2fCommand, ApduStatusCode>
    ensures { OnReading frame.now reading result }
{
    instructed(frame, reading?)
}

// Reads any bytes as a command.
#[tactic(auto, unfolding(command_stated::specs::Command::command_of))]
pub fn read_command(frame: &[u8]) -> Result<U2fCommand, ApduStatusCode>
    ensures { ReadCommand frame.now result }
{
    on_reading(frame, apdu::read(frame))
}

// Where the challenge of a frame that says this stands: the first 32 bytes of its data.
pub fn challenge_place(says: Apdu) -> Place
    ensures { ChallengePlace says result }
{
    let at = apdu::data_place(says);
    let start = at.start;
    Place {
        start,
        end: start + 32,
    }
}

// Where the application stands: the 32 bytes after the challenge.
pub fn application_place(says: Apdu) -> Place
    ensures { ApplicationPlace says result }
{
    let at = apdu::data_place(says);
    let start = at.start;
    Place {
        start: start + 32,
        end: start + 64,
    }
}

// Where the key handle stands: after its length byte, up to the data's end and without the Le.
pub fn handle_place(says: Apdu) -> Place
    ensures { HandlePlace says result }
{
    let at = apdu::data_place(says);
    Place {
        start: at.start + 65,
        end: at.end,
    }
}

// The three as parts of the frame; empty where they would pass its end.
#[tactic(auto, unfolding(command_stated::specs::Command::challenge_of))]
pub fn challenge(frame: &[u8], says: Apdu) -> &[u8]
    ensures { Challenge frame.now says result.now }
{
    let at = challenge_place(says);
    octets::part(frame, at.start, at.end)
}

#[tactic(auto, unfolding(command_stated::specs::Command::application_of))]
pub fn application(frame: &[u8], says: Apdu) -> &[u8]
    ensures { Application frame.now says result.now }
{
    let at = application_place(says);
    octets::part(frame, at.start, at.end)
}

#[tactic(auto, unfolding(command_stated::specs::Command::handle_of))]
pub fn key_handle(frame: &[u8], says: Apdu) -> &[u8]
    ensures { KeyHandle frame.now says result.now }
{
    let at = handle_place(says);
    octets::part(frame, at.start, at.end)
}
