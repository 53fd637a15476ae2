// The commands of the Rust's ctap1.rs, each on a record whose moment is settled, up to the signature: Version, Register and Authenticate. The room for
// the whole reply is asked for before the touch is spent and before the counter is taken; what is to be signed goes out as an order. The checks before them,
// and GET RESPONSE, are session's.
#![tactic(auto)]

ghost use Rattle.std.specs.Prelude.{◌≡◌, true, false};
ghost use Rattle.outcome.specs.Outcome.{Gives};
ghost use Rattle.apdu_stated.specs.Answers.{says_of};
ghost use Rattle.u2f_up_stated.specs.Moments.{moved_to};
ghost use Rattle.u2f_up_stated.specs.Numbers.{presence_in, checked_in};
ghost use Rattle.ctap1_stated.specs.Words.{Ordered, enrolment_in, alone_from, left_from};
ghost use Rattle.ctap1_stated.specs.Numbers.{hardware_of};
ghost use Rattle.ctap1_stated.specs.Path.{Orders, enrolment_order, counted_ending};
ghost use Rattle.ctap1_stated.specs.Decision.{end_alone, end_block, touch_checked, left_of};
ghost use Rattle.ctap1_stated.specs.Promises.{Refused, Answered, Version, Register, Authenticate};

use apdu::Apdu;
use command::Ctap1Flags;
pub use ctap1_stated::{Call, Decision, DecisionAnswer, HardwareSaid, NewKey};
use outcome::{ApduStatusCode, Refusal};
use signing::Head;
use u2f_up::PresenceRecord;

// The hardware's answers by their numbers: yes, and the attestation that is there. Every other number is a failure, or no.
const YES: u32 = 1;

const PRESENT: u32 = 1;

pub fn refused(why: Refusal) -> Decision
    ensures { Refused why result }
{
    Decision {
        answer: DecisionAnswer::Refused(why),
        order: signing::blank(),
        taken: false,
    }
}

pub fn answered(status: ApduStatusCode) -> Decision
    ensures { Answered status result }
{
    let fault = outcome::fault(status);
    Decision {
        answer: DecisionAnswer::Status(outcome::status_number(status), fault.kind, fault.place),
        order: signing::blank(),
        taken: false,
    }
}

fn ordered(order: Head, taken: bool) -> Decision
    ensures { alone_from result ≡ record { answer = Gives Ordered; head = order; taken = taken } }
{
    Decision {
        answer: DecisionAnswer::Order,
        order,
        taken,
    }
}

// The record's last moment moves with every answer but a refusal.
pub fn version(presence: &mut PresenceRecord, t: u64, reply: &mut [u8]) -> Decision
    ensures { Version presence.old t reply.old result presence.new reply.new }
{
    if reply.len() < 6 {
        return refused(Refusal::R2);
    }
    octets::put(reply, b"U2F_V2");
    u2f_up::moved(presence, t);
    Decision {
        answer: DecisionAnswer::Body(6),
        order: signing::blank(),
        taken: false,
    }
}

fn enrol(frame: &[u8], says: Apdu, key: NewKey, block: &mut [u8; 385]) -> Decision
    ensures result_value { alone_from result ≡ end_alone (Orders (enrolment_order frame.now (says_of says) (enrolment_in key.entry)) false) }
    ensures block_after { block.new ≡ end_block (Orders (enrolment_order frame.now (says_of says) (enrolment_in key.entry)) false) block.old }
{
    let order = signing::register_order(
        command::application(frame, says),
        command::challenge(frame, says),
        key.handle,
        key.x,
        key.y,
        key.certificate.len(),
        block,
    );
    ordered(order, false)
}

// The room is asked for first: a touch that is spent on a reply which then does not fit is lost.
pub fn register(
    call: Call,
    says: Apdu,
    presence: &mut PresenceRecord,
    hardware: HardwareSaid,
    key: NewKey,
    room: usize,
    block: &mut [u8; 385],
) -> Decision
    ensures { Register call.entry.frame.now call.entry.side call.entry.t presence.old hardware
        (record { new_handle = key.entry.handle.now; certificate = key.entry.certificate.now; x = key.entry.x.now; y = key.entry.y.now })
        room says block.old result presence.new block.new }
{
    if !signing::has_register_room(room, key.handle.len(), key.certificate.len()) {
        return refused(Refusal::R2);
    }
    if !u2f_up::touch_checked(presence, call.side, call.t) {
        return answered(ApduStatusCode::CondUseNotSatisfied);
    }
    if hardware.stored != YES {
        return answered(ApduStatusCode::InternalException);
    }
    if 255 < key.handle.len() {
        return answered(ApduStatusCode::InternalException);
    }
    if hardware.attestation != PRESENT {
        return answered(ApduStatusCode::InternalException);
    }
    enrol(call.frame, says, key, block)
}

// The counter is taken last: no check comes after it.
fn counted(
    hardware: HardwareSaid,
    frame: &[u8],
    says: Apdu,
    present: bool,
    block: &mut [u8; 385],
) -> Decision
    ensures result_value { alone_from result ≡ end_alone (counted_ending frame.now (says_of says) present (hardware_of hardware).counter) }
    ensures block_after { block.new ≡ end_block (counted_ending frame.now (says_of says) present (hardware_of hardware).counter) block.old }
{
    if hardware.counted != YES {
        return answered(ApduStatusCode::WrongData);
    }
    let application = command::application(frame, says);
    let challenge = command::challenge(frame, says);
    let n = hardware.counter;
    let order = signing::authenticate_order(application, challenge, present, n, block);
    ordered(order, true)
}

fn enforce(
    call: Call,
    says: Apdu,
    presence: &mut PresenceRecord,
    hardware: HardwareSaid,
    block: &mut [u8; 385],
) -> Decision
    ensures { left_from result (presence_in presence.new) block.new ≡ left_of
        (touch_checked (checked_in (moved_to (presence_in presence.old) call.entry.t) call.entry.side call.entry.t)
        (counted_ending call.entry.frame.now (says_of says) true (hardware_of hardware).counter)) block.old }
{
    if !u2f_up::touch_checked(presence, call.side, call.t) {
        return answered(ApduStatusCode::CondUseNotSatisfied);
    }
    counted(hardware, call.frame, says, true, block)
}

// A check-only 6985 is the good answer: it looks at no touch, asks for no room and leaves the windows alone.
#[tactic(auto, using(ctap1_stated::proofs::Cases::yes_said, ctap1_stated::proofs::Cases::no_said), unfolding(ctap1_stated::specs::Path::login_path))]
pub fn authenticate(
    call: Call,
    flags: Ctap1Flags,
    says: Apdu,
    presence: &mut PresenceRecord,
    hardware: HardwareSaid,
    room: usize,
    block: &mut [u8; 385],
) -> Decision
    ensures { Authenticate call.entry.frame.now call.entry.side call.entry.t presence.old hardware room flags says block.old result presence.new block.new }
{
    if hardware.good != YES {
        u2f_up::moved(presence, call.t);
        return answered(ApduStatusCode::WrongData);
    }
    if let Ctap1Flags::CheckOnly = flags {
        u2f_up::moved(presence, call.t);
        return answered(ApduStatusCode::CondUseNotSatisfied);
    }
    if !signing::has_authenticate_room(room) {
        return refused(Refusal::R2);
    }
    if let Ctap1Flags::EnforceUpAndSign = flags {
        return enforce(call, says, presence, hardware, block);
    }
    u2f_up::moved(presence, call.t);
    counted(hardware, call.frame, says, false, block)
}
