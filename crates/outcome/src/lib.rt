// The words that every crate here answers with: the status words of a reply and the refusals R1 to R8, each with its
// number. Status words go to the host. A refusal goes to the firmware: nothing was decided, and nothing was changed.
#![tactic(auto)]

ghost use Rattle.std.specs.Prelude.{◌≡◌};
ghost use Rattle.outcome.specs.Outcome.{fault_pair};
ghost use Rattle.outcome.specs.Promises.{StatusNumber, Fault, NoFault, RefusalNumber, IsRefused, IsStatus};

// What is wrong with a frame's length: it ends too early, at its length; it goes on too long, from the first byte that no field
// can claim; or its Lc does not fit its INS.
#[derive(Clone, Copy)]
pub enum LengthFault {
    Missing = 1,
    Surplus = 2,
    LcAgainstIns = 3,
}

// ISO 7816-4's status words, as far as the panel answers them. The names are those of the Rust's `ApduStatusCode`.
#[derive(Clone, Copy)]
pub enum ApduStatusCode {
    Success,
    WrongData,
    // the one status word that says more than its number: what is wrong, and at which place, counted from the frame's start. Side
    // by side, and not the place in the fault: so a decision takes fewer instructions
    WrongLength(LengthFault, usize),
    CondUseNotSatisfied,
    CommandNotAllowed,
    IncorrectP1P2,
    InsInvalid,
    ClaInvalid,
    InternalException,
}

// Why nothing was done. Which is which stands beside the numbers in specs/Outcome.antt.
#[derive(Clone, Copy)]
pub enum Refusal {
    R1 = 1,
    R2 = 2,
    R3 = 3,
    R4 = 4,
    R5 = 5,
    R6 = 6,
    R7 = 7,
    R8 = 8,
}

// Why a call that can end in both ways has no result: a refusal, or a status word.
#[derive(Clone, Copy)]
pub enum NotDone {
    Refused(Refusal),
    Status(ApduStatusCode),
}

impl From<Refusal> for NotDone {
    ghost from_gives = { IsRefused };

    fn from(why: Refusal) -> NotDone {
        NotDone::Refused(why)
    }
}

impl From<ApduStatusCode> for NotDone {
    ghost from_gives = { IsStatus };

    fn from(status: ApduStatusCode) -> NotDone {
        NotDone::Status(status)
    }
}

// The status word as the number that goes out. By arms: an enum that carries a value has no discriminants.
pub fn status_number(status: ApduStatusCode) -> u16
    ensures { StatusNumber status result }
{
    match status {
        ApduStatusCode::Success => 0x9000,
        ApduStatusCode::WrongData => 0x6a80,
        ApduStatusCode::WrongLength(_, _) => 0x6700,
        ApduStatusCode::CondUseNotSatisfied => 0x6985,
        ApduStatusCode::CommandNotAllowed => 0x6986,
        ApduStatusCode::IncorrectP1P2 => 0x6a86,
        ApduStatusCode::InsInvalid => 0x6d00,
        ApduStatusCode::ClaInvalid => 0x6e00,
        ApduStatusCode::InternalException => 0x6f00,
    }
}

// A fault as two numbers, its kind and its place: 0 and 0 where there is none, and no Option: the C interface has both in every answer.
#[derive(Clone, Copy)]
pub struct FaultNumbers {
    pub kind: u16,
    pub place: usize,
}

fn pair(kind: u16, place: usize) -> FaultNumbers
    ensures { result ≡ fault_pair kind place }
{
    FaultNumbers { kind, place }
}

// With every status word but 6700, and with every answer that is none.
pub fn no_fault() -> FaultNumbers
    ensures { NoFault result }
{
    pair(0, 0)
}

// What a status word says of the length.
pub fn fault(status: ApduStatusCode) -> FaultNumbers
    ensures { Fault status result }
{
    match status {
        ApduStatusCode::WrongLength(fault, place) => pair(fault as u16, place),
        ApduStatusCode::Success => no_fault(),
        ApduStatusCode::WrongData => no_fault(),
        ApduStatusCode::CondUseNotSatisfied => no_fault(),
        ApduStatusCode::CommandNotAllowed => no_fault(),
        ApduStatusCode::IncorrectP1P2 => no_fault(),
        ApduStatusCode::InsInvalid => no_fault(),
        ApduStatusCode::ClaInvalid => no_fault(),
        ApduStatusCode::InternalException => no_fault(),
    }
}

// The refusal as its number.
pub fn refusal_number(refusal: Refusal) -> u8
    ensures { RefusalNumber refusal result }
{
    refusal as u8
}
