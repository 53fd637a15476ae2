// The decision: what the hardware answers and what a decision comes to. What they mean stands in specs/, what is claimed in
// specs/Claims.antt. No function: ctap1 has them.
#![tactic(auto)]

use outcome::Refusal;
use response_stated::Remainder;
use signing_stated::Head;

// The hardware's answers as the panel hands them in. allowed: 0 no, 1 yes, else failed. attestation: 0 missing, 1 present, else failed.
// stored (the new handle) and good (the given one): 1 yes, else no. The counter is offered where `counted` is 1, else its reading
// failed. An answer that the path does not reach is not looked at. Numbers: the C interface has them.
#[repr(C)]
#[derive(Clone, Copy)]
pub struct HardwareSaid {
    pub allowed: u32,
    pub attestation: u32,
    pub stored: u32,
    pub good: u32,
    pub counted: u32,
    pub counter: u32,
}

// What those numbers stand for, in which the statements are written: whether CTAP1 is allowed,
#[derive(Clone, Copy)]
pub enum Allowed {
    Yes,
    No,
    Failed,
}

// the attestation that a Register is signed with,
#[derive(Clone, Copy)]
pub enum Attestation {
    Present,
    Missing,
    Failed,
}

// and all five answers; the counter that an Authenticate would carry is `None` where its reading failed.
#[derive(Clone, Copy)]
pub struct Hardware {
    pub allowed: Allowed,
    pub stored: bool,
    pub attestation: Attestation,
    pub good: bool,
    pub counter: Option<u32>,
}

// A frame, the side that it came from, and the moment.
#[derive(Clone, Copy)]
pub struct Call<'a> {
    pub frame: &'a [u8],
    pub side: u64,
    pub t: u64,
}

// The new key that a Register would hand out: its handle, the attestation certificate that goes with it, and the public key's two halves.
#[derive(Clone, Copy)]
pub struct NewKey<'a> {
    pub handle: &'a [u8],
    pub certificate: &'a [u8],
    pub x: &'a [u8; 32],
    pub y: &'a [u8; 32],
}

// What a decision is answered with. A status word is its number, and the kind and place of a 6700: numbers, so that it is told where it is found. A part is GET
// RESPONSE's: its response's length, and what remains after it. No Result, and the numbers stay: SaidExactly says both ways which case has which number and pair, of any
// three numbers, and DecidedOneToOne that the answer alone, without an order, tells the cases apart.
#[derive(Clone, Copy)]
pub enum DecisionAnswer {
    Refused(Refusal),
    Status(u16, u16, usize),
    Body(usize),
    Order,
    Part(usize, Remainder),
}

// The answer, the order's head (blank where the answer is none; its block is in the lent one), and whether the counter was taken. Beside the answer, and not in its
// case: ContractsAsClaimed (HandsNoOrder) says of both what they are where nothing is ordered.
#[derive(Clone, Copy)]
pub struct Decision {
    pub answer: DecisionAnswer,
    pub order: Head,
    pub taken: bool,
}
