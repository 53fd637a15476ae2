// A session with a reader: what one transport holds between its frames, and what a decision leaves of it. What they mean stands in specs/, what is claimed in
// specs/Claims.antt. No function: session has them.
#![tactic(auto)]

use ctap1_stated::Decision;
use response_stated::Remainder;

// What remains of a body, and how many bytes of body the latest frame takes at a time: the limit that its body goes out by.
#[derive(Clone, Copy)]
pub struct Session {
    pub remainder: Remainder,
    pub limit: u64,
}

// The same as C lends it, to be changed in place: three numbers, place and count of what remains, and the limit.
#[repr(C)]
#[derive(Clone, Copy)]
pub struct SessionRecord {
    pub place: u64,
    pub count: u64,
    pub limit: u64,
}

// A decision, and what its frame says to the session, whatever it is answered: its limit, and whether it is a GET RESPONSE.
#[derive(Clone, Copy)]
pub struct SessionDecision {
    pub decision: Decision,
    pub limit: u64,
    pub fetches: bool,
}
