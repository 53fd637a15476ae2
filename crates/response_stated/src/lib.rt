// Responses of ISO 7816-4 and their parts: what is answered, and what of a body is still to be fetched. No function: response has them.
#![tactic(auto)]

// A response that was read: how many bytes of body stand at its front, and the status after them.
#[derive(Clone, Copy)]
pub struct Response {
    pub length: usize,
    pub status: u16,
}

// What of a body was not yet sent: from which place on, and how many bytes. A count of 0 is nothing, and no Option: C holds it so, in a
// session.
#[repr(C)]
#[derive(Clone, Copy)]
pub struct Remainder {
    pub place: usize,
    pub count: usize,
}

// A part that was sent: the length of its response, and what remains after it.
#[derive(Clone, Copy)]
pub struct Sent {
    pub length: usize,
    pub remainder: Remainder,
}
