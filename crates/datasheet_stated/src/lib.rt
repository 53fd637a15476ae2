// What a data sheet says of a reply buffer. No function: datasheet has them.
#![tactic(auto)]

// The figures for a reply buffer of `room` bytes, each in bytes.
#[derive(Clone, Copy)]
pub struct Figures {
    pub room: u64,
    // the longest certificate that no Register is refused for, whatever its handle
    pub certificate: u64,
    // the longest new handle
    pub handle: u64,
    // the longest body
    pub body: u64,
    // the longest response, body or part and status, to a frame in shapes 1 to 4, and to any frame
    pub short: u64,
    pub extended: u64,
    // the longest frame that is a command
    pub command: u64,
}

// Why a buffer has no row: it is shorter than a Register may ask for, or a response to be as long as no number says.
#[derive(Clone, Copy)]
pub enum NoSheet {
    TooShort,
    TooLong,
}
