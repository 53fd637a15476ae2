// Presence: the record and the answers of its calls. What they mean stands in specs/, what is claimed in specs/Claims.antt.
// No function: u2f_up has them.
#![tactic(auto)]

use outcome::Refusal;

// The moment that a window was opened at, or `None` where it is closed. An opened one is live for a stretch that its reader knows;
// once that has passed it stays as it is.
pub type Window = Option<u64>;

// The presence record: W, the prompt window (the Rust's `needs_up`), the touch window (`has_up`), the last moment, and the side
// that asked last, 0 or 1: a prompt is for it, and a touch is its own.
#[derive(Clone, Copy)]
pub struct Presence {
    pub w: u64,
    pub prompt: Window,
    pub touch: Window,
    pub last: u64,
    pub asker: u64,
}

// The same as C lends it, to be changed in place: five numbers. A window is 0 where it is closed, and otherwise the moment at which it was opened and one more. The
// asking side is 0 or 1; it has 64 bits, and so has a side that a call names, so that no other number is cut down to one of the two.
#[repr(C)]
#[derive(Clone, Copy)]
pub struct PresenceRecord {
    pub w: u64,
    pub prompt: u64,
    pub touch: u64,
    pub last: u64,
    pub asker: u64,
}

// What touch, check and ask answer, and the record after the call; a refusal hands back the record that came in.
#[derive(Clone, Copy)]
pub struct Step {
    pub answer: Result<bool, Refusal>,
    pub presence: Presence,
}

// What a call finds on a record whose moment is settled, where nothing is refused any more.
#[derive(Clone, Copy)]
pub struct Finding {
    pub yes: bool,
    pub presence: Presence,
}
