// What crosses to C, as plain numbers: the structs of include/brinecandle.h, which .ci/header compares with these. No function:
// panel_frames, panel_presence, panel_orders and panel_responses have the conversions, panel the exports.
//
// What the firmware keeps between calls is lent as a struct and changed in place: the presence record's five numbers (u2f_up_stated), a transport's session's
// three (session_stated). So are the hardware's answers lent, to be read (ctap1_stated). Results and an order cross as #[repr(C)] structs by value. An order's block
// of 385 bytes is an array lent beside it. Slices are a pointer and a length.
//
// Where a frame's length is wrong, `fault` is 1 to 3 and `place` where; else both are 0. `fault` stands beside the answer, where the two
// are stored at once.
#![tactic(auto)]

// What a frame says: the header, the shape's number, Lc and Le, and where the data stands in the frame.
#[repr(C)]
#[derive(Clone, Copy)]
pub struct FrameSaid {
    pub answer: u16,
    pub fault: u16,
    pub cla: u8,
    pub ins: u8,
    pub p1: u8,
    pub p2: u8,
    pub shape: u32,
    pub lc: u16,
    pub le: u32,
    pub start: usize,
    pub end: usize,
    pub place: usize,
}

// A command by its INS, and where its parts start in the frame: challenge and application have 32 bytes each.
#[repr(C)]
#[derive(Clone, Copy)]
pub struct CommandSaid {
    pub answer: u16,
    pub fault: u16,
    pub command: u8,
    pub p1: u8,
    pub challenge: usize,
    pub application: usize,
    pub handle: usize,
    pub handle_end: usize,
    pub place: usize,
}

// A length that was written at the front of a buffer: a frame's, a reply's, or a response's.
#[repr(C)]
#[derive(Clone, Copy)]
pub struct Wrote {
    pub answer: u16,
    pub length: usize,
}

#[repr(C)]
#[derive(Clone, Copy)]
pub struct Asked {
    pub answer: u16,
    pub yes: bool,
}

// An order beside its block. kind: 1 Register, 2 Authenticate, as their INS; 0 where there is no order.
#[repr(C)]
#[derive(Clone, Copy)]
pub struct OrderNumbers {
    pub kind: u32,
    pub to_sign: usize,
    pub certificate_length: usize,
}

#[repr(C)]
#[derive(Clone, Copy)]
pub struct DecisionSaid {
    pub answer: u16,
    pub fault: u16,
    pub taken: bool,
    pub length: usize,
    pub order: OrderNumbers,
    pub place: usize,
}

// A response's status, and how many bytes of body stand before it.
#[repr(C)]
#[derive(Clone, Copy)]
pub struct ResponseSaid {
    pub answer: u16,
    pub status: u16,
    pub length: usize,
}

// How many bytes a response can take.
#[repr(C)]
#[derive(Clone, Copy)]
pub struct RoomSaid {
    pub answer: u16,
    pub length: usize,
}
