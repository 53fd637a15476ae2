// Command frames of ISO 7816-3: what a frame says. No function: apdu has them.
#![tactic(auto)]

#[derive(Clone, Copy)]
pub struct ApduHeader {
    pub cla: u8,
    pub ins: u8,
    pub p1: u8,
    pub p2: u8,
}

// The seven shapes by their numbers; the sixth of document 01 is retired. The names say the fields after the header: Lc3DataLe2 has three bytes of Lc, data and two of Le.
#[derive(Clone, Copy, Debug)]
pub enum Case {
    Instruction = 1,
    Le1 = 2,
    Lc1Data = 3,
    Lc1DataLe1 = 4,
    Lc3Data = 5,
    Lc3DataLe2 = 7,
    Le3 = 8,
}

// A row of the table: how many bytes the Lc field has, the least Lc, and how many bytes the Le field has.
#[derive(Clone, Copy)]
pub struct TableRow {
    pub lc_field: usize,
    pub lc_least: usize,
    pub le_field: usize,
}

// What a frame says. Its data stays in the frame: `data` hands out that part.
#[derive(Clone, Copy)]
pub struct Apdu {
    pub header: ApduHeader,
    pub shape: Case,
    pub lc: u16,
    pub le: u32,
}

// Which table a frame is read by: the seven shapes, or ISO 7816-3's seven cases, which have no Lc of 0. Data, and no type parameter: one reading serves both, and the
// definitions are written with the two names.
#[derive(Clone, Copy)]
pub enum Entry {
    Ordinary,
    Strict,
}

// What the bytes after the header say: shape, Lc and Le; or too few bytes; or too many, from a place on that is counted from the
// frame's start. Lc is as wide as a length: all of it in one word would be packed and taken apart again by every reading.
// No Result: the definitions of specs/Reading.antt are written with these three cases, and an error of two would stand in each of them.
#[derive(Clone, Copy)]
pub enum Lengths {
    Found(Case, usize, u32),
    Missing,
    Surplus(usize),
}

// Where data stands in its frame: from start, up to and without end.
#[derive(Clone, Copy)]
pub struct Place {
    pub start: usize,
    pub end: usize,
}
