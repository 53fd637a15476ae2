// Frames read by a table of rows: a row, and what comes of trying a table's rows on a frame. No function: apdu_table has them.
#![tactic(auto)]

use apdu_stated::ApduHeader;

// A row of a table: the shape's number, the length of its Lc field, the least Lc, the length of its Le field.
#[derive(Clone, Copy)]
pub struct Row {
    pub number: u8,
    pub lc_field: u8,
    pub lc_least: u8,
    pub le_field: u8,
}

// Why no row of a table fits a frame: it is under four bytes; it ends before a row's Lc field or data does; or it goes on behind the
// most that a row can claim of it.
#[derive(Clone, Copy)]
pub enum NoRow {
    UnderFour,
    Early,
    Beyond(usize),
}

// What a frame says, as its row has it. Its data stays in the frame, from `start` on.
#[derive(Clone, Copy)]
pub struct RowSays {
    pub header: ApduHeader,
    pub number: u8,
    pub start: u8,
    pub lc: u16,
    pub le: u32,
}
