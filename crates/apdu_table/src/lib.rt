// Frames read by a table: the rows are data, and the reader tries them in turn by their three columns. Nothing in it knows a shape by
// name; a table of other rows reads other frames. The branching reader is apdu's; on the ordinary table and on ISO's the two are one
// (apdu_table_stated's specs/Claims.antt, SameReading).
//
//    a row, four numbers:   shape's number | length of the Lc field | least Lc | length of the Le field
#![tactic(auto)]

mod rows;

ghost use Rattle.std.specs.Prelude.{◌+◌, ◌≤◌, ◌<◌, ◌≡◌, ◌||◌, length};
ghost use Rattle.apdu_table_stated.specs.Rows.{row_from};
ghost use Rattle.apdu_table_stated.specs.Trying.{begins, lc_in, opens, ends_early, claimed, row_end};
ghost use Rattle.apdu_table_stated.specs.Answers.{says_by, row_says_of};
ghost use Rattle.apdu_table_stated.specs.Promises.{TryRows, ReadRows, ReadByTable, ReadStrictByTable};

use apdu_stated::ApduHeader;
pub use apdu_table_stated::{NoRow, Row, RowSays};
use outcome::{ApduStatusCode, LengthFault};
pub use rows::{ordinary, strict};

const APDU_HEADER_LEN: usize = 4;

// The row that four numbers say.
fn row_of(columns: &[u8; 4]) -> Row
    ensures { result ≡ row_from columns.now }
{
    let [number, lc_field, lc_least, le_field] = *columns;
    Row {
        number,
        lc_field,
        lc_least,
        le_field,
    }
}

// A field of three bytes begins with 00, as far as the frame goes.
#[tactic(auto, unfolding(apdu_table_stated::specs::Trying::begins))]
fn begins(long: u8, place: usize, frame: &[u8]) -> bool
    ensures { result ≡ begins long place frame.now }
{
    if long != 3 {
        return true;
    }
    if frame.len() <= place {
        return true;
    }
    frame[place] == 0
}

// What an Lc field of so many bytes says, behind the header.
#[tactic(auto, unfolding(apdu_table_stated::specs::Trying::lc_in))]
fn lc_in(long: u8, frame: &[u8]) -> u16
    ensures { result ≡ lc_in long frame.now }
{
    if frame.len() < APDU_HEADER_LEN + (long as usize) {
        return 0;
    }
    if long == 1 {
        return octets::pair(0, frame[4]);
    }
    if long == 3 {
        return octets::pair(frame[5], frame[6]);
    }
    0
}

// The frame can begin as the row does. A row whose fields have other lengths than fields do fits nothing.
#[tactic(auto, unfolding(apdu_table_stated::specs::Trying::opens, apdu_table_stated::specs::Trying::begins))]
fn opens(row: Row, frame: &[u8]) -> bool
    ensures { result ≡ opens row frame.now }
{
    if 3 < row.le_field {
        return false;
    }
    if row.lc_field == 3 {
        return begins(3, APDU_HEADER_LEN, frame);
    }
    row.lc_field < 2
}

// How many bytes of the frame the row's fields claim; 0 where the row does not stand at its front, as the definition has it.
#[tactic(auto, unfolding(apdu_table_stated::specs::Trying::stands))]
fn claimed(row: Row, frame: &[u8]) -> usize
    ensures { result ≡ claimed row frame.now }
{
    if !opens(row, frame) {
        return 0;
    }
    let lc = lc_in(row.lc_field, frame) as usize;
    if lc < row.lc_least as usize {
        return 0;
    }
    let at = APDU_HEADER_LEN + (row.lc_field as usize) + lc;
    let end = at + (row.le_field as usize);
    if frame.len() < end {
        return 0;
    }
    if begins(row.le_field, at, frame) {
        return end;
    }
    0
}

// Whether the frame ends before the row's Lc field or its data does.
fn ends_early(row: Row, frame: &[u8]) -> bool
    ensures { result ≡ ends_early row frame.now }
{
    if !opens(row, frame) {
        return false;
    }
    frame.len() < APDU_HEADER_LEN + (row.lc_field as usize) + (lc_in(row.lc_field, frame) as usize)
}

// Tries the rows of any table in turn: the first that fits; where none does, whether bytes are missing, else how many can be claimed.
#[tactic(auto, unfolding(apdu_table_stated::specs::Trying::tried_of))]
pub fn try_rows(table: &[[u8; 4]], frame: &[u8]) -> Result<Row, NoRow>
    ensures { TryRows table.now frame.now result }
{
    if frame.len() < APDU_HEADER_LEN {
        return Err(NoRow::UnderFour);
    }
    let mut early = false;
    let mut most = 0;
    for columns in table {
        let row = row_of(columns);
        let n = claimed(row, frame);
        if n == frame.len() {
            return Ok(row);
        }
        early = early || ends_early(row, frame);
        most = most.max(n);
    }
    if early {
        return Err(NoRow::Early);
    }
    Err(NoRow::Beyond(most))
}

// What a frame says by a row that fits it.
fn says(row: Row, frame: &[u8]) -> RowSays
    requires { (row.lc_field ≤ 3) × (row.le_field ≤ 3) × (row_end row frame.now ≡ length frame.now) }
    ensures { row_says_of result ≡ says_by row frame.now }
{
    let start = APDU_HEADER_LEN + (row.lc_field as usize);
    let lc = lc_in(row.lc_field, frame);
    let at = start + (lc as usize);
    let end = at + (row.le_field as usize);
    let header = ApduHeader {
        cla: frame[0],
        ins: frame[1],
        p1: frame[2],
        p2: frame[3],
    };
    RowSays {
        header,
        number: row.number,
        start: start as u8,
        lc,
        le: apdu_le::read(&frame[at..end]),
    }
}

// Reads any bytes by the rows of any table.
#[tactic(auto, using(apdu_table_stated::proofs::Cases::found_lc, apdu_table_stated::proofs::Cases::found_le, apdu_table_stated::proofs::Cases::found_end), unfolding(apdu_table_stated::specs::Answers::read_by_rows))]
pub fn read_rows(table: &[[u8; 4]], frame: &[u8]) -> Result<RowSays, ApduStatusCode>
    ensures { ReadRows table.now frame.now result }
{
    match try_rows(table, frame) {
        Ok(row) => Ok(says(row, frame)),
        Err(NoRow::UnderFour) => Err(ApduStatusCode::WrongData),
        Err(NoRow::Early) => Err(ApduStatusCode::WrongLength(LengthFault::Missing, frame.len())),
        Err(NoRow::Beyond(place)) => Err(ApduStatusCode::WrongLength(LengthFault::Surplus, place)),
    }
}

// By the ordinary table: document 01's without its row 6.
pub fn read(frame: &[u8]) -> Result<RowSays, ApduStatusCode>
    ensures { ReadByTable frame.now result }
{
    let table = ordinary();
    read_rows(&table, frame)
}

// By ISO's.
pub fn read_strict(frame: &[u8]) -> Result<RowSays, ApduStatusCode>
    ensures { ReadStrictByTable frame.now result }
{
    let table = strict();
    read_rows(&table, frame)
}
