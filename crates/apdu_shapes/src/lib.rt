// The seven shapes in code: a shape's row of the table, what a shape can carry, which rows the strict table has, and which shape a
// payload is in by either table. Reading and writing of whole frames stand on it (apdu, apdu_write). The tables themselves are
// apdu_stated's specs/Table.antt.
#![tactic(auto)]

ghost use Rattle.std.specs.Prelude.{◌+◌, ◌<◌, ◌≤◌, ◌≡◌, length};
ghost use Rattle.octets.specs.Bytes.{byte};
ghost use Rattle.apdu_stated.specs.Table.{lc_most, lc_under};
ghost use Rattle.apdu_stated.specs.Reading.{short_of, extended_of, after_data};
ghost use Rattle.apdu_stated.specs.Promises.{Row, StrictHas, Fits, Payload, lc_found};

use apdu_stated::{Case, Entry, Lengths, TableRow};

fn columns(lc_field: usize, lc_least: usize, le_field: usize) -> TableRow
    ensures { (result.lc_field ≡ lc_field) × (result.lc_least ≡ lc_least) × (result.le_field ≡ le_field) }
{
    TableRow {
        lc_field,
        lc_least,
        le_field,
    }
}

// The shape's row: how many bytes its Lc field has, the least Lc, and how many bytes its Le field has.
pub fn row(shape: Case) -> TableRow
    ensures { Row shape result }
{
    match shape {
        Case::Instruction => columns(0, 0, 0),
        Case::Le1 => columns(0, 0, 1),
        Case::Lc1Data => columns(1, 1, 0),
        Case::Lc1DataLe1 => columns(1, 1, 1),
        Case::Lc3Data => columns(3, 1, 0),
        Case::Lc3DataLe2 => columns(3, 0, 2),
        Case::Le3 => columns(0, 0, 3),
    }
}

// The most that an Lc field of so many bytes can say.
fn lc_most(long: usize) -> usize
    ensures { result ≡ lc_most long }
{
    if long == 0 {
        return 0;
    }
    if long == 1 { 255 } else { 65535 }
}

// Whether the strict table has a row for so many bytes of data in this shape: ISO has no case with an Lc field that says 0.
pub fn strict_has(shape: Case, count: usize) -> bool
    ensures { StrictHas shape count result }
{
    match shape {
        Case::Instruction => true,
        Case::Le1 => true,
        Case::Lc1Data => count != 0,
        Case::Lc1DataLe1 => count != 0,
        Case::Lc3Data => count != 0,
        Case::Lc3DataLe2 => count != 0,
        Case::Le3 => true,
    }
}

// Whether a frame of the shape can hold so many bytes of data, and say this Le.
pub fn fits(shape: Case, count: usize, le: u32) -> bool
    ensures { Fits shape count le result }
{
    let row = row(shape);
    if count < row.lc_least {
        return false;
    }
    if lc_most(row.lc_field) < count {
        return false;
    }
    apdu_le::fits(row.le_field, le)
}

// Lc in one byte, data, and perhaps one byte of Le.
fn short(p: &[u8], lc: u8) -> Lengths
    requires { (1 < length p.now) × (lc ≡ byte p.now 0) }
    ensures { (result ≡ short_of p.now) × (lc_found result ≤ 65535) }
{
    let n = octets::wide(lc);
    if p.len() < 1 + n {
        return Lengths::Missing;
    }
    if p.len() == 1 + n {
        return Lengths::Found(Case::Lc1Data, lc as usize, 0);
    }
    if p.len() == 2 + n {
        return Lengths::Found(
            Case::Lc1DataLe1,
            lc as usize,
            apdu_le::read(&p[1 + n..2 + n]),
        );
    }
    Lengths::Surplus(6 + n)
}

// Data of lc bytes after an extended Lc, and perhaps Le. One byte behind the data was shape 6's Le, and no field claims it any more.
fn after_data(p: &[u8], lc: u16) -> Lengths
    requires { 3 < length p.now }
    ensures { (result ≡ after_data p.now lc) × (lc_found result ≤ 65535) }
{
    let n = lc as usize;
    if p.len() < 3 + n {
        return Lengths::Missing;
    }
    if p.len() == 3 + n {
        return Lengths::Found(Case::Lc3Data, n, 0);
    }
    if p.len() == 4 + n {
        return Lengths::Surplus(7 + n);
    }
    if p.len() == 5 + n {
        return Lengths::Found(Case::Lc3DataLe2, n, apdu_le::read(&p[3 + n..5 + n]));
    }
    Lengths::Surplus(9 + n)
}

// Whether an extended Lc is under the table's least: by ISO's an Lc field counts at least one byte.
fn lc_under(lc: u16, entry: Entry) -> bool
    ensures { result ≡ lc_under entry lc }
{
    match entry {
        Entry::Ordinary => false,
        Entry::Strict => lc == 0,
    }
}

// A payload that begins with 00: an extended Le alone, or an extended Lc.
fn extended(p: &[u8], entry: Entry) -> Lengths
    requires { 1 < length p.now }
    ensures { (result ≡ extended_of entry p.now) × (lc_found result ≤ 65535) }
{
    if p.len() < 3 {
        return Lengths::Missing;
    }
    let lc = octets::pair(p[1], p[2]);
    if p.len() == 3 {
        return Lengths::Found(Case::Le3, 0, apdu_le::read(&p[0..3]));
    }
    if lc_under(lc, entry) {
        return Lengths::Surplus(7);
    }
    after_data(p, lc)
}

// What a payload, the bytes after the header, says.
pub fn payload(p: &[u8], entry: Entry) -> Lengths
    ensures { Payload entry p.now result }
{
    if p.len() == 0 {
        return Lengths::Found(Case::Instruction, 0, 0);
    }
    let first = p[0];
    if p.len() == 1 {
        return Lengths::Found(Case::Le1, 0, apdu_le::read(&p[0..1]));
    }
    if first == 0 {
        return extended(p, entry);
    }
    short(p, first)
}
