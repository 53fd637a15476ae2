// Command frames of ISO 7816-3, read by a table of seven shapes, or strictly by ISO's seven cases (apdu_stated's specs/Table.antt); the
// writers are apdu_write's.
//
//    +-----+-----+----+----+----------+----------------+----------+
//    | CLA | INS | P1 | P2 | Lc field | data, Lc bytes | Le field |
//    +-----+-----+----+----+----------+----------------+----------+
//                            0, 1, 3                     0, 1, 2, 3 bytes
#![tactic(auto)]

ghost use Rattle.std.specs.Prelude.{◌≡◌};
ghost use Rattle.outcome.specs.Outcome.{wrong_length, fault_kind};
ghost use Rattle.apdu_stated.specs.Answers.{reading_of};
ghost use Rattle.apdu_stated.specs.Reading.{read_by};
ghost use Rattle.apdu_stated.specs.Promises.{ShapeNumber, Read, ReadStrict, DataPlace, Data};

pub use apdu_shapes::strict_has;
pub use apdu_stated::{Apdu, ApduHeader, Case, Place};
use apdu_stated::{Entry, Lengths};
pub use apdu_write::{write, write_strict};
use outcome::{ApduStatusCode, LengthFault};

const APDU_HEADER_LEN: usize = 4;

// The shape's number.
pub fn shape_number(shape: Case) -> u8
    ensures { ShapeNumber shape result }
{
    shape as u8
}

// 6700, with what is wrong and where.
fn wrong_length(fault: LengthFault, place: usize) -> Result<Apdu, ApduStatusCode>
    ensures { reading_of result ≡ wrong_length (fault_kind fault) place }
{
    Err(ApduStatusCode::WrongLength(fault, place))
}

// Reads any bytes as a frame, by one of the two tables. The header is fetched after the lengths: before, it would hold a register
// meanwhile.
#[tactic(auto, unfolding(apdu_stated::specs::Reading::read_by, apdu_stated::specs::Reading::say_of))]
fn read_by(frame: &[u8], entry: Entry) -> Result<Apdu, ApduStatusCode>
    ensures { reading_of result ≡ read_by entry frame.now }
{
    if frame.len() < APDU_HEADER_LEN {
        return Err(ApduStatusCode::WrongData);
    }
    let found = apdu_shapes::payload(&frame[APDU_HEADER_LEN..], entry);
    let header = ApduHeader {
        cla: frame[0],
        ins: frame[1],
        p1: frame[2],
        p2: frame[3],
    };
    match found {
        Lengths::Found(shape, lc, le) => Ok(Apdu {
            header,
            shape,
            lc: lc as u16,
            le,
        }),
        Lengths::Missing => wrong_length(LengthFault::Missing, frame.len()),
        Lengths::Surplus(place) => wrong_length(LengthFault::Surplus, place),
    }
}

// Reads any bytes as a frame: what it says, or 6a80 under four bytes, or 6700 where it is in no shape.
pub fn read(frame: &[u8]) -> Result<Apdu, ApduStatusCode>
    ensures { Read frame.now result }
{
    read_by(frame, Entry::Ordinary)
}

// The strict entry: ISO 7816-3's seven cases. An extended Lc of 0 with more behind it is in no shape here.
pub fn read_strict(frame: &[u8]) -> Result<Apdu, ApduStatusCode>
    ensures { ReadStrict frame.now result }
{
    read_by(frame, Entry::Strict)
}

// Where the data of a frame that says this stands. Past a frame's end where it is not this frame that says so.
pub fn data_place(says: Apdu) -> Place
    ensures { DataPlace says result }
{
    let shape = says.shape;
    let row = apdu_shapes::row(shape);
    let start = APDU_HEADER_LEN + row.lc_field;
    Place {
        start,
        end: start + (says.lc as usize),
    }
}

// The data of a frame that says this, as a part of the frame; empty where there is none.
#[tactic(auto, unfolding(apdu_stated::specs::Reading::data_of))]
pub fn data(frame: &[u8], says: Apdu) -> &[u8]
    ensures { Data frame.now says result.now }
{
    let at = data_place(says);
    octets::part(frame, at.start, at.end)
}
