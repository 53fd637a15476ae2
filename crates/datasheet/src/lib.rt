// The data sheet's figures: of a reply buffer, and the buffer that a certificate needs (datasheet_stated's specs/Sheet.antt).
#![tactic(auto)]

ghost use Rattle.datasheet_stated.specs.Promises.{SheetSaid, NeededSaid};

pub use datasheet_stated::{Figures, NoSheet};

// 139 + 255: what a Register with the longest handle and no certificate asks for.
const LEAST: u64 = 394;
// A response adds two status bytes, and its length is a u64.
const MOST: u64 = 0xffff_ffff_ffff_fffd;

// The figures for a reply buffer of `room` bytes.
#[tactic(auto, using(datasheet_stated::proofs::Cases::row_short, datasheet_stated::proofs::Cases::row_long, datasheet_stated::proofs::Cases::row_within))]
pub fn row(room: u64) -> Result<Figures, NoSheet>
    ensures { SheetSaid room result }
{
    if room < LEAST {
        return Err(NoSheet::TooShort);
    }
    if MOST < room {
        return Err(NoSheet::TooLong);
    }
    Ok(Figures {
        room,
        certificate: room - LEAST,
        handle: 255,
        body: room,
        short: 258,
        extended: room + 2,
        command: 329,
    })
}

// The shortest reply buffer with room for a certificate of so many bytes, whatever the handle; there is none where it has no row.
pub fn needed(certificate: u64) -> Option<u64>
    ensures { NeededSaid certificate result }
{
    if MOST - LEAST < certificate {
        return None;
    }
    Some(certificate + LEAST)
}
