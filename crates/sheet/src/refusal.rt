// Why there are no figures, or not all of them, as standard error has it. The bounds in these sentences are written out, and .ci/sheet holds them
// to where the two functions of crate datasheet answer so.
use datasheet::NoSheet;
use std::{fmt, io};

#[derive(Clone, Copy)]
pub enum Refusal {
    NotAskedSo,
    TooShort,
    TooLong,
    NoBuffer,
    Unwritten,
}

impl From<io::Error> for Refusal {
    fn from(_error: io::Error) -> Refusal {
        Refusal::Unwritten
    }
}

impl From<NoSheet> for Refusal {
    fn from(why: NoSheet) -> Refusal {
        match why {
            NoSheet::TooShort => Refusal::TooShort,
            NoSheet::TooLong => Refusal::TooLong,
        }
    }
}

impl fmt::Display for Refusal {
    fn fmt<W: fmt::Write>(&self, f: &mut fmt::Formatter<W>) -> fmt::Result {
        f.write_str(match self {
            Refusal::NotAskedSo => {
                "expected: nothing, the length of a reply buffer, or the word certificate and a certificate's length; a length is decimal digits, less than 2^64"
            }
            Refusal::TooShort => {
                "too short: a reply buffer of 394 bytes or more is expected; a shorter one has no room for a handle of 255 bytes, even without a certificate"
            }
            Refusal::TooLong =>
                "too long: a reply buffer of at most 18446744073709551613 bytes is expected",
            Refusal::NoBuffer =>
                "too long: a certificate of at most 18446744073709551219 bytes is expected",
            Refusal::Unwritten => program_spell::UNWRITTEN,
        })
    }
}
