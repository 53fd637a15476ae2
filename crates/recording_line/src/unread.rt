// Why the frame in a line could not be read.
use outcome::{ApduStatusCode, NotDone};
use program_spell::Status;
use std::fmt;

#[derive(Clone, Copy)]
pub enum Unread {
    NotHex,
    NoShape(ApduStatusCode),
    NoRoom,
}

impl From<NotDone> for Unread {
    fn from(why: NotDone) -> Unread {
        match why {
            NotDone::Status(status) => Unread::NoShape(status),
            NotDone::Refused(_) => Unread::NoRoom,
        }
    }
}

impl fmt::Display for Unread {
    fn fmt<W: fmt::Write>(&self, f: &mut fmt::Formatter<W>) -> fmt::Result {
        match *self {
            Unread::NotHex => f.write_str("no bytes in hex"),
            Unread::NoShape(status) => write!(f, "{}", Status(status)),
            Unread::NoRoom => f.write_str("no room"),
        }
    }
}
