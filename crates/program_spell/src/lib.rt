// Status words and bytes as programs print them, between the words and numbers of a format. Behind a write that failed nothing more goes out,
// and a program says so at its end.
#![tactic(auto)]

use outcome::{ApduStatusCode, LengthFault};
use std::{fmt, io};

// What a program says at its end where standard output did not take all.
pub const UNWRITTEN: &str = "cannot write standard output";

// A status word, four digits in hex.
#[derive(Clone, Copy)]
pub struct StatusWord(pub ApduStatusCode);

impl fmt::Display for StatusWord {
    fn fmt<W: fmt::Write>(&self, f: &mut fmt::Formatter<W>) -> fmt::Result {
        let number = outcome::status_number(self.0);
        write!(f, "{number:04x}")
    }
}

// The same, and of a 6700 what is wrong with the length, and where.
#[derive(Clone, Copy)]
pub struct Status(pub ApduStatusCode);

impl fmt::Display for Status {
    fn fmt<W: fmt::Write>(&self, f: &mut fmt::Formatter<W>) -> fmt::Result {
        write!(f, "{}", StatusWord(self.0))?;
        let ApduStatusCode::WrongLength(fault, place) = self.0 else {
            return Ok(());
        };
        let kind = match fault {
            LengthFault::Missing => "missing",
            LengthFault::Surplus => "surplus",
            LengthFault::LcAgainstIns => "lc",
        };
        write!(f, " {kind} {place}")
    }
}

// So many bytes are spelt together.
const TOGETHER: usize = 2048;

// The last digit of a number in hex.
fn digit(n: u8) -> u8 {
    let last = n % 16;
    if last < 10 {
        return b'0' + last;
    }
    b'a' - 10 + last
}

// Bytes in hex; `-` where there are none.
#[derive(Clone, Copy)]
pub struct Hex<'a>(pub &'a [u8]);

impl fmt::Display for Hex<'_> {
    fn fmt<W: fmt::Write>(&self, f: &mut fmt::Formatter<W>) -> fmt::Result {
        if self.0.is_empty() {
            return f.write_str("-");
        }
        // a format for each byte takes seven times as long
        let mut digits = [0u8; 2 * TOGETHER];
        for bytes in self.0.chunks(TOGETHER) {
            for (pair, byte) in digits.chunks_exact_mut(2).zip(bytes) {
                if let [high, low] = pair {
                    *high = digit(byte / 16);
                    *low = digit(*byte);
                }
            }
            let text = digits.get(..2 * bytes.len()).unwrap_or(&[]);
            f.write_str(str::from_utf8(text).map_err(|_| fmt::Error)?)?;
        }
        Ok(())
    }
}

// On standard error, where standard output did not take all.
pub fn close(rt: &impl Eprint, printed: io::Result<()>) {
    if printed.is_err() {
        let _ = rt.eprintln(UNWRITTEN);
    }
}
