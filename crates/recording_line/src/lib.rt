// One line of a recording, and what the program `recording` writes for it.
#![tactic(auto)]

mod unread;

use program_spell::Hex;
use std::fmt::Display;
use std::io;
use unread::Unread;

// How far a recording has come: what its lines came to, and the number of the last.
#[derive(Clone, Copy, Default)]
pub struct Sums {
    pub converted: u64,
    pub kept: u64,
    pub unread: u64,
    pub line: u64,
}

// For as many bytes as a line can say. Fixed memory: no Vec that could run out.
fn space() -> [u8; 131072] {
    [0; 131072]
}

// What the frame's text is converted to, at the front of res; none where the frame stays as it is.
fn converted<'a>(text: &[u8], res: &'a mut [u8]) -> Result<Option<&'a [u8]>, Unread> {
    let mut bytes = space();
    let frame = program_text::frame_bytes(text, &mut bytes).ok_or(Unread::NotHex)?;
    let n = convert::convert(frame, res)?;
    if convert::is_old(frame) {
        return Ok(Some(octets::part(res, 0, n)));
    }
    Ok(None)
}

impl Sums {
    // # line NUMBER: WHY
    pub fn remark<D: Display + Drop>(&self, out: &impl Print, why: D) -> io::Result<()> {
        println!(out; "# line {}: {why}", self.line)
    }

    // The remark stands before a line, or its first part, that goes out as it came.
    pub fn unread<D: Display + Drop>(&mut self, out: &impl Print, why: D) -> io::Result<()> {
        self.unread = self.unread.wrapping_add(1);
        self.remark(out, why)
    }

    // The line's end goes out with it. A line that is a remark, or empty, goes out as it came.
    pub fn put(&mut self, out: &impl Print, line: &[u8]) -> io::Result<()> {
        self.line = self.line.wrapping_add(1);
        match program_text::split_frame(line) {
            Some((text, behind)) => self.framed(out, line, text, behind)?,
            None => out.write_all(line)?,
        }
        out.write_all(b"\n")
    }

    // What a frame of the old form has become, and what stood behind it; any other line goes out as it came.
    fn framed(
        &mut self,
        out: &impl Print,
        line: &[u8],
        text: &[u8],
        behind: &[u8],
    ) -> io::Result<()> {
        let mut res = space();
        match converted(text, &mut res) {
            Ok(Some(frame)) => {
                self.converted = self.converted.wrapping_add(1);
                print!(out; "{}", Hex(frame))?;
                return out.write_all(behind);
            }
            Ok(None) => self.kept = self.kept.wrapping_add(1),
            Err(why) => self.unread(out, why)?,
        }
        out.write_all(line)
    }
}
