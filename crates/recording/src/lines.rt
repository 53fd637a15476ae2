// The lines of a recording as they come, a text full at a time: a line that is longer than the text comes in parts.
use program_text::find;
use recording_line::Sums;
use std::io;

#[derive(Clone, Copy, Default)]
pub struct Lines {
    pub sums: Sums,
    // within a line that is longer than the text
    within: bool,
}

impl Lines {
    // A part of a line that is longer than the text goes out as it came; before the first a remark says why.
    pub fn part(&mut self, out: &impl Print, part: &[u8]) -> io::Result<()> {
        if !self.within {
            self.within = true;
            self.sums.line = self.sums.line.wrapping_add(1);
            self.sums.unread(out, "too long")?;
        }
        out.write_all(part)
    }

    // The rest of a line that was too long ends here; any other is a line.
    fn line(&mut self, out: &impl Print, line: &[u8]) -> io::Result<()> {
        if !self.within {
            return self.sums.put(out, line);
        }
        self.within = false;
        out.write_all(line)?;
        out.write_all(b"\n")
    }

    // Handles the whole lines of the text, and moves the rest, which has no line end yet, to its front. How many bytes that are. From line end to
    // line end, and not by `split`: it looks at each byte by itself, which takes several times as long where lines are long.
    pub fn whole(&mut self, out: &impl Print, text: &mut [u8]) -> io::Result<usize> {
        let all = text.len();
        let mut at = 0;
        let mut end = find(text, at, b'\n');
        while end < all {
            self.line(out, &text[at..end])?;
            at = end + 1;
            end = find(text, at, b'\n');
        }
        text.copy_within(at.., 0);
        Ok(all - at)
    }

    // What stands behind the last line end, if anything does, at the input's end.
    pub fn last(&mut self, out: &impl Print, line: &[u8]) -> io::Result<()> {
        if line.is_empty() && !self.within {
            return Ok(());
        }
        self.line(out, line)
    }

    // What came of a line before a read failed. It goes out as a remark: its front may read as a frame that it never was. A line that is too long
    // has begun to go out, and stays too long.
    pub fn cut_short(&mut self, out: &impl Print, part: &[u8]) -> io::Result<()> {
        if self.within {
            out.write_all(part)?;
            out.write_all(b"\n")?;
            return self.sums.remark(out, "cut short");
        }
        if part.is_empty() {
            return Ok(());
        }
        self.sums.line = self.sums.line.wrapping_add(1);
        self.sums.unread(out, "cut short")?;
        out.write_all(b"# ")?;
        out.write_all(part)?;
        out.write_all(b"\n")
    }
}
