// Converts a recording to standard output: frames of the old form, an extended Lc with a one-byte Le, become shape 7, or shape 8 where Lc is 0.
// It comes from the file that the argument names, or from standard input. A line is a frame in hex, which a remark (#) may follow, a remark alone,
// or empty. Every line goes out as it came, but for the frames that are converted; before a line that could not be read a remark says why. So
// nothing is lost, and what goes out is a recording again. The last line counts.
#![tactic(auto)]

mod lines;

use lines::Lines;
use program_text::Source;
use recording_line::Sums;
use std::io;
use std::io::Read;

// What ends a recording before its sums: standard output did not take all of it, or it cannot be read further, and what came of its last line
// was written or not.
#[derive(Drop)]
enum Stopped {
    Unwritten(io::Error),
    Unread(io::Result<()>),
}

impl From<io::Error> for Stopped {
    fn from(error: io::Error) -> Stopped {
        Stopped::Unwritten(error)
    }
}

// The longest frame that has a shape is 65,544 bytes, which in hex, with a space behind each, are 196,632. Fixed memory: no Vec that could run out.
fn text_space() -> [u8; 262144] {
    [0; 262144]
}

// One more read, behind so many bytes of the text. How many stand there then, behind the last line end; none where the input has ended.
fn filled(
    out: &impl Print,
    file: &mut impl Read,
    text: &mut [u8],
    have: usize,
    lines: &mut Lines,
) -> Result<Option<usize>, Stopped> {
    if text.len() <= have {
        lines.part(out, text)?;
        return Ok(Some(0));
    }
    match file.read(&mut text[have..]) {
        Err(_) => Err(Stopped::Unread(lines.cut_short(out, &text[..have]))),
        Ok(0) => {
            lines.last(out, &text[..have])?;
            Ok(None)
        }
        Ok(n) => Ok(Some(lines.whole(out, &mut text[..have + n])?)),
    }
}

// # CONVERTED converted, KEPT as they were, UNREAD not read
fn print_sums(out: &impl Print, sums: Sums) -> io::Result<()> {
    println!(out;
        "# {} converted, {} as they were, {} not read",
        sums.converted, sums.kept, sums.unread
    )
}

// A proved loop has to end, and nothing says that the input does: there are as many turns as no run uses up.
fn convert(out: &impl Print, file: &mut impl Read) -> Result<(), Stopped> {
    let mut text = text_space();
    let mut lines = Lines::default();
    let mut have = 0;
    for _ in 0..u64::MAX {
        match filled(out, file, &mut text, have, &mut lines)? {
            Some(next) => have = next,
            None => break,
        }
    }
    Ok(print_sums(out, lines.sums)?)
}

// A recording that was cut short has no sums.
fn close(rt: &impl Eprint, converted: Result<(), Stopped>) {
    let written = match converted {
        Ok(()) => Ok(()),
        Err(Stopped::Unwritten(error)) => Err(error),
        Err(Stopped::Unread(written)) => {
            let _ = rt.eprintln("cannot read the recording");
            written
        }
    };
    program_spell::close(rt, written);
}

fn main(rt: HostRuntime) {
    match program_text::input(&rt) {
        Some(Source::Standard) => close(&rt, convert(&rt, &mut rt.stdin())),
        Some(Source::Named(mut file)) => close(&rt, convert(&rt, &mut file)),
        None => {}
    }
}
