// Reads one command frame, raw bytes, from standard input. Prints its shape's name, Lc and Le, or the status word that it gets. With the
// argument `table` it prints which row of each table fits it, and what the frame says by that (rows.rt); with `parts` the bytes of its data and
// of its command's fields (parts.rt).
#![tactic(auto)]

mod parts;
mod rows;

ghost use Rattle.std.specs.Prelude.{◌≤◌, length};

use apdu::Apdu;
use program_spell::StatusWord;
use std::io;
use std::io::Read;
use std::rt::Env;

// How the program was asked to read.
#[derive(Clone, Copy)]
enum Way {
    Shape,
    Rows,
    Parts,
}

fn print_frame(out: &impl Print, says: Apdu) -> io::Result<()> {
    println!(out; "{:?} {} {}", says.shape, says.lc, says.le)
}

fn print_reading(out: &impl Print, frame: &[u8]) -> io::Result<()> {
    match apdu::read(frame) {
        Ok(says) => print_frame(out, says),
        Err(status) => println!(out; "SW {}", StatusWord(status)),
    }
}

// As ever without an argument; none where the program knows no such way.
fn asked(rt: &impl Env) -> Option<Way> {
    if !program_text::is_given(rt, 1) {
        return Some(Way::Shape);
    }
    if program_text::is_given(rt, 2) {
        return None;
    }
    // An argument is copied to where it is asked for, and a longer one is neither word.
    let mut space = [0u8; 16];
    let n = rt.arg(1, &mut space).ok()?;
    match &space[..n] {
        b"table" => Some(Way::Rows),
        b"parts" => Some(Way::Parts),
        _ => None,
    }
}

fn print_asked(out: &impl Print, way: Way, frame: &[u8]) -> io::Result<()> {
    match way {
        Way::Shape => print_reading(out, frame),
        Way::Rows => rows::print_both(out, frame),
        Way::Parts => parts::print(out, frame),
    }
}

// Reads until the buffer is full, the input ends or a read fails, and says how many bytes came. Each read asks for all that is left, where
// `io::copy` asks for a block of its own: of a message that is longer than a read asks for, the system throws the rest away.
fn read_full(input: &mut impl Read, buffer: &mut [u8]) -> usize
    ensures { result ≤ length buffer.new }
{
    let mut done = 0;
    while done < buffer.len() {
        match input.read(&mut buffer[done..]) {
            Err(_) | Ok(0) => return done,
            Ok(n) => done += n,
        }
    }
    done
}

fn main(rt: HostRuntime) {
    let Some(way) = asked(&rt) else {
        let _ = rt.eprintln("one argument is known: table or parts");
        return;
    };
    // Fixed memory: no Vec that could run out.
    let mut buffer = [0u8; 65536];
    let n = read_full(&mut rt.stdin(), &mut buffer);
    // The input's end, a failed read and a frame that is too long look alike so far: one read more tells them apart.
    let mut more = [0u8; 1];
    match rt.stdin().read(&mut more) {
        Err(_) => {
            let _ = rt.eprintln("cannot read standard input");
        }
        Ok(0) => program_spell::close(&rt, print_asked(&rt, way, &buffer[..n])),
        Ok(_) => program_spell::close(&rt, println!(rt; "too long")),
    }
}
