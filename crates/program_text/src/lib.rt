// What a command-line program is given: where its text comes from, and what stands in it. What cannot be read is an answer, never a fault.
#![tactic(auto)]

mod hex;

ghost use Rattle.std.specs.Prelude.{◌≤◌, length, IfSome};

pub use hex::{frame_bytes, split_frame};
use memchr::memchr;
use std::env::FillError;
use std::fs::File;
use std::io;
use std::rt::{Env, Files};

// The first place from `at` on that holds the byte, or else the text's end; `at` itself where that is past the end. No Option: `forward` speaks of
// every answer, and a text is cut at it.
pub fn find(text: &[u8], at: usize, byte: u8) -> usize
    ensures forward { at ≤ result }
    ensures within { at ≤ length text.now → result ≤ length text.now }
{
    let Some(rest) = text.get(at..) else {
        return at;
    };
    at + memchr(byte, rest).unwrap_or(rest.len())
}

// A decimal number of at most `most`; none where the word is no such number.
pub fn number(word: &[u8], most: u64) -> Option<u64>
    ensures { IfSome result (λ n. n ≤ most) }
{
    // `parse` would take a sign, too
    if !word.iter().all(|b| b.is_ascii_digit()) {
        return None;
    }
    let n = str::from_utf8(word).ok()?.parse::<u64>().ok()?;
    if most < n { None } else { Some(n) }
}

// Whether the program was given an argument at this place; its own name is at 0.
pub fn is_given(rt: &impl Env, i: usize) -> bool {
    let mut first = [0u8; 1];
    !matches!(rt.arg(i, &mut first), Err(FillError::NotPresent))
}

// What there is to read: standard input, or a file that is open for reading.
#[derive(Drop)]
pub enum Source<F> {
    Standard,
    Named(F),
}

// The file that the program's argument names, or standard input where it has none. Why there is nothing to read is said on standard error.
pub fn input<R: Files + Env + Eprint + Alloc>(rt: &R) -> Option<Source<R::File>> {
    if !is_given(rt, 1) {
        return Some(Source::Standard);
    }
    if is_given(rt, 2) {
        return nothing(rt, "one argument is known: a file");
    }
    // Fixed memory: no Vec that could run out. The system has no longer name.
    let mut name = [0u8; 4096];
    let Ok(n) = rt.arg(1, &mut name) else {
        return nothing(rt, "the argument: File name too long");
    };
    let Ok(path) = str::from_utf8(&name[..n]) else {
        return nothing(
            rt,
            "the argument: not UTF-8; such a file is read from standard input",
        );
    };
    match File::open(rt, path) {
        Ok(file) => Some(Source::Named(file)),
        Err(error) => unopened(rt, path, error),
    }
}

fn nothing<F>(rt: &impl Eprint, why: &str) -> Option<Source<F>> {
    let _ = rt.eprintln(why);
    None
}

// The system's word for an error stands before the number that std writes behind it.
fn unopened<R: Eprint + Alloc, F>(rt: &R, path: &str, error: io::Error) -> Option<Source<F>> {
    if let Ok(text) = format!(in rt.alloc(); "{error}") {
        if let Some((word, _)) = text.split_once(" (os error ") {
            let _ = eprintln!(rt; "{path}: {word}");
            return None;
        }
    }
    let _ = eprintln!(rt; "{path}: {error}");
    None
}
