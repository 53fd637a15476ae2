// Prints the data sheet's figures for a reply buffer. Without an argument it is the table of the data sheet, as Markdown; with a length, the
// figures for a buffer of so many bytes; with the word `certificate` and a length, the buffer that such a certificate needs, and its figures.
// Every figure comes from the two proved functions of crate datasheet. What has none is answered on standard error alone (refusal.rt).
#![tactic(auto)]

mod grouped;
mod lines;
mod refusal;
mod table;

use refusal::Refusal;
use std::rt::Env;

// What the arguments ask for: the table, the figures for a buffer of this length, or what a certificate of this length needs.
#[derive(Clone, Copy)]
enum Wanted {
    Table,
    Buffer(u64),
    Certificate(u64),
}

// The length that an argument says.
fn length(rt: &impl Env, i: usize) -> Option<u64> {
    // Fixed memory: no Vec that could run out. A longer argument is no number.
    let mut space = [0u8; 4096];
    let n = rt.arg(i, &mut space).ok()?;
    program_text::number(&space[..n], u64::MAX)
}

fn is_certificate(rt: &impl Env) -> bool {
    // As much as tells the word from a longer one.
    let mut space = [0u8; 16];
    match rt.arg(1, &mut space) {
        Ok(n) => matches!(&space[..n], b"certificate"),
        Err(_) => false,
    }
}

fn asked(rt: &impl Env) -> Option<Wanted> {
    if !program_text::is_given(rt, 1) {
        return Some(Wanted::Table);
    }
    if !program_text::is_given(rt, 2) {
        return Some(Wanted::Buffer(length(rt, 1)?));
    }
    if program_text::is_given(rt, 3) || !is_certificate(rt) {
        return None;
    }
    Some(Wanted::Certificate(length(rt, 2)?))
}

fn answer(rt: &(impl Print + Env)) -> Result<(), Refusal> {
    match asked(rt).ok_or(Refusal::NotAskedSo)? {
        Wanted::Table => table::print(rt)?,
        Wanted::Buffer(room) => lines::print(rt, datasheet::row(room)?)?,
        Wanted::Certificate(certificate) => {
            let room = datasheet::needed(certificate).ok_or(Refusal::NoBuffer)?;
            lines::print_needed(rt, certificate, room)?;
            lines::print(rt, datasheet::row(room)?)?;
        }
    }
    Ok(())
}

fn main(rt: HostRuntime) {
    if let Err(why) = answer(&rt) {
        let _ = rt.eprintln(why);
    }
}
