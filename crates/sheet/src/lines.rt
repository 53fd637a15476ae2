// The figures of one buffer, a line each.
use crate::grouped::{Grouped, in_order};
use datasheet::Figures;
use std::io;

pub fn print(out: &impl Print, figures: Figures) -> io::Result<()> {
    let [room, certificate, handle, body, short, extended, command] = in_order(figures);
    println!(out;
        "reply buffer: {room}\ncertificate: up to {certificate}\nhandle: up to {handle}\nlongest body: {body}"
    )?;
    println!(out;
        "part and status: {short} where no frame is extended, {extended} in any shape\nlongest command: {command}"
    )
}

// Before them, what a certificate needs.
pub fn print_needed(out: &impl Print, certificate: u64, room: u64) -> io::Result<()> {
    println!(out;
        "a certificate of {} needs a reply buffer of {} or more",
        Grouped(certificate),
        Grouped(room)
    )
}
