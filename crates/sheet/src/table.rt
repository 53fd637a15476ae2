// The data sheet's table: a row for each of six buffers, the shortest and the longest that have one among them.
use crate::grouped::in_order;
use datasheet::{Figures, NoSheet};
use std::io;

const BUFFERS: [u64; 6] = [394, 512, 1024, 2048, 65535, 0xffff_ffff_ffff_fffd];

fn print_figures(out: &impl Print, figures: Figures) -> io::Result<()> {
    let [room, certificate, handle, body, short, extended, command] = in_order(figures);
    println!(out;
        "| {room} | {certificate} | {handle} | {body} | {short} | {extended} | {command} |"
    )
}

fn print_row(out: &impl Print, room: u64) -> io::Result<()> {
    match datasheet::row(room) {
        Ok(figures) => print_figures(out, figures),
        Err(NoSheet::TooShort) => println!(out; "| too short |"),
        Err(NoSheet::TooLong) => println!(out; "| too long |"),
    }
}

fn print_heading(out: &impl Print) -> io::Result<()> {
    println!(out;
        "| reply buffer | certificate up to | handle up to | longest body | part and status, short frames | part and status, any frame | longest command |"
    )?;
    println!(out; "|---:|---:|---:|---:|---:|---:|---:|")
}

pub fn print(out: &impl Print) -> io::Result<()> {
    print_heading(out)?;
    for room in BUFFERS {
        print_row(out, room)?;
    }
    Ok(())
}
