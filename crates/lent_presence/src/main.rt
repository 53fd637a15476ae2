// Runs the three forms on a lent presence record (lent.rt) on histories of documents 01 and 02, and prints each call, its answer, and the record
// after it: W, prompt, touch, last moment and asker, a closed window as `-`. The file stdout is written from the documents.
#![tactic(auto)]

mod call;
mod lent;

use call::Call;
use outcome::Refusal;
use u2f_up::{Presence, Window};

// Words and numbers go out one by one, with no Display of a whole line: behind a write that failed the next is tried all the same.
fn words(out: &impl Print, words: &[u8]) {
    let _ = out.write_all(words);
}

// A number, behind the words before it.
fn number(out: &impl Print, before: &[u8], n: u64) {
    if out.write_all(before).is_ok() {
        let _ = out.print(n);
    }
}

fn print_window(out: &impl Print, window: Window) {
    match window {
        None => words(out, b" -"),
        Some(m) => number(out, b" ", m),
    }
}

fn print_answer(out: &impl Print, answer: Result<bool, Refusal>) {
    match answer {
        Ok(true) => words(out, b": yes;"),
        Ok(false) => words(out, b": no;"),
        Err(why) => {
            number(out, b": R", outcome::refusal_number(why) as u64);
            words(out, b";");
        }
    }
}

fn print_record(out: &impl Print, presence: Presence) {
    number(out, b" ", presence.w);
    print_window(out, presence.prompt);
    print_window(out, presence.touch);
    number(out, b" ", presence.last);
    number(out, b" ", presence.asker);
    words(out, b"\n");
}

// The calls one after the other, each on the record that the one before it left.
fn history(out: &impl Print, start: Presence, calls: &[Call]) {
    let mut record = start;
    for &call in calls {
        let step = call.run(record);
        call.print(out);
        print_answer(out, step.answer);
        print_record(out, step.presence);
        record = step.presence;
    }
}

// Both windows closed, and the last moment 0, with any W and asker.
fn closed(w: u64, asker: u64) -> Presence {
    Presence {
        w,
        prompt: None,
        touch: None,
        last: 0,
        asker,
    }
}

// Document 01, 'Frames and moments to try', with checks in place of the enrolments.
const MOMENTS: [Call; 10] = [
    Call::Touch(100),
    Call::Check(0, 100),
    Call::Ask(10099),
    Call::Ask(10100),
    Call::Touch(10099),
    Call::Ask(10099),
    Call::Check(0, 15098),
    Call::Check(0, 15098),
    Call::Touch(25098),
    Call::Touch(281474976710655),
];

// Document 02, E7: a touch is the asker's, and serves no other side.
const SIDES: [Call; 10] = [
    Call::Check(1, 100),
    Call::Touch(200),
    Call::Check(0, 300),
    Call::Ask(300),
    Call::Check(1, 5199),
    Call::Check(1, 5200),
    Call::Check(0, 5300),
    Call::Touch(5400),
    Call::Check(1, 10399),
    Call::Check(1, 10400),
];

// What is refused, in its order: R6, R8, R1. Nothing moves.
fn refused(out: &impl Print) {
    let no_window = [
        Call::Touch(281474976710656),
        Call::Check(2, 281474976710656),
        Call::Ask(281474976710656),
    ];
    history(out, closed(0, 2), &no_window);
    history(out, closed(60001, 0), &[Call::Touch(1)]);
    let no_asker = [
        Call::Touch(281474976710656),
        Call::Check(0, 281474976710656),
        Call::Ask(281474976710656),
    ];
    history(out, closed(60000, 2), &no_asker);
    let late_and_back = [
        Call::Check(2, 281474976710656),
        Call::Touch(281474976710656),
        Call::Ask(281474976710656),
        Call::Check(0, 7),
        Call::Check(0, 6),
        Call::Touch(6),
        Call::Ask(6),
    ];
    history(out, closed(60000, 1), &late_and_back);
}

fn main(rt: HostRuntime) {
    history(&rt, closed(5000, 0), &MOMENTS);
    history(&rt, closed(5000, 0), &SIDES);
    refused(&rt);
}
