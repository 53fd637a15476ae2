// Decisions and orders as plain numbers.
#![tactic(auto)]

ghost use Rattle.std.specs.Prelude.{◌≡◌};
ghost use Rattle.panel_stated.specs.Numbers.{no_order};
ghost use Rattle.panel_stated.specs.Promises.{KindNumbered, RefusedPlain, StatusPlain, BodyPlain, PartPlain, OrderPlain, FinishedPlain};

use outcome::{FaultNumbers, NotDone, Refusal};
use panel_stated::{DecisionSaid, OrderNumbers, Wrote};
use response_stated::Remainder;
use signing_stated::{Head, Kind};

// The answer that is no refusal, no status word and not 0: what stands in the block is to be signed.
const ORDER: u16 = 0x0100;

// GET RESPONSE's part is a response already: its status stands inside.
const PART: u16 = 0x0200;

// As panel_frames' shape_numbered: a number of C is a kind's or none.
#[tactic(auto, unfolding(panel_stated::specs::Numbers::kind_of))]
pub fn kind_numbered(number: u32) -> Option<Kind>
    ensures { KindNumbered number result }
{
    match number {
        1 => Some(Kind::Register),
        2 => Some(Kind::Authenticate),
        _ => None,
    }
}

fn no_order() -> OrderNumbers
    ensures { result ≡ no_order }
{
    OrderNumbers {
        kind: 0,
        to_sign: 0,
        certificate_length: 0,
    }
}

fn numbers(
    answer: u16,
    fault: FaultNumbers,
    length: usize,
    order: OrderNumbers,
    taken: bool,
) -> DecisionSaid
    ensures { result ≡ record {
      answer = answer;
      fault = fault.kind;
      taken = taken;
      length = length;
      order = order;
      place = fault.place;
    } }
{
    DecisionSaid {
        answer,
        fault: fault.kind,
        taken,
        length,
        order,
        place: fault.place,
    }
}

// A decision in numbers, by its five cases: one that is answered case by case is written where its caller wants it, at once.
pub fn refused_numbers(why: Refusal, taken: bool) -> DecisionSaid
    ensures { RefusedPlain why taken result }
{
    let answer = outcome::refusal_number(why) as u16;
    numbers(answer, outcome::no_fault(), 0, no_order(), taken)
}

pub fn status_numbers(number: u16, kind: u16, place: usize, taken: bool) -> DecisionSaid
    ensures { StatusPlain number kind place taken result }
{
    numbers(number, FaultNumbers { kind, place }, 0, no_order(), taken)
}

pub fn body_numbers(length: usize, taken: bool) -> DecisionSaid
    ensures { BodyPlain length taken result }
{
    numbers(0x9000, outcome::no_fault(), length, no_order(), taken)
}

pub fn part_numbers(length: usize, left: Remainder, taken: bool) -> DecisionSaid
    ensures { PartPlain length left taken result }
{
    numbers(PART, outcome::no_fault(), length, no_order(), taken)
}

pub fn order_numbers(order: Head, taken: bool) -> DecisionSaid
    ensures { OrderPlain order taken result }
{
    let kind = order.kind;
    let said = OrderNumbers {
        kind: signing::kind_number(kind) as u32,
        to_sign: order.to_sign,
        certificate_length: order.certificate_length,
    };
    numbers(ORDER, outcome::no_fault(), 0, said, taken)
}

// Its error may be a status word too, as no other writer's here: one function for both errors would want a trait of theirs, and be no
// plainer.
pub fn finished_plain(finished: Result<usize, NotDone>) -> Wrote
    ensures { FinishedPlain finished result }
{
    match finished {
        Err(NotDone::Refused(why)) => Wrote {
            answer: outcome::refusal_number(why) as u16,
            length: 0,
        },
        Err(NotDone::Status(status)) => Wrote {
            answer: outcome::status_number(status),
            length: 0,
        },
        Ok(length) => Wrote {
            answer: 0x9000,
            length,
        },
    }
}
