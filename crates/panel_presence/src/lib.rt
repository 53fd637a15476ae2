// What touch, check and ask answer, and a fresh record's five numbers.
#![tactic(auto)]

ghost use Rattle.panel_stated.specs.Promises.{RefusedAsked, FoundAsked, AskedPlain, FreshKept};

use outcome::Refusal;
use panel_stated::Asked;
use u2f_up_stated::PresenceRecord;

// What a call says that is refused, and one that is not.
pub fn refused_plain(why: Refusal) -> Asked
    ensures { RefusedAsked why result }
{
    Asked {
        answer: outcome::refusal_number(why) as u16,
        yes: false,
    }
}

pub fn found_plain(yes: bool) -> Asked
    ensures { FoundAsked yes result }
{
    Asked {
        answer: 0x9000,
        yes,
    }
}

pub fn asked_plain(answer: Result<bool, Refusal>) -> Asked
    ensures { AskedPlain answer result }
{
    match answer {
        Err(why) => refused_plain(why),
        Ok(yes) => found_plain(yes),
    }
}

// A fresh record with the touch window `w`, over whatever the numbers were.
pub fn fresh(w: u64, presence: &mut PresenceRecord)
    ensures { FreshKept w presence.new }
{
    presence.w = w;
    presence.prompt = 0;
    presence.touch = 0;
    presence.last = 0;
    presence.asker = 0;
}
