// A record lent for one call: each of the three forms of u2f_up on a record lent for writing, on a copy that comes back beside the answer.
ghost use Rattle.std.specs.Prelude.{◌≡◌};
ghost use Rattle.std.specs.Fn.{FnOnceReturnsAtMut, FnOnceTakesAtMut};
ghost use Rattle.u2f_up_stated.specs.Promises.{GrantUp, ConsumeUp, IsUpNeeded};

use outcome::Refusal;
use u2f_up::{Presence, Step};

// Nothing but what the call promises is known of it.
fn lend<F: FnOnce(&mut Presence) -> Result<bool, Refusal>>(presence: Presence, call: F) -> Step
    requires { FnOnceTakesAtMut F.FnOnce call presence }
    ensures { FnOnceReturnsAtMut F.FnOnce call presence result.answer result.presence }
{
    let mut lent = presence;
    let answer = call(&mut lent);
    Step {
        answer,
        presence: lent,
    }
}

pub fn touch(presence: Presence, t: u64) -> Step
    ensures { GrantUp presence t result }
{
    lend(presence, |lent| u2f_up::grant_up_lent(lent, t))
}

pub fn check(presence: Presence, side: u64, t: u64) -> Step
    ensures { ConsumeUp presence side t result }
{
    lend(presence, |lent| u2f_up::consume_up_lent(lent, side, t))
}

pub fn ask(presence: Presence, t: u64) -> Step
    ensures { IsUpNeeded presence t result.answer × (result.presence ≡ presence) }
{
    lend(presence, |lent| u2f_up::is_up_needed_lent(lent, t))
}
