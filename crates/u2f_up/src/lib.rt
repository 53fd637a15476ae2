// Presence: prompts, touches and their spending, carried over from the Rust's u2f_up.rs. Moments are given in. A record
// goes in by value and comes back; or it is lent, as the struct of five numbers that C holds (record_lent to touch_granted), or as a record
// for writing (the last three functions).
// A direct check, like a decision, names the side that it comes from, 0 or 1; touch and ask name none. Any values may stand in a
// record: no sum of moments is ever made, so none can wrap.
#![tactic(auto)]

ghost use Rattle.std.specs.Prelude.{◌≡◌};
ghost use Rattle.outcome.specs.Outcome.{refusal_no};
ghost use Rattle.u2f_up_stated.specs.Moments.{is_live, is_r6, is_r8, is_r1, granted_of, gave, refused};
ghost use Rattle.u2f_up_stated.specs.Answers.{outcome_of, told_of};
ghost use Rattle.u2f_up_stated.specs.Numbers.{window_of, number_of};
ghost use Rattle.u2f_up_stated.specs.Promises.{New, Settle, TouchCheck, RecordLent, Moved, TouchChecked, TouchGranted, GrantUp, ConsumeUp, IsUpNeeded, GrantUpLent, ConsumeUpLent, IsUpNeededLent};

use outcome::Refusal;
pub use u2f_up_stated::{Finding, Presence, PresenceRecord, Step, Window};

const U2F_UP_PROMPT_TIMEOUT_MS: u64 = 10000;

const W_MOST: u64 = 60000;

const SIDE_MOST: u64 = 1;

const MOMENTS: u64 = 1 << 48;

// A window's number where it is closed.
const CLOSED: u64 = 0;

// R6: W is 0 or above 60,000.
fn is_r6(w: u64) -> bool
    ensures { result ≡ is_r6 w }
{
    if w == 0 {
        return true;
    }
    W_MOST < w
}

// R8: the side that is named, or the record's, is neither 0 nor 1.
fn is_r8(named: u64, asker: u64) -> bool
    ensures { result ≡ is_r8 named asker }
{
    if SIDE_MOST < named {
        return true;
    }
    SIDE_MOST < asker
}

// R1: the moment is 2^48 or more, or before the last one.
fn is_r1(last: u64, t: u64) -> bool
    ensures { result ≡ is_r1 last t }
{
    if MOMENTS <= t {
        return true;
    }
    t < last
}

// A fresh record with the touch window W.
pub fn new(w: u64) -> Result<Presence, Refusal>
    ensures { New w result }
{
    if is_r6(w) {
        return Err(Refusal::R6);
    }
    Ok(Presence {
        w,
        prompt: None,
        touch: None,
        last: 0,
        asker: 0,
    })
}

// The moment settled, before all else: R6, R8, R1, or the record with its last moment at `t`. A call that names no side names the
// record's own.
pub fn settle(presence: Presence, side: u64, t: u64) -> Result<Presence, Refusal>
    ensures { Settle presence side t result }
{
    if is_r6(presence.w) {
        return Err(Refusal::R6);
    }
    if is_r8(side, presence.asker) {
        return Err(Refusal::R8);
    }
    if is_r1(presence.last, t) {
        return Err(Refusal::R1);
    }
    Ok(Presence {
        last: t,
        ..presence
    })
}

// Whether a window of length `d` is live at `t`: t < m + d, tested with no sum.
fn is_live(window: Window, d: u64, t: u64) -> bool
    ensures { result ≡ is_live window d t }
{
    window.is_some_and(|m| t < m || t - m < d)
}

// Touch on a settled record: accepted while the prompt is live, for the side that asked.
fn granted(settled: Presence, t: u64) -> Finding
    ensures { result ≡ granted_of settled t }
{
    if is_live(settled.prompt, U2F_UP_PROMPT_TIMEOUT_MS, t) {
        return Finding {
            yes: true,
            presence: Presence {
                prompt: None,
                touch: Some(t),
                ..settled
            },
        };
    }
    Finding {
        yes: false,
        presence: settled,
    }
}

// The touch check on a settled record: without a live touch a prompt opens for the side that checks; a live touch is spent if it is
// that side's, and left where it is if not: field by field, which takes a decision that comes here up to 28 instructions less than the
// record as a whole. For callers that settled the moment themselves and had more to look at before they came here.
#[tactic(auto, using(u2f_up_stated::proofs::Cases::checked_prompts, u2f_up_stated::proofs::Cases::checked_other, u2f_up_stated::proofs::Cases::checked_own))]
pub fn touch_check(presence: Presence, side: u64, t: u64) -> Finding
    ensures { TouchCheck presence side t result }
{
    let prompt = presence.prompt;
    let touch = presence.touch;
    if !is_live(touch, presence.w, t) {
        return Finding {
            yes: false,
            presence: Presence {
                w: presence.w,
                prompt: Some(t),
                touch,
                last: presence.last,
                asker: side,
            },
        };
    }
    if presence.asker != side {
        return Finding {
            yes: false,
            presence: Presence {
                w: presence.w,
                prompt,
                touch,
                last: presence.last,
                asker: presence.asker,
            },
        };
    }
    Finding {
        yes: true,
        presence: Presence {
            w: presence.w,
            prompt,
            touch: None,
            last: presence.last,
            asker: presence.asker,
        },
    }
}

// ---- the record lent as five numbers by name. A window is 0 where it is closed, and otherwise its moment and one more. Only the
// numbers that change are written. Beside the calls by value and not in their place: C lends numbers, and demand 3 is said of records.

fn window_of(number: u64) -> Window
    ensures { result ≡ window_of number }
{
    number.checked_sub(1)
}

// A moment's number in a window. No moment that settles comes near the greatest number, which has none after it.
fn number_of(t: u64) -> u64
    ensures { result ≡ number_of t }
{
    t.saturating_add(1)
}

// The record that the numbers stand for.
pub fn record_lent(lent: &PresenceRecord) -> Presence
    ensures { RecordLent lent.now result }
{
    Presence {
        w: lent.w,
        prompt: window_of(lent.prompt),
        touch: window_of(lent.touch),
        last: lent.last,
        asker: lent.asker,
    }
}

// The last moment moves, and nothing else.
pub fn moved(lent: &mut PresenceRecord, t: u64)
    ensures { Moved lent.old t lent.new }
{
    lent.last = t;
}

// Whether the window of this number is live.
fn is_number_live(number: u64, d: u64, t: u64) -> bool
    ensures { result ≡ is_live (window_of number) d t }
{
    is_live(window_of(number), d, t)
}

// The touch check of a side at a moment that settled, and the last moment moved.
#[tactic(auto, using(u2f_up_stated::proofs::OnNumbers::prompts, u2f_up_stated::proofs::OnNumbers::others, u2f_up_stated::proofs::OnNumbers::spends))]
pub fn touch_checked(lent: &mut PresenceRecord, side: u64, t: u64) -> bool
    ensures { TouchChecked lent.old side t result lent.new }
{
    let live = is_number_live(lent.touch, lent.w, t);
    let asker = lent.asker;
    lent.last = t;
    if !live {
        lent.prompt = number_of(t);
        lent.asker = side;
        return false;
    }
    if asker != side {
        return false;
    }
    lent.touch = CLOSED;
    true
}

// A touch at a moment that settled, and the last moment moved.
#[tactic(auto, using(u2f_up_stated::proofs::OnNumbers::not_granted, u2f_up_stated::proofs::OnNumbers::grants))]
pub fn touch_granted(lent: &mut PresenceRecord, t: u64) -> bool
    ensures { TouchGranted lent.old t result lent.new }
{
    let live = is_number_live(lent.prompt, U2F_UP_PROMPT_TIMEOUT_MS, t);
    lent.last = t;
    if !live {
        return false;
    }
    lent.prompt = CLOSED;
    lent.touch = number_of(t);
    true
}

fn tell(found: Finding) -> Step
    ensures { told_of result ≡ gave found }
{
    Step {
        answer: Ok(found.yes),
        presence: found.presence,
    }
}

fn refuse(why: Refusal, kept: Presence) -> Step
    ensures { told_of result ≡ refused (refusal_no why) kept }
{
    Step {
        answer: Err(why),
        presence: kept,
    }
}

// A touch at `t`: allows spending it until W has passed, if a prompt is live; if none is, it grants nothing.
pub fn grant_up(presence: Presence, t: u64) -> Step
    ensures { GrantUp presence t result }
{
    match settle(presence, presence.asker, t) {
        Err(why) => refuse(why, presence),
        Ok(settled) => tell(granted(settled, t)),
    }
}

// The touch check at `t`: whether a touch was granted to this side, not yet spent and younger than W; it is spent now.
pub fn consume_up(presence: Presence, side: u64, t: u64) -> Step
    ensures { ConsumeUp presence side t result }
{
    match settle(presence, side, t) {
        Err(why) => refuse(why, presence),
        Ok(settled) => tell(touch_check(settled, side, t)),
    }
}

// Whether a prompt is live at `t`. Nothing moves, not even the last moment.
pub fn is_up_needed(presence: Presence, t: u64) -> Result<bool, Refusal>
    ensures { IsUpNeeded presence t result }
{
    settle(presence, presence.asker, t)?;
    Ok(is_live(presence.prompt, U2F_UP_PROMPT_TIMEOUT_MS, t))
}

// What any call by value promises of a record and the step that comes back, it promises of a lent record and the answer. Nothing but that
// promise is known of the call.
fn stepped<F: FnOnce(Presence) -> Step>(presence: &mut Presence, call: F) -> Result<bool, Refusal>
    requires { F.pre call presence.old }
    ensures { F.post call presence.old (record { answer = result; presence = presence.new }) }
{
    let step = call(*presence);
    *presence = step.presence;
    step.answer
}

// The same three on a record lent for writing, as the Rust has them. No branch: the work is done by value.
pub fn grant_up_lent(presence: &mut Presence, t: u64) -> Result<bool, Refusal>
    ensures { GrantUpLent presence.old t result presence.new }
{
    stepped(presence, |lent| grant_up(lent, t))
}

pub fn consume_up_lent(presence: &mut Presence, side: u64, t: u64) -> Result<bool, Refusal>
    ensures { ConsumeUpLent presence.old side t result presence.new }
{
    stepped(presence, |lent| consume_up(lent, side, t))
}

// Asking leaves the lent record as it was.
pub fn is_up_needed_lent(presence: &mut Presence, t: u64) -> Result<bool, Refusal>
    ensures { IsUpNeededLent presence.old t result presence.new }
{
    is_up_needed(*presence, t)
}
