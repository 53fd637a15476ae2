// A call of a history: which of the three forms, from which side, and when.
use crate::{lent, number};
use u2f_up::{Presence, Step};

#[derive(Clone, Copy)]
pub enum Call {
    Touch(u64),
    Check(u64, u64),
    Ask(u64),
}

impl Call {
    pub fn run(self, presence: Presence) -> Step {
        match self {
            Call::Touch(t) => lent::touch(presence, t),
            Call::Check(side, t) => lent::check(presence, side, t),
            Call::Ask(t) => lent::ask(presence, t),
        }
    }

    pub fn print(self, out: &impl Print) {
        match self {
            Call::Touch(t) => number(out, b"touch ", t),
            Call::Check(side, t) => {
                number(out, b"check ", side);
                number(out, b" ", t);
            }
            Call::Ask(t) => number(out, b"ask ", t),
        }
    }
}
