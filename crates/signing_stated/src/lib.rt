// Signing orders and finishing: what goes in and out. No function: signing has them.
#![tactic(auto)]

// The command that an order answers, by its INS.
#[derive(Clone, Copy)]
pub enum Kind {
    Register = 1,
    Authenticate = 2,
}

// An order beside its block, which stands in the caller's memory: its kind, the number of bytes to sign, and the certificate
// length. In specs/ an order holds its block. The length stands beside the block: the C interface has an order so, in fixed memory.
#[derive(Clone, Copy)]
pub struct Head {
    pub kind: Kind,
    pub to_sign: usize,
    pub certificate_length: usize,
}
