// From frame to command: what a frame asks for. No function: command has them.
#![tactic(auto)]

use apdu_stated::Apdu;

// The control byte P1 of an Authenticate.
#[derive(Clone, Copy)]
pub enum Ctap1Flags {
    CheckOnly = 0x07,
    EnforceUpAndSign = 0x03,
    DontEnforceUpAndSign = 0x08,
}

// A command with what its frame says. The vendor's own commands have no variant: like every other INS they are 6d00.
#[derive(Clone, Copy)]
pub enum U2fCommand {
    Register(Apdu),
    Authenticate(Ctap1Flags, Apdu),
    Version,
    // for the wireless reader: the next part of a body
    GetResponse,
}
