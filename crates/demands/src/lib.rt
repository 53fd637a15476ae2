// The three demands as one record: specs/Demands.antt, to be read first. No function, and no type of its own.
#![tactic(auto)]
