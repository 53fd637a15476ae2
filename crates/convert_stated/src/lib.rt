// The definitions, claims and theorems of convert. No type and no function: what a conversion comes to is a `Result<usize, NotDone>`.
#![tactic(auto)]
