//! Worked examples for runs and commands, and properties of them, of arguments, of inputs and of outputs that the program does not
//! show; and callers of the crates below. The crate has nothing else, so no other crate is proved again for it.
#![tactic(auto)]

#[cfg(test)]
mod callers;
#[cfg(test)]
mod tests;
