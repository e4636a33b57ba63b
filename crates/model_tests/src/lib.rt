//! Worked examples for the calls of the crates without threads, and properties of these calls that the program does not show. The
//! crate has nothing else, so no other crate is proved again for it.
#![tactic(auto)]

#[cfg(test)]
mod tests;
