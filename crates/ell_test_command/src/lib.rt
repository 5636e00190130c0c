//! Tests of the command, of what it is made of, and of the definitions, in a crate of their own since a crate with tests
//! is proved twice.
#![tactic(auto)]

#[cfg(test)]
mod tests;
