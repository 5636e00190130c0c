//! Tests of trees, the table of cards and runs, on one thread and on several: what a gate has to hold or watch at a step, or
//! is not exported. They are in a crate of their own, since a crate with tests is proved twice.
#![tactic(auto)]

#[cfg(test)]
mod tests;
