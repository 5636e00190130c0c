//! Runs of lists and texts, and what a gate is told of them.
mod chains;
mod crowds;
mod held;
mod late;
mod running;
mod scenes;
mod starts;
mod texts;
