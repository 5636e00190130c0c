//! Schedules of a few events, with the answers, words and keys that a person gave them.
mod deleting;
mod given_worlds;
mod inserting;
mod scripts;
mod starts;
mod swapping;
