//! What no clause says. The command: what a writer that cannot be flushed does, and a report of a run that is held. Calls on
//! an allocator that refuses them memory: in which order their faults come, and who stops. And what clauses come to, by
//! examples that a person worked out. `tests/texts` has what the built command shows; `tests/refusals` has its reads and
//! writes fail, and refuses it each allocation, as `tests/hosts/refused.c` does the built library.
mod branches;
mod halves;
mod lists;
mod machine;
mod orders;
mod parts;
mod refusing;
mod reports;
mod runs;
mod streams;
mod tries;
mod words;
