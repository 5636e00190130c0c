//! Calls on shared keys that a gate holds, or has begin at once; owners beside shared keys; flat trees; and scans,
//! which are held too, and whose steps are counted. Trees and runs on one thread, on two and more that a gate holds,
//! and by up to 64 workers; and safe epochs of the table.
mod calling;
mod edges;
mod holding;
mod looks;
mod neighbors;
mod parting;
mod racing;
mod returning;
mod runs;
mod scanning;
mod steps_told;
mod swapping;
mod table;
mod telling;
mod updating;
