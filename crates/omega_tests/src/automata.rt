//! Automata and graphs that are put together part by part, and what is read as it is written.
mod faults;
mod graphs;
mod raw;
