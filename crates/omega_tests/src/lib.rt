//! Tests of the libraries' public calls that no run of the built program shows, worked examples of circuits and of
//! formulas, and the examples of docs/library.md. They are apart from the libraries, so that each of these is proved
//! once, and they are one crate, since each crate of tests has to load what it tests. Other calls are tried by
//! `checks/run`.
#![tactic(auto)]

#[cfg(test)]
mod automata;
#[cfg(test)]
mod circuit_judging;
#[cfg(test)]
mod circuit_writing;
#[cfg(test)]
mod circuits;
#[cfg(test)]
mod examples;
#[cfg(test)]
mod formulas;
#[cfg(test)]
mod games;
#[cfg(test)]
mod rows;
#[cfg(test)]
mod synthesis;
#[cfg(test)]
mod texts;
