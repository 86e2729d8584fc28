//! Circuits: their texts, one round of each, their automata, and the circuits of controllers.
mod automata;
mod controllers;
mod rounds;
mod texts;
