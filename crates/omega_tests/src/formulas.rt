//! Formulas of linear temporal logic: automata that are equal to them, and deterministic ones, part by part.
mod deterministic;
mod edges;
mod equality;
mod leaves;
mod products;
mod words;
