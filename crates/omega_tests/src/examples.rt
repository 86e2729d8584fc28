//! What a program of one's own can do with these libraries: four examples, which docs/library.md explains. They are
//! read with their tests alone, so that they are proved once.
mod emptiness;
mod realizing;
mod refuting;
mod solving;
