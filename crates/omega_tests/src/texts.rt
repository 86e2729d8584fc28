//! Refusals, tokens of texts that come byte by byte, and what is answered to texts of circuits.
mod circuit_answers;
mod refusals;
mod tokenizer;
