//! The limits of the translation.

/// The most inputs that the labels of a state may mention.
pub(crate) const MOST_INPUTS: usize = 12;

/// The most assignments that are tried to find values of outputs at which a label is true.
pub(crate) const MOST_TRIES: usize = 1_048_576;

/// The most choices of all states together, each counted once.
pub(crate) const MOST_CHOICES: usize = 16_777_216;

/// The most choices that are gone through to find the states that choose alike. Past it, no states are merged.
pub(crate) const MOST_MERGING_STEPS: usize = 67_108_864;
