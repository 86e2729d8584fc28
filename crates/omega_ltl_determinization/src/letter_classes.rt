//! The letters of an automaton by classes: two letters are in one class if the same edges can be taken at both.
use crate::letter_sets::LetterSets;
use crate::nondeterministic::NondeterministicAutomaton;
use std::alloc::{AllocError, Global};

/// Returns the classes of the letters of an automaton.
pub(crate) fn classes_of(
    alloc: Global,
    automaton: &NondeterministicAutomaton,
) -> Result<LetterSets, AllocError> {
    let mut classes = LetterSets::new(alloc, automaton.width());
    classes.push(automaton.all())?;
    let mut inside = Vec::new(alloc);
    let mut outside = Vec::new(alloc);
    for label in 0..automaton.label_count() {
        split(
            &mut classes,
            automaton.label(label),
            &mut inside,
            &mut outside,
        )?;
    }
    Ok(classes)
}

/// Splits each class into the letters inside and outside a label, if there are both.
fn split(
    classes: &mut LetterSets,
    label: &[u64],
    inside: &mut Vec<u64>,
    outside: &mut Vec<u64>,
) -> Result<(), AllocError> {
    for class in 0..classes.len() {
        if halve(classes.at(class), label, inside, outside)? {
            classes.put(class, inside.as_slice());
            classes.push(outside.as_slice())?;
        }
    }
    Ok(())
}

/// Writes the letters of a class inside a label and those outside, and returns whether there are both.
fn halve(
    class: &[u64],
    label: &[u64],
    inside: &mut Vec<u64>,
    outside: &mut Vec<u64>,
) -> Result<bool, AllocError> {
    inside.clear();
    outside.clear();
    let mut some_inside = false;
    let mut some_outside = false;
    for (word, other) in class.iter().zip(label) {
        let common = *word & *other;
        let rest = *word & !*other;
        inside.push(common)?;
        outside.push(rest)?;
        some_inside |= common != 0;
        some_outside |= rest != 0;
    }
    Ok(some_inside && some_outside)
}
