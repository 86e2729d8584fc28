//! Labels over aliases, and acceptance formulas: read, built, taken apart, measured and written.
use crate::lists::{answer, each, is_front, numbers, put, put_answer};
use omega_hoa_acceptance::{Acc, RawAcc, read_acc, read_raw_acc, write_acc};
use omega_hoa_label::{Label, RawLabel, write_label};
use omega_hoa_label_text::{Aliases, expand, expanded_size, read_label, read_raw_label};
use omega_text::{Cursor, HoaKind, Refusal, TextCursor, check_tokens, hoa_tokens};
use std::alloc::Global;

/// Returns what the call on expressions of this name gives of the two texts.
pub(crate) fn answer_call(
    alloc: Global,
    call: &str,
    text: &[u8],
    other: &[u8],
) -> Result<Vec<u8>, Refusal> {
    match call {
        "expand" | "expanded_size" | "shape of a label" => {
            over_definitions(alloc, call, label_in(alloc, text), other)
        }
        "RawLabel" => over_definitions(alloc, call, label_built(alloc), other),
        "depth of a label" => depth_of(alloc, raw_label_in(alloc, text), other),
        "read_acc" => formula_written(alloc, formula_in(alloc, text)),
        "shape of a formula" => formula_written(
            alloc,
            formula_again(alloc, formula_in(alloc, text)),
        ),
        "Acc" => formula_written(alloc, sample_formula(alloc)),
        "RawAcc" => of_raw(alloc, call, raw_built(alloc), other),
        _ => of_raw(alloc, call, raw_formula_in(alloc, text), other),
    }
}

/// Returns the label of a text, over the list of its tokens.
pub(crate) fn label_in(alloc: Global, text: &[u8]) -> Result<RawLabel, Refusal> {
    let tokens = hoa_tokens(alloc, text)?;
    read_label(alloc, &mut Cursor::new(tokens.as_slice(), text.len()))
}

/// Returns the same over the bytes, of any depth.
fn raw_label_in(alloc: Global, text: &[u8]) -> Result<RawLabel, Refusal> {
    match check_tokens::<HoaKind>(text) {
        Ok(()) => read_raw_label(alloc, &mut TextCursor::<HoaKind>::new(text)),
        Err(fault) => Err(Refusal::Text(fault)),
    }
}

/// Returns `(!0)&t|@a`.
fn label_built(alloc: Global) -> Result<RawLabel, Refusal> {
    let left = front_built(alloc)?;
    left.or(RawLabel::alias(alloc, b"@a")?)
}

fn front_built(alloc: Global) -> Result<RawLabel, Refusal> {
    let left = RawLabel::proposition(alloc, 0)?.not()?.group()?;
    left.and(RawLabel::constant(alloc, true)?)
}

/// Returns what a call gives of a label over the definitions of a text.
fn over_definitions(
    alloc: Global,
    call: &str,
    raw: Result<RawLabel, Refusal>,
    definitions: &[u8],
) -> Result<Vec<u8>, Refusal> {
    match raw {
        Ok(raw) => over_given(alloc, call, &raw, aliases(alloc, definitions)),
        Err(refusal) => Err(refusal),
    }
}

fn over_given(
    alloc: Global,
    call: &str,
    raw: &RawLabel,
    aliases: Result<Aliases, Refusal>,
) -> Result<Vec<u8>, Refusal> {
    match aliases {
        Ok(aliases) => over_aliases(alloc, call, raw, &aliases),
        Err(refusal) => Err(refusal),
    }
}

fn over_aliases(
    alloc: Global,
    call: &str,
    raw: &RawLabel,
    aliases: &Aliases,
) -> Result<Vec<u8>, Refusal> {
    match call {
        "expanded_size" => size(alloc, raw, aliases),
        "shape of a label" => text_of_label(
            alloc,
            rebuilt_label(alloc, expand(alloc, raw, aliases)),
        ),
        _ => text_of_label(alloc, expand(alloc, raw, aliases)),
    }
}

fn size(alloc: Global, raw: &RawLabel, aliases: &Aliases) -> Result<Vec<u8>, Refusal> {
    each(alloc, &[u128::from(expanded_size(alloc, raw, aliases)?)])
}

/// Returns a label, taken apart and put together.
fn rebuilt_label(alloc: Global, label: Result<Label, Refusal>) -> Result<Label, Refusal> {
    match label {
        Ok(label) => reassembled_label(alloc, &label),
        Err(refusal) => Err(refusal),
    }
}

fn reassembled_label(alloc: Global, label: &Label) -> Result<Label, Refusal> {
    let shape = label.shape(alloc)?;
    Label::of_shape(alloc, &shape)
}

fn text_of_label(alloc: Global, label: Result<Label, Refusal>) -> Result<Vec<u8>, Refusal> {
    match label {
        Ok(label) => label_text(alloc, &label),
        Err(refusal) => Err(refusal),
    }
}

/// Returns a label after `<`. A refused request leaves `<` alone, and the label is written once more.
fn label_text(alloc: Global, label: &Label) -> Result<Vec<u8>, Refusal> {
    let mut out = Vec::from_slice(alloc, b"<")?;
    put_again(label, &mut out)?;
    Ok(out)
}

fn put_again(label: &Label, out: &mut Vec<u8>) -> Result<(), Refusal> {
    match write_label(label, out) {
        Ok(()) => Ok(()),
        Err(_) if !is_front(out.as_slice()) => Err(Refusal::Io),
        Err(_) => write_label(label, out),
    }
}

/// Returns `@a`, `@b` and so on for the labels of a text, between which stands `;`.
fn aliases(alloc: Global, text: &[u8]) -> Result<Aliases, Refusal> {
    let Ok(text) = std::str::from_utf8(text) else {
        return Err(Refusal::Io);
    };
    let mut aliases = Aliases::new(alloc);
    match add_all(alloc, &mut aliases, text) {
        Ok(()) => Ok(aliases),
        Err(refusal) => Err(refusal),
    }
}

fn add_all(alloc: Global, aliases: &mut Aliases, labels: &str) -> Result<(), Refusal> {
    let mut letter = b'a';
    for label in labels.split(';') {
        add_again(alloc, aliases, &[b'@', letter], label.as_bytes())?;
        letter = letter.wrapping_add(1);
    }
    Ok(())
}

/// Adds an alias. A refused request adds none, so that it may be added once more.
fn add_again(
    alloc: Global,
    aliases: &mut Aliases,
    name: &[u8],
    text: &[u8],
) -> Result<(), Refusal> {
    match add(aliases, name, label_in(alloc, text)) {
        Err(Refusal::Memory) => add(aliases, name, label_in(alloc, text)),
        given => given,
    }
}

fn add(
    aliases: &mut Aliases,
    name: &[u8],
    label: Result<RawLabel, Refusal>,
) -> Result<(), Refusal> {
    match label {
        Ok(label) => aliases.add(name, label),
        Err(refusal) => Err(refusal),
    }
}

/// Returns the depth of a label, whether it is too deep, and whether its propositions are below each of some numbers.
fn depth_of(
    alloc: Global,
    raw: Result<RawLabel, Refusal>,
    counts: &[u8],
) -> Result<Vec<u8>, Refusal> {
    match raw {
        Ok(raw) => label_depth(alloc, &raw, counts),
        Err(refusal) => Err(refusal),
    }
}

fn label_depth(alloc: Global, raw: &RawLabel, counts: &[u8]) -> Result<Vec<u8>, Refusal> {
    let counts = numbers(alloc, counts)?;
    let mut out = Vec::new(alloc);
    put(&mut out, u128::from(raw.depth()))?;
    put_answer(&mut out, raw.is_too_deep())?;
    for count in &counts {
        put_answer(&mut out, raw.propositions_below(*count))?;
    }
    Ok(out)
}

/// Returns the acceptance formula of a text, over the list of its tokens.
fn formula_in(alloc: Global, text: &[u8]) -> Result<Acc, Refusal> {
    let tokens = hoa_tokens(alloc, text)?;
    read_acc(alloc, &mut Cursor::new(tokens.as_slice(), text.len()))
}

/// Returns `Inf(0)&t|Fin(!1)`.
fn sample_formula(alloc: Global) -> Result<Acc, Refusal> {
    let left = front_of_built(alloc)?;
    left.or(Acc::fin(alloc, true, 1)?)
}

fn front_of_built(alloc: Global) -> Result<Acc, Refusal> {
    let left = Acc::inf(alloc, false, 0)?;
    left.and(Acc::constant(alloc, true)?)
}

/// Returns a formula, taken apart and put together.
fn formula_again(alloc: Global, formula: Result<Acc, Refusal>) -> Result<Acc, Refusal> {
    match formula {
        Ok(formula) => formula_together(alloc, &formula),
        Err(refusal) => Err(refusal),
    }
}

fn formula_together(alloc: Global, formula: &Acc) -> Result<Acc, Refusal> {
    let shape = formula.shape(alloc)?;
    Acc::of_shape(alloc, &shape)
}

fn formula_written(alloc: Global, formula: Result<Acc, Refusal>) -> Result<Vec<u8>, Refusal> {
    match formula {
        Ok(formula) => formula_text(alloc, &formula),
        Err(refusal) => Err(refusal),
    }
}

/// Returns a formula after `<`. A refused request leaves `<` alone, and the formula is written once more.
fn formula_text(alloc: Global, formula: &Acc) -> Result<Vec<u8>, Refusal> {
    let mut out = Vec::from_slice(alloc, b"<")?;
    put_formula_again(formula, &mut out)?;
    Ok(out)
}

fn put_formula_again(formula: &Acc, out: &mut Vec<u8>) -> Result<(), Refusal> {
    match write_acc(formula, out) {
        Ok(()) => Ok(()),
        Err(_) if !is_front(out.as_slice()) => Err(Refusal::Io),
        Err(_) => write_acc(formula, out),
    }
}

/// Returns the acceptance formula of a text as it is written, over the bytes.
fn raw_formula_in(alloc: Global, text: &[u8]) -> Result<RawAcc, Refusal> {
    match check_tokens::<HoaKind>(text) {
        Ok(()) => read_raw_acc(alloc, &mut TextCursor::<HoaKind>::new(text)),
        Err(fault) => Err(Refusal::Text(fault)),
    }
}

/// Returns `(Inf(0))&t|Fin(!1)`.
fn raw_built(alloc: Global) -> Result<RawAcc, Refusal> {
    let left = raw_front_built(alloc)?;
    left.or(RawAcc::atom(alloc, b"Fin", true, 1)?)
}

fn raw_front_built(alloc: Global) -> Result<RawAcc, Refusal> {
    let left = RawAcc::atom(alloc, b"Inf", false, 0)?.group()?;
    left.and(RawAcc::constant(alloc, true)?)
}

fn of_raw(
    alloc: Global,
    call: &str,
    raw: Result<RawAcc, Refusal>,
    other: &[u8],
) -> Result<Vec<u8>, Refusal> {
    match raw {
        Ok(raw) => of_read(alloc, call, &raw, other),
        Err(refusal) => Err(refusal),
    }
}

fn of_read(alloc: Global, call: &str, raw: &RawAcc, other: &[u8]) -> Result<Vec<u8>, Refusal> {
    match call {
        "depth of a formula" => formula_depth(alloc, raw, other),
        "is RawAcc" => comparison(alloc, raw, raw_built(alloc)),
        _ => formula_written(alloc, raw.formula(alloc)),
    }
}

/// Returns the depth of a formula, whether it is too deep, and whether its sets are below each of some numbers.
fn formula_depth(alloc: Global, raw: &RawAcc, counts: &[u8]) -> Result<Vec<u8>, Refusal> {
    let counts = numbers(alloc, counts)?;
    let mut out = Vec::new(alloc);
    put(&mut out, u128::from(raw.depth()))?;
    put_answer(&mut out, raw.is_too_deep())?;
    for count in &counts {
        put_answer(&mut out, raw.sets_below(*count))?;
    }
    Ok(out)
}

/// Whether a formula is another, parentheses and all.
fn comparison(
    alloc: Global,
    raw: &RawAcc,
    other: Result<RawAcc, Refusal>,
) -> Result<Vec<u8>, Refusal> {
    match other {
        Ok(other) => answer(alloc, *raw == other),
        Err(refusal) => Err(refusal),
    }
}
