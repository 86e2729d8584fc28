//! Labels of edges, as a text writes them.
use omega_hoa_label::RawLabel;
use omega_ltl_determinization::MOST_NAMES;
use omega_ltl_shapes::Cube;
use omega_text::Refusal;
use std::alloc::Global;

/// Returns the label that is true where one of some cubes is. Joins them half by half, so that it is as shallow as can
/// be. Recurses as deep as the binary logarithm of their number.
pub(crate) fn label_of(alloc: Global, cubes: &[Cube]) -> Result<RawLabel, Refusal> {
    match cubes {
        [] => RawLabel::constant(alloc, false),
        [cube] => cube_label(alloc, *cube),
        _ => {
            let middle = cubes.len() / 2;
            let label = label_of(alloc, &cubes[..middle])?;
            label.or(label_of(alloc, &cubes[middle..])?)
        }
    }
}

/// Returns the label of a cube.
fn cube_label(alloc: Global, cube: Cube) -> Result<RawLabel, Refusal> {
    let mut label = None;
    for name in 0..MOST_NAMES {
        for negated in [false, true] {
            if cube.has(name, negated) {
                let literal = literal_label(alloc, name, negated)?;
                label = Some(conjunction(label, literal)?);
            }
        }
    }
    match label {
        None => RawLabel::constant(alloc, true),
        Some(label) => Ok(label),
    }
}

/// Returns the label of a literal.
fn literal_label(alloc: Global, name: u32, negated: bool) -> Result<RawLabel, Refusal> {
    let label = RawLabel::proposition(alloc, name)?;
    if negated { label.not() } else { Ok(label) }
}

/// Returns the conjunction of two labels; none is true at each letter.
fn conjunction(label: Option<RawLabel>, more: RawLabel) -> Result<RawLabel, Refusal> {
    match label {
        None => Ok(more),
        Some(label) => label.and(more),
    }
}

/// Returns how many atoms and operators the label of some cubes has, at most.
pub(crate) fn size_of(cubes: &[Cube]) -> usize {
    let mut size = 1usize;
    for cube in cubes {
        let positive = cube.positive.count_ones() as usize;
        let negative = cube.negative.count_ones() as usize;
        // Each literal has an operator before it or beside it, and one more if it is negated.
        size = size.saturating_add(2 + 2 * positive + 3 * negative);
    }
    size
}
