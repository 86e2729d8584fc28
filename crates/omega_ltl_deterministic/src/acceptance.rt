//! The acceptance `parity min even`, as a text writes it (HOA v1, acceptance names).
use omega_hoa_acceptance::{AccName, Parameter, RawAcc};
use omega_text::{ByteString, Refusal, Seq};
use std::alloc::Global;

/// Returns the name of the acceptance of so many colours.
pub(crate) fn parity_name(alloc: Global, colours: u32) -> Result<AccName, Refusal> {
    let name = ByteString::from_slice(alloc, b"parity")?;
    let order = ByteString::from_slice(alloc, b"min")?;
    let parity = ByteString::from_slice(alloc, b"even")?;
    let parameters = vec![in alloc;
        Parameter::Word(order),
        Parameter::Word(parity),
        Parameter::Number(colours),
    ]?;
    Ok(AccName {
        name,
        parameters: Seq::from_vec(parameters),
    })
}

/// Returns the formula of the acceptance of so many colours: `Inf(0) | (Fin(1) & (Inf(2) | ..))`.
pub(crate) fn parity_formula(alloc: Global, colours: u32) -> Result<RawAcc, Refusal> {
    let mut formula = None;
    for colour in (0..colours).rev() {
        formula = Some(with_colour(alloc, colour, formula)?);
    }
    match formula {
        Some(formula) => Ok(formula),
        None => RawAcc::constant(alloc, true),
    }
}

/// Returns the formula with one colour more before those of `rest`.
fn with_colour(alloc: Global, colour: u32, rest: Option<RawAcc>) -> Result<RawAcc, Refusal> {
    let is_even = colour % 2 == 0;
    let identifier: &[u8] = if is_even { b"Inf" } else { b"Fin" };
    let atom = RawAcc::atom(alloc, identifier, false, colour)?;
    match rest {
        None => Ok(atom),
        Some(rest) => {
            if is_even {
                atom.or(rest)
            } else {
                atom.and(rest)
            }
        }
    }
}
