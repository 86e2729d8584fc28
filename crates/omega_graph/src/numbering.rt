//! States numbered from 0 on, so that a search takes no more room than the edges that it follows.
ghost use Rattle.std.specs.Prelude.{◌≡◌, ◌<◌, length, All, IfOk};
ghost use Rattle.omega_graph.specs.private.Numbering.{IsNumberingOf, Numbers};

use std::alloc::{AllocError, Global};

/// The number of each state of a list, and the state of each number.
#[derive(Drop)]
pub(crate) struct StateNumbering {
    pub numbers: Vec<u32>,
    pub states: Vec<u32>,
}

/// Gives numbers to the states of a list, in the order in which they first come. Linear in the list.
pub(crate) fn number_all(
    alloc: Global,
    numbers: &mut Vec<u32>,
    listed: &[u32],
) -> Result<StateNumbering, AllocError>
    requires { All (λ state. state < length numbers.old.items) listed.now }
    ensures count { length numbers.new.items ≡ length numbers.old.items }
    ensures numbering { IfOk result (IsNumberingOf listed.now) }
{
    let mut given = Vec::new(alloc);
    let mut states = Vec::new(alloc);
    for state in listed {
        let number = number_one(numbers, &mut states, *state)?;
        given.push(number)?;
    }
    Ok(StateNumbering {
        numbers: given,
        states,
    })
}

/// Returns the number of `state`, a new one if it had none. An entry of `numbers` is a state's number only if the state
/// of that number is itself, so that nothing has to be cleared.
fn number_one(numbers: &mut Vec<u32>, states: &mut Vec<u32>, state: u32) -> Result<u32, AllocError>
    requires { state < length numbers.old.items }
    ensures count { length numbers.new.items ≡ length numbers.old.items }
    ensures numbers { IfOk result (λ number.
        Numbers numbers.old.items states.old.items state number numbers.new.items states.new.items) }
{
    let before = numbers[state as usize];
    if let Some(known) = states.get(before as usize) {
        if *known == state {
            return Ok(before);
        }
    }
    let number = u32::try_from(states.len()).map_err(|_| AllocError)?;
    states.push(state)?;
    numbers[state as usize] = number;
    Ok(number)
}
