//! And-gates, each pair of operands once.

use indexmap::IndexSet;
use omega_circuit::MOST_VARIABLES;
use omega_graph_search::number_of;
use omega_text::{Refusal, TaskFault};
use std::alloc::Global;

/// The literal that is false.
pub(crate) const FALSE: u32 = 0;

/// The literal that is true.
pub(crate) const TRUE: u32 = 1;

/// Gates, numbered in the order in which they were added. A gate comes after those that it uses.
#[derive(Drop)]
pub(crate) struct GateTable {
    /// The variable of the first gate.
    pub(crate) first: u32,
    /// The operands, the greater first.
    pub(crate) pairs: IndexSet<(u32, u32)>,
}

/// Returns the negation of a literal.
fn negation(literal: u32) -> u32 {
    literal ^ 1
}

impl GateTable {
    /// Returns no gates, of which the first is to have the variable `first`.
    pub(crate) fn new(alloc: Global, first: u32) -> GateTable {
        GateTable {
            first,
            pairs: IndexSet::new(alloc),
        }
    }

    /// Returns the literal of the conjunction of two literals. Fails with [`TaskFault::TooLarge`] past
    /// [`MOST_VARIABLES`].
    pub(crate) fn and(&mut self, one: u32, other: u32) -> Result<u32, Refusal> {
        let left = one.max(other);
        let right = one.min(other);
        if right == FALSE || left == negation(right) {
            return Ok(FALSE);
        }
        if right == TRUE || left == right {
            return Ok(left);
        }
        let (number, _new) = self.pairs.insert_full((left, right))?;
        let variable = self.first.saturating_add(number_of(number));
        if variable > MOST_VARIABLES {
            return Err(Refusal::Task(TaskFault::TooLarge));
        }
        Ok(2 * variable)
    }

    /// Returns the literal that is `high` if `selector` is true, else `low`.
    pub(crate) fn mux(&mut self, selector: u32, high: u32, low: u32) -> Result<u32, Refusal> {
        if high == low {
            return Ok(low);
        }
        if low == FALSE {
            return self.and(selector, high);
        }
        if high == FALSE {
            return self.and(negation(selector), low);
        }
        if low == TRUE {
            let not = self.and(selector, negation(high))?;
            return Ok(negation(not));
        }
        if high == TRUE {
            let not = self.and(negation(selector), negation(low))?;
            return Ok(negation(not));
        }
        let upper = self.and(selector, high)?;
        let lower = self.and(negation(selector), low)?;
        let not = self.and(negation(upper), negation(lower))?;
        Ok(negation(not))
    }
}
