ghost use Rattle.std.specs.Prelude.{◌≡◌, ◌<◌, ◌≤◌, All};
ghost use Rattle.omega_hoa_parity_kind.specs.Priority.{beyond, least_mark, priority_of};
ghost use Rattle.omega_text.specs.Limits.{most_number};

use crate::kind::{Order, Parity, ParityKind};

/// Returns the priority of an edge with `marks`. The kind's formula holds exactly if the greatest priority of the edges
/// taken infinitely often is even. Takes no memory, and passes over the marks once.
pub fn priority(kind: ParityKind, marks: &[u32]) -> u32
    requires count { kind.count ≤ most_number }
    requires marks { All (λ mark. mark < kind.count) marks.now }
    ensures { result ≡ priority_of kind marks.now }
{
    match kind.order {
        Order::Max => match kind.parity {
            Parity::Even => beyond(marks, kind.count) + 1,
            Parity::Odd => beyond(marks, kind.count),
        },
        Order::Min => kind.parity.least_from(kind.count) - least_mark(marks, kind.count),
    }
}

/// Returns the greatest mark plus one, or 0 without marks.
fn beyond(marks: &[u32], count: u32) -> u32
    requires marks { All (λ mark. mark < count) marks.now }
    ensures value { result ≡ beyond marks.now }
    ensures limit { result ≤ count }
{
    let mut highest = 0;
    for mark in marks {
        highest = highest.max(*mark + 1);
    }
    highest
}

/// Returns the least mark, or `count` without marks.
fn least_mark(marks: &[u32], count: u32) -> u32
    ensures value { result ≡ least_mark count marks.now }
    ensures limit { result ≤ count }
{
    let mut lowest = count;
    for mark in marks {
        lowest = lowest.min(*mark);
    }
    lowest
}
