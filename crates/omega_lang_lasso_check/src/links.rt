//! Whether numbers are those of edges, and how the edges follow one another.
ghost use Rattle.std.specs.Prelude.{◌≡◌, ◌<◌, ◌↔◌, [], ◌∷◌, length, All, IfNone, IfSome, IsTrue};
ghost use Rattle.omega_lang_runs.specs.Lasso.{IsStart};
ghost use Rattle.omega_lang_lasso_check.specs.Conditions.{AreLinked, FailsFirst, FollowsEdge, IsClosed};
ghost use Rattle.omega_lang_lasso_check.specs.Conditions.{IsFirstApart, IsNumber, LeavesStart};
ghost use Rattle.omega_lang_lasso_check.specs.private.EdgeTable.{IsTable, automaton_of};

use crate::edge_table::EdgeTable;
use omega_hoa_automaton::Automaton;

/// Returns the first of `numbers` that is no edge's.
pub(crate) fn first_not_there(automaton: &Automaton, numbers: &[u32]) -> Option<u32>
    ensures some { IfSome result (FailsFirst (IsNumber automaton.now) numbers.now) }
    ensures none { IfNone result (All (IsNumber automaton.now) numbers.now) }
{
    for number in numbers {
        if *number >= automaton.edge_count() {
            return Some(*number);
        }
    }
    None
}

/// Whether the edge with this `number` leaves a start. Linear in the starts.
pub(crate) fn leaves_start(table: &EdgeTable<'_>, number: u32) -> bool
    requires places { IsTable table.now }
    requires there { IsNumber (automaton_of table.now) number }
    ensures { IsTrue result ↔ LeavesStart (automaton_of table.now) number }
{
    let state = table.find(number).source.number;
    is_start(table.automaton, state)
}

/// Whether `state` is a start of `automaton`.
fn is_start(automaton: &Automaton, state: u32) -> bool
    ensures { IsTrue result ↔ IsStart automaton.now state }
{
    for start in automaton.starts() {
        if is_alone(start.as_slice(), state) {
            return true;
        }
    }
    false
}

/// Whether `numbers` consists of `number` alone.
fn is_alone(numbers: &[u32], number: u32) -> bool
    ensures { IsTrue result ↔ (numbers.now ≡ number ∷ []) }
{
    numbers.len() == 1 && numbers[0] == number
}

/// Returns the first of the edges in `numbers` that does not follow the one before it.
pub(crate) fn first_apart(table: &EdgeTable<'_>, numbers: &[u32]) -> Option<u32>
    requires places { IsTable table.now }
    requires there { All (IsNumber (automaton_of table.now)) numbers.now }
    ensures some { IfSome result (IsFirstApart (automaton_of table.now) numbers.now) }
    ensures none { IfNone result (AreLinked (automaton_of table.now) numbers.now) }
{
    for at in 1..numbers.len() {
        if !follows(table, numbers[at - 1], numbers[at]) {
            return Some(numbers[at]);
        }
    }
    None
}

/// Whether the first edge of `cycle` follows its last one.
pub(crate) fn is_closed(table: &EdgeTable<'_>, cycle: &[u32]) -> bool
    requires places { IsTable table.now }
    requires there { All (IsNumber (automaton_of table.now)) cycle.now }
    requires longer { 0 < length cycle.now }
    ensures { IsTrue result ↔ IsClosed (automaton_of table.now) cycle.now }
{
    follows(table, cycle[cycle.len() - 1], cycle[0])
}

/// Whether the edge `number` leaves the state that the edge `before` enters, and `before` enters that one alone.
fn follows(table: &EdgeTable<'_>, before: u32, number: u32) -> bool
    requires places { IsTable table.now }
    requires before { IsNumber (automaton_of table.now) before }
    requires there { IsNumber (automaton_of table.now) number }
    ensures { IsTrue result ↔ FollowsEdge (automaton_of table.now) before number }
{
    let entering = table.find(before);
    let leaving = table.find(number);
    is_alone(entering.edge.targets(), leaving.source.number)
}
