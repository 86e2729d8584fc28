ghost use Rattle.std.specs.Prelude.{◌≡◌, ◌+◌, ◌<◌, ◌≤◌, None, get_or, length, position, replicate, IfErr, IfOk, IfSome};
ghost use Rattle.std.specs.Prelude.{IsOkUnless, OnOk, ℕ, ◌∷◌, [], ◌++◌, false, nat_eq, true};
ghost use Rattle.std.specs.List.{list_any};
ghost use Rattle.omega_hoa_edges.specs.Fitting.{IsLarge};
ghost use Rattle.omega_lang_product.specs.Limits.{most_joint_sets};
ghost use Rattle.omega_lang_product.specs.Refusing.{HasUnfitEdge};
ghost use Rattle.omega_lang_product.specs.PlainEdges.{View, plain_edges_at};
ghost use Rattle.omega_lang_product.specs.private.Meeting.{AreByValuation};
ghost use Rattle.omega_lang_product.specs.private.Room.{HasRoom};
ghost use Rattle.omega_lang_product.specs.private.Tables.{AreNumbered, HasRow, IsRowIn, IsTableOf};
ghost use Rattle.omega_lang_product.specs.private.Tables.{row_of as edges_of, view_at, view_in};

use crate::numbers::number_after;
use crate::plain_edges::plain_edges_of;
use crate::renumbering::Renumbering;
use crate::row::Row;
use crate::tabled::Tabled;
use indexmap::IndexSet;
use omega_hoa_automaton::{Automaton, State};
use omega_hoa_edges::is_full;
use omega_text::{Refusal, Seq};
use std::alloc::Global;

/// The edges of the states of an automaton as a product sees them, by the numbers of the states. Those of a state are
/// made when a pair first reaches it.
#[derive(Drop)]
pub(crate) struct Table {
    /// The joined number of each proposition of the automaton.
    pub(crate) places: Vec<u32>,
    /// How many sets are numbered before those of the automaton.
    pub(crate) before: u32,
    pub(crate) numbers: IndexSet<u32>,
    /// For each state, the number of its first edge.
    pub(crate) firsts: Vec<u32>,
    /// For each state, its edges, if they are made.
    pub(crate) rows: Vec<Option<Seq<Tabled>>>,
}

impl Table {
    /// Makes the table of `automaton`, in which no edges are made yet. Its propositions have the joined numbers
    /// `places`, and its sets are numbered after `before` others.
    pub(crate) fn of(
        alloc: Global,
        automaton: &Automaton,
        places: Vec<u32>,
        before: u32,
    ) -> Result<Table, Refusal>
        ensures ok { IfOk result (IsTableOf (view_at places.items before) automaton.now.defined) }
        ensures memory { IsOkUnless result Refusal.Memory }
    {
        let count = automaton.defined().len();
        let mut firsts = Vec::with_capacity(alloc, count)?;
        let mut rows = Vec::with_capacity(alloc, count)?;
        let mut numbers = IndexSet::with_capacity(alloc, count)?;
        match add_states(automaton, &mut numbers, &mut firsts, &mut rows) {
            Ok(()) => Ok(Table {
                places,
                before,
                numbers,
                firsts,
                rows,
            }),
            Err(refusal) => Err(refusal),
        }
    }

    /// Makes the edges of the state with the number `number`, if there is such a state and they are not made.
    /// `automaton` is that of the table. Fails with [TaskFault::TooLarge] if a label of these edges is too deep or too
    /// large.
    pub(crate) fn reach(
        &mut self,
        alloc: Global,
        automaton: &Automaton,
        number: u32,
    ) -> Result<(), Refusal>
        requires table { (view : View) × IsTableOf view automaton.now.defined self.old }
        requires room { self.old.before + automaton.now.sets ≤ most_joint_sets }
        ensures table { OnOk result ((view : View) → IsTableOf view automaton.now.defined self.old
            → IsTableOf view automaton.now.defined self.new) }
        ensures made { OnOk result (HasRow self.new number) }
        ensures kept { OnOk result
            ((earlier : ℕ) → HasRow self.old earlier → HasRow self.new earlier) }
        ensures err { IfErr result
            (λ refusal. (view : View) → IsTableOf view automaton.now.defined self.old
            → IsLarge (HasUnfitEdge (plain_edges_at view automaton.now.defined number)) refusal) }
    {
        automaton.keeps_limits();
        let Some(place) = self.place_of(number) else {
            return Ok(());
        };
        if self.rows[place].is_some() {
            return Ok(());
        }
        let row = self.edges_of_state(alloc, &automaton.defined()[place])?;
        self.rows[place] = Some(row);
        Ok(())
    }

    /// Returns the edges of `state` as the product sees them. Fails with [TaskFault::TooLarge] if a label is too deep
    /// or too large.
    fn edges_of_state(&self, alloc: Global, state: &State) -> Result<Seq<Tabled>, Refusal>
        requires { HasRoom self.now.before state.now }
        ensures ok { IfOk result (λ row. row ≡ edges_of (view_in self.now) state.now) }
        ensures err { IfErr result (IsLarge (HasUnfitEdge (edges_of (view_in self.now) state.now))) }
    {
        let renumbering = Renumbering {
            places: self.places.as_slice(),
            before: self.before,
        };
        plain_edges_of(alloc, state, &renumbering)
    }

    /// Whether the state with the number `number` has an edge for each valuation of the propositions of `automaton`,
    /// which is that of the table, and no labels.
    pub(crate) fn is_full_at(&self, automaton: &Automaton, number: u32) -> bool
        requires { (view : View) × IsTableOf view automaton.now.defined self.now }
        ensures { result ≡ true → AreByValuation self.now.places.items
            (plain_edges_at (view_in self.now) automaton.now.defined number) }
    {
        match self.place_of(number) {
            Some(place) => {
                let places = self.places.as_slice();
                is_full(places.len(), &automaton.defined()[place])
            }
            None => false,
        }
    }

    /// Returns the edges of the state with the number `number` and the number of the first of them, no edges if there
    /// is no such state.
    pub(crate) fn row_of(&self, number: u32) -> Row<'_>
        requires { HasRow self.now number }
        ensures { IsRowIn self.now number result }
    {
        match self.place_of(number) {
            Some(place) => Row {
                before: self.first_edge(place),
                edges: self.row(place),
            },
            None => Row {
                before: 0,
                edges: &[],
            },
        }
    }

    /// Returns the place of the state with the number `number`, if there is such a state. Most automata define their
    /// states in the order of their numbers, so that the place of the same number is looked at first.
    #[tactic(auto, using(crate::proofs::Places::own_number))]
    fn place_of(&self, number: u32) -> Option<usize>
        ensures index { result ≡ position (nat_eq number) self.now.numbers.keys }
        ensures within { IfSome result (λ place. place < length self.now.numbers.keys) }
    {
        let place = number as usize;
        if place < self.numbers.len() && self.numbers.as_slice()[place] == number {
            return Some(place);
        }
        self.numbers.get_index_of(&number)
    }

    /// Returns the number of the first edge of the state at `place`, 0 past the last.
    fn first_edge(&self, place: usize) -> u32
        ensures { result ≡ get_or self.now.firsts.items place 0 }
    {
        self.firsts.get(place).copied().unwrap_or(0)
    }

    /// Returns the edges of the state at `place`, empty if they are not made.
    fn row(&self, place: usize) -> &[Tabled]
        requires { place < length self.now.rows.items }
        ensures { IfSome (get_or self.now.rows.items place None) (λ row. result.now ≡ row) }
    {
        match &self.rows[place] {
            Some(row) => row.as_slice(),
            None => &[],
        }
    }
}

/// Appends, for each state that `automaton` defines, its number, the number of its first edge, and no row.
fn add_states(
    automaton: &Automaton,
    numbers: &mut IndexSet<u32>,
    firsts: &mut Vec<u32>,
    rows: &mut Vec<Option<Seq<Tabled>>>,
) -> Result<(), Refusal>
    requires numbers { numbers.old.keys ≡ [] }
    requires firsts { firsts.old.items ≡ [] }
    requires rows { rows.old.items ≡ [] }
    ensures numbered { OnOk result
        (AreNumbered automaton.now.defined numbers.new.keys firsts.new.items) }
    ensures rows { OnOk result (rows.new.items ≡ replicate (length automaton.now.defined) None) }
    ensures memory { IsOkUnless result Refusal.Memory }
{
    automaton.keeps_limits();
    let mut first = 0;
    for state in automaton.defined() {
        add_number(numbers, state.number)?;
        firsts.push(first)?;
        rows.push(None)?;
        first = number_after(first, state.edges.len())?;
    }
    Ok(())
}

/// Adds a number, which is not among `numbers` yet.
fn add_number(numbers: &mut IndexSet<u32>, number: u32) -> Result<(), Refusal>
    requires { list_any (nat_eq number) numbers.old.keys ≡ false }
    ensures ok { OnOk result (numbers.new.keys ≡ numbers.old.keys ++ number ∷ []) }
    ensures memory { IsOkUnless result Refusal.Memory }
{
    numbers.insert(number)?;
    Ok(())
}
