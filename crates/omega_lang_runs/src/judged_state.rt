ghost use Rattle.std.specs.Prelude.{◌≡◌, ◌↔◌, IfErr, IfOk, IsTrue, None, OnErr};
ghost use Rattle.omega_hoa_satisfiable.specs.Undecided.{GivesUpOn, IsHard};

use omega_hoa_automaton::{EdgeRef, Refusal, State};
use omega_hoa_satisfiable::can_hold;
use std::alloc::Global;
use std::marker::Model;

/// A state, and whether its label can be true, so that this is judged once for all its edges. Contracts see the state.
#[derive(Drop)]
pub struct JudgedState<'a> {
    state: &'a State,
    possible: bool,
}

impl<'a> Model for JudgedState<'a> {
    ghost use Rattle.std.specs.Prelude.{◌↔◌, IfSome, IsTrue};
    ghost use Rattle.omega_hoa_automaton.specs.declared.state.State.{State};
    ghost use Rattle.std.specs.Coded.{codes};
    ghost use Rattle.omega_hoa_label.specs.contracts.label.Label as expanded_label;
    ghost use Rattle.omega_hoa_satisfiable.specs.Satisfiable.{IsSatisfiable};

    ghost Value = { State };

    ghost coded = { Prim.hlevel (codes, expanded_label.the_row.coded) };

    ghost view = { λ j. j.state.now };

    ghost invariant = { λ j. IsTrue j.possible ↔ IfSome j.state.now.label IsSatisfiable };
}

impl<'a> JudgedState<'a> {
    ghost use Rattle.omega_lang_runs.specs.Lasso.{IsUsable};

    /// Judges the label of `state`, if it has one. Fails with [TaskFault::TooManyPropositions] if it is given up.
    pub fn of(alloc: Global, state: &'a State) -> Result<JudgedState<'a>, Refusal>
        ensures state { IfOk result (λ judged. judged ≡ state.entry.now) }
        ensures refused { IfErr result (GivesUpOn (IsHard state.entry.now.label)) }
    {
        let possible = can_hold(alloc, state.label.as_ref())?;
        Ok(JudgedState { state, possible })
    }

    /// Whether `edge` of the state is usable: its label can be true, which is that of the state if there is one. Fails
    /// with [TaskFault::TooManyPropositions] if the state has no label and that of `edge` is given up.
    pub fn is_usable(&self, alloc: Global, edge: &EdgeRef<'_>) -> Result<bool, Refusal>
        ensures judged { IfOk result (λ usable.
            IsTrue usable ↔ IsUsable (record { source = self.now; edge = edge.now })) }
        ensures refused { IfErr result (GivesUpOn (IsHard edge.now.label)) }
        ensures unlabelled { OnErr result (self.now.label ≡ None) }
    {
        match &self.state.label {
            Some(_) => Ok(self.possible),
            None => can_hold(alloc, edge.label()),
        }
    }
}
