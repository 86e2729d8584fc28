//! Whether an automaton is a controller or a counter-strategy for a formula of linear temporal logic: judges of both,
//! whoever made them.
//!
//! The letters are judged by the searches of `omega_synth_check`. Of a counter-strategy the edges of its complement
//! that enter the sink are those at which an answer of the system is not followed (`letterless`). The words are judged
//! by `omega_ltl_satisfaction`, conjunct by conjunct, without an automaton of the whole formula.
//!
//! docs/formats.md says when each refusal comes.
#![tactic(auto)]

mod counter;
mod counter_judging;
mod judgement;
mod judging;
mod laws;
mod letterless;

pub use counter::{FormulaCounterJudgement, LetterlessState};
pub use counter_judging::judge_counter_strategy_for_formula;
pub use judgement::FormulaJudgement;
pub use judging::judge_for_formula;
pub use laws::{
    controllers_realize_formulas, counter_strategies_beat_formulas,
    formula_controllers_exclude_counter_strategies, formula_counter_judgements_are_exact,
    formula_judgements_are_exact,
};
pub use omega_hoa_automaton::{Automaton, Refusal};
pub use omega_ltl_formula::Formula;
pub use omega_ltl_satisfaction::Example;
pub use omega_synth_check::Lack;
