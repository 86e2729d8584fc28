//! Whether an automaton is a controller or a counter-strategy for a specification: judges of both, whoever made them.
//!
//! A search meets the states that are reached (`meeting`, `entering`), along the edges that leave each of them
//! (`leaving`), and asks each for a letter that no edge answers (`letters`, `searching`). Whether the specification
//! accepts each word is then a question of containment.
//!
//! Of a counter-strategy the same search goes through the product of the specification with its complement
//! (`letterless`). The edges at which only the specification goes on are ways out (`ways_out`), and each state is asked
//! for a letter that none of them answers (`without_letter`).
//!
//! docs/formats.md says when each refusal comes.
#![tactic(auto)]

mod counter_judgement;
mod counter_judging;
mod counter_laws;
mod entering;
mod judgement;
mod judging;
mod laws;
mod leaving;
mod letterless;
mod letters;
mod meeting;
mod reading;
mod search;
mod searching;
mod ways_out;
mod without_letter;

pub use counter_judgement::{CounterJudgement, LetterlessPair};
pub use counter_judging::{check_specification, judge_counter_strategy};
pub use counter_laws::{counter_judgements_are_exact, counter_strategies_for_beat};
pub use judgement::{Judgement, Lack};
pub use judging::judge;
pub use laws::{
    controllers_realize_specifications, judgements_are_exact, kept_parts_are_judged_right,
    kept_parts_control,
};
pub use omega_hoa_automaton::{Automaton, Refusal};
pub use omega_lang_inclusion::Example;
pub use reading::judge_form;
pub use searching::lack_of;
pub use ways_out::{is_name_among, is_way_out, numbers_named};
pub use without_letter::{StateWithoutLetter, state_without_letter};
