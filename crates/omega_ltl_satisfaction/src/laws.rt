//! Laws of the answers. A call does nothing and states one law.

ghost use Rattle.omega_ltl_satisfaction.specs.Laws.{AnswersExcludeEachOther, YesMeansEveryWord};

/// States what [Satisfaction::Satisfied](crate::Satisfaction::Satisfied) means: each word that the automaton accepts
/// satisfies the formula, by the limited principle of omniscience.
pub fn yes_means_every_word()
    ensures { YesMeansEveryWord }
{}

/// States that not both answers are right of one automaton and one formula, by the limited principle of omniscience.
pub fn answers_exclude_each_other()
    ensures { AnswersExcludeEachOther }
{}
