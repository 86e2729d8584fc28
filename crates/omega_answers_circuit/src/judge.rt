//! Whether each word of a circuit is one that a specification accepts, or that satisfies a formula.

ghost use Rattle.std.specs.Prelude.{◌≡◌, IfErr, IfOk, OnOk};
ghost use Rattle.omega_circuit.specs.Circuit.{CircuitValue};
ghost use Rattle.omega_circuit_automaton.specs.Names.{AreFit, proposition_names};
ghost use Rattle.omega_hoa_automaton.specs.Automaton.{Description};
ghost use Rattle.omega_hoa_edges.specs.Determinism.{IsDeterministic};
ghost use Rattle.omega_lang_inclusion.specs.Containing.{IsContainment};
ghost use Rattle.omega_lang_inclusion.specs.Refusing.{IsContainmentRefusal};
ghost use Rattle.omega_ltl_formula.specs.Table.{NumberedFormula};
ghost use Rattle.omega_ltl_satisfaction.specs.Refusing.{IsSatisfactionRefusal};
ghost use Rattle.omega_ltl_satisfaction.specs.Satisfaction.{IsSatisfaction};
ghost use Rattle.omega_synth_controllers.specs.Controllable.{IsControlled};
ghost use Rattle.omega_answers_circuit.specs.FormulaVerify.{IsJudgedFor, RefusesFormulaCircuit};
ghost use Rattle.omega_answers_circuit.specs.Judging.{IsFormulaJudgement, IsSpecificationJudgement};
ghost use Rattle.omega_answers_circuit.specs.Sides.{IsAutomatonOf, IsSided, IsSidesRefusal};
ghost use Rattle.omega_answers_circuit.specs.Verify.{IsJudged, RefusesCircuit, containment_text};
ghost use Rattle.omega_answers_circuit.specs.Verify.{parted_names, system_names};

use crate::judgement::CircuitJudgement;
use crate::sides::sided_automaton;
use omega_circuit::Circuit;
use omega_circuit_encoder::side_names;
use omega_hoa_automaton::{Automaton, Refusal};
use omega_io::{Refused, Which};
use omega_lang_inclusion::{Containment, decide_containment};
use omega_ltl_formula::Formula;
use omega_ltl_satisfaction::{Satisfaction, satisfies};
use omega_synth_controllers::{controlled_propositions, has_controllable_item};
use omega_text::{ByteString, TaskFault};
use std::alloc::Global;

/// Returns whether `specification`, which is to be deterministic, accepts each word of `circuit`.
///
/// Fails with [TaskFault::Controllable] about the specification, which is the file, if its item `controllable-AP:` is
/// refused. Or else fails about the circuit, which is the input, as [sided_automaton] does, for the propositions of the
/// specification if it has the item, and else for none. Or else fails as `decide_containment` does:
/// [TaskFault::NotDeterministic] and [TaskFault::UniversalBranch] are about the specification,
/// [TaskFault::TooManyPropositions] and [TaskFault::TooLarge] about neither.
pub(crate) fn circuit_judgement(
    alloc: Global,
    specification: &Automaton,
    circuit: &Circuit,
) -> Result<CircuitJudgement, Refused>
    ensures judged { IfOk result (IsJudged specification.now circuit.now) }
    ensures refused { IfErr result (RefusesCircuit specification.now circuit.now) }
{
    match controlled_propositions(alloc, specification) {
        Ok(stated) => stated_judgement(alloc, specification, stated.as_slice(), circuit),
        Err(refusal) => Err(Refused::of(Which::File, refusal)),
    }
}

/// Returns whether `specification`, of which the system controls the propositions with the numbers `stated`, accepts
/// each word of `circuit`. Fails as [circuit_judgement] does.
fn stated_judgement(
    alloc: Global,
    specification: &Automaton,
    stated: &[u32],
    circuit: &Circuit,
) -> Result<CircuitJudgement, Refused>
    requires { IsControlled specification.now stated.now }
    ensures judged { IfOk result (IsJudged specification.now circuit.now) }
    ensures refused { IfErr result (RefusesCircuit specification.now circuit.now) }
{
    match stated_automaton(alloc, specification, stated, circuit) {
        Ok(automaton) => match containment_judgement(alloc, specification, &automaton) {
            Ok(judgement) => Ok(judgement),
            Err(refusal) => Err(containment_refused(refusal)),
        },
        Err(refusal) => Err(Refused::of(Which::Input, refusal)),
    }
}

/// Returns the automaton of `circuit`, which is to stand on the sides of `specification`. Fails as [sided_automaton]
/// does.
fn stated_automaton(
    alloc: Global,
    specification: &Automaton,
    stated: &[u32],
    circuit: &Circuit,
) -> Result<Automaton, Refusal>
    ensures automaton { IfOk result (IsAutomatonOf circuit.now) }
    ensures sided { OnOk result (IsSided (parted_names specification.now)
        (system_names specification.now stated.now) circuit.now) }
    ensures refused { IfErr result (IsSidesRefusal (parted_names specification.now)
        (system_names specification.now stated.now) circuit.now) }
{
    specification.keeps_limits();
    let system = side_names(alloc, specification.propositions(), stated, true)?;
    if has_controllable_item(specification) {
        sided_automaton(
            alloc,
            circuit,
            specification.propositions(),
            system.as_slice(),
        )
    } else {
        sided_automaton(alloc, circuit, &[], system.as_slice())
    }
}

/// Returns whether `specification` accepts each word of the circuit of which `automaton` is the automaton. Fails as
/// `decide_containment` does.
fn containment_judgement(
    alloc: Global,
    specification: &Automaton,
    automaton: &Automaton,
) -> Result<CircuitJudgement, Refusal>
    ensures right { IfOk result (λ judgement. (c : CircuitValue) → IsAutomatonOf c automaton.now
        → AreFit (proposition_names c) → IsSpecificationJudgement specification.now c judgement) }
    ensures deterministic { OnOk result (IsDeterministic specification.now) }
    ensures refused { IfErr result (IsContainmentRefusal automaton.now specification.now) }
{
    match decide_containment(alloc, automaton, specification) {
        Ok(containment) => Ok(judgement_of_containment(containment)),
        Err(refusal) => Err(refusal),
    }
}

/// Returns what containment in a specification says of the circuit of an automaton.
fn judgement_of_containment(containment: Containment) -> CircuitJudgement
    ensures { (a specification : Description) (c : CircuitValue) → IsAutomatonOf c a
        → AreFit (proposition_names c) → IsContainment a specification containment
        → IsSpecificationJudgement specification c result }
{
    match containment {
        Containment::Contained => CircuitJudgement::Realizes,
        Containment::NotContained(example) => CircuitJudgement::Violates(example),
    }
}

/// Makes a refusal of containment one of the specification, which is the file, if it is for a choice or for universal
/// branching: the automaton of a circuit has none.
fn containment_refused(refusal: Refusal) -> Refused
    ensures refusal { result.refusal ≡ refusal }
    ensures text { result.text ≡ containment_text refusal }
{
    match refusal {
        Refusal::Task(TaskFault::NotDeterministic(_) | TaskFault::UniversalBranch) => {
            Refused::of(Which::File, refusal)
        }
        _ => Refused::from(refusal),
    }
}

/// Returns whether each word of `circuit` satisfies `formula`, of whose names the system controls `outs`.
///
/// Fails about the circuit, which is the input, as [sided_automaton] does for the names of the formula, or else about
/// neither text as `satisfies` does.
pub(crate) fn formula_circuit_judgement(
    alloc: Global,
    formula: &Formula,
    outs: &[ByteString],
    circuit: &Circuit,
) -> Result<CircuitJudgement, Refused>
    ensures judged { IfOk result (IsJudgedFor formula.now outs.now circuit.now) }
    ensures refused { IfErr result (RefusesFormulaCircuit formula.now outs.now circuit.now) }
{
    match sided_automaton(alloc, circuit, formula.names(), outs) {
        Ok(automaton) => match satisfaction_judgement(alloc, formula, &automaton) {
            Ok(judgement) => Ok(judgement),
            Err(refusal) => Err(Refused::from(refusal)),
        },
        Err(refusal) => Err(Refused::of(Which::Input, refusal)),
    }
}

/// Returns whether each word of the circuit of which `automaton` is the automaton satisfies `formula`. Fails as
/// `satisfies` does.
fn satisfaction_judgement(
    alloc: Global,
    formula: &Formula,
    automaton: &Automaton,
) -> Result<CircuitJudgement, Refusal>
    ensures right { IfOk result (λ judgement. (c : CircuitValue) → IsAutomatonOf c automaton.now
        → AreFit (proposition_names c) → IsFormulaJudgement formula.now c judgement) }
    ensures refused { IfErr result (IsSatisfactionRefusal automaton.now formula.now) }
{
    match satisfies(alloc, automaton, formula) {
        Ok(satisfaction) => Ok(judgement_of_satisfaction(satisfaction)),
        Err(refusal) => Err(refusal),
    }
}

/// Returns what satisfaction of a formula says of the circuit of an automaton.
fn judgement_of_satisfaction(satisfaction: Satisfaction) -> CircuitJudgement
    ensures { (a : Description) (formula : NumberedFormula) (c : CircuitValue) → IsAutomatonOf c a
        → AreFit (proposition_names c) → IsSatisfaction a formula satisfaction
        → IsFormulaJudgement formula c result }
{
    match satisfaction {
        Satisfaction::Satisfied => CircuitJudgement::Realizes,
        Satisfaction::NotSatisfied(example) => CircuitJudgement::Violates(example),
    }
}
