//! Copies of names of states and of acceptances.

ghost use Rattle.std.specs.Prelude.{◌≡◌, IfOk, IsOkUnless};

use omega_hoa_acceptance::{AccName, Parameter};
use omega_hoa_automaton::{Refusal, State, StateName};
use omega_text::{ByteString, Seq};
use std::alloc::Global;

/// Copies the name of `state`.
pub fn copied_state_name(alloc: Global, state: &State) -> Result<StateName, Refusal>
    ensures name { IfOk result (λ name. name ≡ state.now.name) }
    ensures memory { IsOkUnless result Refusal.Memory }
{
    match state.name.as_slice() {
        None => Ok(StateName::absent()),
        Some(bytes) => {
            let bytes = ByteString::from_slice(alloc, bytes)?;
            Ok(StateName::of(alloc, bytes)?)
        }
    }
}

/// Copies the name of an acceptance.
pub fn copied_acc_name(alloc: Global, name: &AccName) -> Result<AccName, Refusal>
    ensures same { IfOk result (λ same. same ≡ name.now) }
    ensures memory { IsOkUnless result Refusal.Memory }
{
    let parameters = copied_parameters(alloc, name.parameters.as_slice())?;
    Ok(AccName {
        name: ByteString::from_slice(alloc, name.name.as_slice())?,
        parameters: Seq::from_vec(parameters),
    })
}

/// Copies the parameters of the name of an acceptance.
fn copied_parameters(alloc: Global, parameters: &[Parameter]) -> Result<Vec<Parameter>, Refusal>
    ensures same { IfOk result (λ same. same.items ≡ parameters.now) }
    ensures memory { IsOkUnless result Refusal.Memory }
{
    let mut same = Vec::with_capacity(alloc, parameters.len())?;
    for parameter in parameters {
        same.push(copied_parameter(alloc, parameter)?)?;
    }
    Ok(same)
}

/// Copies a parameter.
fn copied_parameter(alloc: Global, parameter: &Parameter) -> Result<Parameter, Refusal>
    ensures same { IfOk result (λ same. same ≡ parameter.now) }
    ensures memory { IsOkUnless result Refusal.Memory }
{
    match parameter {
        Parameter::Boolean(value) => Ok(Parameter::Boolean(*value)),
        Parameter::Number(number) => Ok(Parameter::Number(*number)),
        Parameter::Word(bytes) => Ok(Parameter::Word(ByteString::from_slice(
            alloc,
            bytes.as_slice(),
        )?)),
    }
}
