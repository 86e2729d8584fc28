//! The lines before the body.

ghost use Rattle.std.specs.Prelude.{◌≡◌, ◌++◌, IsOkUnless, OnOk, decimal, option_map};
ghost use Rattle.std.specs.List.{flat_map};
ghost use Rattle.omega_canon.specs.Canonical.{titled};
ghost use Rattle.omega_canon.specs.HeaderText.{acc_name_line, acceptance_line, header_text, name_line};
ghost use Rattle.omega_canon.specs.HeaderText.{parameter_part, properties_line, propositions_line};
ghost use Rattle.omega_canon.specs.HeaderText.{start_line, states_line, tool_line, unknown_line, value_part};
ghost use Rattle.omega_canon.specs.Parts.{spaced};
ghost use Rattle.omega_hoa_expression.specs.Writing.{truth_text};
ghost use Rattle.omega_hoa_acceptance.specs.Writing.{acc_text};

use crate::parts::{
    write_numbers, write_string, write_string_part, write_strings, write_word, write_words,
};
use omega_hoa_acceptance::{Acc, Parameter, write_acc};
use omega_hoa_automaton::{Automaton, HeaderValue};
use omega_text::{ByteString, Refusal, write_number};

/// Appends all lines before the body: those of `automaton` with this name, or without one.
pub(crate) fn write_header(
    automaton: &Automaton,
    name: Option<&[u8]>,
    out: &mut Vec<u8>,
) -> Result<(), Refusal>
    ensures ok { OnOk result (out.new.items ≡ out.old.items
        ++ header_text (titled (option_map (λ name. name.now) name.entry) automaton.now)) }
    ensures memory { IsOkUnless result Refusal.Memory }
{
    out.extend_from_slice(b"HOA: v1\n")?;
    write_tool(automaton, out)?;
    write_name(name, out)?;
    write_states(automaton, out)?;
    write_starts(automaton, out)?;
    write_propositions(automaton, out)?;
    write_acc_name(automaton, out)?;
    write_acceptance(automaton, out)?;
    write_properties(automaton, out)?;
    write_unknown(automaton, out)?;
    Ok(())
}

/// Appends the line `tool:`, if there is a tool.
fn write_tool(automaton: &Automaton, out: &mut Vec<u8>) -> Result<(), Refusal>
    ensures ok { OnOk result (out.new.items ≡ out.old.items ++ tool_line automaton.now.tool) }
    ensures memory { IsOkUnless result Refusal.Memory }
{
    if let Some(tool) = automaton.tool() {
        out.extend_from_slice(b"tool:")?;
        write_string(tool.name.as_slice(), out)?;
        write_string_part(tool.version.as_ref().map(ByteString::as_slice), out)?;
        out.push(b'\n')?;
    }
    Ok(())
}

/// Appends the line `name:`, if there is a name.
fn write_name(name: Option<&[u8]>, out: &mut Vec<u8>) -> Result<(), Refusal>
    ensures ok { OnOk result (out.new.items
        ≡ out.old.items ++ name_line (option_map (λ name. name.now) name.entry)) }
    ensures memory { IsOkUnless result Refusal.Memory }
{
    if let Some(name) = name {
        out.extend_from_slice(b"name:")?;
        write_string(name, out)?;
        out.push(b'\n')?;
    }
    Ok(())
}

/// Appends the line `States:`.
fn write_states(automaton: &Automaton, out: &mut Vec<u8>) -> Result<(), Refusal>
    ensures ok { OnOk result (out.new.items ≡ out.old.items ++ states_line automaton.now.states) }
    ensures memory { IsOkUnless result Refusal.Memory }
{
    out.extend_from_slice(b"States: ")?;
    write_number(u128::from(automaton.state_count()), out)?;
    out.push(b'\n')?;
    Ok(())
}

/// Appends a line `Start:` for each start.
fn write_starts(automaton: &Automaton, out: &mut Vec<u8>) -> Result<(), Refusal>
    ensures ok { OnOk result
        (out.new.items ≡ out.old.items ++ flat_map start_line automaton.now.starts) }
    ensures memory { IsOkUnless result Refusal.Memory }
{
    for states in automaton.starts() {
        out.extend_from_slice(b"Start: ")?;
        write_numbers(b'&', states.as_slice(), out)?;
        out.push(b'\n')?;
    }
    Ok(())
}

/// Appends the line `AP:`.
fn write_propositions(automaton: &Automaton, out: &mut Vec<u8>) -> Result<(), Refusal>
    ensures ok { OnOk result
        (out.new.items ≡ out.old.items ++ propositions_line automaton.now.propositions) }
    ensures memory { IsOkUnless result Refusal.Memory }
{
    let names = automaton.propositions();
    out.extend_from_slice(b"AP: ")?;
    write_number(names.len() as u128, out)?;
    write_strings(names, out)?;
    out.push(b'\n')?;
    Ok(())
}

/// Appends the line `acc-name:`, if there is a name of the acceptance.
fn write_acc_name(automaton: &Automaton, out: &mut Vec<u8>) -> Result<(), Refusal>
    ensures ok { OnOk result (out.new.items ≡ out.old.items ++ acc_name_line automaton.now.acc_name) }
    ensures memory { IsOkUnless result Refusal.Memory }
{
    if let Some(name) = automaton.acc_name() {
        out.extend_from_slice(b"acc-name:")?;
        write_word(name.name.as_slice(), out)?;
        write_parameters(name.parameters.as_slice(), out)?;
        out.push(b'\n')?;
    }
    Ok(())
}

/// Appends the parameters of the name of an acceptance, a space before each.
fn write_parameters(parameters: &[Parameter], out: &mut Vec<u8>) -> Result<(), Refusal>
    ensures ok { OnOk result
        (out.new.items ≡ out.old.items ++ flat_map parameter_part parameters.now) }
    ensures memory { IsOkUnless result Refusal.Memory }
{
    for parameter in parameters {
        match parameter {
            Parameter::Boolean(truth) => write_truth(*truth, out)?,
            Parameter::Number(number) => write_value(*number, out)?,
            Parameter::Word(bytes) => write_word(bytes.as_slice(), out)?,
        }
    }
    Ok(())
}

/// Appends the line `Acceptance:`.
fn write_acceptance(automaton: &Automaton, out: &mut Vec<u8>) -> Result<(), Refusal>
    ensures ok { OnOk result
        (out.new.items ≡ out.old.items ++ acceptance_line automaton.now.sets automaton.now.acceptance) }
    ensures memory { IsOkUnless result Refusal.Memory }
{
    out.extend_from_slice(b"Acceptance: ")?;
    write_number(u128::from(automaton.set_count()), out)?;
    write_formula(automaton.acceptance(), out)?;
    out.push(b'\n')?;
    Ok(())
}

/// Appends a space and an acceptance formula.
fn write_formula(formula: &Acc, out: &mut Vec<u8>) -> Result<(), Refusal>
    ensures ok { OnOk result (out.new.items ≡ out.old.items ++ spaced (acc_text formula.now).bytes) }
    ensures memory { IsOkUnless result Refusal.Memory }
{
    out.push(b' ')?;
    write_acc(formula, out)
}

/// Appends the line `properties:`, if there are any.
fn write_properties(automaton: &Automaton, out: &mut Vec<u8>) -> Result<(), Refusal>
    ensures ok { OnOk result
        (out.new.items ≡ out.old.items ++ properties_line automaton.now.properties) }
    ensures memory { IsOkUnless result Refusal.Memory }
{
    let properties = automaton.properties();
    if let [_, ..] = properties {
        out.extend_from_slice(b"properties:")?;
        write_words(properties, out)?;
        out.push(b'\n')?;
    }
    Ok(())
}

/// Appends the headers that the format leaves open, each a line.
fn write_unknown(automaton: &Automaton, out: &mut Vec<u8>) -> Result<(), Refusal>
    ensures ok { OnOk result
        (out.new.items ≡ out.old.items ++ flat_map unknown_line automaton.now.unknown) }
    ensures memory { IsOkUnless result Refusal.Memory }
{
    for header in automaton.unknown() {
        out.extend_from_slice(header.name.as_slice())?;
        out.push(b':')?;
        write_values(header.values.as_slice(), out)?;
        out.push(b'\n')?;
    }
    Ok(())
}

/// Appends the values of a header, a space before each.
fn write_values(values: &[HeaderValue], out: &mut Vec<u8>) -> Result<(), Refusal>
    ensures ok { OnOk result (out.new.items ≡ out.old.items ++ flat_map value_part values.now) }
    ensures memory { IsOkUnless result Refusal.Memory }
{
    for value in values {
        match value {
            HeaderValue::Boolean(truth) => write_truth(*truth, out)?,
            HeaderValue::Number(number) => write_value(*number, out)?,
            HeaderValue::Text(bytes) => write_string(bytes.as_slice(), out)?,
            HeaderValue::Word(bytes) => write_word(bytes.as_slice(), out)?,
        }
    }
    Ok(())
}

/// Appends a space and `t` or `f`.
fn write_truth(truth: bool, out: &mut Vec<u8>) -> Result<(), Refusal>
    ensures ok { OnOk result (out.new.items ≡ out.old.items ++ spaced (truth_text truth)) }
    ensures memory { IsOkUnless result Refusal.Memory }
{
    out.push(b' ')?;
    out.push(if truth { b't' } else { b'f' })?;
    Ok(())
}

/// Appends a space and a number.
fn write_value(number: u32, out: &mut Vec<u8>) -> Result<(), Refusal>
    ensures ok { OnOk result (out.new.items ≡ out.old.items ++ spaced (decimal number)) }
    ensures memory { IsOkUnless result Refusal.Memory }
{
    out.push(b' ')?;
    write_number(u128::from(number), out)?;
    Ok(())
}
