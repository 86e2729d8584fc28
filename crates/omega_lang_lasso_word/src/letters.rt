//! Letters: what edges demand of the propositions.

ghost use Rattle.std.specs.Prelude.{◌≡◌, ◌<◌, ◌++◌, [], List, ℕ, fold, get_or, length, IsOkUnless, OnOk};
ghost use Rattle.omega_hoa_label.specs.Label.{conjunction};
ghost use Rattle.omega_hoa_edges.specs.Conjuncts.{conjuncts, each_once};
ghost use Rattle.omega_lang_lasso_word.specs.private.Infix.{further_words, sign_words, signs_words};
ghost use Rattle.omega_lang_lasso_word.specs.private.Infix.{tightness_of, whole_words, words_after};
ghost use Rattle.omega_lang_lasso_word.specs.Letters.{conjunction_words, label_words};
ghost use Rattle.omega_lang_lasso_word.specs.Letters.{literal_text, valuation_text};
ghost use Rattle.omega_lang_lasso_word.specs.Names.{name_text};

use crate::names::write_name;
use crate::signs::{Above, FormulaSign, FormulaSigns, Infix};
use omega_hoa_edges::{conjuncts_of, has_bit};
use omega_hoa_label::{Label, LabelNode, ROOM};
use omega_text::{ByteString, Refusal};

/// Appends the conjunction of `conjuncts` with the `names` of their propositions, as Spot writes formulas: `&` between
/// each two, and `1` if there is none. Linear in the conjuncts.
pub(crate) fn write_conjuncts(
    names: &[ByteString],
    conjuncts: &[Label],
    out: &mut Vec<u8>,
) -> Result<(), Refusal>
    ensures text { OnOk result
        (out.new.items ≡ out.old.items ++ conjunction_words names.now conjuncts.now) }
    ensures memory { IsOkUnless result Refusal.Memory }
{
    let [first, others @ ..] = conjuncts else {
        out.push(b'1')?;
        return Ok(());
    };
    write_joined(names, first, others, out)
}

/// Appends `first` and `others` with `&` between each two. One alone needs no parentheses.
fn write_joined(
    names: &[ByteString],
    first: &Label,
    others: &[Label],
    out: &mut Vec<u8>,
) -> Result<(), Refusal>
    ensures text { OnOk result (out.new.items
        ≡ out.old.items ++ label_words 0 names.now (fold conjunction first.now others.now)) }
    ensures memory { IsOkUnless result Refusal.Memory }
{
    if others.is_empty() {
        write_part(names, first, Above::Loose, out)
    } else {
        write_several(names, first, others, out)
    }
}

/// Appends `first` and at least one other with `&` between each two.
fn write_several(
    names: &[ByteString],
    first: &Label,
    others: &[Label],
    out: &mut Vec<u8>,
) -> Result<(), Refusal>
    requires { 0 < length others.now }
    ensures text { OnOk result (out.new.items
        ≡ out.old.items ++ label_words 0 names.now (fold conjunction first.now others.now)) }
    ensures memory { IsOkUnless result Refusal.Memory }
{
    write_part(names, first, Above::And, out)?;
    write_further(names, others, out)
}

/// Appends `others` with `&` before each.
fn write_further(names: &[ByteString], others: &[Label], out: &mut Vec<u8>) -> Result<(), Refusal>
    ensures text { OnOk result (out.new.items ≡ out.old.items ++ further_words names.now others.now) }
    ensures memory { IsOkUnless result Refusal.Memory }
{
    for other in others {
        out.extend_from_slice(b" & ")?;
        write_part(names, other, Above::And, out)?;
    }
    Ok(())
}

/// Appends the conjuncts of `label`, each once, with the `names` of their propositions.
pub(crate) fn write_label(
    names: &[ByteString],
    label: &Label,
    out: &mut Vec<u8>,
) -> Result<(), Refusal>
    ensures text { OnOk result (out.new.items
        ≡ out.old.items ++ conjunction_words names.now (each_once (conjuncts label.now))) }
    ensures memory { IsOkUnless result Refusal.Memory }
{
    let alloc = *out.allocator();
    let found = conjuncts_of(alloc, label)?;
    write_conjuncts(names, found.as_slice(), out)
}

/// Appends `label`, a part below the operator `above`, with the `names` of its propositions. Linear in the label.
fn write_part(
    names: &[ByteString],
    label: &Label,
    above: Above,
    out: &mut Vec<u8>,
) -> Result<(), Refusal>
    ensures text { OnOk result
        (out.new.items ≡ out.old.items ++ label_words (tightness_of above) names.now label.now) }
    ensures memory { IsOkUnless result Refusal.Memory }
{
    let alloc = *out.allocator();
    let mut room = ROOM;
    let mut text = Infix::new(alloc, above)?;
    put_all(&mut text, label.nodes(&mut room))?;
    text.finish()?;
    write_signs(names, &mut text.signs, out)
}

/// Puts the signs of `nodes`, from the last to the first, before those so far.
fn put_all(text: &mut Infix, nodes: &[LabelNode]) -> Result<(), Refusal>
    ensures ok { OnOk result ((names : List (List ℕ)) → whole_words names text.new []
        ≡ whole_words names text.old (words_after names [] nodes.now)) }
    ensures memory { IsOkUnless result Refusal.Memory }
{
    let mut left = nodes;
    while let Some((node, before)) = left.split_last() {
        left = before;
        text.put(*node)?;
    }
    Ok(())
}

/// Appends `signs` with the `names` of their propositions.
fn write_signs(
    names: &[ByteString],
    signs: &mut FormulaSigns,
    out: &mut Vec<u8>,
) -> Result<(), Refusal>
    ensures text { OnOk result (out.new.items ≡ out.old.items ++ signs_words names.now signs.old) }
    ensures memory { IsOkUnless result Refusal.Memory }
{
    while let Some(sign) = signs.take() {
        write_sign(names, sign, out)?;
    }
    Ok(())
}

/// Appends `sign` with the `names` of its proposition.
fn write_sign(names: &[ByteString], sign: FormulaSign, out: &mut Vec<u8>) -> Result<(), Refusal>
    ensures text { OnOk result (out.new.items ≡ out.old.items ++ sign_words names.now sign) }
    ensures memory { IsOkUnless result Refusal.Memory }
{
    match sign {
        FormulaSign::Constant(value) => out.push(if value { b'1' } else { b'0' })?,
        FormulaSign::Name(number) => write_proposition(names, number as usize, out)?,
        FormulaSign::Not => out.push(b'!')?,
        FormulaSign::And => out.extend_from_slice(b" & ")?,
        FormulaSign::Or => out.extend_from_slice(b" | ")?,
        FormulaSign::Open => out.push(b'(')?,
        FormulaSign::Close => out.push(b')')?,
    }
    Ok(())
}

/// Appends the name of the proposition `number`, or empty quotes if there is no such proposition, which no automaton
/// allows.
fn write_proposition(names: &[ByteString], number: usize, out: &mut Vec<u8>) -> Result<(), Refusal>
    ensures text { OnOk result
        (out.new.items ≡ out.old.items ++ name_text (get_or names.now number [])) }
    ensures memory { IsOkUnless result Refusal.Memory }
{
    match names.get(number) {
        Some(name) => write_name(name.as_slice(), out),
        None => write_name(&[], out),
    }
}

/// Appends the valuation of `index`: each proposition, or its negation.
pub(crate) fn write_valuation(
    names: &[ByteString],
    index: usize,
    out: &mut Vec<u8>,
) -> Result<(), Refusal>
    ensures text { OnOk result (out.new.items ≡ out.old.items ++ valuation_text index names.now) }
    ensures memory { IsOkUnless result Refusal.Memory }
{
    let [first, others @ ..] = names else {
        out.push(b'1')?;
        return Ok(());
    };
    write_literal(index, 0, first.as_slice(), out)?;
    for (at, name) in others.iter().enumerate() {
        out.extend_from_slice(b" & ")?;
        write_literal(index, at + 1, name.as_slice(), out)?;
    }
    Ok(())
}

/// Appends the proposition `p`, called `name`, or its negation if it does not hold in the valuation of `index`.
fn write_literal(index: usize, p: usize, name: &[u8], out: &mut Vec<u8>) -> Result<(), Refusal>
    ensures text { OnOk result (out.new.items ≡ out.old.items ++ literal_text index p name.now) }
    ensures memory { IsOkUnless result Refusal.Memory }
{
    if !has_bit(index, p) {
        out.push(b'!')?;
    }
    write_name(name, out)
}
