ghost use Rattle.std.specs.Prelude.{◌≡◌, ◌++◌, IfOk, IsOkUnless, OnOk};
ghost use Rattle.omega_lang_lasso_word.specs.Form.{cycle_form, others_form, stem_form, word_form};

use crate::element_text::ElementText;
use omega_text::Refusal;
use std::alloc::Global;

/// Returns a lasso in the form in which Spot writes words. The text has what `elements` tells of those of the `stem`, a
/// semicolon after each, and of those of the `cycle` in `cycle{..}`.
///
/// What `elements` needs to tell of an element has to hold (`can_tell`). Each element is told once.
pub(crate) fn lasso_form<E, T: ElementText<E>>(
    alloc: Global,
    elements: &T,
    stem: &[E],
    cycle: &[E],
) -> Result<Vec<u8>, Refusal>
    requires { T.can_tell elements.now }
    ensures text { IfOk result
        (λ text. text.items ≡ word_form (T.told elements.now) stem.now cycle.now) }
    ensures memory { IsOkUnless result Refusal.Memory }
{
    let mut out = Vec::new(alloc);
    write_stem(elements, stem, &mut out)?;
    out.extend_from_slice(b"cycle{")?;
    write_cycle(elements, cycle, &mut out)?;
    out.push(b'}')?;
    Ok(out)
}

/// Appends what `elements` tells of those of `stem`, a semicolon after each.
fn write_stem<E, T: ElementText<E>>(
    elements: &T,
    stem: &[E],
    out: &mut Vec<u8>,
) -> Result<(), Refusal>
    requires { T.can_tell elements.now }
    ensures text { OnOk result
        (out.new.items ≡ out.old.items ++ stem_form (T.told elements.now) stem.now) }
    ensures memory { IsOkUnless result Refusal.Memory }
{
    for element in stem {
        elements.tell(element, out)?;
        out.extend_from_slice(b"; ")?;
    }
    Ok(())
}

/// Appends what `elements` tells of those of `cycle`, a semicolon between each two.
fn write_cycle<E, T: ElementText<E>>(
    elements: &T,
    cycle: &[E],
    out: &mut Vec<u8>,
) -> Result<(), Refusal>
    requires { T.can_tell elements.now }
    ensures text { OnOk result
        (out.new.items ≡ out.old.items ++ cycle_form (T.told elements.now) cycle.now) }
    ensures memory { IsOkUnless result Refusal.Memory }
{
    if let [first, others @ ..] = cycle {
        elements.tell(first, out)?;
        write_others(elements, others, out)?;
    }
    Ok(())
}

/// Appends what `elements` tells of `others`, a semicolon before each.
fn write_others<E, T: ElementText<E>>(
    elements: &T,
    others: &[E],
    out: &mut Vec<u8>,
) -> Result<(), Refusal>
    requires { T.can_tell elements.now }
    ensures text { OnOk result
        (out.new.items ≡ out.old.items ++ others_form (T.told elements.now) others.now) }
    ensures memory { IsOkUnless result Refusal.Memory }
{
    for element in others {
        out.extend_from_slice(b"; ")?;
        elements.tell(element, out)?;
    }
    Ok(())
}
