//! Labels of edges, as a text writes them.

ghost use Rattle.std.specs.Prelude.{◌≡◌, ◌≤◌, ◌<◌, ◌+◌, ℕ, false, IfOk, IfSome, IsOkUnless};
ghost use Rattle.omega_ltl_shapes.specs.Covers.{is_set};
ghost use Rattle.omega_ltl_translation.specs.private.Labels.{AreFew, AreTrueOn, IsLabelAt, IsLabelBelow};
ghost use Rattle.omega_ltl_translation.specs.private.Labels.{IsLabelOf, IsLabelOrNone, IsOperand, IsTrueCube};
ghost use Rattle.omega_ltl_translation.specs.private.Labels.{conjunction_of, disjunction_of};

use omega_hoa_label::RawLabel;
use omega_ltl_shapes::Cube;
use omega_text::Refusal;
use std::alloc::Global;

/// Returns the label that is true where one of some cubes is.
pub(crate) fn label_of(alloc: Global, cubes: &[Cube]) -> Result<RawLabel, Refusal>
    requires { AreFew cubes.now }
    ensures label { IfOk result (IsLabelOf cubes.now) }
    ensures memory { IsOkUnless result Refusal.Memory }
{
    let mut label = None;
    for cube in cubes {
        let one = cube_label(alloc, *cube)?;
        label = Some(disjunction(label, one)?);
    }
    match label {
        None => RawLabel::constant(alloc, false),
        Some(label) => Ok(label),
    }
}

/// Returns the disjunction of two labels; none is true at no letter.
fn disjunction(label: Option<RawLabel>, more: RawLabel) -> Result<RawLabel, Refusal>
    requires one { IfSome label IsOperand }
    requires other { IsOperand more }
    ensures ok { IfOk result (λ either. either ≡ disjunction_of label more) }
    ensures memory { IsOkUnless result Refusal.Memory }
{
    match label {
        None => Ok(more),
        Some(label) => label.or(more),
    }
}

/// Returns the label of a cube.
fn cube_label(alloc: Global, cube: Cube) -> Result<RawLabel, Refusal>
    ensures label { IfOk result (IsLabelAt 2 192 66 (λ letter. IsTrueCube letter cube)) }
    ensures memory { IsOkUnless result Refusal.Memory }
{
    word_ends(cube.positive);
    word_ends(cube.negative);
    let mut label = None;
    for name in 0..64u32 {
        label = with_name(alloc, label, cube, name)?;
    }
    match label {
        None => RawLabel::constant(alloc, true),
        Some(label) => Ok(label),
    }
}

/// Returns the label of a cube with the literals of one name more.
fn with_name(
    alloc: Global,
    label: Option<RawLabel>,
    cube: Cube,
    name: u32,
) -> Result<Option<RawLabel>, Refusal>
    requires low { name < 64 }
    requires label { IsLabelBelow cube name label }
    ensures label { IfOk result (IsLabelBelow cube (name + 1)) }
    ensures memory { IsOkUnless result Refusal.Memory }
{
    let more = name_label(alloc, cube, name)?;
    conjunction(label, more)
}

/// Returns the conjunction of two labels; none is true at each letter.
fn conjunction(label: Option<RawLabel>, more: Option<RawLabel>) -> Result<Option<RawLabel>, Refusal>
    requires one { IfSome label IsOperand }
    requires other { IfSome more IsOperand }
    ensures ok { IfOk result (λ both. both ≡ conjunction_of label more) }
    ensures memory { IsOkUnless result Refusal.Memory }
{
    match (label, more) {
        (None, more) => Ok(more),
        (Some(label), None) => Ok(Some(label)),
        (Some(label), Some(more)) => Ok(Some(label.and(more)?)),
    }
}

/// Returns the label of the literals of a cube on a name, or none if it has none.
fn name_label(alloc: Global, cube: Cube, name: u32) -> Result<Option<RawLabel>, Refusal>
    ensures label { IfOk result (IsLabelOrNone 3 2 2 (AreTrueOn cube name)) }
    ensures memory { IsOkUnless result Refusal.Memory }
{
    let positive = cube.has(name, false);
    let negative = cube.has(name, true);
    if positive {
        if negative {
            return Ok(Some(RawLabel::constant(alloc, false)?));
        }
        return Ok(Some(RawLabel::proposition(alloc, name)?));
    }
    if negative {
        return Ok(Some(RawLabel::proposition(alloc, name)?.not()?));
    }
    Ok(None)
}

/// States that a word has no bit beyond its width.
fn word_ends(word: u64)
    ensures { (place : ℕ) → 64 ≤ place → is_set word place ≡ false }
{}
