//! The line that says why a solution text is none of a game.

ghost use Rattle.std.specs.Prelude.{◌≡◌, ◌↔◌, ◌<◌, ◌++◌, ◌==◌, All, IfOk, IsOkUnless};
ghost use Rattle.std.specs.Prelude.{IsTrue, length, map, option_map, position};
ghost use Rattle.std.specs.List.{list_any};
ghost use Rattle.omega_pg_diagnostics.specs.SolutionCauses.{IsSolutionCause, WritesSolution, choice_fault};
ghost use Rattle.omega_pg_diagnostics.specs.SolutionCauses.{faults_in, first_of, greatest_line};
ghost use Rattle.omega_pg_diagnostics.specs.SolutionCauses.{identifier_fault, line_fault, line_faults};
ghost use Rattle.omega_pg_diagnostics.specs.SolutionCauses.{may_choose, missing_nodes, node_line, owner_wins};
ghost use Rattle.omega_pg_diagnostics.specs.SolutionCauses.{wrong_choice_line};
ghost use Rattle.omega_pg_diagnostics.specs.private.WrittenSolution.{Keeps, as_written};
ghost use Rattle.omega_game_values.specs.Game.{identifier_at, identifiers};
ghost use Rattle.omega_pg.specs.solution.Grammar.{RawSolution, solution_syntax};
ghost use Rattle.omega_text.specs.Syntax.{IsTextOf};

use crate::any_syntax::AnySyntax;
use crate::game_causes::twice_line;
use crate::grammar::is_in_grammar;
use crate::lines::{with_number, with_two_numbers};
use crate::written_solution::{WrittenLine, WrittenSolution};
use omega_pg::{ForwardGame, Player, SolutionSyntax, read_solution};
use omega_text::laws::{cuts_are_one, texts_have_no_fault};
use omega_text::{PgKind, Refusal, read_text};
use std::alloc::Global;

/// Returns the line that says why `text` is no solution of `game` ([TaskFault::BadSolution]), with its line feed.
/// Refused with [Refusal::Memory].
///
/// The header comes first, then line after line: the line at each place is to be that of the node there, in rising
/// order of identifiers, and its choice is to fit the winner. Last come the nodes behind the last line. The first of
/// these that is at fault decides. If nothing is, or if `text` is not in the grammar, there is no line and the result
/// is empty. By the law `laws::solution_causes_are_of_refusals` the line tells a reason for the refusal. The cost is
/// linear in the text and the game.
pub fn solution_cause(alloc: Global, game: &ForwardGame, text: &[u8]) -> Result<Vec<u8>, Refusal>
    ensures cause { IfOk result (λ line. IsSolutionCause game.now text.now line.items) }
    ensures memory { IsOkUnless result Refusal.Memory }
{
    if !is_written(alloc, game, text)? {
        return Ok(Vec::new(alloc));
    }
    let solution = read_written(alloc, text)?;
    first_fault(alloc, game, solution.header_number(), solution.lines())
}

/// Whether a text is in the grammar of solutions, whatever it says of the game.
#[tactic(auto, using(crate::proofs::solutions::Texts::tells, crate::proofs::solutions::Texts::refusal_tells))]
fn is_written(alloc: Global, game: &ForwardGame, text: &[u8]) -> Result<bool, Refusal>
    ensures written { IfOk result (λ written. IsTrue written ↔ WritesSolution text.now) }
    ensures memory { IsOkUnless result Refusal.Memory }
{
    texts_have_no_fault::<SolutionSyntax>();
    let Err(refusal) = read_solution(alloc, game, text) else {
        return Ok(true);
    };
    is_in_grammar(refusal)
}

/// Reads what may be at fault in a solution text.
fn read_written(alloc: Global, text: &[u8]) -> Result<WrittenSolution, Refusal>
    requires { WritesSolution text.now }
    ensures kept { IfOk result
        (λ solution. (raw : RawSolution) → IsTextOf solution_syntax text.now raw → Keeps raw solution) }
    ensures memory { IsOkUnless result Refusal.Memory }
{
    cuts_are_one::<PgKind>();
    texts_have_no_fault::<AnySyntax>();
    read_text::<PgKind, WrittenSolution>(WrittenSolution::new(alloc), text)
}

/// Returns the line about what is at fault first, or no bytes.
fn first_fault(
    alloc: Global,
    game: &ForwardGame,
    greatest: u32,
    lines: &[WrittenLine],
) -> Result<Vec<u8>, Refusal>
    ensures first { IfOk result (λ line. line.items ≡ first_of
        (faults_in game.now (record { greatest = greatest; lines = map as_written lines.now }))) }
    ensures memory { IsOkUnless result Refusal.Memory }
{
    let last = game.id(game.len() as u32 - 1);
    if greatest == last {
        first_fault_behind(alloc, game, lines)
    } else {
        greatest_line(alloc, greatest, last)
    }
}

/// Returns the line about what is at fault first behind the header, or no bytes.
#[tactic(auto, using(crate::proofs::solutions::Faults::absent, crate::proofs::solutions::Faults::none_left))]
fn first_fault_behind(
    alloc: Global,
    game: &ForwardGame,
    lines: &[WrittenLine],
) -> Result<Vec<u8>, Refusal>
    ensures first { IfOk result (λ line. line.items ≡ first_of (line_faults game.now 0
        (map as_written lines.now) ++ missing_nodes game.now (length lines.now))) }
    ensures memory { IsOkUnless result Refusal.Memory }
{
    for place in 0..lines.len() {
        if let Some(fault) = line_fault(alloc, game, place, lines[place])? {
            return Ok(fault);
        }
    }
    first_missing(alloc, game, lines.len())
}

/// Returns the line about the first node behind the last of `count` lines, or no bytes.
#[tactic(auto, using(crate::proofs::solutions::Faults::missing, crate::proofs::solutions::Faults::all_there))]
fn first_missing(alloc: Global, game: &ForwardGame, count: usize) -> Result<Vec<u8>, Refusal>
    ensures first { IfOk result (λ line. line.items ≡ first_of (missing_nodes game.now count)) }
    ensures memory { IsOkUnless result Refusal.Memory }
{
    if count < game.len() {
        node_line(alloc, game.id(count as u32), b" is missing\n")
    } else {
        Ok(Vec::new(alloc))
    }
}

/// Returns what is at fault in the `line` at a place, if anything is.
fn line_fault(
    alloc: Global,
    game: &ForwardGame,
    place: usize,
    line: WrittenLine,
) -> Result<Option<Vec<u8>>, Refusal>
    ensures fault { IfOk result (λ fault.
        option_map (λ fault. fault.items) fault ≡ line_fault game.now place (as_written line)) }
    ensures memory { IsOkUnless result Refusal.Memory }
{
    if place < game.len() && game.id(place as u32) == line.id {
        choice_fault(alloc, game, place as u32, line.winner, line.choice)
    } else {
        let fault = identifier_fault(alloc, game, place, line.id)?;
        Ok(Some(fault))
    }
}

/// Returns what is at fault in an identifier that is not that of the node at its line's place.
fn identifier_fault(
    alloc: Global,
    game: &ForwardGame,
    place: usize,
    id: u32,
) -> Result<Vec<u8>, Refusal>
    ensures fault { IfOk result (λ fault. fault.items ≡ identifier_fault game.now place id
        (position (λ other. other == id) (identifiers game.now))) }
    ensures memory { IsOkUnless result Refusal.Memory }
{
    match game.place_of(id) {
        None => node_line(alloc, id, b" is not in the game\n"),
        Some(other) if (other as usize) < place => twice_line(alloc, id),
        Some(_) => first_missing(alloc, game, place),
    }
}

/// Returns what is at fault in the choice of the node at a place, if anything is.
fn choice_fault(
    alloc: Global,
    game: &ForwardGame,
    place: u32,
    winner: Player,
    choice: Option<u32>,
) -> Result<Option<Vec<u8>>, Refusal>
    requires { place < length game.now }
    ensures fault { IfOk result (λ fault. option_map (λ fault. fault.items) fault
        ≡ choice_fault game.now place (owner_wins game.now place winner) choice) }
    ensures memory { IsOkUnless result Refusal.Memory }
{
    let id = game.id(place);
    let own = game.owner(place).number() == winner.number();
    let fault = match choice {
        None if own => node_line(alloc, id, b": no choice, and its owner wins\n")?,
        None => return Ok(None),
        Some(_) if !own => node_line(alloc, id, b": a choice, and its owner does not win\n")?,
        Some(chosen) if may_choose(game, place, chosen) => return Ok(None),
        Some(chosen) => wrong_choice_line(alloc, id, chosen)?,
    };
    Ok(Some(fault))
}

/// Whether some successor of the node at a place has the identifier `id`.
fn may_choose(game: &ForwardGame, place: u32, id: u32) -> bool
    requires { place < length game.now }
    ensures { result ≡ may_choose game.now place id }
{
    game.keeps_limits();
    has_id(game, game.successors(place), id)
}

/// Whether some node at `places` has the identifier `id`.
fn has_id(game: &ForwardGame, places: &[u32], id: u32) -> bool
    requires { All (λ w. w < length game.now) places.now }
    ensures { result ≡ list_any (λ w. identifier_at game.now w == id) places.now }
{
    for place in places {
        if game.id(*place) == id {
            return true;
        }
    }
    false
}

/// Returns the line about the number of a header that is not the `greatest` identifier.
fn greatest_line(alloc: Global, number: u32, greatest: u32) -> Result<Vec<u8>, Refusal>
    ensures line { IfOk result (λ line. line.items ≡ greatest_line number greatest) }
    ensures memory { IsOkUnless result Refusal.Memory }
{
    let middle = b", and the greatest identifier is ";
    with_two_numbers(
        alloc,
        b"omega: the header has ",
        number,
        middle,
        greatest,
        b"\n",
    )
}

/// Returns the line about what is at fault in a node, which ends with `fault`.
fn node_line(alloc: Global, id: u32, fault: &[u8]) -> Result<Vec<u8>, Refusal>
    ensures line { IfOk result (λ line. line.items ≡ node_line id fault.now) }
    ensures memory { IsOkUnless result Refusal.Memory }
{
    with_number(alloc, b"omega: node ", id, fault)
}

/// Returns the line about a node whose `choice` is no successor.
fn wrong_choice_line(alloc: Global, id: u32, choice: u32) -> Result<Vec<u8>, Refusal>
    ensures line { IfOk result (λ line. line.items ≡ wrong_choice_line id choice) }
    ensures memory { IsOkUnless result Refusal.Memory }
{
    with_two_numbers(
        alloc,
        b"omega: node ",
        id,
        b": choice ",
        choice,
        b" is no successor\n",
    )
}
