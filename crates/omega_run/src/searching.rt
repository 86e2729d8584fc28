//! Lines on standard error that say how the turns of the searchers of a game ended.
ghost use Rattle.std.specs.Prelude.{◌≡◌, ◌++◌, ◌||◌, ◌-◌, ◌^◌, ◌<◌, ◌≤◌, codes, decimal};
ghost use Rattle.omega_answers_game.specs.solve.SearchLines.{ending_line, have_found, lifted_line};
ghost use Rattle.omega_answers_game.specs.solve.SearchLines.{search_lines, turn_line, turn_lines};
ghost use Rattle.omega_run.specs.private.steps.Telling.{TellsOn};

use crate::progress::{tell_number, tell_on};
use omega_answers_game::{Searching, Turn, Turns};
use omega_io::Output;

/// If `verbose` is set and a game was searched, writes the lines on the turns after the text so far, unless more than
/// `sound` writes have failed. They take no memory.
pub(crate) fn tell_search<E: Output>(
    errors: &mut E,
    sound: u64,
    verbose: bool,
    searching: Searching,
)
    ensures { TellsOn sound (E.contents errors.old) (E.contents errors.new) (E.failed errors.old)
        (E.failed errors.new) (search_lines verbose searching) }
{
    match searching.turns {
        Some(turns) if verbose => tell_turns(errors, sound, turns),
        _ => tell_on(errors, sound, b""),
    }
}

/// Writes the line on each turn that was taken, and one if the game is lifted.
fn tell_turns<E: Output>(errors: &mut E, sound: u64, turns: Turns)
    ensures { TellsOn sound (E.contents errors.old) (E.contents errors.new) (E.failed errors.old)
        (E.failed errors.new) (turn_lines turns) }
{
    tell_turn(errors, sound, b"zielonka", turns.zielonka);
    tell_turn(errors, sound, b"tangles", turns.tangles);
    tell_lifted(errors, sound, have_found(turns));
}

/// Writes that the game is lifted, unless a searcher `found` a solution.
fn tell_lifted<E: Output>(errors: &mut E, sound: u64, found: bool)
    ensures { TellsOn sound (E.contents errors.old) (E.contents errors.new) (E.failed errors.old)
        (E.failed errors.new) (lifted_line found) }
{
    if found {
        tell_on(errors, sound, b"");
    } else {
        tell_on(errors, sound, b"omega: the game is lifted\n");
    }
}

/// Whether a searcher found a solution in these turns.
fn have_found(turns: Turns) -> bool
    ensures { result ≡ have_found turns }
{
    matches!(turns.zielonka, Turn::Found { .. }) || matches!(turns.tangles, Turn::Found { .. })
}

/// Writes the line on a turn of the searcher of this name, if it was taken.
fn tell_turn<E: Output>(errors: &mut E, sound: u64, name: &[u8], turn: Turn)
    ensures { TellsOn sound (E.contents errors.old) (E.contents errors.new) (E.failed errors.old)
        (E.failed errors.new) (turn_line name.now turn) }
{
    match turn {
        Turn::Untaken => tell_on(errors, sound, b""),
        Turn::GaveUp { edges } => tell_ending(errors, sound, name, b" gave up after ", edges),
        Turn::Rejected { edges } => {
            tell_ending(errors, sound, name, b" found nothing right after ", edges)
        }
        Turn::Found { edges } => {
            tell_ending(errors, sound, name, b" found the solution after ", edges)
        }
    }
}

/// Writes the line on a turn that ended so after this number of edges.
fn tell_ending<E: Output>(errors: &mut E, sound: u64, name: &[u8], ending: &[u8], edges: u64)
    ensures { TellsOn sound (E.contents errors.old) (E.contents errors.new) (E.failed errors.old)
        (E.failed errors.new) (ending_line name.now ending.now edges) }
{
    tell_on(errors, sound, b"omega: ");
    tell_on(errors, sound, name);
    tell_on(errors, sound, ending);
    tell_number(errors, sound, edges);
    tell_on(errors, sound, b" edges\n");
}
