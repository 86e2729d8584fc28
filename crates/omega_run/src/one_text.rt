//! What each command makes of its one text.
ghost use Rattle.std.specs.Prelude.{◌≡◌, ◌≤◌, Ok, Err, IfOk, IfErr, None};
ghost use Rattle.omega_text.specs.Cases.{or_memory};
ghost use Rattle.omega_answers_synth.specs.Observing.{LiftsText};
ghost use Rattle.omega_answers_synth.specs.Refusing.{IsRealizeRefusal};
ghost use Rattle.omega_io.specs.Failures.{failures_of};
ghost use Rattle.omega_solve.specs.budget.Observing.{IsObserved, refusal_in};
ghost use Rattle.omega_solve.specs.Limits.{most_lifts};
ghost use Rattle.omega_run.specs.OneText.{AnswersOneText, asked_for};
ghost use Rattle.omega_run.specs.Progress.{IsReportedOf};
ghost use Rattle.omega_run.specs.Results.{with_bytes};
ghost use Rattle.omega_run.specs.Searching.{AreTurnsOf, searching_by};

use crate::circuit_form::form_for;
use omega_answers_automaton::{complement_text, trim_text};
use omega_answers_circuit::{
    canon_circuit, check_circuit, show_circuit, show_circuit_json, write_circuit_automaton,
    write_winning_circuit,
};
use omega_answers_empty::{
    Lines, decide_emptiness, draw_automaton_text, draw_lasso_text, search_emptiness,
    write_emptiness_game,
};
use omega_answers_formula::{deterministic_negation_text, deterministic_text, ltl_text};
use omega_answers_game::{
    Asked, Searcher, Searching, canon_game, canon_least, canon_part, check_game, draw_game_text,
    show_game, show_json, solve_game,
};
use omega_answers_synth::{
    decide_realizability, decide_realizability_by_lifting, write_realizability_game, write_winner,
    write_winner_by_lifting,
};
use omega_cli_command::{OneText, SearcherName};
use omega_game_values::Player;
use omega_io::{Exit, Refusal};
use omega_solve::budget::Reporter;
use std::alloc::Global;

/// Returns what a command makes of its text, with how it ends, or why the text is refused. Each run of a solver makes
/// at most `budget` lifts, and is reported to the observer. If a game is searched, `searching` says how, with the turns
/// of the searchers.
pub(crate) fn answer_one_text<L, T: Reporter<L>>(
    alloc: Global,
    command: OneText,
    text: &[u8],
    budget: u64,
    searching: &mut Searching,
    reporter: &T,
    observer: &mut L,
) -> Result<(Exit, Vec<u8>), Refusal>
    requires budget { budget ≤ most_lifts }
    requires turns { searching.old.turns ≡ None }
    ensures answered { IfOk result
        (λ made. AnswersOneText command budget text.now (Ok (made.0, made.1.items))) }
    ensures refused { IfErr result
        (or_memory (λ refusal. AnswersOneText command budget text.now (Err refusal))) }
    ensures unfailed { failures_of result ≡ 0 }
    ensures turns { AreTurnsOf command (with_bytes (λ made. made.items) result) searching.new }
    ensures reported { IsReportedOf (T.tells reporter.now) (T.pace reporter.now) command budget
        text.now (with_bytes (λ made. made.items) result) observer.old observer.new }
{
    match command {
        OneText::Show => Ok((Exit::Done, show_game(alloc, text)?)),
        OneText::ShowJson => Ok((Exit::Done, show_json(alloc, text)?)),
        OneText::Check => Ok((Exit::Done, check_game(alloc, text)?)),
        OneText::Canon => Ok((Exit::Done, canon_game(alloc, text)?)),
        OneText::CanonPart { from } => Ok((Exit::Done, canon_part(alloc, text, from)?)),
        OneText::CanonLeast { from } => Ok((Exit::Done, canon_least(alloc, text, from)?)),
        OneText::Solve { player, from } => {
            let asked = asked_for(player);
            let mut unsearched = Searching::in_turns();
            let made = solve_game(
                alloc,
                text,
                asked,
                &mut unsearched,
                from,
                budget,
                reporter,
                observer,
            );
            Ok((Exit::Done, made?))
        }
        OneText::Search { from, by, effort } => {
            *searching = searching_by(by, effort);
            let made = solve_game(
                alloc,
                text,
                Asked::Search,
                searching,
                from,
                budget,
                reporter,
                observer,
            );
            Ok((Exit::Done, made?))
        }
        OneText::Empty {
            word,
            names,
            status,
        } => {
            let lines = Lines { word, run: names };
            decide_emptiness(alloc, text, lines, status, budget, reporter, observer)
        }
        OneText::EmptySearch {
            word,
            names,
            status,
        } => {
            let lines = Lines { word, run: names };
            search_emptiness(alloc, text, lines, status)
        }
        OneText::Game => Ok((Exit::Done, write_emptiness_game(alloc, text)?)),
        OneText::Ltl { negated } => Ok((Exit::Done, ltl_text(alloc, text, negated)?)),
        OneText::LtlDeterministic { negated: false } => {
            Ok((Exit::Done, deterministic_text(alloc, text)?))
        }
        OneText::LtlDeterministic { negated: true } => {
            Ok((Exit::Done, deterministic_negation_text(alloc, text)?))
        }
        OneText::Complement => Ok((Exit::Done, complement_text(alloc, text)?)),
        OneText::Trim => Ok((Exit::Done, trim_text(alloc, text)?)),
        OneText::Realize { controller: false } => decide_realizability(alloc, text),
        OneText::Realize { controller: true } => write_winner(alloc, text),
        OneText::RealizeByLifting { controller: false } => {
            decide_realizability_by_lifting(alloc, text, budget, reporter, observer)
        }
        OneText::RealizeByLifting { controller: true } => {
            write_winner_by_lifting(alloc, text, budget, reporter, observer)
        }
        OneText::RealizeCircuit { binary } => write_winning_circuit(alloc, text, form_for(binary)),
        OneText::RealizabilityGame => Ok((Exit::Done, write_realizability_game(alloc, text)?)),
        OneText::DrawGame => Ok((Exit::Done, draw_game_text(alloc, text, None, None)?)),
        OneText::DrawPart { from, depth } => {
            Ok((Exit::Done, draw_game_text(alloc, text, Some(from), depth)?))
        }
        OneText::DrawAutomaton => Ok((Exit::Done, draw_automaton_text(alloc, text)?)),
        OneText::DrawLasso => Ok((Exit::Done, draw_lasso_text(alloc, text)?)),
        OneText::CheckCircuit => Ok((Exit::Done, check_circuit(alloc, text)?)),
        OneText::ShowCircuit => Ok((Exit::Done, show_circuit(alloc, text)?)),
        OneText::ShowCircuitJson => Ok((Exit::Done, show_circuit_json(alloc, text)?)),
        OneText::CanonCircuit { binary } => {
            Ok((Exit::Done, canon_circuit(alloc, text, form_for(binary))?))
        }
        OneText::CircuitAutomaton => Ok((Exit::Done, write_circuit_automaton(alloc, text)?)),
    }
}

/// Returns for which players a game is solved: for `player`, or for both if none is named.
fn asked_for(player: Option<Player>) -> Asked
    ensures { result ≡ asked_for player }
{
    match player {
        Some(player) => Asked::Player(player),
        None => Asked::Both,
    }
}

/// Returns a search to be made by the searcher of this name alone, or by both in turns if none is named.
fn searching_by(name: Option<SearcherName>, effort: u64) -> Searching
    ensures { result ≡ searching_by name effort }
{
    let alone = match name {
        Some(SearcherName::Zielonka) => Some(Searcher::Zielonka),
        Some(SearcherName::Tangles) => Some(Searcher::Tangles),
        None => None,
    };
    Searching::by(alone, effort)
}
