//! Laws of all texts of games, for the proofs of callers: each function does nothing and states one law.

ghost use Rattle.omega_pg.specs.game.Grammar.{game_syntax};
ghost use Rattle.omega_pg.specs.game.Laws.{CanonicalGamesAreRead, GamesAreNotRefused, GamesOfTextsAreOne};
ghost use Rattle.omega_pg.specs.game.Laws.{GameRefusalsAreOne, TextsAreReadOrRefused};
ghost use Rattle.omega_text.specs.Syntax.{SyntaxFaultsAreFirst};

use crate::game::syntax::GameSyntax;
use omega_game_values::{
    games_exist, games_have_no_fault, games_keep_limits, specifications_have_one_game,
};
use omega_text::PgKind;
use omega_text::laws::{
    cuts_are_one, text_faults_are_one, texts_are_read_or_faulty, texts_have_no_fault,
};
use omega_text::pg::laws::{
    ends_are_gaps, names_are_longest, numbers_are_longest, signs_are_longest, tokens_follow,
    words_are_longest,
};

/// States that a text describes at most one game.
pub fn games_of_texts_are_one()
    ensures { GamesOfTextsAreOne }
{
    cuts_are_one::<PgKind>();
    specifications_have_one_game();
}

/// States that a text has at most one refusal.
pub fn refusals_are_one()
    ensures { GameRefusalsAreOne }
{
    cuts_are_one::<PgKind>();
    text_faults_are_one::<GameSyntax>();
    texts_have_no_fault::<GameSyntax>();
}

/// States that a text that describes a game has no refusal.
pub fn games_are_not_refused()
    ensures { GamesAreNotRefused }
{
    cuts_are_one::<PgKind>();
    texts_have_no_fault::<GameSyntax>();
    games_have_no_fault();
}

/// States that a text describes a game or has a refusal.
pub fn texts_are_read_or_refused()
    ensures { TextsAreReadOrRefused }
{
    texts_are_read_or_faulty::<GameSyntax>();
    games_exist();
    games_keep_limits();
}

/// States that some text of the grammar begins with the tokens before the place of a syntax fault, and none with one
/// token more.
pub fn syntax_faults_are_first()
    ensures { SyntaxFaultsAreFirst game_syntax }
{
    omega_text::laws::syntax_faults_are_first::<GameSyntax>();
}

/// States that the canonical text of a game, within the limit of texts, describes that game.
pub fn canonical_texts_are_read()
    ensures { CanonicalGamesAreRead }
{
    tokens_follow();
    ends_are_gaps();
    numbers_are_longest();
    words_are_longest();
    signs_are_longest();
    names_are_longest();
}
