//! Laws of all lenient texts, for the proofs of callers: each function does nothing and states one law.

ghost use Rattle.omega_text.specs.Syntax.{SyntaxFaultsAreFirst};
ghost use Rattle.omega_pg_lenient.specs.Grammar.{lenient_syntax};
ghost use Rattle.omega_pg_lenient.specs.Laws.{LenientGamesAreNotRefused, LenientGamesAreOne};
ghost use Rattle.omega_pg_lenient.specs.Laws.{LenientRefusalsAreOne, LenientTextsAreReadOrRefused};
ghost use Rattle.omega_pg_lenient.specs.Laws.{PlainTextsKeepPlaces, StrictTextsAreLenient};
ghost use Rattle.omega_pg_lenient.specs.Parts.{BlockCommentsAreBlank, LineCommentsAreBlank, LoneSlashesStay};
ghost use Rattle.omega_pg_lenient.specs.Parts.{NamesAreShown, OtherBytesStay, UnclosedCommentsStay};
ghost use Rattle.omega_pg_lenient.specs.SolutionParts.{EarlyAndLateHyphensStay, EarlyNamesStay};
ghost use Rattle.omega_pg_lenient.specs.SolutionParts.{EarlyQuotesStay, InnerNamesStay, InnerNoChoicesStay};
ghost use Rattle.omega_pg_lenient.specs.SolutionParts.{LastNamesAreBlank, LoneHyphensStay};
ghost use Rattle.omega_pg_lenient.specs.SolutionParts.{NamedNoChoicesAreBlank, NoChoicesAreBlank};
ghost use Rattle.omega_pg_lenient.specs.SolutionParts.{OpenNamesStay, OtherLinesStay};
ghost use Rattle.omega_pg_lenient.specs.SolutionText.{BareTextsKeepPlaces, StrictSolutionsAreLenient};
ghost use Rattle.omega_pg_lenient.specs.OpenPlays.{OpenWinningMeansAllPlays};
ghost use Rattle.omega_pg_lenient.specs.Playing.{CompletionKeepsWinners, LenientGamesKeepWinners};

use crate::kind::LenientKind;
use crate::syntax::LenientSyntax;
use omega_game_region_laws::winning_means_all_plays;
use omega_game_values::{
    games_exist, games_have_no_fault, games_keep_limits, specifications_have_one_game,
};
use omega_text::laws::{
    cuts_are_one, text_faults_are_one, texts_are_read_or_faulty, texts_have_no_fault,
};
use omega_text::pg::laws::numbers_are_plain;

/// States that a plain text has a byte for each of the text.
pub fn plain_texts_keep_places()
    ensures { PlainTextsKeepPlaces }
{}

/// States that a bare text of a solution text has a byte for each of the text.
pub fn bare_texts_keep_places()
    ensures { BareTextsKeepPlaces }
{
    plain_texts_keep_places();
}

/// States what stands for each part of a text in its plain text: spaces for comments, the bytes of a name that a name
/// of a game may have, and each byte that begins neither.
pub fn plain_texts_show_parts()
    ensures line_comments { LineCommentsAreBlank }
    ensures block_comments { BlockCommentsAreBlank }
    ensures names { NamesAreShown }
    ensures others { OtherBytesStay }
    ensures slashes { LoneSlashesStay }
    ensures unclosed { UnclosedCommentsStay }
{}

/// States what stands for each part of a line of a solution text in its bare text: spaces for a `-1` in the place of a
/// successor and for a name that ends the line. Each other byte stays, and so does a `-1` or a name that stands
/// elsewhere.
pub fn bare_texts_show_parts()
    ensures lines { OtherLinesStay }
    ensures names { LastNamesAreBlank }
    ensures no_choices { NoChoicesAreBlank }
    ensures named_no_choices { NamedNoChoicesAreBlank }
    ensures early_and_late_hyphens { EarlyAndLateHyphensStay }
    ensures lone_hyphens { LoneHyphensStay }
    ensures inner_no_choices { InnerNoChoicesStay }
    ensures early_quotes { EarlyQuotesStay }
    ensures early_names { EarlyNamesStay }
    ensures inner_names { InnerNamesStay }
    ensures open_names { OpenNamesStay }
{}

/// States that a text describes at most one game.
pub fn lenient_games_are_one()
    ensures { LenientGamesAreOne }
{
    cuts_are_one::<LenientKind>();
    specifications_have_one_game();
}

/// States that a text has at most one refusal.
pub fn lenient_refusals_are_one()
    ensures { LenientRefusalsAreOne }
{
    cuts_are_one::<LenientKind>();
    text_faults_are_one::<LenientSyntax>();
    texts_have_no_fault::<LenientSyntax>();
}

/// States that a text that describes a game has no refusal.
pub fn lenient_games_are_not_refused()
    ensures { LenientGamesAreNotRefused }
{
    cuts_are_one::<LenientKind>();
    texts_have_no_fault::<LenientSyntax>();
    games_have_no_fault();
}

/// States that a text describes a game or has a refusal.
pub fn lenient_texts_are_read_or_refused()
    ensures { LenientTextsAreReadOrRefused }
{
    texts_are_read_or_faulty::<LenientSyntax>();
    games_exist();
    games_keep_limits();
}

/// States that some text of the grammar begins with the tokens before the place of a syntax fault, and none with one
/// token more.
pub fn lenient_syntax_faults_are_first()
    ensures { SyntaxFaultsAreFirst lenient_syntax }
{
    omega_text::laws::syntax_faults_are_first::<LenientSyntax>();
}

/// States that a game text describes the same game as a lenient text.
pub fn strict_texts_are_lenient()
    ensures { StrictTextsAreLenient }
{}

/// States that a solution text describes the same solution as a lenient text.
pub fn strict_solutions_are_lenient()
    ensures { StrictSolutionsAreLenient }
{
    numbers_are_plain();
}

/// States that each node of a game with dead ends is won by the same player in the game where these are completed: each
/// is its only successor, with a priority that loses for its owner.
pub fn completion_keeps_winners()
    ensures { CompletionKeepsWinners }
{}

/// States that whoever wins at a node of a text's game wins there in the game as it is written, which may have dead
/// ends.
pub fn lenient_games_keep_winners()
    ensures { LenientGamesKeepWinners }
{}

/// States that a strategy wins from a node of a game with dead ends exactly if its player loses no play under it from
/// there. A play that stops in a dead end is lost by the owner of that node, and by no one else.
pub fn open_winning_means_all_plays()
    ensures { OpenWinningMeansAllPlays }
{
    winning_means_all_plays();
}
