//! The values of options.
ghost use Rattle.std.specs.Prelude.{◌≡◌, Bool, Some, IfOk, IfErr, MatchOption, option_map};
ghost use Rattle.omega_text.specs.Limits.{most_number};
ghost use Rattle.omega_cli_command.specs.Faulty.{IsFaulty};
ghost use Rattle.omega_cli_command.specs.Options.{GivesFormat, GivesNode, text_of};
ghost use Rattle.omega_cli_command.specs.Values.{Gives, GivesAtLeast, GivesBudget, GivesEffort, GivesFlag};
ghost use Rattle.omega_cli_command.specs.Values.{IsNumberText, IsPlayerText, IsSearcherText, IsTruthText};
ghost use Rattle.omega_cli_command.specs.declared.options.OptionName.TheVariants as name;
ghost use Rattle.omega_cli_command.specs.Flags.{IsNoTruth};

use crate::format::Format;
use crate::limits::{MOST_BUDGET, MOST_EFFORT};
use crate::mistake::{Mistake, Reason};
use crate::number::number_in;
use crate::options::{OptionName, Options};
use crate::searcher_name::SearcherName;
use omega_game_values::Player;
use omega_text::MOST_NUMBER;

/// Returns the kind of text, which has to be given.
pub fn format_in<'a>(options: &Options<'_, 'a>) -> Result<Format, Mistake<'a>>
    ensures given { IfOk result (GivesFormat options.now) }
    ensures faulty { IfErr result (IsFaulty name.Format options.now) }
{
    let Some(text) = options.format else {
        return Err(Mistake::Missing(OptionName::Format));
    };
    if text == "pg" {
        Ok(Format::Pg)
    } else if text == "hoa" {
        Ok(Format::Hoa)
    } else if text == "aiger" {
        Ok(Format::Aiger)
    } else {
        Err(Mistake::Value(OptionName::Format, text, Reason::NoFormat))
    }
}

/// Returns the name of the file of the other automaton, which has to be given.
pub fn other_in<'a>(options: &Options<'_, 'a>) -> Result<&'a str, Mistake<'a>>
    ensures given { IfOk result (λ file. text_of name.With options.now ≡ Some file.now) }
    ensures faulty { IfErr result (IsFaulty name.With options.now) }
{
    match options.with {
        Some(file) => Ok(file),
        None => Err(Mistake::Missing(OptionName::With)),
    }
}

/// Returns the player, if one is named.
pub fn player_in<'a>(options: &Options<'_, 'a>) -> Result<Option<Player>, Mistake<'a>>
    ensures given { IfOk result (Gives IsPlayerText (text_of name.Player options.now)) }
    ensures faulty { IfErr result (IsFaulty name.Player options.now) }
{
    let Some(text) = options.player else {
        return Ok(None);
    };
    match number_in(text, 0, 1) {
        Ok(number) => Ok(Player::of_number(number as u32)),
        Err(reason) => Err(Mistake::Value(OptionName::Player, text, reason)),
    }
}

/// Returns the identifier of the node whose part is meant, if one is named.
pub fn identifier_in<'a>(options: &Options<'_, 'a>) -> Result<Option<u32>, Mistake<'a>>
    ensures given { IfOk result (GivesNode options.now) }
    ensures faulty { IfErr result (IsFaulty name.From options.now) }
{
    let Some(text) = options.from else {
        return Ok(None);
    };
    match number_in(text, 0, u64::from(MOST_NUMBER)) {
        Ok(identifier) => Ok(Some(identifier as u32)),
        Err(reason) => Err(Mistake::Value(OptionName::From, text, reason)),
    }
}

/// Returns how many steps from that node the part goes, if that is given.
pub fn depth_in<'a>(options: &Options<'_, 'a>) -> Result<Option<u32>, Mistake<'a>>
    ensures given { IfOk result (Gives (IsNumberText 0 most_number) (text_of name.Depth options.now)) }
    ensures faulty { IfErr result (IsFaulty name.Depth options.now) }
{
    let Some(text) = options.depth else {
        return Ok(None);
    };
    match number_in(text, 0, u64::from(MOST_NUMBER)) {
        Ok(depth) => Ok(Some(depth as u32)),
        Err(reason) => Err(Mistake::Value(OptionName::Depth, text, reason)),
    }
}

/// Returns how many automata a stream is to have at least. The default is 0.
pub fn at_least_in<'a>(options: &Options<'_, 'a>) -> Result<u32, Mistake<'a>>
    ensures given { IfOk result (GivesAtLeast (text_of name.AtLeast options.now)) }
    ensures faulty { IfErr result (IsFaulty name.AtLeast options.now) }
{
    let Some(text) = options.at_least else {
        return Ok(0);
    };
    match number_in(text, 0, u64::from(MOST_NUMBER)) {
        Ok(count) => Ok(count as u32),
        Err(reason) => Err(Mistake::Value(OptionName::AtLeast, text, reason)),
    }
}

/// Whether the flag `option`, which has this text if it is given, is set.
pub fn is_set<'a>(option: OptionName, text: Option<&'a str>) -> Result<bool, Mistake<'a>>
    ensures given { IfOk result (GivesFlag (option_map (λ text. text.now) text.entry)) }
    ensures faulty { IfErr result (IsNoTruth option (option_map (λ text. text.now) text.entry)) }
{
    let Some(text) = text else {
        return Ok(false);
    };
    match truth_in(text) {
        Some(flag) => Ok(flag),
        None => Err(Mistake::Value(option, text, Reason::NoTruth)),
    }
}

/// Returns the value of a flag with the text `text`, if it has one.
fn truth_in(text: &str) -> Option<bool>
    ensures { MatchOption result ((flag : Bool) → IsTruthText text.now flag → ⊥)
        (IsTruthText text.now) }
{
    if text == "true" {
        Some(true)
    } else if text == "false" {
        Some(false)
    } else {
        None
    }
}

/// Returns the most lifts of each run. The default is the greatest budget.
pub fn budget_in<'a>(options: &Options<'_, 'a>) -> Result<u64, Mistake<'a>>
    ensures given { IfOk result (GivesBudget (text_of name.Budget options.now)) }
    ensures faulty { IfErr result (IsFaulty name.Budget options.now) }
{
    let Some(text) = options.budget else {
        return Ok(MOST_BUDGET);
    };
    match number_in(text, 0, MOST_BUDGET) {
        Ok(budget) => Ok(budget),
        Err(reason) => Err(Mistake::Value(OptionName::Budget, text, reason)),
    }
}

/// Returns the searcher that is to search alone, if one is named.
pub fn searcher_in<'a>(options: &Options<'_, 'a>) -> Result<Option<SearcherName>, Mistake<'a>>
    ensures given { IfOk result (Gives IsSearcherText (text_of name.By options.now)) }
    ensures faulty { IfErr result (IsFaulty name.By options.now) }
{
    let Some(text) = options.by else {
        return Ok(None);
    };
    if text == "zielonka" {
        Ok(Some(SearcherName::Zielonka))
    } else if text == "tangles" {
        Ok(Some(SearcherName::Tangles))
    } else {
        Err(Mistake::Value(OptionName::By, text, Reason::NoSearcher))
    }
}

/// Returns how many times as far each searcher may go. The default is 1.
pub fn effort_in<'a>(options: &Options<'_, 'a>) -> Result<u64, Mistake<'a>>
    ensures given { IfOk result (GivesEffort (text_of name.Effort options.now)) }
    ensures faulty { IfErr result (IsFaulty name.Effort options.now) }
{
    let Some(text) = options.effort else {
        return Ok(1);
    };
    match number_in(text, 1, MOST_EFFORT) {
        Ok(effort) => Ok(effort),
        Err(reason) => Err(Mistake::Value(OptionName::Effort, text, reason)),
    }
}
