ghost use Rattle.std.specs.Prelude.{◌≡◌};
ghost use Rattle.clap.specs.Words.{first_of, found_of, rows_of};
ghost use Rattle.omega_cli.specs.Found.{given_formulas, id_of};
ghost use Rattle.omega_cli_command.specs.declared.options.OptionName.{OptionName};
ghost use Rattle.omega_cli_command.specs.Options.{formulas_of, text_of};

use clap::ArgMatches;
use omega_cli_command::Options;

/// Returns the texts of the options and of the operand that `clap` found after a subcommand.
pub fn options_in<'m, 'a>(found: &'m ArgMatches<'a>) -> Options<'m, 'a>
    ensures texts { (name : OptionName)
        → text_of name result ≡ first_of (id_of name) (rows_of (found_of found.now)) }
    ensures formulas { formulas_of result ≡ given_formulas (rows_of (found_of found.now)) }
{
    Options {
        format: found.get_str("format"),
        player: found.get_str("player"),
        from: found.get_str("from"),
        budget: found.get_str("budget"),
        search: found.get_str("search"),
        by: found.get_str("by"),
        effort: found.get_str("effort"),
        game: found.get_str("game"),
        automaton: found.get_str("automaton"),
        specification: found.get_str("specification"),
        counter_strategy: found.get_str("counter-strategy"),
        explain: found.get_str("explain"),
        names: found.get_str("names"),
        word: found.get_str("word"),
        word_text: found.get_str("word-text"),
        for_some: found.get_str("some"),
        formulas: found.get_strs("formula"),
        outs: found.get_str("outs"),
        ins: found.get_str("ins"),
        negated: found.get_str("negated"),
        deterministic: found.get_str("deterministic"),
        status: found.get_str("status"),
        with: found.get_str("with"),
        trim: found.get_str("trim"),
        within: found.get_str("in"),
        to: found.get_str("to"),
        controller: found.get_str("controller"),
        as_game: found.get_str("as-game"),
        aiger: found.get_str("aiger"),
        binary: found.get_str("binary"),
        lift: found.get_str("lift"),
        solution: found.get_str("solution"),
        walk: found.get_str("walk"),
        legend: found.get_str("legend"),
        lasso: found.get_str("lasso"),
        depth: found.get_str("depth"),
        progress: found.get_str("progress"),
        stream: found.get_str("stream"),
        at_least: found.get_str("at-least"),
        winners: found.get_str("winners"),
        min: found.get_str("min"),
        json: found.get_str("json"),
        lenient: found.get_str("lenient"),
        verbose: found.get_str("verbose"),
        file: found.get_str("file"),
    }
}
