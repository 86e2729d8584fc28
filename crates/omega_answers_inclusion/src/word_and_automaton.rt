ghost use Rattle.std.specs.Prelude.{IfErr, IfOk};
ghost use Rattle.omega_hoa.specs.Alone.{IsAutomatonText};
ghost use Rattle.omega_lang_word_text.specs.Text.{IsWordText};
ghost use Rattle.omega_answers_inclusion.specs.Accepts.{IsWordOrAutomatonUnread};

use omega_hoa::read_one;
use omega_hoa_automaton::Automaton;
use omega_io::{Refused, Which};
use omega_lang_lasso_word::SymbolicWord;
use omega_lang_word_text::read_word;
use std::alloc::Global;

/// The word of one text, and the automaton of another.
#[derive(Drop)]
pub(crate) struct WordAndAutomaton {
    pub(crate) symbolic: SymbolicWord,
    pub(crate) automaton: Automaton,
}

/// Reads the word of `word`, which a refusal calls the file, and then the automaton of `text`, which it calls the
/// input. Fails with the [Refusal::Text] or [Refusal::Automaton] of the first of the two that is refused.
pub(crate) fn read_word_and_automaton(
    alloc: Global,
    word: &[u8],
    text: &[u8],
) -> Result<WordAndAutomaton, Refused>
    ensures word { IfOk result (λ read. IsWordText word.now read.symbolic) }
    ensures automaton { IfOk result (λ read. IsAutomatonText text.now read.automaton) }
    ensures refused { IfErr result (IsWordOrAutomatonUnread word.now text.now) }
{
    match read_word(alloc, word) {
        Ok(symbolic) => match read_one(alloc, text) {
            Ok(automaton) => Ok(WordAndAutomaton {
                symbolic,
                automaton,
            }),
            Err(refusal) => Err(Refused::of(Which::Input, refusal)),
        },
        Err(refusal) => Err(Refused::of(Which::File, refusal)),
    }
}
