ghost use Rattle.std.specs.Prelude.{◌≡◌, IfOk, IsOkUnless};
ghost use Rattle.omega_lang_lasso_word.specs.LassoWordText.{lasso_word_text, words_over};

use crate::element_text::ElementText;
use crate::form::lasso_form;
use crate::letters::write_conjuncts;
use omega_hoa_label::Label;
use omega_text::{ByteString, Refusal, Seq, copy_of_strings};
use std::alloc::Global;

/// Words along a lasso, whose letters are conjunctions of labels. After the letters of the stem come those of the
/// cycle, again and again.
#[derive(Debug, PartialEq, Eq)]
pub struct LassoWord {
    /// The names of the propositions, by number.
    pub names: Seq<ByteString>,
    /// The letters of the stem, each as its conjuncts. There may be none.
    pub stem: Seq<Seq<Label>>,
    /// The letters of the cycle, likewise, at least one.
    pub cycle: Seq<Seq<Label>>,
}

impl Drop for LassoWord {
    fn drop(self) {
        let LassoWord {
            names: _,
            stem: _,
            cycle: _,
        } = self;
    }
}

impl LassoWord {
    /// Makes the words with the letters `stem` and `cycle` over `names`, which are copied.
    pub fn over(
        alloc: Global,
        names: &[ByteString],
        stem: Vec<Seq<Label>>,
        cycle: Vec<Seq<Label>>,
    ) -> Result<LassoWord, Refusal>
        ensures word { IfOk result (λ word. word ≡ words_over names.now stem.items cycle.items) }
        ensures memory { IsOkUnless result Refusal.Memory }
    {
        let names = copy_of_strings(alloc, names)?;
        Ok(LassoWord {
            names: Seq::from_vec(names),
            stem: Seq::from_vec(stem),
            cycle: Seq::from_vec(cycle),
        })
    }
}

/// Returns the text of `word`. As Spot writes words, it has the letters of the stem, a semicolon after each, and those
/// of the cycle in `cycle{..}`. A letter is `1` if anything goes, and names are written as [word_of](crate::word_of)
/// writes them. Linear in the labels.
pub fn lasso_word_text(alloc: Global, word: &LassoWord) -> Result<Vec<u8>, Refusal>
    ensures text { IfOk result (λ text. text.items ≡ lasso_word_text word.now) }
    ensures memory { IsOkUnless result Refusal.Memory }
{
    let conjunctions = Conjunctions {
        names: word.names.as_slice(),
    };
    lasso_form(
        alloc,
        &conjunctions,
        word.stem.as_slice(),
        word.cycle.as_slice(),
    )
}

/// The names by which conjunctions of labels are written.
#[derive(Clone, Copy)]
struct Conjunctions<'a> {
    names: &'a [ByteString],
}

impl<'a> ElementText<Seq<Label>> for Conjunctions<'a> {
    ghost use Rattle.omega_lang_lasso_word.specs.Letters.{conjunction_words};

    ghost can_tell = { λ _. Unit {0} };

    ghost told = { λ conjunctions. conjunction_words conjunctions.names.now };

    fn tell(&self, letter: &Seq<Label>, out: &mut Vec<u8>) -> Result<(), Refusal> {
        write_conjuncts(self.names, letter.as_slice(), out)
    }
}
