//! Laws of the texts of every format and syntax, for callers' proofs. Each function does nothing and states one law.

ghost use Rattle.omega_text.specs.Cut.{CutOrFault, CutsAreOne, CutsHaveNoFault, CutsJoin, FaultsAreOne};
ghost use Rattle.omega_text.specs.Syntax.{IsDecidable, SyntaxFaultsAreFirst, TextFaultsAreOne};
ghost use Rattle.omega_text.specs.Syntax.{TextsAreReadOrFaulty, TextsHaveNoFault};

pub use crate::limits::text_limits_are_stated;
use crate::syntax::TextSyntax;
use crate::token_kind::TokenKind;

/// States that a text has at most one cut into tokens.
pub fn cuts_are_one<K: TokenKind>()
    ensures { CutsAreOne K.format }
{
    K::goes_on_one_way();
}

/// States that a text has at most one fault at its least place.
pub fn faults_are_one<K: TokenKind>()
    ensures { FaultsAreOne K.format }
{
    K::goes_on_one_way();
}

/// States that a text has a cut or a fault.
pub fn cut_or_fault<K: TokenKind>()
    ensures { CutOrFault K.format }
{
    K::goes_on_one_way();
}

/// States that a text that has a cut has no fault.
pub fn cuts_have_no_fault<K: TokenKind>()
    ensures { CutsHaveNoFault K.format }
{
    K::goes_on_one_way();
}

/// States that cuts are joined end to end.
pub fn cuts_join<K: TokenKind>()
    ensures { CutsJoin K.format }
{}

/// States that a text has at most one fault by a syntax.
pub fn text_faults_are_one<S: TextSyntax>()
    ensures { TextFaultsAreOne S.syntax }
{
    S::goes_on_one_way();
}

/// States that a text within the limit that spells something has no fault.
pub fn texts_have_no_fault<S: TextSyntax>()
    ensures { TextsHaveNoFault S.syntax }
{
    S::goes_on_one_way();
}

/// States that a text of the grammar begins through each token before the place of a syntax fault, and through no
/// other.
pub fn syntax_faults_are_first<S: TextSyntax>()
    ensures { SyntaxFaultsAreFirst S.syntax }
{
    S::goes_on_one_way();
}

/// States that each text within the limit spells something or has a fault, if the syntax is decided.
pub fn texts_are_read_or_faulty<S: TextSyntax>()
    ensures { IsDecidable S.syntax → TextsAreReadOrFaulty S.syntax }
{
    S::goes_on_one_way();
}
