use crate::kind::LassoKind;
use omega_text::{TextSyntax, TokenKind};

/// The syntax of lasso texts, for the laws of syntaxes.
pub(crate) struct LassoSyntax;

impl TextSyntax for LassoSyntax {
    ghost use Rattle.omega_lang_lasso_text.specs.Symbols.{LassoSymbol};
    ghost use Rattle.omega_lang_lasso_text.specs.declared.kind.LassoKind.{LassoKind};
    ghost use Rattle.omega_lang_lasso_text.specs.declared.lasso.LassoText.{LassoText};
    ghost use Rattle.omega_lang_lasso_text.specs.Grammar.{lasso_syntax};

    ghost Kind = { LassoKind };

    ghost Symbol = { LassoSymbol };

    ghost Raw = { LassoText };

    ghost syntax = { lasso_syntax };

    fn goes_on_one_way() {
        LassoKind::goes_on_one_way();
    }
}
