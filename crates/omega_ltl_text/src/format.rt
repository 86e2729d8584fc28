use crate::kind::FormulaKind;
use crate::token::next_formula_token;
use omega_text::{TextFault, Token, TokenKind};

impl TokenKind for FormulaKind {
    ghost use Rattle.omega_ltl_text.specs.Cut.{formula_format};

    ghost format = { formula_format };

    fn next_token(source: &[u8], at: usize) -> Result<Option<Token<'_, FormulaKind>>, TextFault> {
        next_formula_token(source, at)
    }

    fn plain_token(source: &[u8], at: usize) -> Option<Token<'_, FormulaKind>> {
        match next_formula_token(source, at) {
            Ok(found) => found,
            Err(_) => None,
        }
    }

    fn goes_on_one_way() {}
}
