use crate::kind::LassoKind;
use crate::token::next_lasso_token;
use omega_text::{TextFault, Token, TokenKind};

impl TokenKind for LassoKind {
    ghost use Rattle.omega_lang_lasso_text.specs.Format.{lasso_format};

    ghost format = { lasso_format };

    fn next_token(source: &[u8], at: usize) -> Result<Option<Token<'_, LassoKind>>, TextFault> {
        next_lasso_token(source, at)
    }

    fn plain_token(source: &[u8], at: usize) -> Option<Token<'_, LassoKind>> {
        match next_lasso_token(source, at) {
            Ok(found) => found,
            Err(_) => None,
        }
    }

    fn goes_on_one_way() {}
}
