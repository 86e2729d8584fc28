use super::kind::PgKind;
use super::token::next_pg_token;
use crate::refusal::TextFault;
use crate::token::Token;
use crate::token_kind::TokenKind;

impl TokenKind for PgKind {
    ghost use Rattle.omega_text.specs.pg.Format.{pg_format};

    ghost format = { pg_format };

    #[inline(always)]
    fn next_token(source: &[u8], at: usize) -> Result<Option<Token<'_, PgKind>>, TextFault> {
        next_pg_token(source, at)
    }

    #[inline(always)]
    fn plain_token(source: &[u8], at: usize) -> Option<Token<'_, PgKind>> {
        match next_pg_token(source, at) {
            Ok(found) => found,
            Err(_) => None,
        }
    }

    fn goes_on_one_way() {}
}
