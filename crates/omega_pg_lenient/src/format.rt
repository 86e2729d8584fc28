use crate::kind::LenientKind;
use crate::token::next_lenient_token;
use omega_text::{PgKind, TextFault, Token, TokenKind};

impl TokenKind for LenientKind {
    ghost use Rattle.omega_pg_lenient.specs.Format.{lenient_format};

    ghost format = { lenient_format };

    fn next_token(source: &[u8], at: usize) -> Result<Option<Token<'_, LenientKind>>, TextFault> {
        PgKind::goes_on_one_way();
        next_lenient_token(source, at)
    }

    fn plain_token(source: &[u8], at: usize) -> Option<Token<'_, LenientKind>> {
        PgKind::goes_on_one_way();
        match next_lenient_token(source, at) {
            Ok(found) => found,
            Err(_) => None,
        }
    }

    fn goes_on_one_way() {
        PgKind::goes_on_one_way();
    }
}
