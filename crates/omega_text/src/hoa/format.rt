use super::kind::HoaKind;
use super::token::{next_hoa_token, plain_hoa_token};
use crate::refusal::TextFault;
use crate::token::Token;
use crate::token_kind::TokenKind;

impl TokenKind for HoaKind {
    ghost use Rattle.omega_text.specs.hoa.Format.{hoa_format};

    ghost format = { hoa_format };

    #[inline(always)]
    fn next_token(source: &[u8], at: usize) -> Result<Option<Token<'_, HoaKind>>, TextFault> {
        next_hoa_token(source, at)
    }

    #[inline(always)]
    fn plain_token(source: &[u8], at: usize) -> Option<Token<'_, HoaKind>> {
        plain_hoa_token(source, at)
    }

    fn goes_on_one_way() {}
}
