use omega_text::{PgKind, TextSyntax, TokenKind};

/// The syntax of all texts that can be cut into tokens, for the laws of texts.
pub(crate) struct AnySyntax;

impl TextSyntax for AnySyntax {
    ghost use Rattle.omega_pg.specs.Symbols.{PgSymbol};
    ghost use Rattle.omega_text.specs.declared.pg.kind.PgKind.{PgKind};
    ghost use Rattle.omega_pg_diagnostics.specs.private.AnyText.{any_syntax};

    ghost Kind = { PgKind };

    ghost Symbol = { PgSymbol };

    ghost Raw = { Unit {0} };

    ghost syntax = { any_syntax };

    fn goes_on_one_way() {
        PgKind::goes_on_one_way();
    }
}
