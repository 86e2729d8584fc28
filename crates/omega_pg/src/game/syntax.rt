use omega_text::{PgKind, TextSyntax, TokenKind};

/// The syntax of game texts, for their laws.
pub struct GameSyntax;

impl TextSyntax for GameSyntax {
    ghost use Rattle.omega_pg.specs.Symbols.{PgSymbol};
    ghost use Rattle.omega_text.specs.declared.pg.kind.PgKind.{PgKind};
    ghost use Rattle.omega_pg.specs.game.Grammar.{RawGame, game_syntax};

    ghost Kind = { PgKind };

    ghost Symbol = { PgSymbol };

    ghost Raw = { RawGame };

    ghost syntax = { game_syntax };

    fn goes_on_one_way() {
        PgKind::goes_on_one_way();
    }
}
