use omega_text::{PgKind, TextSyntax, TokenKind};

/// The syntax of solution texts, for their laws.
pub struct SolutionSyntax;

impl TextSyntax for SolutionSyntax {
    ghost use Rattle.omega_pg.specs.Symbols.{PgSymbol};
    ghost use Rattle.omega_text.specs.declared.pg.kind.PgKind.{PgKind};
    ghost use Rattle.omega_pg.specs.solution.Grammar.{RawSolution, solution_syntax};

    ghost Kind = { PgKind };

    ghost Symbol = { PgSymbol };

    ghost Raw = { RawSolution };

    ghost syntax = { solution_syntax };

    fn goes_on_one_way() {
        PgKind::goes_on_one_way();
    }
}
