use crate::kind::LenientKind;
use omega_text::{TextSyntax, TokenKind};

/// The syntax of lenient texts, for their laws.
pub(crate) struct LenientSyntax;

impl TextSyntax for LenientSyntax {
    ghost use Rattle.std.specs.Prelude.{List};
    ghost use Rattle.omega_game_values.specs.declared.node_spec.NodeSpec.{NodeSpec};
    ghost use Rattle.omega_pg_lenient.specs.Grammar.{lenient_syntax};
    ghost use Rattle.omega_pg_lenient.specs.Symbols.{LenientSymbol};
    ghost use Rattle.omega_pg_lenient.specs.declared.kind.LenientKind.{LenientKind};

    ghost Kind = { LenientKind };

    ghost Symbol = { LenientSymbol };

    ghost Raw = { List NodeSpec };

    ghost syntax = { lenient_syntax };

    fn goes_on_one_way() {
        LenientKind::goes_on_one_way();
    }
}
