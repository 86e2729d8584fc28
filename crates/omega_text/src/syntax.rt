/// A syntax of texts: a name for its definition in the laws about it.
pub trait TextSyntax {
    ghost use Rattle.omega_text.specs.Format.{GoesOneWay};
    ghost use Rattle.omega_text.specs.Syntax.{Syntax};

    /// What tokens are.
    ghost Kind: { Type 0 };

    /// What a grammar sees in a token.
    ghost Symbol: { Type 0 };

    /// What a text says, as it is written.
    ghost Raw: { Type 0 };

    /// How texts are cut, which symbols tokens are, and what symbols spell.
    ghost syntax: { Syntax Kind Symbol Raw };

    /// States that from each place a text goes on in one way, as the law of the kinds of tokens states.
    fn goes_on_one_way()
        ensures { GoesOneWay syntax.format };
}
