ghost use Rattle.std.specs.Prelude.{◌≡◌};

/// The decision on a strategy, which is followed from the places that are reached.
#[derive(Clone, Copy)]
pub(crate) enum Decision {
    /// It wins.
    Wins,
    /// It loses at this place, which bears a losing priority and recurs.
    Loses(u32),
}

impl Decision {
    ghost use Rattle.omega_game.specs.private.checking.Decision.{is_won};

    /// Whether the strategy wins.
    pub(crate) fn is_won(self) -> bool
        ensures { result ≡ is_won self }
    {
        matches!(self, Decision::Wins)
    }
}
