/// The kind of a token of a PGSolver text.
#[derive(Clone, Copy, Debug, PartialEq, Eq)]
pub enum PgKind {
    /// A number, from 0 to `MOST_NUMBER`.
    Number,
    /// The word `parity`, which begins the header of a game text.
    Parity,
    /// The word `paritysol`, which begins the header of a solution text.
    ParitySol,
    /// The sign `;`.
    Semicolon,
    /// The sign `,`.
    Comma,
    /// A name between double quotes.
    Name,
}
