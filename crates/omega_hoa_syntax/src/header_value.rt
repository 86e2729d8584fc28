use omega_text::ByteString;

/// A value of a header that the format leaves open (HOA v1, *Header*).
#[derive(Debug, Drop)]
pub enum HeaderValue {
    /// `t` or `f`.
    Boolean(bool),
    /// A number, at most 2,147,483,647.
    Number(u32),
    /// The bytes of a string between its quotes, as they are.
    Text(ByteString),
    /// An identifier.
    Word(ByteString),
}
