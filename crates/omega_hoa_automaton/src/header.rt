use omega_hoa_syntax::HeaderValue;
use omega_text::{ByteString, Seq};

/// A header that the format leaves open (HOA v1, *Header*), whose name begins with no capital.
#[derive(Debug)]
pub struct Header {
    /// The name without its colon.
    pub name: ByteString,
    /// The values in the order written.
    pub values: Seq<HeaderValue>,
}

impl Drop for Header {
    fn drop(self) {
        let Header { name: _, values: _ } = self;
    }
}
