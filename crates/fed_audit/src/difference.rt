//! What a comparison finds.

use crate::aspect::{About, Aspect};
use fed_io::Bytes;

/// Where a transcript first leaves this program's own.
#[derive(Drop)]
pub struct Difference {
    /// The line of the event whose row it is; of a line that is no record its own number.
    pub line: u32,
    /// Which request or token; none of a line that is no record.
    pub about: Option<About>,
    pub aspect: Aspect,
    /// The value that is due, where one is.
    pub due: Option<Bytes>,
}

/// What a comparison comes to.
#[derive(Drop)]
pub enum Comparison {
    /// Each request and each token is this program's own; so many requests are compared.
    Alike(u64),
    Differs(Difference),
}
