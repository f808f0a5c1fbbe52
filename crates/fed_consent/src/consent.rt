//! The consent, and all that makes one. A privacy reviewer reads this folder alone: `Picked`, `Prompt` and `Reselection` are the
//! only makers of a `Consent`, and a `Consent` is the only maker of the request that names the page to the provider. No other
//! module sees a field of these types.
//!
//! In reading order: `manner`, `chooser`, `picked`, `prompt`, `reselection`, `agreement`, `assertion`.

mod agreement;
mod assertion;
mod chooser;
mod manner;
mod picked;
mod prompt;
mod reselection;

pub use agreement::Consent;
pub use assertion::AssertionAsk;
pub use chooser::Chooser;
pub use manner::Manner;
pub use picked::Picked;
pub use prompt::Prompt;
pub use reselection::Reselection;
