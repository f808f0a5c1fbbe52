//! Origins, URLs of the web and the plain types of a call.
#![tactic(auto)]

mod host;
pub mod laws;
mod layout;
mod options;
mod origin;
mod plain;
mod refusal;
mod scheme;
mod slot;
mod stage;
mod status;
mod web_url;

pub use host::{Host, HostKind};
pub use options::{Context, GetOptions, Mediation, Mode, ProviderOptions};
pub use origin::{Origin, SharedOrigin};
pub use refusal::UrlRefusal;
pub use scheme::Scheme;
pub use slot::{SLOTS, slot_of};
pub use stage::{Endpoint, ReplyKind, Stage};
pub use status::{LoginStatus, Triple};
pub use web_url::WebUrl;
