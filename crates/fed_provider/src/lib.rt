//! The files of a provider: its well-known file, its configuration and a client's metadata.
#![tactic(auto)]

mod config;
mod first_replies;
pub mod laws;
mod listed;
mod metadata;
mod rules;
mod step;
mod wellknown;

pub use config::{Config, SharedConfig, read_config};
pub use first_replies::{FirstReplies, Heard};
/// The endpoint that a step names.
pub use fed_origin::Endpoint;
pub use metadata::{PolicyLinks, read_metadata, read_metadata_with};
pub use rules::Rules;
pub use step::ProviderStep;
pub use wellknown::{WellKnown, agrees, read_wellknown, site_url, wellknown_url};
