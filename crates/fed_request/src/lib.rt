//! The bytes of a request (HTTP/1.1, RFC 9112; FedCM, "Identity provider HTTP API").
#![tactic(auto)]

mod form;
mod request;
mod text;

pub use request::build;
