//! What all calls look at.

use crate::{KeptSet, LoginMap, SilentFlags};
use fed_provider::Rules;

/// What all calls look at and none of them changes by itself.
#[derive(Clone, Copy)]
pub struct Shared<'a> {
    /// The public suffix rules, with what was made by them last.
    pub rules: &'a Rules,
    /// The login statuses of providers.
    pub login: &'a LoginMap,
    /// The kept permissions.
    pub kept: &'a KeptSet,
    /// The origins whose pages choose no account without the user.
    pub flags: &'a SilentFlags,
}
