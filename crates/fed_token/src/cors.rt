//! The CORS check.
ghost use Rattle.std.specs.Prelude.{◌≡◌};
ghost use Rattle.fed_token.specs.Cors as spec;

use fed_reply::Reply;

/// The field that names the origin that may read a reply.
pub(crate) const ALLOW_ORIGIN: &str = "access-control-allow-origin";

/// The field that says that it may read it with credentials.
pub(crate) const ALLOW_CREDENTIALS: &str = "access-control-allow-credentials";

/// Whether a reply allows a page of the serialized origin to read it with credentials (Fetch, "CORS
/// check"; that each field stands once, and that `*` allows nothing, is this profile's own): there
/// is exactly one `Access-Control-Allow-Origin`, which is the origin byte for byte, and exactly one
/// `Access-Control-Allow-Credentials`, which is `true`. It takes no memory.
#[tactic(auto, unfolding(crate::specs::Cors::CorsPasses))]
pub fn cors_passes(reply: &Reply, origin: &[u8]) -> bool
    ensures { result ≡ spec.CorsPasses origin.now reply.now }
{
    reply.has_only(ALLOW_ORIGIN, origin) && reply.has_only(ALLOW_CREDENTIALS, b"true")
}
