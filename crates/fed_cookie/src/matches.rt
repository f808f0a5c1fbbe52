//! Which paths and hosts a cookie's path and domain match (RFC 6265, 5.1.3 and 5.1.4).
ghost use Rattle.std.specs.Prelude.{◌≡◌, ◌∷◌, nat_eq, count_by};
ghost use Rattle.std.specs.List.{ends_with};
ghost use Rattle.fed_cookie.specs.Matches as spec;

use fed_origin::{Host, HostKind};

/// The path of a cookie whose field names none: the path of the URL up to its last `/`, without
/// it, or `/` where the URL's path has at most one (RFC 6265, 5.1.4). It takes no memory.
#[tactic(auto, unfolding(crate::specs::Matches::default_path))]
pub fn default_path(path: &[u8]) -> &[u8]
    ensures { result.now ≡ spec.default_path path.now }
{
    if slash_count(path) < 2 {
        return b"/";
    }
    let mut end = path.len();
    while end > 0 && path[end - 1] != b'/' {
        end -= 1;
    }
    &path[..end.saturating_sub(1)]
}

fn slash_count(path: &[u8]) -> usize
    ensures { result ≡ count_by spec.is_slash path.now }
{
    path.iter().filter(|b| **b == b'/').count()
}

/// Whether a cookie of the path `cookie` goes to the path `request`: both are equal, or `cookie`
/// is in front of `request` and a `/` ends it or follows it (RFC 6265, 5.1.4). It takes no memory.
#[tactic(auto, unfolding(crate::specs::Matches::path_matches))]
pub fn path_matches(request: &[u8], cookie: &[u8]) -> bool
    ensures { result ≡ spec.path_matches request.now cookie.now }
{
    request == cookie
        || (request.starts_with(cookie)
            && (cookie.last() == Some(&b'/') || request.get(cookie.len()) == Some(&b'/')))
}

/// Whether the host is the domain, or a name that ends in a dot and the domain (RFC 6265, 5.1.3).
/// It takes no memory.
#[tactic(auto, unfolding(crate::specs::Matches::domain_matches))]
pub fn domain_matches(host: &Host, domain: &[u8]) -> bool
    ensures { result ≡ spec.domain_matches host.now domain.now }
{
    let text = host.text.as_str().as_bytes();
    if text == domain {
        return true;
    }
    host.kind == HostKind::Name && ends_in_label(text, domain)
}

// Whether the text ends in a dot and the domain.
fn ends_in_label(text: &[u8], domain: &[u8]) -> bool
    ensures { result ≡ ends_with nat_eq text.now (46 ∷ domain.now) }
{
    if text.len() <= domain.len() {
        return false;
    }
    let start = text.len() - domain.len();
    text[start - 1] == b'.' && text.ends_with(domain)
}
