//! The bytes of a request.
ghost use Rattle.std.specs.Prelude.{◌≡◌, IfOk};
ghost use Rattle.fed_cookie.specs.SetCookie.{HasNoLineEnd};
ghost use Rattle.fed_origin.specs.Origin.{origin_text};
ghost use Rattle.fed_origin.specs.WebUrl.{path_query_of};
ghost use Rattle.fed_request.specs.Form.{metadata_target};
ghost use Rattle.fed_request.specs.Request.{request_bytes, host_field, TakesCookies};
ghost use Rattle.fed_request.specs.Text as spec;

use crate::form::{assertion_form, disconnect_form, push_metadata_target};
use crate::text::{
    begin_request, push_after_target, push_form_lines, push_last_lines, push_origin_line,
};
use fed_consent::Ask;
use fed_io::{Bytes, NoRoom, Text};
use fed_origin::{Origin, WebUrl};
use std::alloc::Global;

// Room for a GET beside the text of its URL, its cookies, the origin's host and the client: it takes 116 bytes at most.
const GET_LINES: usize = 116;

// Room for a POST beside the text of its URL, its cookies, the origin's host and the form: it takes 202 bytes at most.
const POST_LINES: usize = 202;

// A GET that does not say which page it is for.
#[tactic(auto, using(std::proofs::Common::append_assoc, crate::proofs::written::Lines::first_lines_written))]
fn get_text(alloc: Global, target: &str, to: &WebUrl, cookies: &[u8]) -> Result<Bytes, NoRoom>
    ensures { IfOk result (λ bytes. bytes ≡ spec.get_text target.now (host_field to.now) cookies.now) }
{
    let mut bytes = begin_request(alloc, b"GET ", to, GET_LINES.saturating_add(cookies.len()))?;
    bytes.extend_from_slice(target.as_bytes())?;
    push_after_target(&mut bytes, to)?;
    push_last_lines(&mut bytes, cookies)?;
    Ok(Bytes::from_vec(bytes))
}

// A GET that names the client and the origin of a page.
#[tactic(auto, using(std::proofs::Common::append_assoc, crate::proofs::written::Lines::first_lines_written))]
fn metadata_text(
    alloc: Global,
    to: &WebUrl,
    client: &Text,
    origin: &Origin,
) -> Result<Bytes, NoRoom>
    ensures { IfOk result (λ bytes. bytes ≡ spec.named_get_text (metadata_target to.now client.now) (host_field to.now) (origin_text
        origin.now)) }
{
    let room = GET_LINES
        .saturating_add(client.as_str().len())
        .saturating_add(origin.host.text.as_str().len());
    let mut bytes = begin_request(alloc, b"GET ", to, room)?;
    push_metadata_target(&mut bytes, to, client)?;
    push_after_target(&mut bytes, to)?;
    push_origin_line(&mut bytes, origin)?;
    push_last_lines(&mut bytes, b"")?;
    Ok(Bytes::from_vec(bytes))
}

// A POST of a form, which names the origin of a page. The form is made first, since its length stands before it.
#[tactic(auto, using(std::proofs::Common::append_assoc, crate::proofs::written::Lines::first_lines_written))]
fn post_text(
    alloc: Global,
    to: &WebUrl,
    origin: &Origin,
    form: &[u8],
    cookies: &[u8],
) -> Result<Bytes, NoRoom>
    ensures { IfOk result (λ bytes. bytes ≡ spec.post_text (path_query_of to.now) (host_field to.now) (origin_text origin.now) form.now
        cookies.now) }
{
    let room = POST_LINES
        .saturating_add(origin.host.text.as_str().len())
        .saturating_add(form.len())
        .saturating_add(cookies.len());
    let mut bytes = begin_request(alloc, b"POST ", to, room)?;
    bytes.extend_from_slice(to.path_query().as_bytes())?;
    push_after_target(&mut bytes, to)?;
    push_origin_line(&mut bytes, origin)?;
    push_form_lines(&mut bytes, form)?;
    push_last_lines(&mut bytes, cookies)?;
    bytes.extend_from_slice(form)?;
    Ok(Bytes::from_vec(bytes))
}

/// The bytes of a request, whole, with these cookies as the value of its Cookie field, which stands where they are not
/// empty (RFC 9112, 2.1; RFC 6265, 5.4; which fields stand, and in which order, is this profile's own). The cookies hold
/// no line end, and only a request for accounts, for a token or to disconnect takes any.
pub fn build(alloc: Global, ask: &Ask, cookies: &[u8]) -> Result<Bytes, NoRoom>
    requires line { HasNoLineEnd cookies.now }
    requires taken { TakesCookies ask.now cookies.now }
    ensures { IfOk result (λ bytes. bytes ≡ request_bytes ask.now cookies.now) }
{
    match ask {
        Ask::WellKnown { to } => get_text(alloc, "/.well-known/web-identity", to, b""),
        Ask::Config { to } => get_text(alloc, to.path_query(), to, b""),
        Ask::Accounts { to } => get_text(alloc, to.path_query(), to, cookies),
        Ask::Metadata { to, client, origin } => metadata_text(alloc, to, client, origin.get()),
        Ask::Assertion(ask) => {
            let form = assertion_form(alloc, ask)?;
            post_text(alloc, ask.to(), ask.origin(), form.as_slice(), cookies)
        }
        Ask::Disconnect {
            to,
            client,
            hint,
            origin,
        } => {
            let form = disconnect_form(alloc, client, hint.get())?;
            post_text(alloc, to, origin.get(), form.as_slice(), cookies)
        }
    }
}
