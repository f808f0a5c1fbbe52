//! Forms (URL 5.2).
ghost use Rattle.std.specs.Prelude.{◌≡◌, ◌++◌, IfOk, OnOk};
ghost use Rattle.std.specs.Option.{option_copied};
ghost use Rattle.form_urlencoded.specs.Form as urlencoded;
ghost use Rattle.fed_request.specs.Form as spec;

use fed_consent::AssertionAsk;
use fed_io::{NoRoom, Text};
use fed_origin::WebUrl;
use form_urlencoded::byte_serialize;
use std::alloc::Global;

// Room for the names of a form, what stands between its pairs, and a few escapes.
const NAMES: usize = 128;

// Adds a pair: what stands before its value, as `&nonce=`, and the value as a form writes it. The names are literals as
// the library writes them, which is proved, and the value's pieces go straight into the buffer: this saves the library's
// look at each name, and the text that its serializer of pairs owns and grows.
#[tactic(auto, using(std::proofs::Common::append_assoc))]
fn push_pair(form: &mut Vec<u8>, lead: &[u8], value: &Text) -> Result<(), NoRoom>
    ensures { OnOk result (form.new.items ≡ form.old.items ++ (lead.now ++ urlencoded.byte_serialize value.now)) }
{
    form.extend_from_slice(lead)?;
    for piece in byte_serialize(value.as_str().as_bytes()) {
        form.extend_from_slice(piece.as_bytes())?;
    }
    Ok(())
}

// Adds a pair where there is a value.
fn push_optional_pair(form: &mut Vec<u8>, lead: &[u8], value: Option<&Text>) -> Result<(), NoRoom>
    ensures { OnOk result (form.new.items ≡ form.old.items ++ spec.optional_pair lead.now (option_copied value.entry)) }
{
    match value {
        Some(value) => push_pair(form, lead, value),
        None => Ok(()),
    }
}

fn truth_text(truth: bool) -> &'static str
    ensures { result.now ≡ spec.truth_text truth }
{
    if truth { "true" } else { "false" }
}

// Adds a query, and `&` after it where it is not empty.
fn push_query(target: &mut Vec<u8>, query: &str) -> Result<(), NoRoom>
    ensures { OnOk result (target.new.items ≡ target.old.items ++ (query.now ++ urlencoded.separator query.now)) }
{
    if query.is_empty() {
        return Ok(());
    }
    target.extend_from_slice(query.as_bytes())?;
    target.extend_from_slice(b"&")?;
    Ok(())
}

/// Adds the target of a metadata request: the endpoint's path and query, with the client in the query.
#[tactic(auto, using(std::proofs::Common::append_assoc, crate::proofs::written::Forms::client_pair))]
pub fn push_metadata_target(target: &mut Vec<u8>, to: &WebUrl, client: &Text) -> Result<(), NoRoom>
    ensures { OnOk result (target.new.items ≡ target.old.items ++ spec.metadata_target to.now client.now) }
{
    target.extend_from_slice(to.path().as_bytes())?;
    target.extend_from_slice(b"?")?;
    push_query(target, to.query().unwrap_or(""))?;
    push_pair(target, b"client_id=", client)
}

// Adds how the user took part.
fn push_manner(form: &mut Vec<u8>, ask: &AssertionAsk) -> Result<(), NoRoom>
    ensures { OnOk result (form.new.items ≡ form.old.items ++ spec.manner_pairs ask.now) }
{
    form.extend_from_slice(b"&disclosure_text_shown=")?;
    form.extend_from_slice(truth_text(ask.disclosure()).as_bytes())?;
    form.extend_from_slice(b"&is_auto_selected=")?;
    form.extend_from_slice(truth_text(ask.auto()).as_bytes())?;
    Ok(())
}

fn text_len(text: Option<&Text>) -> usize {
    match text {
        Some(text) => text.as_str().len(),
        None => 0,
    }
}

/// The form of an assertion request.
#[tactic(auto, using(crate::proofs::written::Forms::assertion_form_written))]
pub fn assertion_form(alloc: Global, ask: &AssertionAsk) -> Result<Vec<u8>, NoRoom>
    ensures { IfOk result (λ form. form.items ≡ spec.assertion_form ask.now) }
{
    let room = NAMES
        .saturating_add(ask.client().as_str().len())
        .saturating_add(text_len(ask.nonce()))
        .saturating_add(ask.account().as_str().len())
        .saturating_add(text_len(ask.params()));
    let mut form = Vec::with_capacity(alloc, room)?;
    push_pair(&mut form, b"client_id=", ask.client())?;
    push_optional_pair(&mut form, b"&nonce=", ask.nonce())?;
    push_pair(&mut form, b"&account_id=", ask.account())?;
    push_manner(&mut form, ask)?;
    push_optional_pair(&mut form, b"&params=", ask.params())?;
    Ok(form)
}

/// The form of a disconnect request.
#[tactic(auto, using(crate::proofs::written::Forms::disconnect_form_written))]
pub fn disconnect_form(alloc: Global, client: &Text, hint: &Text) -> Result<Vec<u8>, NoRoom>
    ensures { IfOk result (λ form. form.items ≡ spec.disconnect_form client.now hint.now) }
{
    let room = NAMES
        .saturating_add(client.as_str().len())
        .saturating_add(hint.as_str().len());
    let mut form = Vec::with_capacity(alloc, room)?;
    push_pair(&mut form, b"client_id=", client)?;
    push_pair(&mut form, b"&account_hint=", hint)?;
    Ok(form)
}
