//! What of a record differs from this program's own.
ghost use Rattle.std.specs.Prelude.{◌≡◌, List, ℕ, Some, None, IfOk};
ghost use Rattle.std.specs.Option.{option_copied};
ghost use Rattle.fed_audit.specs.Differ as spec;
ghost use Rattle.fed_audit.specs.Front.{Front, IsRead, fields_read};

use crate::aspect::Aspect;
use crate::form::{is_member_due, member_of};
use crate::front::front_at;
use crate::parts::Request;
use fed_io::{Bytes, NoRoom, Text};
use fed_origin::ReplyKind;
use httparse::spans::EMPTY_HEADER_SPAN;
use itoa::Buffer;
use std::alloc::Global;

/// What differs, and the value that is due there, if one is.
#[derive(Drop)]
pub(crate) struct Finding {
    pub aspect: Aspect,
    pub due: Option<Bytes>,
}

impl Finding {
    /// No value is due.
    pub(crate) fn bare(aspect: Aspect) -> Finding
        ensures { result ≡ record { aspect = aspect; due = None } }
    {
        Finding { aspect, due: None }
    }

    // This value is due.
    fn due(alloc: Global, aspect: Aspect, value: &[u8]) -> Result<Finding, NoRoom>
        ensures { IfOk result (λ found. found ≡ record { aspect = aspect; due = Some value.now }) }
    {
        Ok(Finding {
            aspect,
            due: Some(Bytes::of(alloc, value)?),
        })
    }
}

// A part of a request, where it differs from the one that is due.
fn part(alloc: Global, aspect: Aspect, due: &[u8], said: &[u8]) -> Result<Option<Finding>, NoRoom>
    ensures { IfOk result (λ found. found ≡ spec.part aspect due.now said.now) }
{
    if due == said {
        return Ok(None);
    }
    Ok(Some(Finding::due(alloc, aspect, due)?))
}

// A field, where it does not stand as it is due.
fn field(
    alloc: Global,
    aspect: Aspect,
    due: Option<&[u8]>,
    said: &Request<'_>,
) -> Result<Option<Finding>, NoRoom>
    ensures { IfOk result (λ found. found
        ≡ spec.values aspect (option_copied due.entry) (spec.named aspect (fields_read said.now))) }
{
    if said.are_due(aspect.as_str().as_bytes(), due) {
        return Ok(None);
    }
    match due {
        Some(value) => Ok(Some(Finding::due(alloc, aspect, value)?)),
        None => Ok(Some(Finding::bare(aspect))),
    }
}

// A field, where it does not stand as in the own request.
fn own_field(
    alloc: Global,
    aspect: Aspect,
    own: &Request<'_>,
    said: &Request<'_>,
) -> Result<Option<Finding>, NoRoom>
    ensures { IfOk result (λ found. found ≡ spec.field (fields_read own.now) (fields_read said.now) aspect) }
{
    let due = own.first_value(aspect.as_str().as_bytes());
    field(alloc, aspect, due, said)
}

// The first field of these that does not stand as in the own request.
fn first_field(
    alloc: Global,
    aspects: &[Aspect],
    own: &Request<'_>,
    said: &Request<'_>,
) -> Result<Option<Finding>, NoRoom>
    ensures { IfOk result (λ found. found
        ≡ spec.first_found (spec.field (fields_read own.now) (fields_read said.now)) aspects.now) }
{
    for aspect in aspects {
        let found = own_field(alloc, *aspect, own, said)?;
        if found.is_some() {
            return Ok(found);
        }
    }
    Ok(None)
}

// The length of a form, where it does not stand as it is due: it is that of the body that stands there.
fn length_field(
    alloc: Global,
    own: &Request<'_>,
    said: &Request<'_>,
) -> Result<Option<Finding>, NoRoom>
    ensures { IfOk result (λ found. found ≡ spec.length_field (fields_read own.now) (fields_read said.now) said.now.body.now) }
{
    let aspect = Aspect::ContentLength;
    if own.first_value(aspect.as_str().as_bytes()).is_none() {
        return field(alloc, aspect, None, said);
    }
    let mut buffer = Buffer::new();
    let length = buffer.format(said.body.len());
    field(alloc, aspect, Some(length.as_bytes()), said)
}

// The first field of the profile that does not stand as it is due.
fn fields(alloc: Global, own: &Request<'_>, said: &Request<'_>) -> Result<Option<Finding>, NoRoom>
    ensures { IfOk result (λ found. found ≡ spec.fields (fields_read own.now) (fields_read said.now) said.now.body.now) }
{
    let first = [
        Aspect::Host,
        Aspect::Accept,
        Aspect::Destination,
        Aspect::Origin,
        Aspect::ContentType,
    ];
    let found = first_field(alloc, &first, own, said)?;
    if found.is_some() {
        return Ok(found);
    }
    let found = length_field(alloc, own, said)?;
    if found.is_some() {
        return Ok(found);
    }
    first_field(alloc, &[Aspect::Cookie], own, said)
}

// A member of a form, where it does not stand as it is due.
fn member(alloc: Global, aspect: Aspect, own: &[u8], said: &[u8]) -> Result<Option<Finding>, NoRoom>
    ensures { IfOk result (λ found. found ≡ spec.member own.now said.now aspect) }
{
    let due: Option<Text> = member_of(alloc, own, aspect.as_str())?;
    if is_member_due(alloc, said, aspect.as_str(), &due)? {
        return Ok(None);
    }
    match due {
        Some(value) => Ok(Some(Finding::due(alloc, aspect, value.as_str().as_bytes())?)),
        None => Ok(Some(Finding::bare(aspect))),
    }
}

// The first member of the profile's forms that does not stand as in the own form.
fn members(alloc: Global, own: &[u8], said: &[u8]) -> Result<Option<Finding>, NoRoom>
    ensures { IfOk result (λ found. found ≡ spec.first_found (spec.member own.now said.now) spec.form_members) }
{
    let aspects = [
        Aspect::Client,
        Aspect::Nonce,
        Aspect::Account,
        Aspect::Disclosure,
        Aspect::Selected,
        Aspect::Params,
        Aspect::Hint,
    ];
    first_member(alloc, &aspects, own, said)
}

// The first member of these that does not stand as in the own form.
fn first_member(
    alloc: Global,
    aspects: &[Aspect],
    own: &[u8],
    said: &[u8],
) -> Result<Option<Finding>, NoRoom>
    ensures { IfOk result (λ found. found ≡ spec.first_found (spec.member own.now said.now) aspects.now) }
{
    for aspect in aspects {
        let found = member(alloc, *aspect, own, said)?;
        if found.is_some() {
            return Ok(found);
        }
    }
    Ok(None)
}

// Whether a request of the kind has a form.
fn has_form(kind: ReplyKind) -> bool
    ensures { result ≡ spec.has_form kind }
{
    matches!(kind, ReplyKind::Assertion | ReplyKind::Disconnect)
}

// What differs in the body: a member of a form, or that there is a body at all.
fn bodies(
    alloc: Global,
    kind: ReplyKind,
    own: &[u8],
    said: &[u8],
) -> Result<Option<Finding>, NoRoom>
    ensures { IfOk result (λ found. found ≡ spec.bodies kind own.now said.now) }
{
    if has_form(kind) {
        return members(alloc, own, said);
    }
    part(alloc, Aspect::Body, own, said)
}

// What differs first in a request.
fn requests(
    alloc: Global,
    kind: ReplyKind,
    own: &Request<'_>,
    said: &Request<'_>,
) -> Result<Option<Finding>, NoRoom>
    ensures { IfOk result (λ found. found ≡ spec.parts_differ kind (spec.parts_read own.now) (spec.parts_read said.now)) }
{
    let found = part(alloc, Aspect::Method, own.method, said.method)?;
    if found.is_some() {
        return Ok(found);
    }
    let found = part(alloc, Aspect::Target, own.target, said.target)?;
    if found.is_some() {
        return Ok(found);
    }
    let found = fields(alloc, own, said)?;
    if found.is_some() {
        return Ok(found);
    }
    bodies(alloc, kind, own.body, said.body)
}

// What differs first, by the bytes of the other request.
fn said_request(
    alloc: Global,
    kind: ReplyKind,
    own: &Request<'_>,
    said: &[u8],
) -> Result<Option<Finding>, NoRoom>
    ensures { IfOk result (λ found. spec.DifferFrom kind (spec.parts_read own.now) said.now found) }
{
    let mut spans = [EMPTY_HEADER_SPAN; 16];
    match front_at(said, &mut spans) {
        Some(head) => requests(alloc, kind, own, &Request::of(said, &spans, &head)),
        None => long_said_request(alloc, kind, own, said),
    }
}

// What differs first from a request of more than 16 fields, or without a head.
#[inline(never)]
fn long_said_request(
    alloc: Global,
    kind: ReplyKind,
    own: &Request<'_>,
    said: &[u8],
) -> Result<Option<Finding>, NoRoom>
    ensures { IfOk result (λ found. spec.DifferFrom kind (spec.parts_read own.now) said.now found) }
{
    let mut spans = [EMPTY_HEADER_SPAN; 128];
    match front_at(said, &mut spans) {
        Some(head) => requests(alloc, kind, own, &Request::of(said, &spans, &head)),
        None => Ok(Some(Finding::bare(Aspect::Head))),
    }
}

/// What differs first in a request of the kind, by the bytes of the own one and of the other.
pub(crate) fn request_difference(
    alloc: Global,
    kind: ReplyKind,
    own: &[u8],
    said: &[u8],
) -> Result<Option<Finding>, NoRoom>
    ensures { IfOk result (λ found. spec.Differ kind own.now said.now found) }
{
    if own == said {
        return Ok(None);
    }
    let mut spans = [EMPTY_HEADER_SPAN; 128];
    match front_at(own, &mut spans) {
        Some(head) => said_request(alloc, kind, &Request::of(own, &spans, &head), said),
        None => Ok(Some(Finding::bare(Aspect::Head))),
    }
}

/// A token as this program gives it.
#[derive(Clone, Copy)]
pub(crate) struct Given<'a> {
    pub token: &'a str,
    pub page: u32,
    pub auto: bool,
}

/// A token as a record says it.
#[derive(Clone, Copy)]
pub(crate) struct Claim<'a> {
    pub token: &'a str,
    pub page: Option<u32>,
    pub auto: Option<bool>,
}

fn truth_text(truth: bool) -> &'static str
    ensures { result.now ≡ spec.truth_text truth }
{
    if truth { "true" } else { "false" }
}

// Whether the number is there.
fn is_number(number: u32, said: Option<u32>) -> bool
    ensures { result ≡ spec.is_number number said }
{
    match said {
        Some(other) => number == other,
        None => false,
    }
}

// Whether the truth value is there.
fn is_truth(truth: bool, said: Option<bool>) -> bool
    ensures { result ≡ spec.is_truth truth said }
{
    match said {
        Some(other) => truth == other,
        None => false,
    }
}

/// What differs first of a token.
pub(crate) fn token_difference(
    alloc: Global,
    own: &Given<'_>,
    said: &Claim<'_>,
) -> Result<Option<Finding>, NoRoom>
    ensures { IfOk result (λ found. found
        ≡ spec.token_differs own.now.token.now own.now.page own.now.auto said.now.token.now said.now.page said.now.auto) }
{
    let found = part(
        alloc,
        Aspect::Token,
        own.token.as_bytes(),
        said.token.as_bytes(),
    )?;
    if found.is_some() {
        return Ok(found);
    }
    if !is_number(own.page, said.page) {
        let mut buffer = Buffer::new();
        let page = buffer.format(own.page);
        return Ok(Some(Finding::due(alloc, Aspect::Page, page.as_bytes())?));
    }
    if !is_truth(own.auto, said.auto) {
        let auto = truth_text(own.auto);
        return Ok(Some(Finding::due(alloc, Aspect::Auto, auto.as_bytes())?));
    }
    Ok(None)
}
