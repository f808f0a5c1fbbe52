//! Bytes that a line gives.
ghost use Rattle.std.specs.Prelude.{◌≡◌, IfOk};
ghost use Rattle.serde_json.specs.Find.{as_str};
ghost use Rattle.fed_json.specs.Begun.{begun_data};
ghost use Rattle.fed_script.specs.Said.{shown};
ghost use Rattle.fed_io.specs.Fault.{Answers};
ghost use Rattle.fed_script.specs.Member.{or_cause};
ghost use Rattle.fed_script.specs.Raw as spec;
ghost use Rattle.fed_script.specs.declared.cause.LineCause.TheVariants.{Member};
ghost use Rattle.fed_script.specs.declared.cause.MemberName.TheVariants as names;

use crate::cause::{LineCause, MemberName};
use crate::member::member;
use crate::said::Said;
use base64::DecodeAllocError;
use base64::engine::general_purpose::STANDARD;
use fed_io::{Bytes, Fault, NoRoom};
use fed_json::Begun;
use std::alloc::Global;

// The bytes of a text in base64, if it is one.
#[tactic(auto, unfolding(crate::specs::Raw::base64_bytes))]
fn base64_bytes(alloc: Global, text: &str) -> Result<Option<Bytes>, NoRoom>
    ensures { IfOk result (λ bytes. bytes ≡ spec.base64_bytes text.now) }
{
    match STANDARD.decode(alloc, text.as_bytes()) {
        Ok(bytes) => Ok(Some(Bytes::from_vec(bytes))),
        Err(DecodeAllocError::OutOfMemory) => Err(NoRoom),
        Err(DecodeAllocError::DecodeError(_)) => Ok(None),
    }
}

// The bytes of the member `text`.
fn text_bytes(alloc: Global, text: &Begun<'_>) -> Result<Bytes, Fault<LineCause>>
    ensures { Answers result (or_cause (Member names.Text) (as_str (begun_data text.now))) }
{
    match text.as_str() {
        Some(text) => Ok(Bytes::of(alloc, text.as_bytes())?),
        None => Err(Fault::Step(LineCause::Member(MemberName::Text))),
    }
}

// The bytes of the member `raw`.
fn raw_bytes(alloc: Global, raw: &Begun<'_>) -> Result<Bytes, Fault<LineCause>>
    ensures { Answers result (or_cause (Member names.Raw) (spec.as_base64 (begun_data raw.now))) }
{
    let Some(text) = raw.as_str() else {
        return Err(Fault::Step(LineCause::Member(MemberName::Raw)));
    };
    match base64_bytes(alloc, text)? {
        Some(bytes) => Ok(bytes),
        None => Err(Fault::Step(LineCause::Member(MemberName::Raw))),
    }
}

/// The bytes that a line gives by at most one of `text` (its UTF-8) and `raw` (base64, RFC 4648, 4).
pub(crate) fn optional_bytes(alloc: Global, d: &Said<'_>) -> Result<Option<Bytes>, Fault<LineCause>>
    ensures { Answers result (spec.optional_bytes (shown d.now)) }
{
    match (member(d, MemberName::Text), member(d, MemberName::Raw)) {
        (None, None) => Ok(None),
        (Some(text), None) => Ok(Some(text_bytes(alloc, &text)?)),
        (None, Some(raw)) => Ok(Some(raw_bytes(alloc, &raw)?)),
        (Some(_), Some(_)) => Err(Fault::Step(LineCause::Member(MemberName::Text))),
    }
}

/// The bytes that a line gives by exactly one of `text` and `raw`.
pub(crate) fn required_bytes(alloc: Global, d: &Said<'_>) -> Result<Bytes, Fault<LineCause>>
    ensures { Answers result (spec.required_bytes (shown d.now)) }
{
    match optional_bytes(alloc, d)? {
        Some(bytes) => Ok(bytes),
        None => Err(Fault::Step(LineCause::Member(MemberName::Text))),
    }
}
