//! Reading replies of the assertion and the disconnect endpoints.
ghost use Rattle.std.specs.Prelude.{◌≡◌, IfOk, IfErr};
ghost use Rattle.fed_io.specs.Fault.{Answers};
ghost use Rattle.fed_origin.specs.Origin.{origin_text};
ghost use Rattle.fed_reply.specs.Json.{Opens};
ghost use Rattle.fed_reply.specs.Members.{member_map};
ghost use Rattle.fed_reply.specs.Shape.{present, required};
ghost use Rattle.fed_token.specs.Read as spec;
ghost use Rattle.fed_token.specs.Said as said;

use crate::TokenStep;
use crate::cors::{ALLOW_CREDENTIALS, ALLOW_ORIGIN};
use crate::said::{ErrorTexts, Said, whole_said};
use fed_io::{Fault, NoRoom, Text};
use fed_json::Values;
use fed_origin::Origin;
use fed_reply::{Asked, JsonBuffer, Member, ReplyMemory, ReplyStep, open_json_with, whole_texts};
use std::alloc::Global;

/// Reads the token in a reply of the identity assertion endpoint (FedCM, "The identity assertion
/// endpoint") to a page of the origin. The steps are those of a reply, with `Cors` after `Short` and
/// before `Status`; then `ProviderError` where there is no token and the value has an error, and
/// `Shape` where it has neither.
pub fn read_assertion(alloc: Global, raw: &[u8], origin: &Origin) -> Result<Text, Fault<TokenStep>>
    ensures { Answers result (spec.AssertionOf raw.now (origin_text origin.now)) }
{
    read_assertion_with(alloc, &ReplyMemory::new(), raw, origin)
}

/// The same, where `memory` is what the reply is read from.
pub fn read_assertion_with(
    alloc: Global,
    memory: &ReplyMemory,
    raw: &[u8],
    origin: &Origin,
) -> Result<Text, Fault<TokenStep>>
    ensures { Answers result (spec.AssertionOf raw.now (origin_text origin.now)) }
{
    let mut buffer = memory.lend(alloc)?;
    let token = token_of_reply(alloc, raw, origin, &mut buffer);
    memory.take_back(raw, buffer);
    token
}

/// Reads the account id in a reply of the disconnect endpoint (FedCM, "The disconnect endpoint") to
/// a page of the origin. The steps are those of `read_assertion` up to `Json`, and `Shape` where
/// there is no id. An `error` in such a reply is not read, so the step is never `ProviderError`.
pub fn read_disconnect(alloc: Global, raw: &[u8], origin: &Origin) -> Result<Text, Fault<TokenStep>>
    ensures answers { Answers result (spec.DisconnectOf raw.now (origin_text origin.now)) }

    // No step is an error of the provider.
    ensures never { IfErr result spec.IsDisconnectFault }
{
    read_disconnect_with(alloc, &ReplyMemory::new(), raw, origin)
}

/// The same, where `memory` is what the reply is read from.
pub fn read_disconnect_with(
    alloc: Global,
    memory: &ReplyMemory,
    raw: &[u8],
    origin: &Origin,
) -> Result<Text, Fault<TokenStep>>
    ensures answers { Answers result (spec.DisconnectOf raw.now (origin_text origin.now)) }
    ensures never { IfErr result spec.IsDisconnectFault }
{
    let mut buffer = memory.lend(alloc)?;
    let account = account_id_of_reply(alloc, raw, origin, &mut buffer);
    memory.take_back(raw, buffer);
    account
}

// The token in a reply, with what is read from.
#[tactic(auto, unfolding(crate::specs::Read::AssertionOf))]
fn token_of_reply(
    alloc: Global,
    raw: &[u8],
    origin: &Origin,
    buffer: &mut JsonBuffer,
) -> Result<Text, Fault<TokenStep>>
    ensures { Answers result (spec.AssertionOf raw.now (origin_text origin.now)) }
{
    let mut values = match checked_values(alloc, raw, origin, buffer) {
        Ok(values) => values,
        Err(fault) => return Err(fault),
    };
    match whole_said(&mut values) {
        Ok(said) => token(alloc, &said),
        Err(_) => Err(Fault::Step(TokenStep::Reply(ReplyStep::Json))),
    }
}

// The account id in a reply, with what is read from.
#[tactic(auto, unfolding(crate::specs::Read::DisconnectOf))]
fn account_id_of_reply(
    alloc: Global,
    raw: &[u8],
    origin: &Origin,
    buffer: &mut JsonBuffer,
) -> Result<Text, Fault<TokenStep>>
    ensures answers { Answers result (spec.DisconnectOf raw.now (origin_text origin.now)) }
    ensures never { IfErr result spec.IsDisconnectFault }
{
    let mut values = match checked_values(alloc, raw, origin, buffer) {
        Ok(values) => values,
        Err(fault) => return Err(fault),
    };
    let mut asked = [Asked::new("account_id")];
    match whole_texts(&mut values, &mut asked) {
        Ok(_) => account_id(alloc, asked[0].found),
        Err(_) => Err(Fault::Step(TokenStep::Reply(ReplyStep::Json))),
    }
}

// The values of a reply that a page of the origin may read: it has the two fields that `cors_passes` asks for.
fn checked_values<'a>(
    alloc: Global,
    raw: &'a [u8],
    origin: &Origin,
    buffer: &'a mut JsonBuffer,
) -> Result<Values<'a>, Fault<TokenStep>>
    ensures answers { Opens (TokenStep.Reply ReplyStep.Json) result (spec.CheckedJsonOf raw.now (origin_text origin.now)) }
    ensures never { IfErr result spec.IsDisconnectFault }
{
    let origin = origin.serialize(alloc)?;
    let allowed = [
        (ALLOW_ORIGIN, origin.as_str().as_bytes()),
        (ALLOW_CREDENTIALS, b"true".as_slice()),
    ];
    match open_json_with(alloc, raw, &allowed, buffer) {
        Ok(Some(values)) => Ok(values),
        Ok(None) => Err(Fault::Step(TokenStep::Cors)),
        Err(Fault::Step(step)) => Err(Fault::Step(TokenStep::Reply(step))),
        Err(Fault::NoRoom) => Err(Fault::NoRoom),
    }
}

// The token that a value says.
fn token(alloc: Global, found: &Said<'_>) -> Result<Text, Fault<TokenStep>>
    ensures { Answers result (said.token_by (said.parts found.now)) }
{
    match found.token {
        Member::Is(token) => Ok(Text::of(alloc, token)?),
        Member::Absent | Member::Wrong => {
            let step = error_step(alloc, &found.error)?;
            Err(Fault::Step(step))
        }
    }
}

// The account id that a value says.
fn account_id(alloc: Global, found: Member<&str>) -> Result<Text, Fault<TokenStep>>
    ensures answers { Answers result (required TokenStep.Shape (member_map (λ s. s.now) found.entry)) }
    ensures never { IfErr result spec.IsDisconnectFault }
{
    match found {
        Member::Is(id) => Ok(Text::of(alloc, id)?),
        Member::Absent | Member::Wrong => Err(Fault::Step(TokenStep::Shape)),
    }
}

// The step of a value without a token, by its error.
fn error_step(alloc: Global, error: &Option<ErrorTexts<'_>>) -> Result<TokenStep, NoRoom>
    ensures { IfOk result (λ step. step ≡ said.step_by error.now) }
{
    match error {
        Some(error) => {
            let code = match text_in(alloc, error.code)? {
                Some(code) => code,
                None => Text::of(alloc, "")?,
            };
            let url = text_in(alloc, error.url)?;
            Ok(TokenStep::ProviderError { code, url })
        }
        None => Ok(TokenStep::Shape),
    }
}

// A copy of the text that a member is, where it is one.
fn text_in(alloc: Global, member: Member<&str>) -> Result<Option<Text>, NoRoom>
    ensures { IfOk result (λ text. text ≡ present (member_map (λ s. s.now) member.entry)) }
{
    match member {
        Member::Is(text) => Ok(Some(Text::of(alloc, text)?)),
        Member::Absent | Member::Wrong => Ok(None),
    }
}
