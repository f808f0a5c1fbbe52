//! What a caller concludes from the contracts of consents, requests and calls.
ghost use Rattle.std.specs.Prelude.{◌≡◌, [], None, Ok, IfOk, IfSome, not};
ghost use Rattle.fed_origin.specs.WebUrl.{path_query_of};
ghost use Rattle.fed_request.specs.Request.{host_field};
ghost use Rattle.fed_request.specs.Text.{get_text};
ghost use Rattle.fed_consent.specs.Consent.{agreement};
ghost use Rattle.fed_status.specs.Shared.{world_of};
ghost use Rattle.fed_call.specs.Facts.{started};
ghost use Rattle.fed_call.specs.Row.{start_row};
ghost use Rattle.fed_call.specs.State.{facts_of};

use fed_call::CallState;
use fed_consent::{Ask, Consent, Input, Manner, Prompt};
use fed_io::{Bytes, NoRoom};
use fed_origin::{GetOptions, Origin, WebUrl};
use fed_request::build;
use fed_status::Shared;
use std::alloc::Global;

/// The request for a configuration, which has no cookies and does not say which page it is for.
pub fn config_request(alloc: Global, config: &WebUrl) -> Result<Bytes, NoRoom>
    ensures { IfOk result (λ bytes. bytes ≡ get_text (path_query_of config.now) (host_field config.now) []) }
{
    let ask = Ask::Config {
        to: config.copy(alloc)?,
    };
    build(alloc, &ask, b"")
}

/// The consent of a user who went on with a prompt whose metadata came: there always is one.
pub fn consents(prompt: Prompt) -> Result<Consent, Prompt>
    ensures { result ≡ Ok (agreement prompt.pick Manner.Prompted (not prompt.pick.candidate.connected)) }
{
    prompt.ready().proceed()
}

/// A call of a page that begins, where it has one to ten providers; none else.
pub fn begins(
    alloc: Global,
    call: u32,
    page: u32,
    origin: Origin,
    options: GetOptions,
    shared: &Shared<'_>,
) -> Result<Option<CallState>, NoRoom>
    ensures { IfOk result (λ begun. IfSome begun (λ state. facts_of state
        ≡ started (world_of shared.now) call page origin options (start_row (world_of shared.now) origin options))) }
{
    if options.providers.len() == 0 || options.providers.len() > 10 {
        return Ok(None);
    }
    let (state, _) = CallState::start(alloc, call, page, origin, options, shared)?;
    Ok(Some(state))
}

/// A call that its page aborts is over, wherever it was.
pub fn aborts(alloc: Global, call: CallState, shared: &Shared<'_>) -> Result<CallState, NoRoom>
    ensures { IfOk result (λ state. facts_of state ≡ None) }
{
    let (state, _) = call.advance(alloc, &Input::Abort, shared)?;
    Ok(state)
}
