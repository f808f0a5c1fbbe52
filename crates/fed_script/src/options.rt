//! The options of a get, but for its providers.
ghost use Rattle.std.specs.Prelude.{◌≡◌};
ghost use Rattle.fed_json.specs.Begun.{begun_data};
ghost use Rattle.fed_script.specs.Said.{shown};
ghost use Rattle.fed_origin.specs.Words.{mediation_of_word, mode_of_word, context_of_word};
ghost use Rattle.fed_script.specs.Member.{as_word};
ghost use Rattle.fed_script.specs.Options as spec;

use crate::cause::{LineCause, MemberName};
use crate::member::member;
use crate::said::Said;
use fed_json::Begun;
use fed_origin::{Context, Mediation, Mode};

/// The options of a get, but for its providers.
#[derive(Clone, Copy, Drop)]
pub(crate) struct OptionMembers {
    pub(crate) mediation: Mediation,
    pub(crate) mode: Mode,
    pub(crate) activation: bool,
    pub(crate) context: Context,
}

// The mediation that a value names.
fn as_mediation(found: &Begun<'_>) -> Option<Mediation>
    ensures { result ≡ as_word mediation_of_word (begun_data found.now) }
{
    Mediation::of_word(found.as_str()?)
}

// The mediation that a line names; where it names none, optional.
fn mediation(d: &Said<'_>) -> Result<Mediation, LineCause>
    ensures { result ≡ spec.mediation_of (shown d.now) }
{
    let Some(found) = member(d, MemberName::Mediation) else {
        return Ok(Mediation::Optional);
    };
    as_mediation(&found).ok_or(LineCause::Member(MemberName::Mediation))
}

// The mode that a value names.
fn as_mode(found: &Begun<'_>) -> Option<Mode>
    ensures { result ≡ as_word mode_of_word (begun_data found.now) }
{
    Mode::of_word(found.as_str()?)
}

// The mode that a line names; where it names none, passive.
fn mode(d: &Said<'_>) -> Result<Mode, LineCause>
    ensures { result ≡ spec.mode_of (shown d.now) }
{
    let Some(found) = member(d, MemberName::Mode) else {
        return Ok(Mode::Passive);
    };
    as_mode(&found).ok_or(LineCause::Member(MemberName::Mode))
}

// Whether a line says that the user acted at the page; where it says nothing of it, the user did not.
fn activation(d: &Said<'_>) -> Result<bool, LineCause>
    ensures { result ≡ spec.activation_of (shown d.now) }
{
    let Some(found) = member(d, MemberName::Activation) else {
        return Ok(false);
    };
    found
        .as_bool()
        .ok_or(LineCause::Member(MemberName::Activation))
}

// The context that a value names.
fn as_context(found: &Begun<'_>) -> Option<Context>
    ensures { result ≡ as_word context_of_word (begun_data found.now) }
{
    Context::of_word(found.as_str()?)
}

// The context that a line names; where it names none, signing in.
fn context(d: &Said<'_>) -> Result<Context, LineCause>
    ensures { result ≡ spec.context_of (shown d.now) }
{
    let Some(found) = member(d, MemberName::Context) else {
        return Ok(Context::SignIn);
    };
    as_context(&found).ok_or(LineCause::Member(MemberName::Context))
}

/// The options of a get, in their order.
pub(crate) fn option_members(d: &Said<'_>) -> Result<OptionMembers, LineCause>
    ensures { result ≡ spec.option_members (shown d.now) }
{
    Ok(OptionMembers {
        mediation: mediation(d)?,
        mode: mode(d)?,
        activation: activation(d)?,
        context: context(d)?,
    })
}
