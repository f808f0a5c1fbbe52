//! The options of a call.
ghost use Rattle.std.specs.Prelude.{◌≡◌, IfOk};

use crate::WebUrl;
use fed_io::{Items, NoRoom, Placed, Text, copy_placed};
use std::alloc::Global;

/// How far the user takes part (Credential Management 2.3.2).
#[derive(Clone, Copy, Debug, PartialEq, Eq)]
pub enum Mediation {
    /// Not at all: the call fails where a dialog would be needed.
    Silent,
    /// Where it is needed.
    Optional,
    /// Always.
    Required,
}

impl Mediation {
    ghost use Rattle.std.specs.Prelude.{◌≡◌};
    ghost use Rattle.fed_origin.specs.Words.{mediation_of_word};

    /// The mediation that a word stands for, if it is the word of one.
    pub fn of_word(word: &str) -> Option<Mediation>
        ensures { result ≡ mediation_of_word word.now }
    {
        match word {
            "silent" => Some(Mediation::Silent),
            "optional" => Some(Mediation::Optional),
            "required" => Some(Mediation::Required),
            _ => None,
        }
    }
}

/// Who began the call (FedCM, IdentityCredentialRequestOptionsMode).
#[derive(Clone, Copy, Debug, PartialEq, Eq)]
pub enum Mode {
    /// The page by itself.
    Passive,
    /// The user, by a button of the page.
    Active,
}

impl Mode {
    ghost use Rattle.std.specs.Prelude.{◌≡◌};
    ghost use Rattle.fed_origin.specs.Words.{mode_of_word};

    /// The mode that a word stands for, if it is the word of one.
    pub fn of_word(word: &str) -> Option<Mode>
        ensures { result ≡ mode_of_word word.now }
    {
        match word {
            "passive" => Some(Mode::Passive),
            "active" => Some(Mode::Active),
            _ => None,
        }
    }
}

/// What the dialog is about (FedCM, IdentityCredentialRequestOptionsContext).
#[derive(Clone, Copy, Debug, PartialEq, Eq)]
pub enum Context {
    /// Signing in.
    SignIn,
    /// Signing up.
    SignUp,
    /// Using the account here.
    UseHere,
    /// Going on.
    GoOn,
}

impl Context {
    ghost use Rattle.std.specs.Prelude.{◌≡◌};
    ghost use Rattle.fed_origin.specs.Words.{context_text, context_of_word};

    /// The word of the context, as scripts and transcripts have it.
    pub fn as_str(self) -> &'static str
        ensures { result.now ≡ context_text self }
    {
        match self {
            Context::SignIn => "signin",
            Context::SignUp => "signup",
            Context::UseHere => "use",
            Context::GoOn => "continue",
        }
    }

    /// The context that a word stands for, if it is the word of one.
    pub fn of_word(word: &str) -> Option<Context>
        ensures { result ≡ context_of_word word.now }
    {
        match word {
            "signin" => Some(Context::SignIn),
            "signup" => Some(Context::SignUp),
            "use" => Some(Context::UseHere),
            "continue" => Some(Context::GoOn),
            _ => None,
        }
    }
}

/// What a call says of one provider (FedCM, IdentityProviderRequestOptions). What is rare has a place of its own, since each pending call
/// keeps its options.
pub struct ProviderOptions {
    /// The configuration URL.
    pub config: WebUrl,
    /// The relying party's id at the provider.
    pub client: Text,
    /// A number used once, which the token is to hold.
    pub nonce: Option<Placed<Text>>,
    /// Only accounts with this login hint are meant.
    pub login_hint: Option<Placed<Text>>,
    /// Only accounts with this domain hint are meant.
    pub domain_hint: Option<Placed<Text>>,
    /// What the provider gets with the assertion request, as plain text (this profile's own).
    pub params: Option<Placed<Text>>,
}

// Written out, so that one function lets it go wherever it ends.
impl Drop for ProviderOptions {
    fn drop(self) {
        let ProviderOptions {
            config: _,
            client: _,
            nonce: _,
            login_hint: _,
            domain_hint: _,
            params: _,
        } = self;
    }
}

impl ProviderOptions {
    /// Options equal to these.
    pub fn copy(&self, alloc: Global) -> Result<ProviderOptions, NoRoom>
        ensures { IfOk result (λ copy. copy ≡ self.now) }
    {
        Ok(ProviderOptions {
            config: self.config.copy(alloc)?,
            client: self.client.copy(alloc)?,
            nonce: copy_placed(alloc, &self.nonce)?,
            login_hint: copy_placed(alloc, &self.login_hint)?,
            domain_hint: copy_placed(alloc, &self.domain_hint)?,
            params: copy_placed(alloc, &self.params)?,
        })
    }
}

/// The options of a call of `navigator.credentials.get` (FedCM, IdentityCredentialRequestOptions).
#[derive(Drop)]
pub struct GetOptions {
    pub mediation: Mediation,
    pub mode: Mode,
    /// Whether the call came with a user activation (HTML 6.4).
    pub activation: bool,
    pub context: Context,
    /// The providers, in the order of the call.
    pub providers: Items<ProviderOptions>,
}

// The same providers, in their order.
fn copy_providers(alloc: Global, all: &[ProviderOptions]) -> Result<Items<ProviderOptions>, NoRoom>
    ensures { IfOk result (λ copy. copy ≡ all.now) }
{
    // Room for these alone: a list that grows takes room for four, of some 170 bytes each, for as long as the call is pending.
    let mut copy = Items::from_vec(Vec::with_capacity(alloc, all.len())?);
    for provider in all {
        copy.push(provider.copy(alloc)?)?;
    }
    Ok(copy)
}

impl GetOptions {
    /// Options equal to these.
    pub fn copy(&self, alloc: Global) -> Result<GetOptions, NoRoom>
        ensures { IfOk result (λ copy. copy ≡ self.now) }
    {
        Ok(GetOptions {
            mediation: self.mediation,
            mode: self.mode,
            activation: self.activation,
            context: self.context,
            providers: copy_providers(alloc, self.providers.as_slice())?,
        })
    }
}
