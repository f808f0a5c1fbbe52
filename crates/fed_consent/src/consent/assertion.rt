//! The request for a token, which a consent is spent on.
ghost use Rattle.std.specs.Prelude.{◌≡◌, IfOk};
ghost use Rattle.std.specs.Option.{option_copied};
ghost use Rattle.fed_consent.specs.Consent.{assertion_fields, is_auto};

use super::{Consent, Manner};
use fed_io::{NoRoom, Placed, Text, copy_placed, lent_text};
use fed_origin::{Origin, ProviderOptions, WebUrl};
use std::alloc::Global;
use std::marker::Model;

/// A request for a token (FedCM, "The identity assertion endpoint"). Only `Consent::spend` makes one. Contracts see its fields. They have a
/// place of their own, since what a call does is moved several times.
pub struct AssertionAsk {
    inner: Box<Fields>,
}

// The fields of a request for a token.
pub struct Fields {
    to: WebUrl,
    origin: Origin,
    client: Text,
    nonce: Option<Placed<Text>>,
    params: Option<Placed<Text>>,
    account: Text,
    disclosure: bool,
    manner: Manner,
}

// Written out, so that one function lets it go wherever it ends.
impl Drop for AssertionAsk {
    fn drop(self) {
        let AssertionAsk { inner: _ } = self;
    }
}

impl Drop for Fields {
    fn drop(self) {
        let Fields {
            to: _,
            origin: _,
            client: _,
            nonce: _,
            params: _,
            account: _,
            disclosure: _,
            manner: _,
        } = self;
    }
}

impl Model for Fields {
    ghost use Rattle.fed_consent.specs.Consent.{AssertionFields, is_auto};

    ghost Value = { AssertionFields };

    ghost view = { λ a. record {
      to = a.to;
      origin = a.origin;
      client = a.client;
      nonce = a.nonce;
      params = a.params;
      account = a.account;
      disclosure =
          a.disclosure;
      auto = is_auto a.manner;
    } };
}

impl Model for AssertionAsk {
    ghost use Rattle.fed_consent.specs.Consent.{AssertionFields};

    ghost Value = { AssertionFields };

    ghost view = { λ a. a.inner.value };
}

impl AssertionAsk {
    // The request that a consent makes.
    pub(super) fn new(
        alloc: Global,
        consent: &Consent,
        to: &WebUrl,
        origin: &Origin,
        options: &ProviderOptions,
    ) -> Result<AssertionAsk, NoRoom>
        ensures { IfOk result (λ ask. ask ≡ assertion_fields consent.now to.now origin.now options.now) }
    {
        let fields = Fields {
            to: to.copy(alloc)?,
            origin: origin.copy(alloc)?,
            client: options.client.copy(alloc)?,
            nonce: copy_placed(alloc, &options.nonce)?,
            params: copy_placed(alloc, &options.params)?,
            account: consent.account.id.copy(alloc)?,
            disclosure: consent.disclosure,
            manner: consent.manner,
        };
        Ok(AssertionAsk {
            inner: Box::new(alloc, fields)?,
        })
    }

    /// The assertion endpoint. It takes no memory.
    pub fn to(&self) -> &WebUrl
        ensures { result.now ≡ self.now.to }
    {
        &self.inner.to
    }

    /// The origin of the page. It takes no memory.
    pub fn origin(&self) -> &Origin
        ensures { result.now ≡ self.now.origin }
    {
        &self.inner.origin
    }

    /// The client's id at the provider. It takes no memory.
    pub fn client(&self) -> &Text
        ensures { result.now ≡ self.now.client }
    {
        &self.inner.client
    }

    /// The number used once that the call gave, if it gave one. It takes no memory.
    pub fn nonce(&self) -> Option<&Text>
        ensures { option_copied result ≡ self.now.nonce }
    {
        lent_text(&self.inner.nonce)
    }

    /// What the call gave for the provider, if it gave something. It takes no memory.
    pub fn params(&self) -> Option<&Text>
        ensures { option_copied result ≡ self.now.params }
    {
        lent_text(&self.inner.params)
    }

    /// The account's id. It takes no memory.
    pub fn account(&self) -> &Text
        ensures { result.now ≡ self.now.account }
    {
        &self.inner.account
    }

    /// Whether the user was shown what the provider tells the page. It takes no memory.
    pub fn disclosure(&self) -> bool
        ensures { result ≡ self.now.disclosure }
    {
        self.inner.disclosure
    }

    /// Whether the account was chosen without the user. It takes no memory.
    pub fn auto(&self) -> bool
        ensures { result ≡ self.now.auto }
    {
        self.inner.manner == Manner::Reselected
    }
}
