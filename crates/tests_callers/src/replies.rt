//! What a caller concludes from the contracts of what is read in replies.
ghost use Rattle.std.specs.Prelude.{◌≡◌, IfOk, is_ok, length, None};
ghost use Rattle.fed_accounts.specs.Offers.{AreWhole};
ghost use Rattle.fed_io.specs.Fault.{Answers};
ghost use Rattle.fed_origin.specs.Origin.{origin_text};
ghost use Rattle.fed_origin.specs.WebUrl.{scheme_of};
ghost use Rattle.fed_provider.specs.WellKnown.{WellKnownUrlOf};
ghost use Rattle.fed_token.specs.Read.{DisconnectOf};

use fed_accounts::{Accounts, Offer, reselect, reselect_all};
use fed_io::{Fault, NoRoom, Text};
use fed_origin::{Mediation, Origin, Scheme, WebUrl};
use fed_provider::{ProviderStep, wellknown_url};
use fed_suffix::Suffixes;
use fed_token::read_disconnect;
use std::alloc::Global;

/// The well-known URL for a configuration URL, whose scheme has to be tested first: a plain one has none.
pub fn wellknown_of(
    alloc: Global,
    rules: &Suffixes,
    config: &WebUrl,
) -> Result<WebUrl, Fault<ProviderStep>>
    ensures plain { scheme_of config.now ≡ Scheme.Http → result ≡ Err (Fault.Step ProviderStep.NoSite) }
    ensures secure { scheme_of config.now ≡ Scheme.Https → Answers result (WellKnownUrlOf rules.now config.now) }
{
    match config.scheme() {
        Scheme::Https => wellknown_url(alloc, rules, config),
        Scheme::Http => Err(Fault::Step(ProviderStep::NoSite)),
    }
}

/// Where silent access is prevented no account is signed in again, whatever else holds.
pub fn none_under_the_flag(
    accounts: &Accounts,
    client: &Text,
    kept: &[bool],
    mediation: Mediation,
) -> Option<usize>
    requires { length kept.now ≡ length accounts.now }
    ensures { result ≡ None }
{
    reselect(accounts, client, kept, true, mediation)
}

/// Where the user has to take part no account is signed in again, whatever else holds.
pub fn none_where_required(
    accounts: &Accounts,
    client: &Text,
    kept: &[bool],
    flag: bool,
) -> Option<usize>
    requires { length kept.now ≡ length accounts.now }
    ensures { result ≡ None }
{
    reselect(accounts, client, kept, flag, Mediation::Required)
}

/// The same of all providers of a call: none is signed in again under the flag.
pub fn none_of_all_under_the_flag(offers: &[Offer], mediation: Mediation) -> Option<(usize, usize)>
    requires { AreWhole offers.now }
    ensures { result ≡ None }
{
    reselect_all(offers, true, mediation)
}

/// Nor where the user has to take part.
pub fn none_of_all_where_required(offers: &[Offer], flag: bool) -> Option<(usize, usize)>
    requires { AreWhole offers.now }
    ensures { result ≡ None }
{
    reselect_all(offers, flag, Mediation::Required)
}

/// Whether a reply to a disconnect request names an account.
pub fn names_an_account(alloc: Global, raw: &[u8], origin: &Origin) -> Result<bool, NoRoom>
    ensures { IfOk result (λ named. named ≡ is_ok (DisconnectOf raw.now (origin_text origin.now))) }
{
    match read_disconnect(alloc, raw, origin) {
        Ok(_) => Ok(true),
        Err(Fault::Step(_)) => Ok(false),
        Err(Fault::NoRoom) => Err(NoRoom),
    }
}
