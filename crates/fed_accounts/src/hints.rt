//! The accounts that the hints of a call ask for.
ghost use Rattle.std.specs.Prelude.{◌≡◌, ◌&&◌, IfOk, filter, map};
ghost use Rattle.std.specs.Option.{option_copied};
ghost use Rattle.fed_io.specs.Fault.{Answers};
ghost use Rattle.fed_accounts.specs.Hints as spec;

use crate::lent::{LendsText, has_text};
use crate::{Account, Accounts, AccountsStep};
use fed_io::{Fault, Items, NoRoom, Text};
use std::alloc::Global;

/// The accounts that the hints of a call ask for (FedCM, "login_hint" and "domain_hint"), in their
/// order. A login hint keeps those that have it among their login hints, a domain hint those that
/// have it among their domain hints; the domain hint `any` keeps those that have a domain hint.
/// Where both are given, both have to hold. The one step is `HintsNone`, where no account is left;
/// the accounts are given up then.
#[tactic(auto, unfolding(crate::specs::Hints::Hinted))]
pub fn keep_hinted(
    alloc: Global,
    accounts: Accounts,
    login: Option<&Text>,
    domain: Option<&Text>,
) -> Result<Accounts, Fault<AccountsStep>>
    ensures { Answers result (spec.Hinted accounts (option_copied login.entry) (option_copied domain.entry)) }
{
    let kept = hinted(alloc, accounts.into_items(), login, domain)?;
    if kept.len() == 0 {
        return Err(Fault::Step(AccountsStep::HintsNone));
    }
    Ok(Accounts::new(kept))
}

// The accounts with both hints, in their order.
fn hinted(
    alloc: Global,
    accounts: Items<Account>,
    login: Option<&Text>,
    domain: Option<&Text>,
) -> Result<Items<Account>, NoRoom>
    ensures { IfOk result (λ kept. kept ≡ filter (spec.is_hinted (option_copied login.entry) (option_copied domain.entry)) accounts) }
{
    let mut kept = Items::new(alloc);
    for account in accounts.into_vec() {
        let asked_for = are_asked_for(
            login,
            domain,
            account.login_hints.as_slice(),
            account.domain_hints.as_slice(),
        );
        if asked_for {
            kept.push(account)?;
        }
    }
    Ok(kept)
}

/// Whether both hints, where they are given, ask for an account with these login hints and these domain hints. It takes no memory.
pub(crate) fn are_asked_for<T: LendsText>(
    login: Option<&Text>,
    domain: Option<&Text>,
    login_hints: &[T],
    domain_hints: &[T],
) -> bool
    ensures { result ≡ (spec.has_login (option_copied login.entry) (map T.text login_hints.now)
        && spec.has_domain (option_copied domain.entry) (map T.text domain_hints.now)) }
{
    has_login(login, login_hints) && has_domain(domain, domain_hints)
}

// Whether the login hint, where it is given, is one of the hints.
fn has_login<T: LendsText>(login: Option<&Text>, hints: &[T]) -> bool
    ensures { result ≡ spec.has_login (option_copied login.entry) (map T.text hints.now) }
{
    match login {
        Some(hint) => has_text(hints, hint.as_str()),
        None => true,
    }
}

// Whether the domain hint, where it is given, is one of the hints; `any` is each.
fn has_domain<T: LendsText>(domain: Option<&Text>, hints: &[T]) -> bool
    ensures { result ≡ spec.has_domain (option_copied domain.entry) (map T.text hints.now) }
{
    match domain {
        Some(hint) => {
            if hint.as_str() == "any" {
                !hints.is_empty()
            } else {
                has_text(hints, hint.as_str())
            }
        }
        None => true,
    }
}
