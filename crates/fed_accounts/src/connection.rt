//! Which accounts are connected to a client, and which one is signed in again.
ghost use Rattle.std.specs.Prelude.{◌≡◌, ◌||◌, ◌∷◌, [], length, option_map};
ghost use Rattle.fed_accounts.specs.Connection as spec;
ghost use Rattle.fed_accounts.specs.Offers.{AreWhole};
ghost use Rattle.fed_accounts.specs.Search.{hits_of};

use crate::lent::has_text;
use crate::{Account, Accounts, Offer};
use fed_io::Text;
use fed_origin::Mediation;

/// Whether the account is connected to the client (FedCM, "compute the connection status"): by its
/// list of approved clients, where the provider gives one, and else by the permission that is
/// `kept`. It takes no memory.
pub fn connected(account: &Account, client: &Text, kept: bool) -> bool
    ensures { result ≡ spec.Connected account.now client.now kept }
{
    match &account.approved {
        Some(clients) => has_text(clients.as_slice(), client.as_str()),
        None => kept,
    }
}

/// Whether the account may be signed in again without a choice (this profile's own): its permission
/// is `kept`, and its list of approved clients, where the provider gives one, has the client. It
/// takes no memory.
pub fn eligible(account: &Account, client: &Text, kept: bool) -> bool
    ensures { result ≡ spec.Eligible account.now client.now kept }
{
    kept && connected(account, client, kept)
}

/// The place, from 0, of the account that is signed in again without a choice (FedCM, "auto
/// re-authentication"; the rule is this profile's own): the only eligible one. None where the
/// mediation is `Required`, where the flag that prevents it is set, and where no account or several
/// are eligible. `kept` says of each account whether its permission is kept. It takes no memory.
pub fn reselect(
    accounts: &Accounts,
    client: &Text,
    kept: &[bool],
    flag: bool,
    mediation: Mediation,
) -> Option<usize>
    requires { length kept.now ≡ length accounts.now }
    ensures { result ≡ option_map (λ places. places.1) (spec.Reselect
        (record { provider = 0; client = client.now; accounts = accounts.now; kept = kept.now } ∷ []) flag mediation) }
{
    if is_prevented(flag, mediation) {
        return None;
    }
    match eligible_in(accounts.list(), client, kept) {
        Hits::One(place) => Some(place),
        Hits::Nothing | Hits::Several => None,
    }
}

/// The places, from 0, of the offer and of the account in it that is signed in again without a choice, by the rule of `reselect`
/// over all offers: the only eligible one of all. The search ends at the second that is eligible. It takes no memory.
pub fn reselect_all(offers: &[Offer], flag: bool, mediation: Mediation) -> Option<(usize, usize)>
    requires { AreWhole offers.now }
    ensures { result ≡ spec.Reselect offers.now flag mediation }
{
    if is_prevented(flag, mediation) {
        return None;
    }
    only_pair(offers)
}

// Whether no account may be signed in again without a choice.
fn is_prevented(flag: bool, mediation: Mediation) -> bool
    ensures { result ≡ (flag || spec.is_required mediation) }
{
    flag || mediation == Mediation::Required
}

// The places of the only eligible account of all.
fn only_pair(offers: &[Offer]) -> Option<(usize, usize)>
    requires { AreWhole offers.now }
    ensures { result ≡ spec.only (spec.eligible_pairs 0 offers.now) }
{
    let mut pair = None;
    for (n, offer) in offers.iter().enumerate() {
        match eligible_in(offer.accounts.list(), &offer.client, offer.kept.as_slice()) {
            Hits::Nothing => {}
            Hits::One(place) => {
                if pair.is_some() {
                    return None;
                }
                pair = Some((n, place));
            }
            Hits::Several => return None,
        }
    }
    pair
}

// What a search for one found, which ends at the second.
enum Hits {
    Nothing,
    One(usize),
    Several,
}

// The place of the eligible account, where it is the only one.
fn eligible_in(accounts: &[Account], client: &Text, kept: &[bool]) -> Hits
    requires { length kept.now ≡ length accounts.now }
    ensures { result ≡ hits_of (spec.eligible_places 0 client.now accounts.now kept.now) }
{
    let mut found = None;
    for (place, account) in accounts.iter().enumerate() {
        if eligible(account, client, kept[place]) {
            if found.is_some() {
                return Hits::Several;
            }
            found = Some(place);
        }
    }
    match found {
        Some(place) => Hits::One(place),
        None => Hits::Nothing,
    }
}
