//! What providers offer in tests.
ghost use Rattle.std.specs.Prelude.{◌≡◌, IfOk};
ghost use Rattle.fed_accounts.specs.Offers.{IsWhole};

use fed_accounts::{Accounts, Offer, read_accounts};
use fed_consent::Prompt;
use fed_io::{Items, NoRoom, Text};
use std::alloc::Global;

const ANN: &str = r#"{"accounts":[{"id":"u1","name":"Ann","email":"ann@idp.example"}]}"#;

pub const BOTH: &str =
    r#"{"accounts":[{"id":"u1","name":"Ann","email":"ann@idp.example"},{"id":"u2","name":"Bob","email":"bob@idp.example"}]}"#;

// The first has the id of an account above.
pub const OTHERS: &str =
    r#"{"accounts":[{"id":"u1","name":"Amy","email":"amy@two.example"},{"id":"u3","name":"Cem","email":"cem@two.example"}]}"#;

fn accounts(alloc: Global, list: &str) -> Result<Accounts, NoRoom> {
    let raw = format!(in alloc; "HTTP/1.1 200 OK\r\nContent-Type: application/json\r\n\r\n{list}")?;
    match read_accounts(alloc, raw.as_bytes()) {
        Ok(accounts) => Ok(accounts),
        Err(_) => Err(NoRoom),
    }
}

// What the provider at this place offers the client `c1`, where of each account this is kept.
pub fn offer(alloc: Global, provider: u32, list: &str, kept: Items<bool>) -> Result<Offer, NoRoom>
    ensures whole { IfOk result (λ offer. IsWhole offer) }
    ensures provider { IfOk result (λ offer. offer.provider ≡ provider) }
{
    let accounts = accounts(alloc, list)?;
    if kept.len() != accounts.list().len() {
        return Err(NoRoom);
    }
    Ok(Offer {
        provider,
        client: Text::of(alloc, "c1")?,
        accounts,
        kept,
    })
}

// The prompt for the only account, which waits for metadata where `waits` says so; none where other accounts were read.
pub fn prompt(alloc: Global, connected: bool, waits: bool) -> Result<Option<Prompt>, NoRoom> {
    let kept = Items::from_vec(Vec::from_array(alloc, [connected])?);
    let offer = offer(alloc, 0, ANN, kept)?;
    if offer.accounts.list().len() != 1 || offer.kept.len() != 1 {
        return Ok(None);
    }
    Ok(Some(Prompt::single(1, offer, waits)))
}
