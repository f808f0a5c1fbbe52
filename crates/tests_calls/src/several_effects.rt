//! What calls with several providers do, in words: each effect is told with the place of its provider.
use fed_consent::{Ask, Dialog, Effect, Failure, Finish, Shown};
use fed_io::{Items, NoRoom};
use fed_origin::{LoginStatus, Origin, ReplyKind};
use std::alloc::Global;

// The provider of an origin, or of a site.
fn provider_word(origin: &Origin) -> &'static str {
    match origin.host.text.as_str() {
        "accounts.idp.example" | "idp.example" => "idp",
        "login.two.example" | "two.example" => "two",
        _ => "other",
    }
}

fn kind_word(kind: ReplyKind) -> &'static str {
    match kind {
        ReplyKind::WellKnown => "wellknown",
        ReplyKind::Config => "config",
        ReplyKind::Accounts => "accounts",
        ReplyKind::Metadata => "metadata",
        ReplyKind::Assertion => "token",
        ReplyKind::Disconnect => "disconnect",
    }
}

// What else a request says.
fn asked_of(alloc: Global, ask: &Ask) -> Result<String, NoRoom> {
    match ask {
        Ask::Metadata { client, .. } => {
            let client = client.as_str();
            Ok(format!(in alloc; " {client}")?)
        }
        Ask::Assertion(ask) => {
            let account = ask.account().as_str();
            let auto = if ask.auto() { " again" } else { "" };
            let shown = if ask.disclosure() { " shown" } else { "" };
            Ok(format!(in alloc; " {account}{auto}{shown}")?)
        }
        _ => Ok(String::new(alloc)),
    }
}

fn ask_text(alloc: Global, place: u32, ask: &Ask) -> Result<String, NoRoom> {
    let provider = provider_word(ask.to().origin());
    let kind = kind_word(ask.kind());
    let more = asked_of(alloc, ask)?;
    Ok(format!(in alloc; "{provider}@{place} {kind}{more}")?)
}

// An account, with a plus where it is connected.
fn shown_text(alloc: Global, shown: &Shown) -> Result<String, NoRoom> {
    let id = shown.id.as_str();
    let place = shown.provider;
    let connected = if shown.connected { "+" } else { "" };
    Ok(format!(in alloc; "{id}@{place}{connected}")?)
}

fn choice_text(alloc: Global, accounts: &[Shown]) -> Result<String, NoRoom> {
    let mut text = String::from_str(alloc, "choose")?;
    for shown in accounts {
        text.push_str(" ")?;
        text.push_str(shown_text(alloc, shown)?.as_str())?;
    }
    Ok(text)
}

fn dialog_text(alloc: Global, dialog: &Dialog) -> Result<String, NoRoom> {
    match dialog {
        Dialog::Choose { accounts, .. } => choice_text(alloc, accounts.as_slice()),
        Dialog::Prompt {
            account,
            privacy,
            ..
        } => {
            let account = shown_text(alloc, account)?;
            let linked = if privacy.is_some() { " linked" } else { "" };
            Ok(format!(in alloc; "prompt {account}{linked}")?)
        }
        Dialog::Mismatch { .. } => Ok(String::from_str(alloc, "mismatch")?),
    }
}

fn failure_text(alloc: Global, failure: &Failure) -> Result<String, NoRoom> {
    let step = failure.step.as_str();
    match failure.detail {
        Some(detail) => {
            let detail = detail.as_str();
            Ok(format!(in alloc; "{step} {detail}")?)
        }
        None => Ok(String::from_str(alloc, step)?),
    }
}

fn finish_text(alloc: Global, finish: &Finish) -> Result<String, NoRoom> {
    match finish {
        Finish::Token { auto, provider, .. } => {
            let auto = if *auto { " again" } else { "" };
            Ok(format!(in alloc; "token@{provider}{auto}")?)
        }
        Finish::Failed(failure) => {
            let failure = failure_text(alloc, failure)?;
            Ok(format!(in alloc; "fails {failure}")?)
        }
        finish => Ok(String::from_str(alloc, finish.seen())?),
    }
}

fn status_text(alloc: Global, origin: &Origin, status: LoginStatus) -> Result<String, NoRoom> {
    let provider = provider_word(origin);
    let status = match status {
        LoginStatus::LoggedIn => "in",
        _ => "out",
    };
    Ok(format!(in alloc; "{provider} {status}")?)
}

fn effect_text(alloc: Global, effect: &Effect) -> Result<String, NoRoom> {
    match effect {
        Effect::Send(place, ask) => ask_text(alloc, *place, ask),
        Effect::Dialog(dialog) => dialog_text(alloc, dialog.get()),
        Effect::SetLogin(origin, status) => status_text(alloc, origin, *status),
        Effect::Dropped(place, failure) => {
            let failure = failure_text(alloc, failure)?;
            Ok(format!(in alloc; "drop@{place} {failure}")?)
        }
        Effect::Keep(triple) => {
            let provider = provider_word(&triple.get().provider);
            let account = triple.get().account.as_str();
            Ok(format!(in alloc; "keep {provider} {account}")?)
        }
        Effect::ClearFlag(_) => Ok(String::from_str(alloc, "clear")?),
        Effect::Finish(finish) => finish_text(alloc, finish),
        Effect::Ignored(why) => Ok(String::from_str(alloc, why.as_str())?),
        _ => Ok(String::from_str(alloc, "else")?),
    }
}

// What was done, or a dash.
pub fn said(alloc: Global, effects: &Items<Effect>) -> Result<String, NoRoom> {
    if effects.len() == 0 {
        return Ok(String::from_str(alloc, "-")?);
    }
    let mut text = String::new(alloc);
    for (place, effect) in effects.as_slice().iter().enumerate() {
        if place > 0 {
            text.push_str(", ")?;
        }
        text.push_str(effect_text(alloc, effect)?.as_str())?;
    }
    Ok(text)
}
