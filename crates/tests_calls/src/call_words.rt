//! Calls in tests: what they do, in words.
ghost use Rattle.std.specs.Prelude.{◌≡◌, IfOk, length};

use crate::browser::Browser;
use crate::call_inputs::inputs;
use crate::lines::{assert_so, assert_word, parts};
use crate::values::{CONFIG, PAGE, config_of, origin_of, page_word, provider};
use fed_call::CallState;
use fed_consent::{Ask, AssertionAsk, Dialog, Effect, Finish, Input};
use fed_io::{Items, NoRoom};
use fed_origin::{Context, GetOptions, LoginStatus, Mediation, Mode, Origin, Stage};
use std::alloc::Global;
use std::process::Abort;
use std::test::Fail;

fn options(alloc: Global, config: &str, mode: Mode, browser: &Browser) -> Result<GetOptions, NoRoom>
    ensures { IfOk result (λ options. length options.providers ≡ 1) }
{
    let mut providers = Items::new(alloc);
    providers.push(provider(alloc, config)?)?;
    Ok(GetOptions {
        mediation: browser.mediation,
        mode,
        activation: browser.activation,
        context: Context::SignIn,
        providers,
    })
}

// A call, and what it did last.
#[derive(Drop)]
pub struct Seen {
    state: CallState,
    word: &'static str,
}

fn with_word(call: (CallState, Items<Effect>)) -> Seen {
    let (state, effects) = call;
    Seen {
        state,
        word: word(&effects),
    }
}

fn begin(alloc: Global, config: &str, mode: Mode, browser: &Browser) -> Result<Seen, NoRoom> {
    let origin = origin_of(alloc, PAGE)?;
    let options = options(alloc, config, mode, browser)?;
    match CallState::start(alloc, 1, 7, origin, options, &browser.lent()) {
        Ok(call) => Ok(with_word(call)),
        Err(NoRoom) => Err(NoRoom),
    }
}

// What was done, in a word.
fn word(effects: &Items<Effect>) -> &'static str {
    match effects.as_slice() {
        [] => "nothing",
        [effect] => effect_word(effect),
        [first, second] => pair_word(first, second),
        [
            Effect::Keep(_),
            Effect::ClearFlag(_),
            Effect::Finish(finish),
        ] => finish_word(finish),
        _ => "else",
    }
}

fn pair_word(first: &Effect, second: &Effect) -> &'static str {
    match first {
        Effect::SetLogin(_, LoginStatus::LoggedOut) => logged_out_word(second),
        Effect::SetLogin(_, LoginStatus::LoggedIn) => logged_in_word(second),
        Effect::Send(0, Ask::WellKnown { .. }) => after_wellknown_word(second),
        Effect::Keep(_) => again_word(second),
        _ => "else",
    }
}

fn logged_out_word(effect: &Effect) -> &'static str {
    match effect {
        Effect::Finish(finish) => finish_word(finish),
        Effect::Dialog(dialog) => mismatch_word(dialog.get()),
        Effect::Window(0, url) => window_word(url.as_str()),
        _ => "else",
    }
}

fn logged_in_word(effect: &Effect) -> &'static str {
    match effect {
        Effect::Dialog(dialog) => dialog_word(dialog.get()),
        Effect::Send(0, ask) => ask_word(ask),
        Effect::Finish(finish) => finish_word(finish),
        _ => "else",
    }
}

// A result without the flag cleared.
fn again_word(effect: &Effect) -> &'static str {
    match effect {
        Effect::Finish(Finish::Token { auto: true, .. }) => "token again",
        _ => "else",
    }
}

fn after_wellknown_word(effect: &Effect) -> &'static str {
    match effect {
        Effect::Send(0, Ask::Config { .. }) => "first",
        _ => "else",
    }
}

fn effect_word(effect: &Effect) -> &'static str {
    match effect {
        Effect::Send(0, ask) => ask_word(ask),
        Effect::Finish(finish) => finish_word(finish),
        Effect::Dialog(dialog) => dialog_word(dialog.get()),
        Effect::Window(0, url) => window_word(url.as_str()),
        Effect::Ignored(why) => why.as_str(),
        _ => "else",
    }
}

fn ask_word(ask: &Ask) -> &'static str {
    match ask {
        Ask::Accounts { to } => accounts_word(to.as_str()),
        Ask::Metadata { .. } => "metadata",
        Ask::Assertion(ask) => assertion_word(ask),
        _ => "else",
    }
}

fn accounts_word(to: &str) -> &'static str {
    if to == "https://accounts.idp.example/accounts" {
        "accounts"
    } else {
        "elsewhere"
    }
}

fn window_word(url: &str) -> &'static str {
    if url == "https://accounts.idp.example/login" {
        "window"
    } else {
        "another window"
    }
}

fn finish_word(finish: &Finish) -> &'static str {
    match finish {
        Finish::Failed(failure) => match failure.detail {
            Some(detail) => detail.as_str(),
            None => failure.step.as_str(),
        },
        _ => finish.seen(),
    }
}

// Of an assertion request for this account, whether the user was shown what the provider tells the page.
fn assertion_word(ask: &AssertionAsk) -> &'static str {
    match (ask.account().as_str(), ask.disclosure()) {
        ("u1", false) if ask.auto() => "asserts u1 again",
        ("u1", false) => "asserts u1",
        ("u1", true) => "asserts u1, disclosed",
        ("u2", true) => "asserts u2, disclosed",
        _ => "asserts another",
    }
}

fn dialog_word(dialog: &Dialog) -> &'static str {
    match dialog {
        Dialog::Choose { accounts, site, .. } => choice_word(accounts.len(), site.as_str()),
        Dialog::Prompt {
            account,
            privacy,
            ..
        } => prompt_word(account.connected, privacy.is_some()),
        Dialog::Mismatch { .. } => "mismatch",
    }
}

fn mismatch_word(dialog: &Dialog) -> &'static str {
    match dialog {
        Dialog::Mismatch { .. } => "mismatch",
        _ => "else",
    }
}

fn choice_word(count: usize, site: &str) -> &'static str {
    if count == 2 && site == "rp.example" {
        "choose"
    } else {
        "another choice"
    }
}

fn prompt_word(connected: bool, linked: bool) -> &'static str {
    match (linked, connected) {
        (true, _) => "linked",
        (false, true) => "connected",
        (false, false) => "prompt",
    }
}

fn then(alloc: Global, call: Seen, input: &Input, browser: &Browser) -> Result<Seen, NoRoom> {
    match call.state.advance(alloc, input, &browser.lent()) {
        Ok(call) => Ok(with_word(call)),
        Err(NoRoom) => Err(NoRoom),
    }
}

// The call after these inputs.
fn after(alloc: Global, call: Seen, inputs: &[Input], browser: &Browser) -> Result<Seen, NoRoom> {
    let mut call = call;
    for input in inputs {
        call = then(alloc, call, input, browser)?;
    }
    Ok(call)
}

// What a call did last, and where it is.
fn ending(call: Seen) -> (&'static str, Stage) {
    (call.word, call.state.stage())
}

// What a call did last, and its page.
fn paged(call: Seen) -> (&'static str, &'static str) {
    (call.word, page_word(call.state.page()))
}

fn is_awaited(call: &Seen, origin: &Origin) -> bool {
    match call.state.waits_for() {
        Some(awaited) => awaited == origin,
        None => false,
    }
}

fn awaits(
    alloc: Global,
    inputs: &[Input],
    origin: &Origin,
    browser: &Browser,
) -> Result<bool, NoRoom> {
    let call = begin(alloc, CONFIG, browser.mode, browser)?;
    let call = after(alloc, call, inputs, browser)?;
    Ok(is_awaited(&call, origin))
}

// Whether a call waits for its provider after these inputs.
fn waits(alloc: Global, words: &str, browser: &Browser) -> Result<bool, NoRoom> {
    let origin = origin_of(alloc, CONFIG)?;
    let inputs = inputs(alloc, words)?;
    awaits(alloc, inputs.as_slice(), &origin, browser)
}

fn end(
    alloc: Global,
    inputs: &[Input],
    browser: &Browser,
) -> Result<(&'static str, Stage), NoRoom> {
    let call = begin(alloc, CONFIG, browser.mode, browser)?;
    let call = after(alloc, call, inputs, browser)?;
    Ok(ending(call))
}

// What a call does at the last of these inputs, and where it is then.
fn last(alloc: Global, words: &str, browser: &Browser) -> Result<(&'static str, Stage), NoRoom> {
    let inputs = inputs(alloc, words)?;
    end(alloc, inputs.as_slice(), browser)
}

pub fn stage_word(stage: Stage) -> &'static str {
    match stage {
        Stage::Reading => "reading",
        Stage::Listing => "listing",
        Stage::Gathering => "gathering",
        Stage::Mismatch => "mismatch",
        Stage::Window => "window",
        Stage::Choosing => "choosing",
        Stage::Prompting => "prompting",
        Stage::Asserting => "asserting",
        Stage::Ended => "ended",
    }
}

// A line: the inputs of a call, what it does at the last of them, and its stage then.
fn follows(rt: &impl Abort, alloc: Global, browser: &Browser, line: &str) -> Result<(), Fail> {
    let (words, more) = parts(line)?;
    let (expected, stage) = parts(more)?;
    let (word, at) = last(alloc, words, browser)?;
    assert_word(rt, word, expected, line);
    assert_word(rt, stage_word(at), stage, line);
    Ok(())
}

// That calls do as each of these lines says.
pub fn follow(rt: &impl Abort, alloc: Global, browser: &Browser, text: &str) -> Result<(), Fail> {
    for line in text.split('\n') {
        follows(rt, alloc, browser, line)?;
    }
    Ok(())
}

fn mode_of(word: &str) -> Mode {
    match word {
        "active" => Mode::Active,
        _ => Mode::Passive,
    }
}

fn at_once(
    alloc: Global,
    names: &str,
    browser: &Browser,
) -> Result<(&'static str, &'static str), Fail> {
    let (provider, mode) = names.split_once(' ').ok_or("a mode")?;
    let call = begin(alloc, config_of(provider), mode_of(mode), browser)?;
    Ok(paged(call))
}

// A line: the provider and the mode of a call, what it does when it begins, and its page then.
fn begins(rt: &impl Abort, alloc: Global, browser: &Browser, line: &str) -> Result<(), Fail> {
    let (names, more) = parts(line)?;
    let (expected, page) = parts(more)?;
    let (word, at) = at_once(alloc, names, browser)?;
    assert_word(rt, word, expected, line);
    assert_word(rt, at, page, line);
    Ok(())
}

// That calls begin as each of these lines says.
pub fn begin_all(
    rt: &impl Abort,
    alloc: Global,
    browser: &Browser,
    text: &str,
) -> Result<(), Fail> {
    for line in text.split('\n') {
        begins(rt, alloc, browser, line)?;
    }
    Ok(())
}

// A line: the inputs of a call, and whether it waits for its provider after them.
fn is_waiting(rt: &impl Abort, alloc: Global, browser: &Browser, line: &str) -> Result<(), Fail> {
    let (words, answer) = parts(line)?;
    assert_so(rt, waits(alloc, words, browser)? == (answer == "yes"), line);
    Ok(())
}

// That calls wait for their provider as each of these lines says.
pub fn wait_all(rt: &impl Abort, alloc: Global, browser: &Browser, text: &str) -> Result<(), Fail> {
    for line in text.split('\n') {
        is_waiting(rt, alloc, browser, line)?;
    }
    Ok(())
}
