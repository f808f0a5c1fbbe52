//! Disconnect calls in tests: what they do, in words.
use crate::browser::Browser;
use crate::disconnect_inputs::inputs;
use crate::lines::{assert_word, parts};
use crate::values::{CONFIG, PAGE, config_of, origin_of, page_word, url};
use fed_consent::{Ask, Effect, Failure, Finish, Input};
use fed_disconnect::DState;
use fed_io::{Items, NoRoom, Text};
use fed_origin::Stage;
use std::alloc::Global;
use std::process::Abort;
use std::test::Fail;

// What a call did at an event, in words: the permissions that go, what else it did, and what more is known of a failure.
#[derive(Clone, Copy)]
pub struct Done {
    pub gone: &'static str,
    pub word: &'static str,
    pub detail: &'static str,
}

fn only(word: &'static str) -> Done {
    Done {
        gone: "-",
        word,
        detail: "-",
    }
}

fn done_by(effects: &Items<Effect>) -> Done {
    match effects.as_slice() {
        [] => only("nothing"),
        [effect] => effect_done(effect),
        [first, second] => pair_done(first, second),
        _ => only("else"),
    }
}

fn pair_done(first: &Effect, second: &Effect) -> Done {
    match first {
        Effect::Send(0, Ask::WellKnown { .. }) => only(after_wellknown_word(second)),
        Effect::Forget(triple) => Done {
            gone: account_word(triple.get().account.as_str()),
            ..effect_done(second)
        },
        Effect::ForgetPair(_, _) => Done {
            gone: "all",
            ..effect_done(second)
        },
        _ => only("else"),
    }
}

fn after_wellknown_word(effect: &Effect) -> &'static str {
    match effect {
        Effect::Send(0, Ask::Config { .. }) => "first",
        _ => "else",
    }
}

fn account_word(account: &str) -> &'static str {
    if account == "u1" { "u1" } else { "else" }
}

fn effect_done(effect: &Effect) -> Done {
    match effect {
        Effect::Send(0, ask) => only(ask_word(ask)),
        Effect::Finish(Finish::Failed(failure)) => failed(failure),
        Effect::Finish(finish) => only(finish.seen()),
        Effect::Ignored(why) => only(why.as_str()),
        _ => only("else"),
    }
}

fn ask_word(ask: &Ask) -> &'static str {
    match ask {
        Ask::Disconnect {
            to,
            client,
            hint,
            ..
        } => asked_word(to.as_str(), client.as_str(), hint.get().as_str()),
        _ => "else",
    }
}

fn asked_word(to: &str, client: &str, hint: &str) -> &'static str {
    if to == "https://accounts.idp.example/disconnect" && client == "c1" && hint == "ann" {
        "asks"
    } else {
        "else"
    }
}

fn failed(failure: &Failure) -> Done {
    Done {
        gone: "-",
        word: failure.step.as_str(),
        detail: match failure.detail {
            Some(detail) => detail.as_str(),
            None => "-",
        },
    }
}

// A call, and what it did last.
#[derive(Drop)]
pub struct Seen {
    state: DState,
    done: Done,
}

fn looked_at(call: (DState, Items<Effect>)) -> Seen {
    let (state, effects) = call;
    Seen {
        state,
        done: done_by(&effects),
    }
}

// A call of the page for the provider with this configuration URL.
fn begin(alloc: Global, config: &str, browser: &Browser) -> Result<Seen, NoRoom> {
    let origin = origin_of(alloc, PAGE)?;
    let config = url(alloc, config)?;
    let client = Text::of(alloc, "c1")?;
    let hint = Text::of(alloc, "ann")?;
    match DState::start(alloc, 1, 7, origin, config, client, hint, &browser.lent()) {
        Ok(call) => Ok(looked_at(call)),
        Err(NoRoom) => Err(NoRoom),
    }
}

fn then(alloc: Global, call: Seen, input: &Input, browser: &Browser) -> Result<Seen, NoRoom> {
    match call.state.advance(alloc, input, &browser.lent()) {
        Ok(call) => Ok(looked_at(call)),
        Err(NoRoom) => Err(NoRoom),
    }
}

// The call after these inputs.
fn after(alloc: Global, call: Seen, inputs: &[Input], browser: &Browser) -> Result<Seen, NoRoom> {
    let mut call = call;
    for input in inputs {
        call = then(alloc, call, input, browser)?;
    }
    Ok(call)
}

fn stage_word(stage: Stage) -> &'static str {
    match stage {
        Stage::Reading => "reading",
        Stage::Asserting => "asserting",
        Stage::Ended => "ended",
        _ => "else",
    }
}

// What a call did last, and where it is.
fn ending(call: Seen) -> (Done, &'static str) {
    (call.done, stage_word(call.state.stage()))
}

// What a call did last, and its page.
fn paged(call: Seen) -> (&'static str, &'static str) {
    (call.done.word, page_word(call.state.page()))
}

fn at_once(
    alloc: Global,
    provider: &str,
    browser: &Browser,
) -> Result<(&'static str, &'static str), NoRoom> {
    let call = begin(alloc, config_of(provider), browser)?;
    Ok(paged(call))
}

fn end(alloc: Global, inputs: &[Input], browser: &Browser) -> Result<(Done, &'static str), NoRoom> {
    let call = begin(alloc, CONFIG, browser)?;
    let call = after(alloc, call, inputs, browser)?;
    Ok(ending(call))
}

// What a call does at the last of these inputs, and where it is then.
fn last(alloc: Global, words: &str, browser: &Browser) -> Result<(Done, &'static str), NoRoom> {
    let inputs = inputs(alloc, words)?;
    end(alloc, inputs.as_slice(), browser)
}

// A line: the inputs of a call, what it does at the last of them, and its stage then.
fn follows(rt: &impl Abort, alloc: Global, browser: &Browser, line: &str) -> Result<(), Fail> {
    let (words, more) = parts(line)?;
    let (gone, more) = parts(more)?;
    let (word, more) = parts(more)?;
    let (detail, stage) = parts(more)?;
    let (done, at) = last(alloc, words, browser)?;
    assert_word(rt, done.gone, gone, line);
    assert_word(rt, done.word, word, line);
    assert_word(rt, done.detail, detail, line);
    assert_word(rt, at, stage, line);
    Ok(())
}

// That calls do as each of these lines says.
pub fn follow(rt: &impl Abort, alloc: Global, browser: &Browser, text: &str) -> Result<(), Fail> {
    for line in text.split('\n') {
        follows(rt, alloc, browser, line)?;
    }
    Ok(())
}

// A line: the provider of a call, what it does when it begins, and its page then.
fn begins(rt: &impl Abort, alloc: Global, browser: &Browser, line: &str) -> Result<(), Fail> {
    let (provider, more) = parts(line)?;
    let (expected, page) = parts(more)?;
    let (word, at) = at_once(alloc, provider, browser)?;
    assert_word(rt, word, expected, line);
    assert_word(rt, at, page, line);
    Ok(())
}

// That calls begin as each of these lines says.
pub fn begin_all(
    rt: &impl Abort,
    alloc: Global,
    browser: &Browser,
    text: &str,
) -> Result<(), Fail> {
    for line in text.split('\n') {
        begins(rt, alloc, browser, line)?;
    }
    Ok(())
}
