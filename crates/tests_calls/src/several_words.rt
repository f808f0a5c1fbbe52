//! Calls with several providers in tests: lines of what they take and what they do.
use crate::browser::Browser;
use crate::call_inputs::inputs;
use crate::call_words::stage_word;
use crate::lines::{assert_so, assert_word, parts};
use crate::several_effects::said;
use crate::values::{PAGE, config_of, origin_of, page_word, provider};
use fed_call::CallState;
use fed_consent::{Effect, Input};
use fed_io::{Items, NoRoom};
use fed_origin::{Context, GetOptions};
use std::alloc::Global;
use std::process::Abort;
use std::test::Fail;

// A call, and what it did last.
#[derive(Drop)]
pub struct Seen {
    pub state: CallState,
    pub said: String,
}

fn told(alloc: Global, call: (CallState, Items<Effect>)) -> Result<Seen, NoRoom> {
    let (state, effects) = call;
    let said = said(alloc, &effects)?;
    Ok(Seen { state, said })
}

// What a page asks of the providers that these words name.
fn options(alloc: Global, names: &str, browser: &Browser) -> Result<GetOptions, NoRoom> {
    let mut providers = Items::new(alloc);
    for name in names.split(' ') {
        providers.push(provider(alloc, config_of(name))?)?;
    }
    Ok(GetOptions {
        mediation: browser.mediation,
        mode: browser.mode,
        activation: browser.activation,
        context: Context::SignIn,
        providers,
    })
}

// A call with these options, which have one to ten providers.
fn begin_with(alloc: Global, options: GetOptions, browser: &Browser) -> Result<Seen, Fail> {
    if options.providers.len() == 0 || options.providers.len() > 10 {
        return Err(Fail::from("providers"));
    }
    let origin = origin_of(alloc, PAGE)?;
    let call = CallState::start(alloc, 1, 7, origin, options, &browser.lent())?;
    Ok(told(alloc, call)?)
}

fn begin(alloc: Global, names: &str, browser: &Browser) -> Result<Seen, Fail> {
    begin_with(alloc, options(alloc, names, browser)?, browser)
}

fn then(alloc: Global, state: CallState, input: &Input, browser: &Browser) -> Result<Seen, NoRoom> {
    let call = state.advance(alloc, input, &browser.lent())?;
    told(alloc, call)
}

// The call after the inputs that `words` names, of which there is at least one.
fn goes_on(alloc: Global, state: CallState, words: &str, browser: &Browser) -> Result<Seen, Fail> {
    let mut call = Seen {
        state,
        said: String::new(alloc),
    };
    let inputs = inputs(alloc, words)?;
    for input in inputs.as_slice() {
        call = then(alloc, call.state, input, browser)?;
    }
    Ok(call)
}

// The call with the providers that `names` names, after the inputs that `words` names.
pub fn after(alloc: Global, names: &str, words: &str, browser: &Browser) -> Result<Seen, Fail> {
    let call = begin(alloc, names, browser)?;
    goes_on(alloc, call.state, words, browser)
}

// A call that is over, after these inputs.
pub fn after_its_end(alloc: Global, browser: &Browser, words: &str) -> Result<Seen, Fail> {
    goes_on(alloc, CallState::ended(), words, browser)
}

// That a call said this last, and is at this stage; its page stands but where it is over.
pub fn stands(rt: &impl Abort, call: &Seen, expected: &str, stage: &str, line: &str) {
    let page = if stage == "ended" { "over" } else { "7" };
    assert_word(rt, call.said.as_str(), expected, line);
    assert_word(rt, stage_word(call.state.stage()), stage, line);
    assert_word(rt, page_word(call.state.page()), page, line);
}

// A line: the providers of a call, what it does when it begins, and its stage then.
fn begins(rt: &impl Abort, alloc: Global, browser: &Browser, line: &str) -> Result<(), Fail> {
    let (names, more) = parts(line)?;
    let (expected, stage) = parts(more)?;
    let call = begin(alloc, names, browser)?;
    stands(rt, &call, expected, stage, line);
    Ok(())
}

// That calls begin as each of these lines says.
pub fn begin_all(
    rt: &impl Abort,
    alloc: Global,
    browser: &Browser,
    text: &str,
) -> Result<(), Fail> {
    for line in text.split('\n') {
        begins(rt, alloc, browser, line)?;
    }
    Ok(())
}

// A line: the inputs of a call with the providers that `names` names, what it does at the last of them, and its stage then.
fn follows(
    rt: &impl Abort,
    alloc: Global,
    names: &str,
    browser: &Browser,
    line: &str,
) -> Result<(), Fail> {
    let (words, more) = parts(line)?;
    let (expected, stage) = parts(more)?;
    let call = after(alloc, names, words, browser)?;
    stands(rt, &call, expected, stage, line);
    Ok(())
}

// That calls with the providers `idp` and `two` do as each of these lines says.
pub fn follow(rt: &impl Abort, alloc: Global, browser: &Browser, text: &str) -> Result<(), Fail> {
    for line in text.split('\n') {
        follows(rt, alloc, "idp two", browser, line)?;
    }
    Ok(())
}

// That calls with the one provider `idp` do.
pub fn follow_one(
    rt: &impl Abort,
    alloc: Global,
    browser: &Browser,
    text: &str,
) -> Result<(), Fail> {
    for line in text.split('\n') {
        follows(rt, alloc, "idp", browser, line)?;
    }
    Ok(())
}

// The same as of `follow`, of lines that all go on with these inputs.
pub fn follow_on(
    rt: &impl Abort,
    alloc: Global,
    browser: &Browser,
    first: &str,
    text: &str,
) -> Result<(), Fail> {
    for line in text.split('\n') {
        let whole = format!(in alloc; "{first} {line}")?;
        follows(rt, alloc, "idp two", browser, whole.as_str())?;
    }
    Ok(())
}

// The configuration URL that a call waits for at this place, in a word.
fn read_word(state: &CallState, place: u32) -> &'static str {
    match state.reads(place) {
        Some(url) if url.as_str() == config_of("idp") => "idp",
        Some(url) if url.as_str() == config_of("two") => "two",
        Some(_) => "other",
        None => "-",
    }
}

// A line: the providers of a call, its inputs, and which of the providers at the places 0 to 2 are awaited with their first replies.
// No call of these waits for a login window.
fn is_reading(rt: &impl Abort, alloc: Global, browser: &Browser, line: &str) -> Result<(), Fail> {
    let (names, more) = parts(line)?;
    let (words, wanted) = parts(more)?;
    let call = after(alloc, names, words, browser)?;
    let first = read_word(&call.state, 0);
    let second = read_word(&call.state, 1);
    let third = read_word(&call.state, 2);
    let read = format!(in alloc; "{first} {second} {third}")?;
    assert_word(rt, read.as_str(), wanted, line);
    assert_so(rt, call.state.waits_for().is_none(), line);
    Ok(())
}

// That calls wait for the first replies that each of these lines says.
pub fn read_all(rt: &impl Abort, alloc: Global, browser: &Browser, text: &str) -> Result<(), Fail> {
    for line in text.split('\n') {
        is_reading(rt, alloc, browser, line)?;
    }
    Ok(())
}
