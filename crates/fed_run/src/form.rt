//! The forms of the command line.
ghost use Rattle.std.specs.Prelude.{◌≡◌, IfSome};
ghost use Rattle.fed_run.specs.Words as spec;
ghost use Rattle.fed_run.specs.Words.{MayBe};

use crate::word::Word;
use fed_io::Text;
use itoa::Buffer;

/// A form of the command line.
#[derive(Drop)]
pub enum Form<'a> {
    /// The word `run`: a script's transcript.
    Run,
    /// The word `check`: the bad lines of a script, and the members that are read over.
    Check,
    /// The word `twin`: whether two scripts are twins, and how far they are compared.
    Twin,
    /// The word `audit`: whether a transcript that another program wrote for a script keeps the rules.
    Audit,
    /// The word `compare`: where such a transcript first leaves this program's own.
    Compare,
    /// The words `make N`: the summary of a script of `N` calls, from 1 to 20,000.
    Make(u32),
    /// The word `save`: a script that brings back the state that a script leaves behind.
    Save,
    /// The words `slice PARTY`: the part of a script that concerns a party, which is a word of at least one byte.
    Slice(Word<'a>),
}

// The form of one word.
fn form_named<'a>(word: &str) -> Option<Form<'a>>
    ensures { result ≡ spec.form_named word.now }
{
    match word {
        "run" => Some(Form::Run),
        "check" => Some(Form::Check),
        "twin" => Some(Form::Twin),
        "audit" => Some(Form::Audit),
        "compare" => Some(Form::Compare),
        "save" => Some(Form::Save),
        _ => None,
    }
}

// Whether so many calls may be made, and the word is the number in decimal.
fn names_calls(calls: u32, word: &str) -> bool
    ensures { result ≡ spec.names_calls calls word.now }
{
    let mut buffer = Buffer::new();
    0 < calls && calls < 20_001 && buffer.format(calls) == word
}

// The number of calls that a word names.
fn calls_named(word: &str) -> Option<u32>
    ensures { result ≡ spec.calls_named word.now }
{
    let Ok(calls) = word.parse::<u32>() else {
        return None;
    };
    if names_calls(calls, word) {
        Some(calls)
    } else {
        None
    }
}

// The form `slice` of a party, which has a byte at least.
fn slice_of(party: &str) -> Option<Form<'_>>
    ensures { result ≡ spec.slice_of party.now }
{
    if party.is_empty() {
        return None;
    }
    Some(Form::Slice(Word::of(party)))
}

// The form of a word and a second one.
fn form_with<'a>(word: &str, second: &'a str) -> Option<Form<'a>>
    ensures { result ≡ spec.form_with word.now second.now }
{
    match word {
        "make" => calls_named(second).map(|calls| Form::Make(calls)),
        "slice" => slice_of(second),
        _ => None,
    }
}

/// The form of the words of a command line, which are without the program's name. It takes no memory.
pub fn form_of(words: &[Text]) -> Option<Form<'_>>
    ensures form { result ≡ spec.form_of words.now }
    ensures calls { IfSome result MayBe }
{
    match words {
        [word] => form_named(word.as_str()),
        [word, second] => form_with(word.as_str(), second.as_str()),
        [] => None,
        [_, _, _, ..] => None,
    }
}
