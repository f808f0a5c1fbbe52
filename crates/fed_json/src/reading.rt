//! The values of a text, one after another.
ghost use Rattle.std.specs.Prelude.{◌≡◌, ◌==◌, ◌<◌, ◌≤◌, ⊤, List, ◌∷◌, Some, None, true, length, option_map, option_and_then};
ghost use Rattle.std.specs.Prelude.{IfOk, IfSome, OnOk, MatchOption, MatchResult};
ghost use Rattle.std.specs.Bool.{MatchBool};
ghost use Rattle.json.specs.Token.{Token as SpecToken};
ghost use Rattle.json.specs.Json.{after_end_array, read_key};
ghost use Rattle.json.specs.Reads.{token_of};
ghost use Rattle.serde_json.specs.Data.{no_members};
ghost use Rattle.serde_json.specs.Read.{read};
ghost use Rattle.fed_json.specs.Value as spec;
ghost use Rattle.fed_json.specs.Values.{value_in, items_in, members_in, begun_in, whole_in, levels, Took, IsBegun};

use crate::number::is_in_range;
use fed_io::{Fault, NoRoom};
use json::{Reader, Scratch, Token};
use simdutf8::basic::from_utf8;
use std::marker::Model;

/// The text is no value that `serde_json` reads.
#[derive(Clone, Copy, Debug, PartialEq, Eq)]
pub struct Invalid;

impl From<Invalid> for Fault<Invalid> {
    ghost use Rattle.fed_io.specs.declared.error.Fault.TheVariants.{Step};

    ghost from_gives = { λ i e. e ≡ Step i };

    fn from(invalid: Invalid) -> Fault<Invalid> {
        Fault::Step(invalid)
    }
}

/// How many levels of arrays and objects a text may have.
pub const LEVELS: usize = 127;

/// How a value begins: what it is, or an array or an object that is open, with how many levels may stand in it.
#[derive(Clone, Copy, Debug)]
pub enum Begun<'a> {
    Null,
    Bool(bool),
    /// A number by its digits, in range.
    Number(&'a str),
    Text(&'a str),
    Array(usize),
    Object(usize),
}

// How a value of at most so many levels begins, of its first token.
fn begins_with<'a>(token: Token<'a>, depth: usize) -> Option<Begun<'a>>
    ensures value { (rest : List SpecToken) → MatchOption result
        (value_in depth (token_of token.entry ∷ rest) ≡ None)
        (λ first. value_in depth (token_of token.entry ∷ rest) ≡ begun_in first rest) }
    ensures within { IfSome result (λ first. levels first ≤ depth) }
{
    match token {
        Token::Null => Some(Begun::Null),
        Token::Bool(b) => Some(Begun::Bool(b)),
        Token::Number(literal) => {
            if is_in_range(literal) {
                Some(Begun::Number(literal))
            } else {
                None
            }
        }
        Token::String(text) => Some(Begun::Text(text)),
        Token::BeginArray => match depth.checked_sub(1) {
            Some(inner) => Some(Begun::Array(inner)),
            None => None,
        },
        Token::BeginObject => match depth.checked_sub(1) {
            Some(inner) => Some(Begun::Object(inner)),
            None => None,
        },
        Token::EndArray | Token::EndObject | Token::Key(_) | Token::Bad => None,
    }
}

/// The values that are left of a text, from left to right. They are checked as they are passed: where a call answers `Invalid`, the
/// text is no value, and nothing is said of what is left. Contracts see the tokens that are left.
#[derive(Drop)]
pub struct Values<'a> {
    reader: Reader<'a>,
}

impl<'a> Model for Values<'a> {
    ghost use Rattle.std.specs.Prelude.{List};
    ghost use Rattle.json.specs.Token.{Token as SpecToken, tokens_code};

    ghost Value = { List SpecToken };

    ghost coded = { tokens_code };

    ghost view = { λ v. v.reader };
}

impl<'a> Values<'a> {
    // Those of a text.
    fn of_text(scratch: &'a mut Scratch, text: &'a str) -> Result<Values<'a>, NoRoom>
        ensures { IfOk result (λ values. whole_in values ≡ read text.now) }
    {
        match Reader::new(text, scratch) {
            Ok(reader) => Ok(Values { reader }),
            Err(_) => Err(NoRoom),
        }
    }

    /// Those of the bytes, whose data is what `serde_json` reads of them; None where they are not UTF-8. `scratch` is lent to them.
    pub fn of(scratch: &'a mut Scratch, bytes: &'a [u8]) -> Result<Option<Values<'a>>, NoRoom>
        ensures { IfOk result (λ values. option_and_then whole_in values ≡ spec.value_of bytes.now) }
    {
        match from_utf8(bytes) {
            Ok(text) => match Values::of_text(scratch, text) {
                Ok(values) => Ok(Some(values)),
                Err(fault) => Err(fault),
            },
            Err(_) => Ok(None),
        }
    }

    /// Takes the beginning of a value of at most so many levels.
    pub fn begin(&mut self, depth: usize) -> Result<Begun<'a>, Invalid>
        ensures value { MatchResult result
            (λ first. value_in depth self.old ≡ begun_in first self.new)
            (λ _. value_in depth self.old ≡ None) }
        ensures shorter { OnOk result (length self.new < length self.old) }
        ensures within { IfOk result (λ first. levels first ≤ depth) }
    {
        let Some(token) = self.reader.next() else {
            return Err(Invalid);
        };
        begins_with(token, depth).ok_or(Invalid)
    }

    /// Passes over what is left of a value that began so.
    #[cycle(skip)]
    pub fn finish(&mut self, first: &Begun<'a>) -> Result<(), Invalid>
        ensures value { MatchResult result
            (λ _. Took (IsBegun first.now) (begun_in first.now self.old) self.new)
            (λ _. begun_in first.now self.old ≡ None) }
        ensures no_longer { OnOk result (length self.new ≤ length self.old) }
    {
        match first {
            Begun::Array(depth) => self.skip_items(*depth),
            Begun::Object(depth) => self.skip_members(*depth),
            Begun::Null | Begun::Bool(_) | Begun::Number(_) | Begun::Text(_) => Ok(()),
        }
    }

    /// Passes over a value of at most so many levels.
    #[cycle(skip)]
    pub fn skip(&mut self, depth: usize) -> Result<(), Invalid>
        ensures value { MatchResult result
            (λ _. Took (λ d. ⊤) (value_in depth self.old) self.new)
            (λ _. value_in depth self.old ≡ None) }
        ensures shorter { OnOk result (length self.new < length self.old) }
    {
        let first = self.begin(depth)?;
        self.finish(&first)
    }

    /// Passes over the items that are left of an array.
    #[cycle(skip)]
    pub fn skip_items(&mut self, depth: usize) -> Result<(), Invalid>
        ensures value { MatchResult result
            (λ _. Took (λ ds. ⊤) (items_in depth self.old) self.new)
            (λ _. items_in depth self.old ≡ None) }
        ensures shorter { OnOk result (length self.new < length self.old) }
    {
        while !self.ends() {
            self.skip(depth)?;
        }
        Ok(())
    }

    // Passes over the members that are left of an object.
    #[cycle(skip)]
    fn skip_members(&mut self, depth: usize) -> Result<(), Invalid>
        ensures value { MatchResult result
            (λ _. Took (λ ms. ⊤) (members_in depth no_members self.old) self.new)
            (λ _. members_in depth no_members self.old ≡ None) }
        ensures shorter { OnOk result (length self.new < length self.old) }
    {
        while let Some(_) = self.next_name()? {
            self.skip(depth)?;
        }
        Ok(())
    }

    /// Passes over a value of at most so many levels, and tells how it began.
    pub fn pass(&mut self, depth: usize) -> Result<Begun<'a>, Invalid>
        ensures value { MatchResult result
            (λ first. Took (IsBegun first) (value_in depth self.old) self.new)
            (λ _. value_in depth self.old ≡ None) }
        ensures shorter { OnOk result (length self.new < length self.old) }
    {
        let first = self.begin(depth)?;
        self.finish(&first)?;
        Ok(first)
    }

    /// Takes the name of the next member of an object, or its end.
    pub fn next_name(&mut self) -> Result<Option<&'a str>, Invalid>
        ensures value { MatchResult result
            (λ name. read_key self.old ≡ Some (option_map (λ s. s.now) name, self.new))
            (λ _. read_key self.old ≡ None) }
        ensures shorter { OnOk result (length self.new < length self.old) }
    {
        match self.reader.next_key() {
            Ok(name) => Ok(name),
            Err(_) => Err(Invalid),
        }
    }

    /// Takes the end of an array, if it is next.
    pub fn ends(&mut self) -> bool
        ensures value { MatchBool result (after_end_array self.old ≡ Some self.new)
            ((after_end_array self.old ≡ None) × (self.new ≡ self.old)) }
        ensures shorter { result ≡ true → length self.new < length self.old }
    {
        self.reader.take_end_array()
    }

    /// Whether nothing is left. The token that is next, if there is one, is taken.
    pub fn is_done(&mut self) -> bool
        ensures { result ≡ (length self.old == 0) }
    {
        self.reader.next().is_none()
    }
}
