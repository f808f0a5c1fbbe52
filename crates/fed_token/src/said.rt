//! What a reply of the assertion endpoint says, read from left to right.
ghost use Rattle.std.specs.Prelude.{◌≡◌, ◌<◌, None, OnOk, length, MatchResult};
ghost use Rattle.serde_json.specs.Data.{no_members};
ghost use Rattle.fed_json.specs.Values.{value_in, members_in, whole_in, Took};
ghost use Rattle.fed_reply.specs.Texts.{IsWhole};
ghost use Rattle.fed_token.specs.Said as spec;

use fed_json::{Begun, Invalid, LEVELS, Values};
use fed_reply::{Asked, Member, take_texts, text_of};

/// The texts of an error of the provider.
#[derive(Clone, Copy, Debug)]
pub struct ErrorTexts<'a> {
    pub code: Member<&'a str>,
    pub url: Member<&'a str>,
}

/// The token of a value, and its error, where that is an object.
#[derive(Clone, Copy, Debug)]
pub struct Said<'a> {
    pub token: Member<&'a str>,
    pub error: Option<ErrorTexts<'a>>,
}

/// What a value says, where nothing is left after it.
pub fn whole_said<'a>(values: &mut Values<'a>) -> Result<Said<'a>, Invalid>
    ensures { MatchResult result (λ said. IsWhole (spec.Says said) (whole_in values.old)) (λ _. whole_in values.old ≡ None) }
{
    let said = take_said(values, LEVELS)?;
    if values.is_done() {
        Ok(said)
    } else {
        Err(Invalid)
    }
}

// What a value says, which is passed over.
fn take_said<'a>(values: &mut Values<'a>, depth: usize) -> Result<Said<'a>, Invalid>
    ensures { MatchResult result
        (λ said. Took (spec.Says said) (value_in depth values.old) values.new)
        (λ _. value_in depth values.old ≡ None) }
{
    let first = values.begin(depth)?;
    let Begun::Object(inner) = first else {
        values.finish(&first)?;
        return Ok(Said {
            token: Member::Wrong,
            error: None,
        });
    };
    take_members(values, inner)
}

// What the members say that are left of an object, of several of one name the last.
fn take_members<'a>(values: &mut Values<'a>, depth: usize) -> Result<Said<'a>, Invalid>
    ensures { MatchResult result
        (λ said. Took (λ ms. spec.parts said ≡ spec.parts_of ms) (members_in depth no_members values.old) values.new)
        (λ _. members_in depth no_members values.old ≡ None) }
{
    let mut said = Said {
        token: Member::Absent,
        error: None,
    };
    while let Some(name) = values.next_name()? {
        said = take_member(values, depth, name, said)?;
    }
    Ok(said)
}

// The same with what the value of a member says, which is passed over.
fn take_member<'a>(
    values: &mut Values<'a>,
    depth: usize,
    name: &str,
    said: Said<'a>,
) -> Result<Said<'a>, Invalid>
    ensures value { MatchResult result
        (λ now. Took (λ d. spec.parts now ≡ spec.parts_with name.now d (spec.parts said.entry)) (value_in depth values.old) values.new)
        (λ _. value_in depth values.old ≡ None) }
    ensures shorter { OnOk result (length values.new < length values.old) }
{
    if name == "token" {
        let first = values.pass(depth)?;
        return Ok(Said {
            token: text_of(&first),
            error: said.error,
        });
    }
    if name == "error" {
        let error = take_error(values, depth)?;
        return Ok(Said {
            token: said.token,
            error,
        });
    }
    values.skip(depth)?;
    Ok(said)
}

// The texts of the error that a value is.
fn take_error<'a>(values: &mut Values<'a>, depth: usize) -> Result<Option<ErrorTexts<'a>>, Invalid>
    ensures value { MatchResult result
        (λ error. Took (spec.IsError error) (value_in depth values.old) values.new)
        (λ _. value_in depth values.old ≡ None) }
    ensures shorter { OnOk result (length values.new < length values.old) }
{
    let mut asked = [Asked::new("code"), Asked::new("url")];
    if take_texts(values, depth, &mut asked)? {
        Ok(Some(ErrorTexts {
            code: asked[0].found,
            url: asked[1].found,
        }))
    } else {
        Ok(None)
    }
}
