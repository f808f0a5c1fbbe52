//! What a well-known file names, read from left to right: the one URL that it lists, and two endpoints.
ghost use Rattle.std.specs.Prelude.{◌≡◌, ◌<◌, None, OnOk, length, option_and_then, MatchResult};
ghost use Rattle.std.specs.Option.{option_copied};
ghost use Rattle.serde_json.specs.Data.{no_members};
ghost use Rattle.serde_json.specs.Find.{as_str};
ghost use Rattle.fed_json.specs.Values.{value_in, items_in, members_in, whole_in, Took};
ghost use Rattle.fed_reply.specs.Texts.{IsWhole};
ghost use Rattle.fed_provider.specs.Listed as spec;
ghost use Rattle.fed_provider.specs.WellKnown.{only_item};

use fed_json::{Begun, Invalid, LEVELS, Values};
use fed_reply::{Member, text_of};

/// What a well-known file names.
#[derive(Clone, Copy, Debug)]
pub struct Named<'a> {
    /// The text that is the only item of the list under `provider_urls`.
    pub listed: Option<&'a str>,
    /// The text under `accounts_endpoint`.
    pub accounts: Member<&'a str>,
    /// The text under `login_url`.
    pub login: Member<&'a str>,
}

/// What a file names, where nothing is left after it.
pub fn whole_named<'a>(values: &mut Values<'a>) -> Result<Named<'a>, Invalid>
    ensures { MatchResult result (λ named. IsWhole (spec.Names named) (whole_in values.old)) (λ _. whole_in values.old ≡ None) }
{
    let named = take_named(values, LEVELS)?;
    if values.is_done() {
        Ok(named)
    } else {
        Err(Invalid)
    }
}

// What a value names, which is passed over.
fn take_named<'a>(values: &mut Values<'a>, depth: usize) -> Result<Named<'a>, Invalid>
    ensures { MatchResult result
        (λ named. Took (spec.Names named) (value_in depth values.old) values.new)
        (λ _. value_in depth values.old ≡ None) }
{
    let first = values.begin(depth)?;
    let Begun::Object(inner) = first else {
        values.finish(&first)?;
        return Ok(Named {
            listed: None,
            accounts: Member::Wrong,
            login: Member::Wrong,
        });
    };
    take_members(values, inner)
}

// What the members name that are left of an object, of several of one name the last.
fn take_members<'a>(values: &mut Values<'a>, depth: usize) -> Result<Named<'a>, Invalid>
    ensures { MatchResult result
        (λ named. Took (λ ms. spec.parts named ≡ spec.parts_of ms) (members_in depth no_members values.old) values.new)
        (λ _. members_in depth no_members values.old ≡ None) }
{
    let mut named = Named {
        listed: None,
        accounts: Member::Absent,
        login: Member::Absent,
    };
    while let Some(name) = values.next_name()? {
        named = take_member(values, depth, name, named)?;
    }
    Ok(named)
}

// The same with what the value of a member names, which is passed over.
fn take_member<'a>(
    values: &mut Values<'a>,
    depth: usize,
    name: &str,
    named: Named<'a>,
) -> Result<Named<'a>, Invalid>
    ensures value { MatchResult result
        (λ now. Took (λ d. spec.parts now ≡ spec.parts_with name.now d (spec.parts named.entry)) (value_in depth values.old) values.new)
        (λ _. value_in depth values.old ≡ None) }
    ensures shorter { OnOk result (length values.new < length values.old) }
{
    if name == "provider_urls" {
        let listed = take_list(values, depth)?;
        return Ok(Named {
            listed,
            accounts: named.accounts,
            login: named.login,
        });
    }
    if name == "accounts_endpoint" {
        let first = values.pass(depth)?;
        return Ok(Named {
            listed: named.listed,
            accounts: text_of(&first),
            login: named.login,
        });
    }
    if name == "login_url" {
        let first = values.pass(depth)?;
        return Ok(Named {
            listed: named.listed,
            accounts: named.accounts,
            login: text_of(&first),
        });
    }
    values.skip(depth)?;
    Ok(named)
}

// The text that is the only item of the list that a value is.
fn take_list<'a>(values: &mut Values<'a>, depth: usize) -> Result<Option<&'a str>, Invalid>
    ensures value { MatchResult result
        (λ text. Took (λ d. option_copied text ≡ spec.only_text_of d) (value_in depth values.old) values.new)
        (λ _. value_in depth values.old ≡ None) }
    ensures shorter { OnOk result (length values.new < length values.old) }
{
    let first = values.begin(depth)?;
    let Begun::Array(inner) = first else {
        values.finish(&first)?;
        return Ok(None);
    };
    take_only(values, inner)
}

// The text that is the only item which is left of an array.
fn take_only<'a>(values: &mut Values<'a>, depth: usize) -> Result<Option<&'a str>, Invalid>
    ensures value { MatchResult result
        (λ text. Took (λ ds. option_copied text ≡ option_and_then as_str (only_item ds)) (items_in depth values.old) values.new)
        (λ _. items_in depth values.old ≡ None) }
    ensures shorter { OnOk result (length values.new < length values.old) }
{
    if values.ends() {
        return Ok(None);
    }
    let first = values.pass(depth)?;
    if !values.ends() {
        values.skip_items(depth)?;
        return Ok(None);
    }
    let Begun::Text(text) = first else {
        return Ok(None);
    };
    Ok(Some(text))
}
