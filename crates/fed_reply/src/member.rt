//! Members of JSON objects.
ghost use Rattle.std.specs.Prelude.{◌≡◌};
ghost use Rattle.std.specs.Option.{option_copied};
ghost use Rattle.std.specs.Result.{result_map_both};
ghost use Rattle.serde_json.specs.View.{view, items_view};
ghost use Rattle.fed_reply.specs.Members.{member_map, text_under, list_under, object_under};
ghost use Rattle.fed_reply.specs.Shape.{required, optional};

use serde_json::Value;

/// A member of an object.
#[derive(Clone, Copy, Debug, PartialEq, Eq)]
pub enum Member<T> {
    /// There is none, or it is null.
    Absent,
    /// It is of another kind, or the value is no object.
    Wrong,
    /// It is there.
    Is(T),
}

impl<'a> Member<&'a str> {
    /// The text, which has to be there.
    pub fn required<S: Drop>(self, step: S) -> Result<&'a str, S>
        ensures { result_map_both (λ text. text.now) (λ e. e) result ≡ required step (member_map (λ s. s.now) self.entry) }
    {
        match self {
            Member::Is(text) => Ok(text),
            Member::Absent | Member::Wrong => Err(step),
        }
    }

    /// The text, which may be left out.
    pub fn optional<S: Drop>(self, step: S) -> Result<Option<&'a str>, S>
        ensures { result_map_both option_copied (λ e. e) result ≡ optional step (member_map (λ s. s.now) self.entry) }
    {
        match self {
            Member::Is(text) => Ok(Some(text)),
            Member::Absent => Ok(None),
            Member::Wrong => Err(step),
        }
    }
}

/// The text under the name.
pub fn text_member<'a>(object: &'a Value, name: &str) -> Member<&'a str>
    ensures { member_map (λ s. s.now) result ≡ text_under name.now (view object.now) }
{
    if !object.is_object() {
        return Member::Wrong;
    }
    match object.get(name) {
        None | Some(Value::Null) => Member::Absent,
        Some(Value::String(text)) => Member::Is(text.as_str()),
        Some(_) => Member::Wrong,
    }
}

/// The list under the name.
pub fn list_member<'a>(object: &'a Value, name: &str) -> Member<&'a Vec<Value>>
    ensures { member_map (λ items. items_view items.now.items) result ≡ list_under name.now (view object.now) }
{
    if !object.is_object() {
        return Member::Wrong;
    }
    match object.get(name) {
        None | Some(Value::Null) => Member::Absent,
        Some(Value::Array(items)) => Member::Is(items),
        Some(_) => Member::Wrong,
    }
}

/// The object under the name.
pub fn object_member<'a>(object: &'a Value, name: &str) -> Member<&'a Value>
    ensures { member_map (λ v. view v.now) result ≡ object_under name.now (view object.now) }
{
    if !object.is_object() {
        return Member::Wrong;
    }
    match object.get(name) {
        None | Some(Value::Null) => Member::Absent,
        Some(member) => {
            if member.is_object() {
                Member::Is(member)
            } else {
                Member::Wrong
            }
        }
    }
}
