//! Objects of a transcript.
ghost use Rattle.std.specs.Prelude.{◌≡◌, false};
ghost use Rattle.serde_json.specs.View.{members_view};
ghost use Rattle.serde_json.specs.Written.{members_have_float};

use fed_io::NoRoom;
use serde_json::{Map, Value};
use std::alloc::Global;

/// An object of a transcript: members with a whole number, a truth value, a text, an object or a list of objects. Contracts
/// see it by `members_of`: its members in byte order of their names, no name twice. Each call that adds a member takes the
/// object and gives it back, with the member in place of one of the same name; on want of memory the object is given up.
#[derive(Drop)]
pub struct Object {
    members: Map<String, Value>,
    alloc: Global,
    ghost no_float: { members_have_float (members_view members.entries) ≡ false },
}

impl Object {
    ghost use Rattle.std.specs.Prelude.{◌++◌, map, IfOk, OnOk, OnErr, option_map};
    ghost use Rattle.std.specs.Option.{option_copied};
    ghost use Rattle.serde_json.specs.Data.{boolean, string, no_members, put};
    ghost use Rattle.serde_json.specs.Data as json;
    ghost use Rattle.serde_json.specs.View.{view, items_view};
    ghost use Rattle.serde_json.specs.Written.{has_float, items_have_float};
    ghost use Rattle.fed_print.specs.Object.{members_of};
    ghost use Rattle.fed_print.specs.Objects as spec;
    ghost use Rattle.fed_print.specs.Objects.{put_if};
    ghost use Rattle.fed_print.specs.Lines.{line_of};

    /// An object without a member. It takes no memory.
    pub fn new(alloc: Global) -> Object
        ensures { members_of result ≡ no_members }
    {
        Object {
            members: Map::new(alloc),
            alloc,
        }
    }

    // The object with the value at its name.
    fn with(self, name: &str, value: Value) -> Result<Object, NoRoom>
        requires { has_float (view value) ≡ false }
        ensures { IfOk result (λ o. members_of o ≡ put name.now (view value) (members_of self)) }
    {
        let Object { mut members, alloc } = self;
        serde_json::put(&mut members, alloc, name, value)?;
        Ok(Object { members, alloc })
    }

    /// The object with a whole number at a name.
    pub fn count(self, name: &str, value: u32) -> Result<Object, NoRoom>
        ensures { IfOk result (λ o. members_of o ≡ put name.now (spec.count value) (members_of self)) }
    {
        self.with(name, Value::from(value))
    }

    /// The object with a whole number of up to 64 bits at a name.
    pub fn total(self, name: &str, value: u64) -> Result<Object, NoRoom>
        ensures { IfOk result (λ o. members_of o ≡ put name.now (spec.count value) (members_of self)) }
    {
        self.with(name, Value::from(value))
    }

    /// The object with a truth value at a name.
    pub fn flag(self, name: &str, value: bool) -> Result<Object, NoRoom>
        ensures { IfOk result (λ o. members_of o ≡ put name.now (boolean value) (members_of self)) }
    {
        self.with(name, Value::from(value))
    }

    /// The object with a text at a name.
    pub fn text(self, name: &str, value: &str) -> Result<Object, NoRoom>
        ensures { IfOk result (λ o. members_of o ≡ put name.now (string value.now) (members_of self)) }
    {
        let value = Value::try_from_str(self.alloc, value)?;
        self.with(name, value)
    }

    /// The object with a text at a name, where there is a text; else the same object.
    pub fn text_if(self, name: &str, value: Option<&str>) -> Result<Object, NoRoom>
        ensures { IfOk result (λ o. members_of o ≡ put_if name.now (option_map string (option_copied value.entry)) (members_of self)) }
    {
        match value {
            Some(value) => self.text(name, value),
            None => Ok(self),
        }
    }

    /// The object with another one at a name.
    pub fn object(self, name: &str, value: Object) -> Result<Object, NoRoom>
        ensures { IfOk result (λ o. members_of o ≡ put name.now (json.object (members_of value)) (members_of self)) }
    {
        self.with(name, Value::Object(value.members))
    }

    // The objects as values, in their order.
    fn values_of(alloc: Global, objects: Vec<Object>) -> Result<Vec<Value>, NoRoom>
        ensures value { IfOk result (λ values. map view values.items ≡ map json.object (map members_of objects.items)) }
        ensures no_float { IfOk result (λ values. items_have_float (items_view values.items) ≡ false) }
    {
        let mut values = Vec::new(alloc);
        for object in objects {
            values.push(Value::Object(object.members))?;
        }
        Ok(values)
    }

    /// The object with a list of others, in their order, at a name. They are given up on want of memory too.
    pub fn objects(self, name: &str, values: Vec<Object>) -> Result<Object, NoRoom>
        ensures { IfOk result (λ o. members_of o ≡ put name.now (spec.objects (map members_of values.items)) (members_of self)) }
    {
        let values = Object::values_of(self.alloc, values)?;
        self.with(name, Value::Array(values))
    }

    /// Appends the line of the object: its compact JSON text, and LF (this profile's own). On want of memory the text is unchanged.
    #[tactic(auto, unfolding(crate::specs::Lines::line_of))]
    pub fn append_line(self, text: &mut Vec<u8>) -> Result<(), NoRoom>
        ensures ok { OnOk result (text.new.items ≡ text.old.items ++ line_of (members_of self)) }
        ensures err { OnErr result (text.new.items ≡ text.old.items) }
    {
        let Object { members, alloc } = self;
        let value = Value::Object(members);
        let mut line = value.to_string(alloc)?;
        line.push_str("\n")?;
        text.extend_from_slice(line.as_str().as_bytes())?;
        Ok(())
    }
}
