//! JSON objects that are built member by member.

ghost use Rattle.std.specs.Prelude.{◌≡◌, IfOk, IsOkAnd, IsSomeAnd, Some};
ghost use Rattle.serde_json.specs.Data.{no_members, object, put as with_member, string};
ghost use Rattle.serde_json.specs.View.{view, members_view};
ghost use Rattle.report.specs.JsonObject as spec;

use serde_json::{Map, Value, put};
use std::alloc::{AllocError, Global};

/// A JSON object that is being built. If memory runs out, the object keeps the error until
/// [`done`](Object::done) returns it. So a function that builds an object has no early return.
///
/// This makes proofs fast. An early return drops values, and a proof with early returns spends most
/// of its time on these drops.
#[derive(Drop)]
pub(crate) struct Object {
    alloc: Global,
    pub(crate) members: Result<Map<String, Value>, AllocError>,
}

impl Object {
    /// Creates an object without members.
    #[tactic(auto, unfolding(crate::specs::JsonObject::members_of))]
    pub(crate) fn new(alloc: Global) -> Object
        ensures { spec.members_of result ≡ Some no_members }
    {
        Object {
            alloc,
            members: Ok(Map::new(alloc)),
        }
    }

    /// Adds a member with this key and this value.
    pub(crate) fn value(self, key: &str, value: Value) -> Object
        ensures { spec.HasAlso self key.now (view value) result }
    {
        self.part(key, Ok(value))
    }

    /// Adds a member whose value is this text, as a JSON string.
    pub(crate) fn text(self, key: &str, text: &str) -> Object
        ensures { spec.HasAlso self key.now (string text.now) result }
    {
        let value = Value::try_from_str(self.alloc, text);
        self.part(key, value)
    }

    /// Adds a member with the value `true` if `flag` is true. Otherwise adds nothing.
    pub(crate) fn flag(self, key: &str, flag: bool) -> Object
        ensures { spec.HasFlag self key.now flag result }
    {
        if flag {
            self.value(key, Value::Bool(true))
        } else {
            self
        }
    }

    /// Adds a member with the value in `part`. If `part` is an error, the object keeps this error.
    #[tactic(auto, unfolding(crate::specs::JsonObject::members_of))]
    pub(crate) fn part(self, key: &str, part: Result<Value, AllocError>) -> Object
        ensures { spec.HasPart self key.now part result }
    {
        let Object { alloc, members } = self;
        let members = extended(alloc, members, key, part);
        Object { alloc, members }
    }

    /// Returns the object.
    ///
    /// # Errors
    ///
    /// Returns [`AllocError`] if memory ran out for the object or for a part of it.
    #[tactic(auto, unfolding(crate::specs::JsonObject::members_of))]
    pub(crate) fn done(self) -> Result<Value, AllocError>
        ensures { IfOk result (λ value.
            IsSomeAnd (spec.members_of self) (λ members. view value ≡ object members)) }
    {
        Ok(Value::Object(self.members?))
    }
}

fn extended(
    alloc: Global,
    members: Result<Map<String, Value>, AllocError>,
    key: &str,
    part: Result<Value, AllocError>,
) -> Result<Map<String, Value>, AllocError>
    ensures { IfOk result (λ after. IsOkAnd part (λ value. IsOkAnd members (λ before.
        members_view after.entries ≡ with_member key.now (view value) (members_view before.entries)))) }
{
    let mut members = members?;
    put(&mut members, alloc, key, part?)?;
    Ok(members)
}
