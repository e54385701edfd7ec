//! A JSON object that is built member by member.

ghost use Rattle.std.specs.Prelude.{◌≡◌, IfOk};
ghost use Rattle.serde_json.specs.Data.{no_members, object, boolean, string, put as with_member};
ghost use Rattle.serde_json.specs.View.{view};
ghost use Rattle.timing_report.specs.json_report.Json.{count};

use serde_json::{Map, Value};
use std::alloc::{AllocError as OutOfMemory, Global};

/// The members of an object, in the byte order of their keys.
#[derive(Drop)]
pub struct Object {
    map: Map<String, Value>,
    alloc: Global,
}

impl Object {
    ghost use Rattle.timing_report.specs.json_report.Members.{members};

    /// Returns an object without members.
    pub fn new(alloc: Global) -> Object
        ensures { members result ≡ no_members }
    {
        Object {
            map: Map::new(alloc),
            alloc,
        }
    }

    /// Adds a member. Returns `Err` if memory runs out.
    pub fn put(&mut self, key: &str, value: Value) -> Result<(), OutOfMemory>
        ensures { IfOk result
            (λ _. members self.new ≡ with_member key.now (view value) (members self.old)) }
    {
        serde_json::put(&mut self.map, self.alloc, key, value)
    }

    /// Adds a member with a number. Returns `Err` if memory runs out.
    pub fn put_count(&mut self, key: &str, number: u64) -> Result<(), OutOfMemory>
        ensures { IfOk result
            (λ _. members self.new ≡ with_member key.now (count number) (members self.old)) }
    {
        self.put(key, Value::from(number))
    }

    /// Adds a member with a string. Returns `Err` if memory runs out.
    pub fn put_text(&mut self, key: &str, text: &str) -> Result<(), OutOfMemory>
        ensures { IfOk result
            (λ _. members self.new ≡ with_member key.now (string text.now) (members self.old)) }
    {
        let value = Value::try_from_str(self.alloc, text)?;
        self.put(key, value)
    }

    /// Adds a member that is true or false. Returns `Err` if memory runs out.
    pub fn put_flag(&mut self, key: &str, flag: bool) -> Result<(), OutOfMemory>
        ensures { IfOk result
            (λ _. members self.new ≡ with_member key.now (boolean flag) (members self.old)) }
    {
        self.put(key, Value::from(flag))
    }

    /// Returns the object as a JSON value.
    pub fn into_value(self) -> Value
        ensures { view result ≡ object (members self) }
    {
        Value::Object(self.map)
    }
}
