ghost use Rattle.std.specs.Prelude.{◌≡◌, true};
ghost use Rattle.pgs_base.specs.Value.{kind_of, is_value};

use crate::{Copyable, Day, Memory, Text};
use std::alloc::Global;

/// The kind of a value: STRING, INT, BOOL or DATE of the schema language.
#[derive(Clone, Copy, PartialEq, Eq)]
pub enum Kind {
    Text,
    Int,
    Bool,
    Date,
}

/// The value of a property. Values go texts, numbers, truth values, days, and inside a kind by
/// the natural order.
#[derive(Debug, PartialEq, Eq, PartialOrd, Ord, Drop)]
pub enum Value {
    Text(Text),
    Int(i64),
    Bool(bool),
    Date(Day),
}

impl Value {
    /// The kind of the value.
    pub fn kind(&self) -> Kind
        ensures { result ≡ kind_of self.now }
    {
        match self {
            Value::Text(_) => Kind::Text,
            Value::Int(_) => Kind::Int,
            Value::Bool(_) => Kind::Bool,
            Value::Date(_) => Kind::Date,
        }
    }

    /// What every value meets: a text is UTF-8 of at most 65,535 bytes, a number has 64 bits, a day is one of the
    /// calendar. Nothing is done.
    pub fn facts(&self)
        ensures { is_value self.now ≡ true }
    {
        match self {
            Value::Text(text) => {
                let _text = text.text();
            }
            Value::Int(number) => {
                let _number = *number;
            }
            Value::Bool(_) => {}
            Value::Date(day) => {
                let _day = day.day();
            }
        }
    }
}

impl Copyable for Value {
    fn copy(&self, _alloc: Global) -> Result<Value, Memory> {
        match self {
            Value::Text(text) => {
                let text = text.share()?;
                Ok(Value::Text(text))
            }
            Value::Int(number) => Ok(Value::Int(*number)),
            Value::Bool(truth) => Ok(Value::Bool(*truth)),
            Value::Date(day) => Ok(Value::Date(*day)),
        }
    }
}
