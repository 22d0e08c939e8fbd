ghost use Rattle.std.specs.Prelude.{◌≡◌, ◌<◌, ◌↔◌, [], length, slice_get, option_map, IfOk, OnErr, OnOk, OnSome, IsTrue, None, true};
ghost use Rattle.std.specs.Option.{option_copied};
ghost use Rattle.std.specs.Ordering.{nat_cmp};
ghost use Rattle.std.specs.Cmp.Lexicographic.{slice_cmp};
ghost use Rattle.std.specs.List.Sorted.{IsStrictlySortedBy};
ghost use Rattle.std.specs.Map.{keys_of};
ghost use Rattle.std.specs.Ordering.{eq_by_cmp};
ghost use Rattle.std.specs.Cmp.{partial_equiv_from_equiv, eq_by_cmp_equiv};
ghost use Rattle.pgs_base.specs.Order.{props_cmp};
ghost use Rattle.pgs_base.specs.OrderLaws.{props_cmp_total};
ghost use Rattle.std.specs.List.{list_all};
ghost use Rattle.pgs_base.specs.Name.{is_name};
ghost use Rattle.pgs_base.specs.Properties.{has_value, are_props, value_at, put_value, take_value};

use crate::{Copyable, Memory, Name, Rows, Value};
use std::alloc::Global;
use std::marker::Model;

/// The properties of an element: a partial map from names to values. Contracts see them as a list of pairs
/// whose names ascend strictly.
pub struct Props {
    rows: Rows<Name, Value>,
}

impl Model for Props {
    ghost use Rattle.std.specs.Prelude.{◌≡◌, List, ℕ, true};
    ghost use Rattle.pgs_base.specs.declared.value.Value.{Value as PropertyValue};
    ghost use Rattle.pgs_base.specs.Properties.{are_props};

    ghost Value = { List (List ℕ × PropertyValue) };

    ghost view = { λ props. props.rows };

    ghost invariant = { λ props. are_props props.rows ≡ true };
}

// Dropped here, so that crates above need not prove what it holds.
impl Drop for Props {
    fn drop(self) {
        let Props { rows: _ } = self;
    }
}

// What every slice of names and values meets. Nothing is done.
fn row_facts(rows: &[(Name, Value)])
    ensures names { list_all is_name (keys_of rows.now) ≡ true }
    ensures values { list_all has_value rows.now ≡ true }
{
    for row in rows {
        let _name = row.0.bytes();
        row.1.facts();
    }
}

impl Props {
    /// No properties. It takes no memory.
    pub fn new(alloc: Global) -> Props
        ensures { result ≡ [] }
    {
        Props {
            rows: Rows::new(alloc),
        }
    }

    /// The properties of a vector in which the names ascend strictly.
    pub fn from_vec(rows: Vec<(Name, Value)>) -> Props
        requires { IsStrictlySortedBy (slice_cmp nat_cmp) (keys_of rows.items) }
        ensures { result ≡ rows.items }
    {
        row_facts(rows.as_slice());
        Props {
            rows: Rows::from_vec(rows),
        }
    }

    /// How many properties there are.
    pub fn len(&self) -> usize
        ensures value { result ≡ length self.now }
        ensures ascending { IsStrictlySortedBy (slice_cmp nat_cmp) (keys_of self.now) }
    {
        self.rows.len()
    }

    /// Whether there is no property.
    pub fn is_empty(&self) -> bool
        ensures { IsTrue result ↔ (self.now ≡ []) }
    {
        self.rows.is_empty()
    }

    /// The name and the value at a place, from 0. `None` exactly past the last.
    pub fn at(&self, place: usize) -> Option<(&Name, &Value)>
        ensures value { option_map (λ row. (row.0.now, row.1.now)) result ≡ slice_get self.now place }
        ensures within { OnSome result (place < length self.now) }
    {
        match self.rows.at(place) {
            Some(row) => Some((&row.0, &row.1)),
            None => None,
        }
    }

    /// All names with their values, in order.
    pub fn as_slice(&self) -> &[(Name, Value)]
        ensures value { result.now ≡ self.now }
        ensures ascending { IsStrictlySortedBy (slice_cmp nat_cmp) (keys_of self.now) }
        ensures props { are_props self.now ≡ true }
    {
        self.rows.as_slice()
    }

    /// The value at a name. `None` exactly where the name is absent.
    pub fn get(&self, name: &Name) -> Option<&Value>
        ensures { option_copied result ≡ value_at name.now self.now }
    {
        self.rows.get(name)
    }

    /// Sets the value at a name, and answers the value that was there. After `Memory`, which comes only for a
    /// new name, the properties are as they were.
    pub fn set(&mut self, name: Name, value: Value) -> Result<Option<Value>, Memory>
        ensures ok { OnOk result (self.new ≡ put_value self.old name value) }
        ensures answer { IfOk result (λ old. old ≡ value_at name self.old) }
        ensures err { OnErr result (self.new ≡ self.old) }
        ensures only_new { OnErr result (value_at name self.old ≡ None) }
    {
        let _bytes = name.bytes();
        value.facts();
        let old = self.rows.set(name, value)?;
        Ok(old)
    }

    /// Takes a name and its value out. Answers the value, or `None` exactly where the name was absent.
    pub fn unset(&mut self, name: &Name) -> Option<Value>
        ensures rows { self.new ≡ take_value self.old name.now }
        ensures answer { result ≡ value_at name.now self.old }
    {
        self.rows.unset(name)
    }
}

impl Copyable for Props {
    fn copy(&self, alloc: Global) -> Result<Props, Memory> {
        let rows = self.rows.copy(alloc)?;
        Ok(Props { rows })
    }
}

impl PartialEq for Props {
    ghost eq = { eq_by_cmp props_cmp };

    ghost laws = { partial_equiv_from_equiv (eq_by_cmp_equiv props_cmp_total) };

    #[tactic(auto, using(crate::specs::OrderLaws::props_eq_decides))]
    fn eq(&self, other: &Props) -> bool
        ensures value { result ≡ eq_by_cmp props_cmp self.now other.now }
        ensures same { IsTrue result ↔ (self.now ≡ other.now) }
    {
        self.as_slice().cmp(other.as_slice()).is_eq()
    }
}

impl Eq for Props {
    ghost laws = { eq_by_cmp_equiv props_cmp_total };
}
