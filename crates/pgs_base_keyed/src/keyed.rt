ghost use Rattle.std.specs.Prelude.{◌≡◌, [], IfOk, OnOk, OnErr, is_some, None};
ghost use Rattle.std.specs.Option.{option_copied};
ghost use Rattle.std.specs.Ordering.{is_le, is_gt};
ghost use Rattle.std.specs.List.{find};
ghost use Rattle.std.specs.List.Sorted.{IsStrictlySortedBy};
ghost use Rattle.std.specs.Map.{keys_of, lookup, remove_entry};
ghost use Rattle.std.specs.BTreeMap.{is_at, insert_entry};

use pgs_base::{Memory, Rows};
use std::alloc::Global;
use std::collections::BTreeMap;
use std::marker::Model;

/// Up to so many changes are made in a block.
const FEW: usize = 16;

#[derive(Drop)]
enum Form<K: Ord, V> {
    Few(Rows<K, V>),
    Many(BTreeMap<K, V>),
}

/// Values by keys, which contracts see as the list of the pairs by ascending key.
#[derive(Drop)]
pub struct Keyed<K: Ord, V> {
    form: Form<K, V>,
    // About so many changes were announced. They decide the form, which no change turns into the other.
    changes: usize,
}

impl<K: Ord, V> Model for Keyed<K, V> {
    ghost use Rattle.std.specs.Prelude.{List};
    ghost use Rattle.std.specs.Coded.{coded_list, coded×};
    ghost use Rattle.pgs_base_keyed.specs.Form.{form_rows, Suits};

    ghost Value = { List (K × V) };

    ghost coded = { coded_list (coded× K.code V.code) };

    ghost view = { λ keyed. form_rows keyed.form };

    ghost invariant = { λ keyed. Suits keyed.changes keyed.form };
}

// The first key from a key on, among pairs by ascending key.
fn first_of<'a, K: Ord, V>(rows: &'a [(K, V)], start: &K) -> Option<&'a K>
    requires { IsStrictlySortedBy K.cmp (keys_of rows.now) }
    ensures { option_copied result ≡ find (λ key. is_le (K.cmp start.now key)) (keys_of rows.now) }
{
    let place = rows.partition_point(
        |row: &(K, V)| -> bool
            ensures { result ≡ is_gt (K.cmp start.entry.now row.now.0) }
        { start.cmp(&row.0).is_gt() },
    );
    match rows.get(place) {
        Some(row) => Some(&row.0),
        None => None,
    }
}

impl<K: Ord + Drop, V: Drop> Keyed<K, V> {
    /// No values, in a form that suits about so many changes: a block exactly up to sixteen. It takes no memory.
    pub fn new(alloc: Global, changes: usize) -> Keyed<K, V>
        ensures { result ≡ [] }
    {
        let form = if changes <= FEW {
            Form::Few(Rows::new(alloc))
        } else {
            Form::Many(BTreeMap::new(alloc))
        };
        Keyed { form, changes }
    }

    /// The value at a key. `None` exactly where the key is absent.
    pub fn get(&self, key: &K) -> Option<&V>
        ensures { option_copied result ≡ lookup (is_at (K.cmp key.now)) self.now }
    {
        match &self.form {
            Form::Few(rows) => rows.get(key),
            Form::Many(map) => map.get(key),
        }
    }

    /// Whether a key is there.
    pub fn contains(&self, key: &K) -> bool
        ensures { result ≡ is_some (lookup (is_at (K.cmp key.now)) self.now) }
    {
        match &self.form {
            Form::Few(rows) => rows.contains(key),
            Form::Many(map) => map.contains_key(key),
        }
    }

    /// The least key that isn't below another one. `None` exactly where all are below it.
    pub fn first_from(&self, start: &K) -> Option<&K>
        ensures { option_copied result ≡ find (λ key. is_le (K.cmp start.now key)) (keys_of self.now) }
    {
        match &self.form {
            Form::Few(rows) => first_of(rows.as_slice(), start),
            Form::Many(map) => match map.range(start..).next() {
                Some((key, _)) => Some(key),
                None => None,
            },
        }
    }

    /// Sets the value at a key, and answers the value that was there. After `Memory`, which comes only for a new key, all is as it was.
    pub fn set(&mut self, key: K, value: V) -> Result<Option<V>, Memory>
        ensures ok { OnOk result (self.new ≡ insert_entry K.cmp self.old key value) }
        ensures answer { IfOk result (λ old. old ≡ lookup (is_at (K.cmp key)) self.old) }
        ensures err { OnErr result (self.new ≡ self.old) }
        ensures only_new { OnErr result (lookup (is_at (K.cmp key)) self.old ≡ None) }
    {
        match &mut self.form {
            Form::Few(rows) => rows.set(key, value),
            Form::Many(map) => Ok(map.insert(key, value)?),
        }
    }

    /// Takes a key and its value out. Answers the value, or `None` exactly where the key was absent.
    pub fn unset(&mut self, key: &K) -> Option<V>
        ensures rows { self.new ≡ remove_entry (is_at (K.cmp key.now)) self.old }
        ensures answer { result ≡ lookup (is_at (K.cmp key.now)) self.old }
    {
        match &mut self.form {
            Form::Few(rows) => rows.unset(key),
            Form::Many(map) => map.remove(key),
        }
    }

    /// What every such value meets: its keys ascend. Nothing is done.
    pub fn facts(&self)
        ensures { IsStrictlySortedBy K.cmp (keys_of self.now) }
    {
        match &self.form {
            Form::Few(rows) => {
                let _ascending = rows.len();
            }
            Form::Many(map) => {
                let _ascending = map.len();
            }
        }
    }

    /// The pairs by ascending key. `Memory` where none was left.
    pub fn into_vec(self, alloc: Global) -> Result<Vec<(K, V)>, Memory>
        ensures rows { IfOk result (λ rows. rows.items ≡ self) }
        ensures ascending { IfOk result (λ rows. IsStrictlySortedBy K.cmp (keys_of rows.items)) }
    {
        self.facts();
        match self.form {
            Form::Few(rows) => Ok(rows.into_vec()),
            Form::Many(map) => Ok(map.into_iter().collect(alloc)?),
        }
    }
}
