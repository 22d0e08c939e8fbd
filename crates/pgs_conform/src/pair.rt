ghost use Rattle.std.specs.Prelude.{◌≡◌, true, IfOk, option_map};
ghost use Rattle.pgs_base.specs.Pair.{is_pair, value_at};

use pgs_base::{Copyable, Labels, Memory, Name, Part, Props, pair_facts};
use std::alloc::Global;
use std::marker::Model;

/// What an element carries, lent. Contracts see it as the pair of the definitions.
#[derive(Drop)]
pub struct Pair<'a> {
    pub labels: &'a Labels,
    pub props: &'a Props,
}

impl<'a> Model for Pair<'a> {
    ghost use Rattle.pgs_base.specs.declared.row.NodeRow.{NodeRow};
    ghost use Rattle.pgs_base.specs.Pair.{pair_of};

    ghost Value = { NodeRow };

    ghost view = { λ pair. pair_of pair.labels.now pair.props.now };
}

impl<'a> Pair<'a> {
    /// What each meets: it is a pair, its names and values are those that an element can carry. Nothing is done.
    pub fn facts(&self)
        ensures { is_pair self.now ≡ true }
    {
        pair_facts(self.labels, self.props);
    }
}

/// The part of a tuple that a property is: its value, copied, where the key has one. `Memory` where no memory was left for it.
pub fn property_part(alloc: Global, props: &Props, key: &Name) -> Result<Option<Part>, Memory>
    ensures { IfOk result (λ part. part ≡ option_map (λ value. Part.Value value) (value_at key.now props.now)) }
{
    let Some(value) = props.get(key) else {
        return Ok(None);
    };
    let value = value.copy(alloc)?;
    Ok(Some(Part::Value(value)))
}
