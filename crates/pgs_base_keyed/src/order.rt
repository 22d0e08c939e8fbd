ghost use Rattle.std.specs.Prelude.{◌≡◌};
ghost use Rattle.std.specs.Map.{keys_of};
ghost use Rattle.pgs_base.specs.Order.{ascends};

/// Whether keys ascend strictly.
pub fn ascend<K: Ord>(keys: &[K]) -> bool
    ensures { result ≡ ascends K.cmp keys.now }
{
    for place in 1..keys.len() {
        if !keys[place - 1].cmp(&keys[place]).is_lt() {
            return false;
        }
    }
    true
}

/// Whether the keys of rows ascend strictly.
pub fn keys_ascend<K: Ord, V>(rows: &[(K, V)]) -> bool
    ensures { result ≡ ascends K.cmp (keys_of rows.now) }
{
    for place in 1..rows.len() {
        if !rows[place - 1].0.cmp(&rows[place].0).is_lt() {
            return false;
        }
    }
    true
}
