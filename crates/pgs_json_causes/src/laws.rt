ghost use Rattle.std.specs.Prelude.{◌≡◌, not, is_some};
ghost use Rattle.serde_json.specs.Data.{Data};
ghost use Rattle.pgs_json.specs.Form.{form};
ghost use Rattle.pgs_json_causes.specs.Cause.{cause_of};

/// A law: a JSON value has a cause exactly where it is no transaction.
pub fn told_where_refused()
    ensures { (d : Data) → is_some (cause_of d) ≡ not (is_some (form d)) }
{}
