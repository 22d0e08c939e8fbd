ghost use Rattle.std.specs.Prelude.{◌≡◌};
ghost use Rattle.pgs_conform.specs.JoinedOptions.{free_options, joins_kind, joined_options};

use crate::Options;

/// What may stand at a key that is not named: nothing, and with `more` any value.
pub fn free_options(more: bool) -> Options
    ensures { result ≡ free_options more }
{
    Options {
        absent: true,
        text: more,
        int: more,
        boolean: more,
        date: more,
    }
}

// Whether a kind may stand at a key of a join, where it may stand or not in each of the two, and so may nothing.
fn joins_kind(first: bool, first_absent: bool, second: bool, second_absent: bool) -> bool
    ensures { result ≡ joins_kind first first_absent second second_absent }
{
    (first && (second || second_absent)) || (first_absent && second)
}

/// What may stand at a key of a join, by what may stand there in each of the two.
pub fn join_options(first: Options, second: Options) -> Options
    ensures { result ≡ joined_options first second }
{
    Options {
        absent: first.absent & second.absent,
        text: joins_kind(first.text, first.absent, second.text, second.absent),
        int: joins_kind(first.int, first.absent, second.int, second.absent),
        boolean: joins_kind(first.boolean, first.absent, second.boolean, second.absent),
        date: joins_kind(first.date, first.absent, second.date, second.absent),
    }
}
