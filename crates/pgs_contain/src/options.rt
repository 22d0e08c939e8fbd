//! What may stand at one key, by two options.

ghost use Rattle.std.specs.Prelude.{◌≡◌};
ghost use Rattle.pgs_contain.specs.Regions.{is_possible, without, common_options, is_within};

use pgs_conform::Options;

/// Whether something may stand at a key, by its options.
pub fn is_possible(options: Options) -> bool
    ensures { result ≡ is_possible options }
{
    options.absent || options.text || options.int || options.boolean || options.date
}

// What may stand at a key by the first options and not by the second.
pub(crate) fn without(own: Options, taken: Options) -> Options
    ensures { result ≡ without own taken }
{
    Options {
        absent: own.absent & !taken.absent,
        text: own.text & !taken.text,
        int: own.int & !taken.int,
        boolean: own.boolean & !taken.boolean,
        date: own.date & !taken.date,
    }
}

/// What may stand at a key by both options.
pub fn common_options(first: Options, second: Options) -> Options
    ensures { result ≡ common_options first second }
{
    Options {
        absent: first.absent & second.absent,
        text: first.text & second.text,
        int: first.int & second.int,
        boolean: first.boolean & second.boolean,
        date: first.date & second.date,
    }
}

// Whether what may stand at a key by the first options may by the second.
pub(crate) fn is_within(first: Options, second: Options) -> bool
    ensures { result ≡ is_within first second }
{
    (!first.absent || second.absent)
        && (!first.text || second.text)
        && (!first.int || second.int)
        && (!first.boolean || second.boolean)
        && (!first.date || second.date)
}
