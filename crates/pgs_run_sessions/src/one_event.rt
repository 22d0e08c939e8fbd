//! One event, without steps that anyone asks for.

ghost use Rattle.std.specs.Prelude.{◌≡◌, ◌<◌};
ghost use Rattle.pgs_sessions.specs.State.{Takes};

use pgs_base::{Memory, Steps};
use pgs_sessions::{Event, Reply, Sessions};
use std::marker::Brand;
use std::sync::ledger::{Blank, Ledger};

fn step_counted<L: Ledger>(
    sessions: &mut Sessions,
    event: Event,
    blank: Blank,
) -> Result<Reply, Memory>
    requires name { blank.name ≡ L.name }
    requires parts { blank.parts ≡ L.parts }
    requires some { 0 < blank.parts }
    requires commits { sessions.old.guard.commits < 18446744073709551615 }
    ensures { Takes event sessions.old result sessions.new }
{
    let mut steps: Steps<L> = Steps::begin(blank);
    sessions.step(event, &mut steps)
}

/// One event.
pub fn step(sessions: &mut Sessions, event: Event) -> Result<Reply, Memory>
    requires { sessions.old.guard.commits < 18446744073709551615 }
    ensures { Takes event sessions.old result sessions.new }
{
    step_counted::<Brand>(sessions, event, Blank::new(1))
}
