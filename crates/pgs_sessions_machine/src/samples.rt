//! What the machine answers to small lists of events, which stand in `specs/Samples.antt`. The functions do nothing; their contracts are
//! the statements.

ghost use Rattle.std.specs.Prelude.{◌≡◌, [], ◌∷◌};
ghost use Rattle.pgs_syntax.specs.KeySamples.{the_node};
ghost use Rattle.pgs_sessions_machine.specs.declared.event.Content.TheVariants.{Absent, Node};
ghost use Rattle.pgs_sessions_machine.specs.declared.event.Reply.TheVariants.{Began, Content, Staged, Committed, NoSession, Stale};
ghost use Rattle.pgs_sessions_machine.specs.Samples.{answered, second_too_late, both_in_time, read_afterwards};

/// A session read an element that another commit then changed: its own commit is too late, and closes it.
pub fn a_read_that_was_changed()
    ensures { answered second_too_late
        ≡ Began ∷ Began ∷ Staged 1 ∷ Content Absent ∷ Committed 1 ∷ Staged 1 ∷ Stale (the_node 1) 1 ∷ NoSession ∷ [] }
{}

/// Two sessions that touch different elements both commit.
pub fn sessions_apart()
    ensures { answered both_in_time ≡ Began ∷ Began ∷ Staged 1 ∷ Committed 1 ∷ Staged 1 ∷ Committed 2 ∷ [] }
{}

/// After its commit a session is closed, and a new one reads what was committed.
pub fn reads_afterwards()
    ensures { answered read_afterwards
        ≡ Began ∷ Began ∷ Staged 1 ∷ Committed 1 ∷ Staged 1 ∷ Committed 2 ∷ NoSession ∷ Began
        ∷ Content (Node (record { labels = []; props = [] })) ∷ [] }
{}
