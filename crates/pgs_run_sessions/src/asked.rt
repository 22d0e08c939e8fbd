ghost use Rattle.std.specs.Prelude.{◌≡◌, None};
ghost use Rattle.pgs_sessions_machine.specs.Machine.{number_of};
ghost use Rattle.pgs_run_sessions.specs.Replies.{elem_read};

use pgs_base::Elem;
use pgs_sessions_machine::Event;

/// What the line of a reply says of its event: the session, and the element that it reads, if it reads one.
#[derive(Clone, Copy)]
pub struct Asked {
    pub session: u64,
    pub elem: Option<Elem>,
}

impl Asked {
    fn new(session: u64) -> Asked
        ensures session { result.session ≡ session }
        ensures elem { result.elem ≡ None }
    {
        Asked {
            session,
            elem: None,
        }
    }

    /// Of an event.
    pub fn of(event: &Event) -> Asked
        ensures session { result.session ≡ number_of event.now }
        ensures elem { result.elem ≡ elem_read event.now }
    {
        match event {
            Event::Read { session, elem } => Asked {
                session: *session,
                elem: Some(*elem),
            },
            Event::Begin(session)
            | Event::Stage { session, .. }
            | Event::Commit(session)
            | Event::Abort(session) => Asked::new(*session),
        }
    }
}
