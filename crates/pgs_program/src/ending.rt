//! What is told on standard error of a run that ends without a line on standard output.

ghost use Rattle.std.specs.Prelude.{◌≡◌};
ghost use Rattle.pgs_command.specs.declared.status.Status.TheVariants.{Memory};

use pgs_base::Words;
use pgs_command::Status;
use pgs_world_files::FileCause;
use pgs_world_streams::{
    Cause, StandardNumbers, StreamCauses, tell, tell_memory, tell_too_long, tell_usage,
};
use std::fmt::{self, Display, Formatter};

/// Why the faults of a run came, where that is known: of the input and the output, and of the areas, with the ending of the file's name.
#[derive(Clone, Copy)]
pub struct Causes {
    pub streams: StreamCauses,
    pub area: Option<(&'static str, FileCause)>,
}

/// How a run ended, and why its faults came.
#[derive(Clone, Copy)]
pub struct Ended {
    pub status: Status,
    pub causes: Causes,
}

impl Causes {
    // The causes, but that an input which was closed when the program began isn't open.
    fn with_closed_input(self, numbers: &StandardNumbers) -> Causes {
        Causes {
            streams: self.streams.with_closed_input(numbers),
            ..self
        }
    }
}

impl Ended {
    /// There was no memory to begin.
    pub fn unbegun() -> Ended
        ensures { result.status ≡ Memory }
    {
        Ended {
            status: Status::Memory,
            causes: Causes {
                streams: StreamCauses::none(),
                area: None,
            },
        }
    }
}

/// The name of a file, by a word and its ending, as a part of one line: what a terminal wouldn't show as it stands is escaped, so no name
/// begins another line or commands the terminal.
#[derive(Drop)]
pub(crate) struct ShownName<'a> {
    pub(crate) word: &'a str,
    pub(crate) ending: &'static str,
}

impl Display for ShownName<'_> {
    fn fmt<W: fmt::Write>(&self, f: &mut Formatter<W>) -> fmt::Result {
        for c in self.word.chars() {
            match c {
                '\'' | '"' => f.write_char(c)?,
                _ => write!(f, "{}", c.escape_debug())?,
            }
        }
        f.write_str(self.ending)
    }
}

// Tells which file of the store failed, and why.
fn tell_area<R: Eprint>(
    rt: &R,
    program: &str,
    words: &Words,
    area: Option<(&'static str, FileCause)>,
) {
    let word = words.at(1).unwrap_or("");
    let (ending, cause) = match area {
        Some((ending, cause)) => (ending, cause.text()),
        None => ("", Cause::Failed.text()),
    };
    tell(rt, program, ShownName { word, ending }, cause);
}

/// Tells on standard error why a program's run of these words ended so, where it printed nothing of it: what failed and the cause, and for
/// words that are no command the usage.
pub fn tell_ending<R: Eprint>(
    rt: &R,
    program: &str,
    usage: &str,
    words: &Words,
    ended: Ended,
    numbers: &StandardNumbers,
) {
    let causes = ended.causes.with_closed_input(numbers);
    match ended.status {
        Status::Accepted | Status::Refused | Status::SchemaRefused | Status::StoreRefused => {}
        Status::BadWords => tell_usage(rt, usage),
        Status::DiskFault => tell_area(rt, program, words, causes.area),
        Status::ReadFault => causes.streams.tell_input(rt, program),
        Status::PutFault => causes.streams.tell_output(rt, program),
        Status::Memory => tell_memory(rt, program),
        Status::InputTooLong => tell_too_long(rt, program),
    }
}
