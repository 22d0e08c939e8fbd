use crate::{Cause, StandardNumbers, tell};

const INPUT: &str = "standard input";

// The text of a cause, where one is known.
fn text_of(cause: Option<Cause>) -> &'static str {
    cause.unwrap_or(Cause::Failed).text()
}

/// Why the faults of a program's input and output came, where that is known.
#[derive(Clone, Copy)]
pub struct StreamCauses {
    /// Of standard input.
    pub source: Option<Cause>,
    /// Of standard output.
    pub output: Option<Cause>,
}

impl StreamCauses {
    /// No fault came.
    pub fn none() -> StreamCauses {
        StreamCauses {
            source: None,
            output: None,
        }
    }

    /// The same, but that an input which was closed when the program began isn't open.
    pub fn with_closed_input(self, numbers: &StandardNumbers) -> StreamCauses {
        if numbers.input_was_closed() {
            StreamCauses {
                source: Some(Cause::NotOpen),
                ..self
            }
        } else {
            self
        }
    }

    /// Tells on standard error that standard input failed, and why.
    pub fn tell_input<R: Eprint>(&self, rt: &R, program: &str) {
        tell(rt, program, INPUT, text_of(self.source));
    }

    /// Tells on standard error that standard output failed, and why.
    pub fn tell_output<R: Eprint>(&self, rt: &R, program: &str) {
        tell(rt, program, "standard output", text_of(self.output));
    }
}

/// Tells on standard error that there was not enough memory.
pub fn tell_memory<R: Eprint>(rt: &R, program: &str) {
    tell(rt, program, "memory", "there is not enough");
}

/// Tells on standard error that standard input is too long.
pub fn tell_too_long<R: Eprint>(rt: &R, program: &str) {
    tell(rt, program, INPUT, "has 1099511627776 bytes or more");
}
