ghost use Rattle.std.specs.Prelude.{◌≡◌, ◌++◌, flat_map, OnOk};
ghost use Rattle.pgs_base_text.specs.Text.{part_text, further_part, parts_text, tuple_text};

use crate::TextBuffer;
use pgs_base::{Memory, Part, Tuple, Value};

impl TextBuffer {
    // Puts a part of a tuple last.
    fn push_part(&mut self, part: &Part) -> Result<(), Memory>
        ensures { OnOk result (self.new ≡ self.old ++ part_text part.now) }
    {
        match part {
            Part::Value(Value::Text(text)) => self.push_quoted(text.text().as_bytes()),
            Part::Value(Value::Int(number)) => self.push_signed(*number),
            Part::Value(Value::Bool(truth)) => self.push_truth(*truth),
            Part::Value(Value::Date(day)) => self.push_day(*day),
            Part::Elem(elem) => self.push_elem(*elem),
        }
    }

    // Puts the parts last that follow others.
    fn push_further_parts(&mut self, parts: &[Part]) -> Result<(), Memory>
        ensures { OnOk result (self.new ≡ self.old ++ flat_map further_part parts.now) }
    {
        for part in parts {
            self.push(b", ")?;
            self.push_part(part)?;
        }
        Ok(())
    }

    // Puts parts last, with a comma and a space between each two.
    fn push_parts(&mut self, parts: &[Part]) -> Result<(), Memory>
        ensures { OnOk result (self.new ≡ self.old ++ parts_text parts.now) }
    {
        match parts {
            [] => Ok(()),
            [first, rest @ ..] => {
                self.push_part(first)?;
                self.push_further_parts(rest)
            }
        }
    }

    /// Puts a tuple last, as `(1, n4)`.
    #[tactic(auto, unfolding(crate::specs::Text::tuple_text))]
    pub fn push_tuple(&mut self, tuple: &Tuple) -> Result<(), Memory>
        ensures { OnOk result (self.new ≡ self.old ++ tuple_text tuple.now) }
    {
        self.push(b"(")?;
        self.push_parts(tuple.parts())?;
        self.push(b")")
    }
}
