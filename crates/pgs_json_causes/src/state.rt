//! A JSON text that is read byte by byte: what may come next, and the arrays and objects that are open.

use crate::numeral::NumberPart;
use crate::text_state::TextState;

/// How deep arrays and objects may nest.
const DEEPEST: u8 = 127;

/// What may come between tokens.
#[derive(Clone, Copy)]
pub enum Wanted {
    Value,
    /// A value, or the end of the array that has just begun.
    Item,
    /// A name, behind a comma in an object.
    Name,
    /// A name, or the end of the object that has just begun.
    Member,
    Colon,
    /// What may stand behind a value.
    Comma,
}

/// Where a byte stands.
#[derive(Clone, Copy)]
pub enum Place {
    Between(Wanted),
    /// Before the rest of a word.
    Word(&'static [u8]),
    Number(NumberPart),
    /// In a text, and whether it is the name of a member.
    Text(TextState, bool),
}

/// The arrays and objects that are open: how many, and a bit for each, set for an object, the innermost last.
#[derive(Clone, Copy)]
struct Nesting {
    depth: u8,
    objects: u128,
}

impl Nesting {
    /// With one more. `None` where there are too many.
    fn opened(self, is_object: bool) -> Option<Nesting> {
        if self.depth >= DEEPEST {
            return None;
        }
        Some(Nesting {
            depth: self.depth + 1,
            objects: (self.objects << 1) | u128::from(is_object),
        })
    }

    /// Without the innermost.
    fn closed(self) -> Nesting {
        Nesting {
            depth: self.depth.saturating_sub(1),
            objects: self.objects >> 1,
        }
    }

    fn is_in_object(self) -> bool {
        self.depth > 0 && self.objects & 1 == 1
    }

    fn is_in_array(self) -> bool {
        self.depth > 0 && self.objects & 1 == 0
    }
}

/// What a front of a JSON text leaves open.
#[derive(Clone, Copy)]
pub struct State {
    place: Place,
    nesting: Nesting,
}

impl State {
    /// Of a text without bytes.
    pub fn new() -> State {
        State {
            place: Place::Between(Wanted::Value),
            nesting: Nesting {
                depth: 0,
                objects: 0,
            },
        }
    }

    /// The part of a number that the front ends in.
    pub fn number(self) -> Option<NumberPart> {
        match self.place {
            Place::Number(part) => Some(part),
            _ => None,
        }
    }

    fn at(self, place: Place) -> State {
        State { place, ..self }
    }

    fn opened(self, is_object: bool, wanted: Wanted) -> Option<State> {
        Some(State {
            place: Place::Between(wanted),
            nesting: self.nesting.opened(is_object)?,
        })
    }

    fn closed(self) -> State {
        State {
            place: Place::Between(Wanted::Comma),
            nesting: self.nesting.closed(),
        }
    }

    /// Behind the first byte of a value.
    fn in_value(self, byte: u8) -> Option<State> {
        match byte {
            b'{' => self.opened(true, Wanted::Member),
            b'[' => self.opened(false, Wanted::Item),
            b'"' => Some(self.at(Place::Text(TextState::Plain, false))),
            b't' => Some(self.at(Place::Word(b"rue"))),
            b'f' => Some(self.at(Place::Word(b"alse"))),
            b'n' => Some(self.at(Place::Word(b"ull"))),
            _ => Some(self.at(Place::Number(NumberPart::begun(byte)?))),
        }
    }

    /// Behind a byte behind a value, which is none of the spaces.
    fn behind_value(self, byte: u8) -> Option<State> {
        let is_in_object = self.nesting.is_in_object();
        let is_in_array = self.nesting.is_in_array();
        match byte {
            b',' if is_in_object => Some(self.at(Place::Between(Wanted::Name))),
            b',' if is_in_array => Some(self.at(Place::Between(Wanted::Value))),
            b'}' if is_in_object => Some(self.closed()),
            b']' if is_in_array => Some(self.closed()),
            _ => None,
        }
    }

    /// Behind a byte between tokens, where this is wanted.
    fn between(self, wanted: Wanted, byte: u8) -> Option<State> {
        match (wanted, byte) {
            (_, b' ' | b'\t' | b'\n' | b'\r') => Some(self.at(Place::Between(wanted))),
            (Wanted::Item, b']') | (Wanted::Member, b'}') => Some(self.closed()),
            (Wanted::Value | Wanted::Item, _) => self.in_value(byte),
            (Wanted::Name | Wanted::Member, b'"') => {
                Some(self.at(Place::Text(TextState::Plain, true)))
            }
            (Wanted::Colon, b':') => Some(self.at(Place::Between(Wanted::Value))),
            (Wanted::Comma, _) => self.behind_value(byte),
            _ => None,
        }
    }

    fn in_word(self, rest: &'static [u8], byte: u8) -> Option<State> {
        match rest {
            [last] if byte == *last => Some(self.at(Place::Between(Wanted::Comma))),
            [first, others @ ..] if byte == *first => Some(self.at(Place::Word(others))),
            _ => None,
        }
    }

    fn in_number(self, part: NumberPart, byte: u8) -> Option<State> {
        match part.with(byte) {
            Some(next) => Some(self.at(Place::Number(next))),
            None if part.may_end() => self.between(Wanted::Comma, byte),
            None => None,
        }
    }

    fn in_text(self, text: TextState, is_name: bool, byte: u8) -> Option<State> {
        Some(self.at(match text.with(byte)? {
            TextState::Ended if is_name => Place::Between(Wanted::Colon),
            TextState::Ended => Place::Between(Wanted::Comma),
            next => Place::Text(next, is_name),
        }))
    }

    /// Behind one more byte. `None` where no JSON text goes on with it.
    pub fn with(self, byte: u8) -> Option<State> {
        match self.place {
            Place::Between(wanted) => self.between(wanted, byte),
            Place::Word(rest) => self.in_word(rest, byte),
            Place::Number(part) => self.in_number(part, byte),
            Place::Text(text, is_name) => self.in_text(text, is_name, byte),
        }
    }
}
