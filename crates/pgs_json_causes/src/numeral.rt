//! A number that is read byte by byte.

use fast_float::Numeral;

/// What a number has so far.
#[derive(Clone, Copy)]
pub enum NumberPart {
    Minus,
    /// A 0 with nothing before it, or a minus.
    Zero,
    Whole,
    Point,
    Fraction,
    /// An `e`.
    Power,
    /// An `e` and a plus.
    RaisedSign,
    /// An `e` and a minus.
    LoweredSign,
    /// Digits of a power that isn't negative.
    Raised,
    /// Digits of a negative power.
    Lowered,
}

impl NumberPart {
    /// The part that a byte begins.
    pub fn begun(byte: u8) -> Option<NumberPart> {
        match byte {
            b'-' => Some(NumberPart::Minus),
            b'0' => Some(NumberPart::Zero),
            b'1'..=b'9' => Some(NumberPart::Whole),
            _ => None,
        }
    }

    fn with_digit(self, digit: u8) -> Option<NumberPart> {
        match self {
            NumberPart::Minus if digit == b'0' => Some(NumberPart::Zero),
            NumberPart::Minus | NumberPart::Whole => Some(NumberPart::Whole),
            NumberPart::Zero => None,
            NumberPart::Point | NumberPart::Fraction => Some(NumberPart::Fraction),
            NumberPart::Power | NumberPart::RaisedSign | NumberPart::Raised => {
                Some(NumberPart::Raised)
            }
            NumberPart::LoweredSign | NumberPart::Lowered => Some(NumberPart::Lowered),
        }
    }

    /// The part behind one more byte. `None` where the byte doesn't go on with the number.
    pub fn with(self, byte: u8) -> Option<NumberPart> {
        match (self, byte) {
            (_, b'0'..=b'9') => self.with_digit(byte),
            (NumberPart::Zero | NumberPart::Whole, b'.') => Some(NumberPart::Point),
            (NumberPart::Zero | NumberPart::Whole | NumberPart::Fraction, b'e' | b'E') => {
                Some(NumberPart::Power)
            }
            (NumberPart::Power, b'+') => Some(NumberPart::RaisedSign),
            (NumberPart::Power, b'-') => Some(NumberPart::LoweredSign),
            _ => None,
        }
    }

    /// Whether the number may end here.
    pub fn may_end(self) -> bool {
        matches!(
            self,
            NumberPart::Zero
                | NumberPart::Whole
                | NumberPart::Fraction
                | NumberPart::Raised
                | NumberPart::Lowered
        )
    }

    /// Whether nothing behind it makes the number smaller.
    pub fn only_grows(self) -> bool {
        matches!(self, NumberPart::RaisedSign | NumberPart::Raised)
    }
}

/// Whether the front of a number is larger than a float can be.
pub fn is_too_large(number: &[u8]) -> bool {
    let digits = match number {
        [b'-', digits @ ..] => digits,
        _ => number,
    };
    !Numeral::scan(digits).to_float::<f64>(false).is_finite()
}
