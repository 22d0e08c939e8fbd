//! A text that is read byte by byte, behind its first quote.

/// What stands before a byte of a text.
#[derive(Clone, Copy)]
pub enum TextState {
    /// Whole characters.
    Plain,
    /// The quote that ends it.
    Ended,
    /// A front of a character of several bytes: the next one lies between the first two numbers, and so many follow it.
    Character(u8, u8, u8),
    /// A backslash.
    Escape,
    /// `\u`.
    Unit,
    /// `\ud`.
    UnitOfD,
    /// An escape that lacks so many hexadecimal digits.
    Digits(u8),
    /// The same of the first half of a pair.
    FirstHalf(u8),
    /// The first half of a pair.
    HalfPair,
    /// It and a backslash.
    HalfPairEscape,
    /// It and `\u`.
    SecondHalf,
    /// It and `\ud`.
    SecondHalfOfD,
}

/// The state behind the first byte of a character.
fn plain(byte: u8) -> Option<TextState> {
    match byte {
        b'"' => Some(TextState::Ended),
        b'\\' => Some(TextState::Escape),
        0x20..=0x7f => Some(TextState::Plain),
        0xc2..=0xdf => Some(TextState::Character(0x80, 0xbf, 0)),
        0xe0 => Some(TextState::Character(0xa0, 0xbf, 1)),
        0xed => Some(TextState::Character(0x80, 0x9f, 1)),
        0xe1..=0xef => Some(TextState::Character(0x80, 0xbf, 1)),
        0xf0 => Some(TextState::Character(0x90, 0xbf, 2)),
        0xf1..=0xf3 => Some(TextState::Character(0x80, 0xbf, 2)),
        0xf4 => Some(TextState::Character(0x80, 0x8f, 2)),
        _ => None,
    }
}

/// The state behind a byte that goes on with a character, where so many follow it.
fn in_character(more: u8) -> TextState {
    if more == 0 {
        TextState::Plain
    } else {
        TextState::Character(0x80, 0xbf, more - 1)
    }
}

/// The state behind the byte behind a backslash.
fn escaped(byte: u8) -> Option<TextState> {
    match byte {
        b'u' => Some(TextState::Unit),
        b'"' | b'\\' | b'/' | b'b' | b'f' | b'n' | b'r' | b't' => Some(TextState::Plain),
        _ => None,
    }
}

/// The state behind a digit of an escape that lacked so many.
fn with_digit(lacked: u8) -> TextState {
    if lacked > 1 {
        TextState::Digits(lacked - 1)
    } else {
        TextState::Plain
    }
}

/// The same of the first half of a pair.
fn with_first_digit(lacked: u8) -> TextState {
    if lacked > 1 {
        TextState::FirstHalf(lacked - 1)
    } else {
        TextState::HalfPair
    }
}

/// The state behind `\ud` and a byte: a half of a pair isn't a character, and only a first half may begin one.
fn unit_of_d(byte: u8) -> Option<TextState> {
    match byte {
        b'0'..=b'7' => Some(TextState::Digits(2)),
        b'8' | b'9' | b'a' | b'b' | b'A' | b'B' => Some(TextState::FirstHalf(2)),
        _ => None,
    }
}

impl TextState {
    /// The state behind one more byte. `None` where no text goes on with it.
    pub fn with(self, byte: u8) -> Option<TextState> {
        match self {
            TextState::Plain => plain(byte),
            TextState::Ended => None,
            TextState::Character(low, high, more) if low <= byte && byte <= high => {
                Some(in_character(more))
            }
            TextState::Character(..) => None,
            TextState::Escape => escaped(byte),
            TextState::Unit if byte == b'd' || byte == b'D' => Some(TextState::UnitOfD),
            TextState::Unit if byte.is_ascii_hexdigit() => Some(TextState::Digits(3)),
            TextState::UnitOfD => unit_of_d(byte),
            TextState::Digits(lacked) if byte.is_ascii_hexdigit() => Some(with_digit(lacked)),
            TextState::FirstHalf(lacked) if byte.is_ascii_hexdigit() => {
                Some(with_first_digit(lacked))
            }
            TextState::HalfPair if byte == b'\\' => Some(TextState::HalfPairEscape),
            TextState::HalfPairEscape if byte == b'u' => Some(TextState::SecondHalf),
            TextState::SecondHalf if byte == b'd' || byte == b'D' => Some(TextState::SecondHalfOfD),
            TextState::SecondHalfOfD if matches!(byte, b'c'..=b'f' | b'C'..=b'F') => {
                Some(TextState::Digits(2))
            }
            _ => None,
        }
    }
}
