// The tokens of a text.

/// A word with a meaning of its own.
#[derive(Clone, Copy, Debug, PartialEq, Eq)]
pub enum Keyword {
    Int,
    Unsigned,
    Long,
    Char,
    Struct,
    Static,
    Extern,
    Weak,
    Void,
    If,
    Else,
    Goto,
    Switch,
    Case,
    Default,
    Return,
}

/// A sign of one or two bytes.
#[derive(Clone, Copy, Debug, PartialEq, Eq)]
pub enum Mark {
    Semicolon,
    Colon,
    Comma,
    Dot,
    Minus,
    Plus,
    Asterisk,
    Slash,
    Percent,
    Ampersand,
    VerticalBar,
    Caret,
    Tilde,
    Equals,
    EqualsEquals,
    NotEquals,
    Less,
    LessEquals,
    Greater,
    GreaterEquals,
    ShiftLeft,
    ShiftRight,
    OpenRound,
    CloseRound,
    OpenSquare,
    CloseSquare,
    OpenCurly,
    CloseCurly,
}

/// What stands directly after a number.
#[derive(Clone, Copy, Debug, PartialEq, Eq)]
pub enum Suffix {
    Plain,
    U,
    L,
    Ul,
}

/// The kind of a fault of the bytes.
#[derive(Clone, Copy, Debug, PartialEq, Eq)]
pub enum TextKind {
    Byte,
    Syntax,
    Literal,
}

/// A token, or what ends the tokens. A number of 2 ^ 64 or more has no value.
#[derive(Clone, Copy, Debug)]
pub enum Token<'a> {
    Name(&'a [u8]),
    Word(Keyword),
    Number(Option<u64>, Suffix),
    Sign(Mark),
    End,
    Bad(TextKind),
}
