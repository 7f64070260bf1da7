use field_values::Text;

/// A sign or a keyword of a query's text.
#[derive(Clone, Copy, PartialEq, Eq)]
pub enum Mark {
    Equals,
    NotEquals,
    Greater,
    GreaterOrEqual,
    Less,
    LessOrEqual,
    Contains,
    Lacks,
    Open,
    Close,
    Comma,
    And,
    Or,
    Not,
    Empty,
    In,
    Is,
    Was,
    Changed,
    Order,
    By,
    Ascending,
    Descending,
    After,
    Before,
    On,
    During,
    From,
    To,
}

/// What is wrong at a place in a text.
#[derive(Clone, Copy, PartialEq, Eq)]
pub enum Kind {
    /// No token begins with this character, or no escape is spelled so.
    Character,
    /// A quoted text without its end.
    Unclosed,
    /// Nothing that may stand here.
    Expected,
    /// A NOT or a parenthesis, where 64 are open.
    TooDeep,
    /// More than 4,096 bytes.
    TooLong,
    /// A text that is no date.
    BadDate,
    /// A field's number out of its range.
    BadNumber,
}

/// A token of a query's text.
#[derive(Drop)]
pub enum Token {
    Marked(Mark),
    /// A word that no parenthesis follows.
    Word(Text),
    /// A word before a parenthesis.
    Name(Text),
    /// A text in quotes, without them and without escapes.
    Quoted(Text),
    /// A field by its number.
    Custom(u32),
    /// Nothing that can be read. It is the last token.
    Bad(Kind),
}

/// A token, and the byte of the text at which it begins.
#[derive(Drop)]
pub struct Placed {
    pub place: usize,
    pub token: Token,
}
