/// What a token is.
#[derive(Clone, Copy, Debug, PartialEq, Eq)]
pub enum TokenKind {
    /// Name characters.
    Word,
    /// Digits, behind an optional minus.
    Integer,
    /// `@` and a name.
    Global,
    /// `%` and a name.
    Local,
    /// `#` and name characters.
    Group,
    /// `!`, alone or with a name.
    Meta,
    /// A string in double quotes.
    Quoted,
    /// The `c` directly before a string.
    CMark,
    /// One of `= , ( ) { } [ ] < > * :`, or `...`.
    Sign,
    /// A word, integer or string with the colon that directly follows it.
    Label,
}

/// One token of a text: its kind, and the places in bytes at which it begins and behind which it ends.
#[derive(Clone, Copy, Debug, PartialEq, Eq)]
pub struct Token {
    pub kind: TokenKind,
    pub start: u32,
    pub end: u32,
}
