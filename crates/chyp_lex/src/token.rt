// Tokens, by kind and place.

/// What a token is: a name, a number, a bad piece, a symbol or a reserved word.
#[derive(Clone, Copy, Debug, PartialEq, Eq)]
pub enum TokenKind {
    /// An identifier that is no reserved word.
    Ident,
    /// Two or more identifiers with `.` between them.
    Dotted,
    /// Decimal digits whose value is below 2^64.
    Number,
    /// What no other token begins with, or digits with a greater value.
    Bad,
    /// `:`
    Colon,
    /// `->`
    Arrow,
    /// `=`
    Equals,
    /// `;`
    Semicolon,
    /// `*`
    Star,
    /// `(`
    LeftParenthesis,
    /// `)`
    RightParenthesis,
    /// `[`
    LeftBracket,
    /// `]`
    RightBracket,
    /// `,`
    Comma,
    /// `-`
    Minus,
    /// `?`
    QuestionMark,
    /// `gen`
    WordGen,
    /// `let`
    WordLet,
    /// `rule`
    WordRule,
    /// `rewrite`
    WordRewrite,
    /// `import`
    WordImport,
    /// `show`
    WordShow,
    /// `type`
    WordType,
    /// `id`
    WordId,
    /// `id0`
    WordId0,
    /// `sw`
    WordSw,
    /// `by`
    WordBy,
    /// `as`
    WordAs,
    /// `simp`
    WordSimp,
    /// `with`
    WordWith,
}

/// A token of a text: its kind, the place of its first byte, its length in bytes, and a number's
/// value (0 for every other kind).
#[derive(Clone, Copy, Debug, PartialEq, Eq)]
pub struct Token {
    pub kind: TokenKind,
    pub start: u32,
    pub len: u32,
    pub value: u64,
}
