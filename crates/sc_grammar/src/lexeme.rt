/// What stands between white space and the next token, before words are told apart.
#[derive(Clone, Copy, Debug, PartialEq, Eq)]
pub enum Kind {
    /// A word: a letter, `_` or a character past ASCII, and any of these, digits, `:` and `.`.
    Word,
    /// A name in double quotes.
    QuotedName,
    /// A text in single quotes.
    Text,
    /// A number.
    Number,
    /// `=`
    Equal,
    /// `<>`
    NotEqual,
    /// `<`
    Less,
    /// `>`
    Greater,
    /// `<=`
    AtMost,
    /// `>=`
    AtLeast,
    /// `(`
    Opening,
    /// `)`
    Closing,
    /// `,`
    Comma,
    /// No token can be formed here.
    Bad,
    /// The text ends here.
    End,
}

/// A kind, and the bytes that it stands in: those from `from` on and before `to`.
#[derive(Clone, Copy, Debug, PartialEq, Eq)]
pub struct Lexeme {
    pub kind: Kind,
    pub from: usize,
    pub to: usize,
}
