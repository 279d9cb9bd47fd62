ghost use Rattle.std.specs.Prelude.{◌≡◌, ◌≤◌, ◌<◌, length};
ghost use Rattle.sc_grammar.specs.Words as words;

use crate::lexeme::{Kind, Lexeme};
use crate::lexing::lexeme_at;
use crate::words::{Word, is_z, word_of};

/// What a token is to the grammar.
#[derive(Clone, Copy, Debug, PartialEq, Eq)]
pub enum Class {
    Or,
    And,
    Not,
    Like,
    Between,
    In,
    Is,
    Null,
    True,
    False,
    Casei,
    SIntersects,
    Timestamp,
    Date,
    Bbox,
    Point,
    LineString,
    Polygon,
    MultiPoint,
    MultiLineString,
    MultiPolygon,
    GeometryCollection,
    /// The word `Z`, which is a name too.
    Z,
    /// Any other word.
    Name,
    QuotedName,
    Text,
    Number,
    Equal,
    NotEqual,
    Less,
    Greater,
    AtMost,
    AtLeast,
    Opening,
    Closing,
    Comma,
    /// No token can be formed, so no grammar takes it.
    Bad,
    /// The text ends.
    End,
}

/// A token: what it is to the grammar, and its bytes, those from `from` on and before `to`.
#[derive(Clone, Copy, Debug, PartialEq, Eq)]
pub struct Token {
    pub class: Class,
    pub from: usize,
    pub to: usize,
}

fn class_of(kind: Kind) -> Class
    ensures { result ≡ words.class_of kind }
{
    match kind {
        Kind::Word => Class::Name,
        Kind::QuotedName => Class::QuotedName,
        Kind::Text => Class::Text,
        Kind::Number => Class::Number,
        Kind::Equal => Class::Equal,
        Kind::NotEqual => Class::NotEqual,
        Kind::Less => Class::Less,
        Kind::Greater => Class::Greater,
        Kind::AtMost => Class::AtMost,
        Kind::AtLeast => Class::AtLeast,
        Kind::Opening => Class::Opening,
        Kind::Closing => Class::Closing,
        Kind::Comma => Class::Comma,
        Kind::Bad => Class::Bad,
        Kind::End => Class::End,
    }
}

fn is_opening(lexeme: Lexeme) -> bool
    ensures { result ≡ words.is_opening lexeme }
{
    matches!(lexeme.kind, Kind::Opening)
}

fn is_z_at(text: &[u8], lexeme: Lexeme) -> bool
    requires ordered { lexeme.from ≤ lexeme.to }
    requires within { lexeme.to ≤ length text.now }
    ensures { result ≡ words.is_z_at text.now lexeme }
{
    match lexeme.kind {
        Kind::Word => is_z(&text[lexeme.from..lexeme.to]),
        _ => false,
    }
}

fn class_in(text: &[u8], is_whole: bool, word: Word, behind: usize) -> Class
    requires { behind ≤ length text.now }
    ensures { result ≡ words.class_in text.now is_whole word behind }
{
    match word {
        Word::Fixed(class) => class,
        Word::Function(class) => {
            let next = lexeme_at(text, is_whole, behind);
            if is_opening(next) { class } else { Class::Name }
        }
        Word::Geometry(class) => {
            let next = lexeme_at(text, is_whole, behind);
            if is_opening(next) || is_z_at(text, next) {
                class
            } else {
                Class::Name
            }
        }
    }
}

/// The token at a place, behind the white space there: the longest that can be formed.
///
/// `text` is UTF-8, and `is_whole` where it is all of what is read; else what stands behind it isn't, and the token at its
/// end is `Bad`. A word is a keyword, the name of a function or of a geometry in any case, the last two only where the next
/// token makes them so.
#[tactic(auto, unfolding(crate::specs::Words::token_at))]
pub fn token_at(text: &[u8], is_whole: bool, at: usize) -> Token
    requires { at ≤ length text.now }
    ensures token { result ≡ words.token_at text.now is_whole at }
    ensures onward { at ≤ result.from }
    ensures ordered { result.from ≤ result.to }
    ensures forward { words.IsFormedClass result.class → result.from < result.to }
    ensures within { result.to ≤ length text.now }
{
    let Lexeme { kind, from, to } = lexeme_at(text, is_whole, at);
    let class = match kind {
        Kind::Word => class_in(text, is_whole, word_of(&text[from..to]), to),
        _ => class_of(kind),
    };
    Token { class, from, to }
}
