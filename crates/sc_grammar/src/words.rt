ghost use Rattle.std.specs.Prelude.{◌≡◌};
ghost use Rattle.sc_grammar.specs.Words as words;

use crate::token::Class;

/// What a word may be, whatever comes behind it.
#[derive(Clone, Copy, Debug, PartialEq, Eq)]
pub(crate) enum Word {
    /// A keyword, `Z`, or a name.
    Fixed(Class),
    /// The name of a function where an opening parenthesis is the next token.
    Function(Class),
    /// The name of a geometry where an opening parenthesis or the word `Z` is the next token.
    Geometry(Class),
}

/// The keyword in any case.
#[tactic(auto, unfolding(crate::specs::Words::keyword_of))]
fn keyword_of(word: &[u8]) -> Option<Word>
    ensures { result ≡ words.keyword_of word.now }
{
    if word.eq_ignore_ascii_case(b"OR".as_slice()) {
        Some(Word::Fixed(Class::Or))
    } else if word.eq_ignore_ascii_case(b"AND".as_slice()) {
        Some(Word::Fixed(Class::And))
    } else if word.eq_ignore_ascii_case(b"NOT".as_slice()) {
        Some(Word::Fixed(Class::Not))
    } else if word.eq_ignore_ascii_case(b"LIKE".as_slice()) {
        Some(Word::Fixed(Class::Like))
    } else if word.eq_ignore_ascii_case(b"BETWEEN".as_slice()) {
        Some(Word::Fixed(Class::Between))
    } else if word.eq_ignore_ascii_case(b"IN".as_slice()) {
        Some(Word::Fixed(Class::In))
    } else if word.eq_ignore_ascii_case(b"IS".as_slice()) {
        Some(Word::Fixed(Class::Is))
    } else if word.eq_ignore_ascii_case(b"NULL".as_slice()) {
        Some(Word::Fixed(Class::Null))
    } else if word.eq_ignore_ascii_case(b"TRUE".as_slice()) {
        Some(Word::Fixed(Class::True))
    } else if word.eq_ignore_ascii_case(b"FALSE".as_slice()) {
        Some(Word::Fixed(Class::False))
    } else {
        None
    }
}

/// The function in any case.
#[tactic(auto, unfolding(crate::specs::Words::function_of))]
fn function_of(word: &[u8]) -> Option<Word>
    ensures { result ≡ words.function_of word.now }
{
    if word.eq_ignore_ascii_case(b"CASEI".as_slice()) {
        Some(Word::Function(Class::Casei))
    } else if word.eq_ignore_ascii_case(b"S_INTERSECTS".as_slice()) {
        Some(Word::Function(Class::SIntersects))
    } else if word.eq_ignore_ascii_case(b"TIMESTAMP".as_slice()) {
        Some(Word::Function(Class::Timestamp))
    } else if word.eq_ignore_ascii_case(b"DATE".as_slice()) {
        Some(Word::Function(Class::Date))
    } else if word.eq_ignore_ascii_case(b"BBOX".as_slice()) {
        Some(Word::Function(Class::Bbox))
    } else {
        None
    }
}

/// The kind of geometry in any case.
#[tactic(auto, unfolding(crate::specs::Words::geometry_of))]
fn geometry_of(word: &[u8]) -> Option<Word>
    ensures { result ≡ words.geometry_of word.now }
{
    if word.eq_ignore_ascii_case(b"POINT".as_slice()) {
        Some(Word::Geometry(Class::Point))
    } else if word.eq_ignore_ascii_case(b"LINESTRING".as_slice()) {
        Some(Word::Geometry(Class::LineString))
    } else if word.eq_ignore_ascii_case(b"POLYGON".as_slice()) {
        Some(Word::Geometry(Class::Polygon))
    } else if word.eq_ignore_ascii_case(b"MULTIPOINT".as_slice()) {
        Some(Word::Geometry(Class::MultiPoint))
    } else if word.eq_ignore_ascii_case(b"MULTILINESTRING".as_slice()) {
        Some(Word::Geometry(Class::MultiLineString))
    } else if word.eq_ignore_ascii_case(b"MULTIPOLYGON".as_slice()) {
        Some(Word::Geometry(Class::MultiPolygon))
    } else if word.eq_ignore_ascii_case(b"GEOMETRYCOLLECTION".as_slice()) {
        Some(Word::Geometry(Class::GeometryCollection))
    } else {
        None
    }
}

/// Whether it is the word `Z`, in any case.
#[tactic(auto, unfolding(crate::specs::Words::is_z))]
pub(crate) fn is_z(word: &[u8]) -> bool
    ensures { result ≡ words.is_z word.now }
{
    word.eq_ignore_ascii_case(b"Z".as_slice())
}

/// What the word may be.
#[tactic(auto, unfolding(crate::specs::Words::word_of))]
pub(crate) fn word_of(word: &[u8]) -> Word
    ensures { result ≡ words.word_of word.now }
{
    if let Some(keyword) = keyword_of(word) {
        return keyword;
    }
    if let Some(function) = function_of(word) {
        return function;
    }
    if let Some(geometry) = geometry_of(word) {
        return geometry;
    }
    if is_z(word) {
        Word::Fixed(Class::Z)
    } else {
        Word::Fixed(Class::Name)
    }
}
