ghost use Rattle.std.specs.Prelude.{◌≡◌, nat_eq, find};
ghost use Rattle.std.specs.Option.{option_map, option_copied};
ghost use Rattle.std.specs.Cmp.Lexicographic.{pointwise};
ghost use Rattle.sc_query.specs.Given.{unless_empty, unless_null, text_given};
ghost use Rattle.sc_query.specs.Sources.{told, all_told, parameters};

use sc_base::Text;
use sc_expr::Pair;
use sc_json::Json;

/// A parameter that has a value, as it is given.
#[derive(Clone, Copy)]
pub(crate) enum Given<'a> {
    /// The text of a pair, which isn't empty.
    Text(&'a Text),
    /// The value of a body's member, which isn't null.
    Tree(&'a Json),
}

impl<'a> Given<'a> {
    /// The text that the parameter is; none where it is a value that is no text.
    pub(crate) fn text(self) -> Option<&'a Text>
        ensures { option_copied result ≡ text_given (told self.entry) }
    {
        match self {
            Given::Text(text) => Some(text),
            Given::Tree(tree) => tree.as_text(),
        }
    }
}

/// How the parameters of a search are given.
#[derive(Clone, Copy)]
pub(crate) enum Source<'a> {
    /// By the pairs of a query string.
    Pairs(&'a [Pair]),
    /// By the members of a body, which is an object.
    Body(&'a Json),
}

/// The first pair of a name.
fn pair_named<'a>(pairs: &'a [Pair], name: &str) -> Option<&'a Pair>
    ensures { option_copied result ≡ find (λ pair. pointwise nat_eq pair.name name.now) pairs.now }
{
    pairs.iter().find(|pair| pair.name.as_str() == name)
}

/// A text that isn't empty.
fn unless_empty(text: &Text) -> Option<Given<'_>>
    ensures { all_told result ≡ unless_empty text.now }
{
    if text.is_empty() {
        None
    } else {
        Some(Given::Text(text))
    }
}

/// A value that isn't null.
fn unless_null(tree: &Json) -> Option<Given<'_>>
    ensures { all_told result ≡ unless_null tree.now }
{
    if tree.is_null() {
        None
    } else {
        Some(Given::Tree(tree))
    }
}

impl<'a> Source<'a> {
    /// The parameter of a name, where it has a value.
    pub(crate) fn given(self, name: &str) -> Option<Given<'a>>
        ensures { all_told result ≡ parameters self.entry name.now }
    {
        match self {
            Source::Pairs(pairs) => unless_empty(&pair_named(pairs, name)?.value),
            Source::Body(body) => unless_null(body.member(name)?),
        }
    }
}
