ghost use Rattle.std.specs.Prelude.{◌≤◌, ◌<◌, List, length, MatchBool};
ghost use Rattle.sc_grammar.specs.declared.token.Token.{Token as TokenRecord};
ghost use Rattle.sc_grammar.specs.Words.{IsFormedClass};
ghost use Rattle.sc_cqlread.specs.Tokens.{AreTokensFrom};
ghost use Rattle.sc_cqlread.specs.Nesting.{deepest_from};

use sc_grammar::{Class, token_at};
use sc_wkt::{MOST_LEVELS, level_behind};

fn is_formed(class: Class) -> bool
    ensures { MatchBool result (IsFormedClass class) (IsFormedClass class → ⊥) }
{
    !matches!(class, Class::Bad | Class::End)
}

/// Whether more than 64 parentheses are open somewhere from a place on, where so many are open before it.
pub(crate) fn nests_too_deep(text: &[u8], is_whole: bool, place: usize, before: u32) -> bool
    requires place { place ≤ length text.now }
    requires level { before ≤ 64 }
    ensures { (tokens : List TokenRecord) → AreTokensFrom text.now is_whole place tokens →
        MatchBool result (64 < deepest_from before tokens) (deepest_from before tokens ≤ 64) }
{
    let mut at = place;
    let mut level = before;
    loop {
        let token = token_at(text, is_whole, at);
        if !is_formed(token.class) {
            return false;
        }
        level = level_behind(token.class, level);
        if level > MOST_LEVELS {
            return true;
        }
        at = token.to;
    }
}
