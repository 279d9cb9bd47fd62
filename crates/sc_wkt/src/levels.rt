ghost use Rattle.std.specs.Prelude.{◌≡◌, ◌≤◌, ◌<◌, length};
ghost use Rattle.sc_grammar.specs.Words.{IsFormedClass};
ghost use Rattle.sc_wkt.specs.Levels as levels;

use sc_grammar::{Class, Token, token_at};

/// How deep parentheses may nest.
pub const MOST_LEVELS: u32 = 64;

fn class_within(level: u32, class: Class) -> Class
    ensures { result ≡ levels.class_within level class }
{
    match class {
        Class::Opening => {
            if level >= MOST_LEVELS {
                Class::Bad
            } else {
                Class::Opening
            }
        }
        other => other,
    }
}

/// The level of parentheses behind a token: a closing one that none opens closes nothing.
pub fn level_behind(class: Class, level: u32) -> u32
    requires { level ≤ 64 }
    ensures { result ≡ levels.level_behind class level }
{
    match class {
        Class::Opening => level + 1,
        Class::Closing => level.saturating_sub(1),
        _ => level,
    }
}

/// The token that comes next at a place and a level of parentheses.
pub(crate) fn next_token(text: &[u8], is_whole: bool, at: usize, level: u32) -> Token
    requires { at ≤ length text.now }
    ensures token { result ≡ levels.next_token text.now is_whole at level }
    ensures ordered { result.from ≤ result.to }
    ensures forward { IsFormedClass result.class → result.from < result.to }
    ensures within { result.to ≤ length text.now }
    ensures onward { at ≤ result.from }
{
    let token = token_at(text, is_whole, at);
    Token {
        class: class_within(level, token.class),
        ..token
    }
}
