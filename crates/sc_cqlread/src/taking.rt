ghost use Rattle.std.specs.Prelude.{◌≡◌, ◌≢◌, ◌≤◌, List, length, MatchBool, IfOk};
ghost use Rattle.sc_grammar.specs.declared.token.Class.TheVariants as classes;
ghost use Rattle.sc_grammar.specs.declared.token.Token.{Token as TokenRecord};
ghost use Rattle.sc_cqlread.specs.Passing.{IsRefused, Takes, Reads};
ghost use Rattle.sc_cqlread.specs.Reading.{Reading as Made, start, eats, does};
ghost use Rattle.sc_cqlread.specs.Kept.{Holds};
ghost use Rattle.sc_cqlread.specs.Filters.{whole};
ghost use Rattle.sc_cqlread.specs.Ends.{Ends};

use crate::nesting::nests_too_deep;
use crate::reading::Reading;
use sc_cqlgrammar::{Stack, Step};
use sc_grammar::{Class, Token, token_at};
use sc_wkt::{MOST_LEVELS, level_behind};
use std::alloc::{AllocError, Global};

/// What the tokens of a text come to.
pub(crate) enum End {
    /// They are a whole text.
    Whole,
    /// No filter goes on with the token at this place.
    Broken(usize),
    /// Their parentheses nest too deep.
    TooDeep,
}

fn is_end(class: Class) -> bool
    ensures { MatchBool result (class ≡ classes.End) (class ≢ classes.End) }
{
    matches!(class, Class::End)
}

/// Does the marks before the token, and takes it, or gives `false` where no filter goes on with it.
fn take(
    alloc: Global,
    text: &[u8],
    stack: &mut Stack,
    reading: &mut Reading,
    token: Token,
) -> Result<bool, AllocError>
    requires ordered { token.from ≤ token.to }
    requires within { token.to ≤ length text.now }
    requires reading { (r : Made) × Holds reading.old r × (before : List TokenRecord) × Reads text.now whole start before stack.old r }
    ensures { (r : Made) → Holds reading.old r → IfOk result (λ taken. (made : Made) × Holds reading.new made ×
        MatchBool taken (Takes text.now stack.old r token stack.new made) (IsRefused Made (does text.now) stack.old r token made)) }
{
    loop {
        match stack.next(token.class)? {
            Step::Mark(mark) => reading.mark(alloc, text, mark)?,
            Step::Taken => {
                reading.eat(text, token);
                return Ok(true);
            }
            Step::Refused => return Ok(false),
        }
    }
}

/// Takes the tokens of a text, from its front, until the text ends or no filter goes on.
pub(crate) fn take_all(
    alloc: Global,
    text: &[u8],
    is_whole: bool,
    stack: &mut Stack,
    reading: &mut Reading,
) -> Result<End, AllocError>
    requires stack { stack.old ≡ whole }
    requires reading { Holds reading.old start }
    ensures { IfOk result (λ end. (made : Made) × Holds reading.new made × Ends text.now is_whole end made) }
{
    let mut at = 0;
    let mut level = 0;
    loop {
        let token = token_at(text, is_whole, at);
        let next = level_behind(token.class, level);
        if next > MOST_LEVELS {
            return Ok(End::TooDeep);
        }
        if !take(alloc, text, stack, reading, token)? {
            if nests_too_deep(text, is_whole, at, level) {
                return Ok(End::TooDeep);
            }
            return Ok(End::Broken(token.from));
        }
        if is_end(token.class) {
            return Ok(End::Whole);
        }
        at = token.to;
        level = next;
    }
}
