ghost use Rattle.std.specs.Prelude.{◌≡◌, IfOk};
ghost use Rattle.sc_sort.specs.Keys.{AreKept};
ghost use Rattle.sc_token.specs.Token.{token_of};

use crate::digits::into_digits;
use crate::list::list_text;
use sc_sort::{KeyList, Text};
use std::alloc::{AllocError, Global};

/// The token of a key list: the lower-case hexadecimal digits of the compact JSON list of its values, its collection and
/// its id. In the list a moment is the number of its nanoseconds, a number its canonical literal, and what is absent is
/// null. Under a sort that the key list fits, [`read_token`](crate::read_token) reads the token as the key list.
pub fn write_token(alloc: Global, key: &KeyList) -> Result<Text, AllocError>
    ensures token { IfOk result (λ text. text ≡ token_of key.now) }
    ensures kept { IfOk result (λ text. AreKept key.now) }
{
    let list = list_text(alloc, key)?;
    let digits = into_digits(list.into_bytes())?;
    match Text::of_vec(digits) {
        Some(text) => Ok(text),
        None => unreachable!(),
    }
}
