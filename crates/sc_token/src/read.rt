ghost use Rattle.std.specs.Prelude.{◌≡◌, ◌↔◌, IsTrue, IfOk, MatchOption, MatchResult, List};
ghost use Rattle.sc_json.specs.declared.tree.Json.{Json as Tree};
ghost use Rattle.sc_json.specs.declared.tree.Json.TheVariants as trees;
ghost use Rattle.sc_json.specs.Spells.{Spells};
ghost use Rattle.sc_token.specs.Faults.{IsNoList, fault_for};
ghost use Rattle.sc_sort.specs.Keys.{AreKept};
ghost use Rattle.sc_token.specs.Token.{token_of};
ghost use Rattle.sc_token.specs.Reading.{Answers};

use crate::digits::bytes_of;
use crate::fault::TokenFault;
use crate::value::keys_of;
use crate::write::write_token;
use sc_json::{Json, JsonFault, read_json};
use sc_sort::{KeyList, Seq, SortSpec};
use std::alloc::{AllocError, Global};

/// What a fault of the JSON text is for a token.
fn fault_for(fault: JsonFault) -> TokenFault
    ensures { result ≡ fault_for fault }
{
    match fault {
        JsonFault::OutOfMemory => TokenFault::OutOfMemory,
        _ => TokenFault::NotAList,
    }
}

/// The elements of a list.
fn elements_in(tree: Json) -> Option<Seq<Json>>
    ensures { MatchOption result ((elements : List Tree) → tree ≡ trees.List elements → ⊥) (λ elements. tree ≡ trees.List elements) }
{
    match tree {
        Json::List(elements) => Some(elements),
        _ => None,
    }
}

/// The elements of the list that bytes spell.
fn elements_of(alloc: Global, bytes: &[u8]) -> Result<Seq<Json>, TokenFault>
    ensures { MatchResult result (λ elements. Spells bytes.now (trees.List elements)) (IsNoList bytes.now) }
{
    match read_json(alloc, bytes) {
        Ok(tree) => match elements_in(tree) {
            Some(elements) => Ok(elements),
            None => Err(TokenFault::NotAList),
        },
        Err(fault) => Err(fault_for(fault)),
    }
}

/// Whether a text is the token of a key list.
fn is_token_of(alloc: Global, key: &KeyList, text: &[u8]) -> Result<bool, AllocError>
    ensures token { IfOk result (λ is. IsTrue is ↔ (text.now ≡ token_of key.now)) }
    ensures kept { IfOk result (λ is. AreKept key.now) }
{
    let token = write_token(alloc, key)?;
    Ok(token.bytes() == text)
}

/// Reads a token under a sort: the key list that fits the sort and has this token, of which there is one at most. It fits
/// where it has a moment under each key that is the time of an item and under no other, and its collection and its id have
/// 1 to 256 bytes. The first that holds is answered: `NotHex` where the text isn't pairs of the digits `0` to `9` and `a`
/// to `f`, `NotAList` where the bytes that they stand for aren't a JSON text of a list, `WrongCount` where the list hasn't
/// an element for each key and two more, and `WrongKind` where it isn't the token of a key list that fits.
pub fn read_token(alloc: Global, sort: &SortSpec, text: &[u8]) -> Result<KeyList, TokenFault>
    ensures { Answers sort.now text.now result }
{
    let bytes = bytes_of(alloc, text)?;
    let elements = elements_of(alloc, bytes.as_slice())?;
    if elements.len() != sort.keys().len() + 2 {
        let count = elements.len() as u64;
        return Err(TokenFault::WrongCount { count });
    }
    let Some(key) = keys_of(alloc, sort, elements.as_slice())? else {
        return Err(TokenFault::WrongKind);
    };
    if is_token_of(alloc, &key, text)? {
        Ok(key)
    } else {
        Err(TokenFault::WrongKind)
    }
}
