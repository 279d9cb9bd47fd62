ghost use Rattle.std.specs.Prelude.{◌≡◌, ◌≤◌, ◌∷◌, [], ◌↔◌, IsTrue, IfOk, All, List, ℕ, codes, map, MatchOption};
ghost use Rattle.sc_words.specs.Asks.{Asks, AsksNothing, AreServeWords, AreKeepWords, IsLimit};
ghost use Rattle.sc_words.specs.Forms.{IsPlainWord};
ghost use Rattle.sc_words.specs.declared.command.Command.{Command as CommandRecord};
ghost use Rattle.sc_words.specs.declared.command.Serving.{Serving as ServingRecord};
ghost use Rattle.sc_words.specs.declared.command.Keeping.{Keeping as KeepingRecord};
ghost use Rattle.sc_words.specs.View.{view_of};

use crate::number::{are_digits, capped, number_of};
use crate::words::{Form, read};
use std::alloc::{AllocError, Global};

/// The greatest limit of a page.
const MOST_ITEMS: u64 = 10_000;

/// The numbers of the command `serve`.
#[derive(Clone, Copy, Debug, PartialEq, Eq)]
pub struct Serving {
    /// The port, from 1 to 65,535.
    pub port: u16,
    /// How many workers serve connections at the same time, from 1 to 8.
    pub workers: u32,
    /// How many workers tighten bounds, from 1 to 8.
    pub tighteners: u32,
    /// How many connections each worker serves before it stops, from 1 to 1,000,000.
    pub connections: u64,
}

/// The numbers and the file of the command `keep`.
#[derive(Clone, Copy, Debug, PartialEq, Eq)]
pub struct Keeping<'a> {
    /// The port, from 1 to 65,535.
    pub port: u16,
    /// How many workers serve connections at the same time, from 1 to 8.
    pub workers: u32,
    /// How many connections each worker serves before it stops, from 1 to 1,000,000.
    pub connections: u64,
    /// The file of the journal.
    pub file: &'a str,
}

/// What the words behind the program's name ask for.
#[derive(Clone, Copy, Debug, PartialEq, Eq)]
pub enum Command<'a> {
    /// `page LIMIT`: the page of the items of the input; a limit above 10,000 is taken as 10,000.
    Page { limit: u32 },
    /// `pipe BASE`: one connection on the input and the output; links begin with the base.
    Pipe { base: &'a str },
    /// `serve PORT WORKERS TIGHTENERS CONNS`: a server at the port of 127.0.0.1.
    Serve(Serving),
    /// `keep PORT WORKERS CONNS FILE`: a server whose loads are stored in a file.
    Keep(Keeping<'a>),
}

/// The limit that a word gives.
fn limit_of(word: &str) -> Option<u32>
    ensures { MatchOption result ((limit : ℕ) → IsLimit word.now limit → ⊥) (IsLimit word.now) }
{
    let digits = word.as_bytes();
    if digits.is_empty() {
        return None;
    }
    if !are_digits(digits) {
        return None;
    }
    let limit = capped(digits, MOST_ITEMS);
    if limit == 0 { None } else { Some(limit as u32) }
}

/// The numbers of `serve` that four words give, each within its range.
fn serving_in(port: &str, workers: &str, tighteners: &str, connections: &str) -> Option<Serving>
    ensures { MatchOption result ((serving : ServingRecord) → AreServeWords (codes "serve" ∷ port.now ∷ workers.now ∷ tighteners.now ∷ connections.now ∷ []) serving → ⊥) (AreServeWords (codes "serve" ∷ port.now ∷ workers.now ∷ tighteners.now ∷ connections.now ∷ [])) }
{
    let port = number_of(port, 1, 65_535)?;
    let workers = number_of(workers, 1, 8)?;
    let tighteners = number_of(tighteners, 1, 8)?;
    let connections = number_of(connections, 1, 1_000_000)?;
    Some(Serving {
        port: port as u16,
        workers: workers as u32,
        tighteners: tighteners as u32,
        connections,
    })
}

/// The numbers of `serve`, where the words ask for it. Takes no memory.
pub fn serving_of(words: &[&str]) -> Option<Serving>
    ensures { MatchOption result ((serving : ServingRecord) → AreServeWords (map (λ s. s.now) words.now) serving → ⊥) (AreServeWords (map (λ s. s.now) words.now)) }
{
    let [name, port, workers, tighteners, connections] = words else {
        return None;
    };
    if *name == "serve" {
        serving_in(port, workers, tighteners, connections)
    } else {
        None
    }
}

/// Whether a word doesn't begin with `-`.
fn is_plain(word: &str) -> bool
    ensures { IsTrue result ↔ IsPlainWord word.now }
{
    match word.as_bytes() {
        [] => true,
        [first, ..] => *first != b'-',
    }
}

/// The numbers and the file of `keep` that four words give, each within its range.
fn keeping_in<'a>(
    port: &str,
    workers: &str,
    connections: &str,
    file: &'a str,
) -> Option<Keeping<'a>>
    ensures { MatchOption result ((keeping : KeepingRecord) → AreKeepWords (codes "keep" ∷ port.now ∷ workers.now ∷ connections.now ∷ file.entry.now ∷ []) keeping → ⊥) (AreKeepWords (codes "keep" ∷ port.now ∷ workers.now ∷ connections.now ∷ file.entry.now ∷ [])) }
{
    let port = number_of(port, 1, 65_535)?;
    let workers = number_of(workers, 1, 8)?;
    let connections = number_of(connections, 1, 1_000_000)?;
    if !is_plain(file) {
        return None;
    }
    Some(Keeping {
        port: port as u16,
        workers: workers as u32,
        connections,
        file,
    })
}

/// The numbers and the file of `keep`, where the words ask for it. Takes no memory.
pub fn keeping_of<'a>(words: &[&'a str]) -> Option<Keeping<'a>>
    ensures { MatchOption result ((keeping : KeepingRecord) → AreKeepWords (map (λ s. s.now) words.now) keeping → ⊥) (AreKeepWords (map (λ s. s.now) words.now)) }
{
    let [name, port, workers, connections, file] = words else {
        return None;
    };
    if *name == "keep" {
        keeping_in(port, workers, connections, file)
    } else {
        None
    }
}

/// Whether no word begins with `-`.
fn are_plain(words: &[&str]) -> bool
    ensures { IsTrue result ↔ All (λ s. IsPlainWord s.now) words.now }
{
    words.iter().all(|word| is_plain(word))
}

/// What a form of words asks for, where its words are in their ranges.
fn command_in<'a>(form: Form<'a>) -> Option<Command<'a>>
    ensures { MatchOption result ((command : CommandRecord) → Asks ((view_of form.entry).0 ∷ (view_of form.entry).1) command → ⊥) (Asks ((view_of form.entry).0 ∷ (view_of form.entry).1)) }
{
    match form {
        Form::Page(limit) => Some(Command::Page {
            limit: limit_of(limit)?,
        }),
        Form::Pipe(base) if is_plain(base) => Some(Command::Pipe { base }),
        Form::Pipe(_) => None,
        Form::Serve(port, workers, tighteners, connections) => {
            match serving_in(port, workers, tighteners, connections) {
                Some(serving) => Some(Command::Serve(serving)),
                None => None,
            }
        }
        Form::Keep(port, workers, connections, file) => {
            match keeping_in(port, workers, connections, file) {
                Some(keeping) => Some(Command::Keep(keeping)),
                None => None,
            }
        }
    }
}

#[tactic(auto, using(crate::proofs::Asking::plain_words, crate::proofs::Asking::none_asks, crate::proofs::Asking::some_asks, crate::proofs::Asking::some_only, crate::proofs::Asking::none_not_plain))]
/// What the words behind the program's name ask for; none where they are no command. A word that begins with `-` makes
/// them none.
pub fn command_of<'a>(
    alloc: Global,
    words: &'a [&'a str],
) -> Result<Option<Command<'a>>, AllocError>
    ensures { IfOk result (λ found. MatchOption found (AsksNothing (map (λ s. s.now) words.now)) (Asks (map (λ s. s.now) words.now))) }
{
    if !are_plain(words) {
        return Ok(None);
    }
    match read(alloc, words)? {
        Some(form) => Ok(command_in(form)),
        None => Ok(None),
    }
}
