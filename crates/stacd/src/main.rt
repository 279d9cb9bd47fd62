//! The catalogue server: `stacd serve` answers the STAC API over HTTP, `stacd keep` too, with each load stored in a file,
//! `stacd pipe` answers it on one connection, and `stacd page` prints the page of the items of its input.
#![tactic(auto)]

mod fault;
mod keeping;
mod laws;
mod lines;
mod names;
mod page;
mod program;
mod serving;
mod tell;

ghost use Rattle.std.specs.Prelude.{◌≡◌, ℕ, IfOk, is_some, length, map, true};
ghost use Rattle.sc_words.specs.Asks.{AreKeepWords, AreServeWords};
ghost use Rattle.sc_words.specs.declared.command.Keeping.{Keeping as KeepingRecord};
ghost use Rattle.sc_words.specs.declared.command.Serving.{Serving as ServingRecord};

use sc_journal::FileDisk;
use sc_net::TcpListen;
use sc_outside::{Seq, StdSink, StdSource};
use sc_page::Text;
use sc_words::{keeping_of, serving_of};
use std::alloc::AllocError;
use std::fs::{self, File, OpenOptions};
use std::net::TcpListener;
use std::process::ExitCode;
use std::{env, io};
use tell::tell_no_memory;

/// The words after the program's name. Words that aren't UTF-8 are no command, as no words are.
fn words_of(rt: &HostRuntime) -> Result<Vec<Text>, AllocError> {
    let alloc = rt.alloc();
    let mut words = Vec::new(alloc);
    match env::args(rt) {
        Ok(args) => {
            for word in args.skip(1) {
                words.push(Text::from_string(word))?;
            }
            Ok(words)
        }
        Err(error) if error.kind() == io::ErrorKind::OutOfMemory => Err(AllocError),
        Err(_) => Ok(words),
    }
}

/// So many listeners at a port of 127.0.0.1, one for each worker, all of one socket. Where the port can't be had they are
/// listeners that fail.
fn listeners(rt: &HostRuntime, port: u16, workers: u32) -> Result<Seq<TcpListen>, AllocError>
    ensures { IfOk result (λ nets. length nets ≡ workers) }
{
    let mut nets = Vec::with_capacity(rt.alloc(), workers as usize)?;
    let bound = TcpListener::bind(rt, ("127.0.0.1", port));
    for _ in 0..workers {
        let listener = match &bound {
            Ok(listener) => listener.try_clone().ok(),
            Err(_) => None,
        };
        nets.push(match listener {
            Some(listener) => TcpListen::new(listener),
            None => TcpListen::failed(),
        })?;
    }
    Ok(Seq::of(nets))
}

/// The folder of a file.
fn folder_of(path: &str) -> &str {
    match path.rsplit_once("/") {
        Some(("", _)) => "/",
        Some((folder, _)) => folder,
        None => ".",
    }
}

/// The file of a journal, which is made where it isn't there. There is none where it can't be opened, where another process
/// has it open as its journal, or where its folder can't be stored.
fn journal_at(rt: &HostRuntime, path: &str) -> Option<File> {
    let file = OpenOptions::new()
        .read(true)
        .write(true)
        .create(true)
        .open(rt, path)
        .ok()?;
    file.try_lock().ok()?;
    fs::open(rt, folder_of(path)).ok()?.sync_all().ok()?;
    Some(file)
}

/// What the program gets from the system for the words: listeners of a server, and the disk of its journal.
struct Outside {
    nets: Seq<TcpListen>,
    disk: Option<FileDisk>,
}

/// The listeners and the disk that the words ask for.
fn outside_for(rt: &HostRuntime, words: &[&str]) -> Result<Outside, AllocError>
    ensures serving { IfOk result (λ outside. (serving : ServingRecord) → AreServeWords (map (λ s. s.now) words.now) serving → length outside.nets ≡ serving.workers) }
    ensures keeping { IfOk result (λ outside. (keeping : KeepingRecord) → AreKeepWords (map (λ s. s.now) words.now) keeping → (length outside.nets ≡ keeping.workers) × (is_some outside.disk ≡ true)) }
{
    if let Some(serving) = serving_of(words) {
        return Ok(Outside {
            nets: listeners(rt, serving.port, serving.workers)?,
            disk: None,
        });
    }
    if let Some(keeping) = keeping_of(words) {
        return Ok(Outside {
            nets: listeners(rt, keeping.port, keeping.workers)?,
            disk: Some(match journal_at(rt, keeping.file) {
                Some(file) => FileDisk::telling(file, rt.stderr()),
                None => FileDisk::failed(),
            }),
        });
    }
    Ok(Outside {
        nets: Seq::new(rt.alloc()),
        disk: None,
    })
}

/// The same of words that aren't lent yet.
fn outside_of(rt: &HostRuntime, words: &[Text]) -> Result<Outside, AllocError>
    ensures serving { IfOk result (λ outside. (serving : ServingRecord) → AreServeWords words.now serving → length outside.nets ≡ serving.workers) }
    ensures keeping { IfOk result (λ outside. (keeping : KeepingRecord) → AreKeepWords words.now keeping → (length outside.nets ≡ keeping.workers) × (is_some outside.disk ≡ true)) }
{
    let lent = program::lent(rt.alloc(), words)?;
    outside_for(rt, &lent)
}

fn main(rt: HostRuntime) -> ExitCode {
    let alloc = rt.alloc();
    let mut errors = StdSink::new(rt.stderr());
    let Ok(words) = words_of(&rt) else {
        tell_no_memory(&mut errors);
        return ExitCode::from(6);
    };
    let Ok(Outside { mut nets, mut disk }) = outside_of(&rt, &words) else {
        tell_no_memory(&mut errors);
        return ExitCode::from(6);
    };
    let mut input = StdSource::new(rt.stdin());
    let mut output = StdSink::new(rt.stdout());
    let status = program::stacd(
        &rt,
        alloc,
        &words,
        &mut input,
        &mut output,
        &mut errors,
        &mut nets,
        &mut disk,
    );
    ExitCode::from(status)
}
