ghost use Rattle.std.specs.Prelude.{false, ◌≡◌, ◌∷◌, [], IfOk, codes, map, option_map};
ghost use Rattle.clap.specs.Words.{app_of, first_of, rows_of, found_of, subcommand_rows_of, rule_of, shape_of, with_rule};
ghost use Rattle.clap.specs.declared.Command.TheViews.{out-Command as fields_of};
ghost use Rattle.sc_words.specs.Forms as shapes;
ghost use Rattle.sc_words.specs.View as view;

use clap::error::ErrorKind;
use clap::{Arg, ArgMatches, Command};
use std::alloc::{AllocError, Global};

/// The words of a command, as they stand.
#[derive(Clone, Copy, Debug)]
pub(crate) enum Form<'a> {
    Page(&'a str),
    Pipe(&'a str),
    Serve(&'a str, &'a str, &'a str, &'a str),
    Keep(&'a str, &'a str, &'a str, &'a str),
}

/// A word that must be there.
fn word<'a>(alloc: Global, id: &'a str) -> Arg<'a>
    ensures rule { rule_of result ≡ shapes.positional id.entry.now }
    ensures local { result.global ≡ false }
{
    Arg::new(alloc, id).required(true)
}

/// A command of one word.
fn one<'a>(alloc: Global, name: &'a str) -> Result<Command<'a>, AllocError>
    ensures shape { IfOk result (λ c. shape_of c ≡ shapes.leaf name.entry.now (codes "a" ∷ [])) }
    ensures local { IfOk result (λ c. (fields_of c).has_globals ≡ false) }
{
    Command::new(alloc, name).arg(word(alloc, "a"))
}

/// A command of one word more.
fn more<'a>(alloc: Global, command: Command<'a>, id: &'a str) -> Result<Command<'a>, AllocError>
    requires { (fields_of command).has_globals ≡ false }
    ensures app { IfOk result (λ c. app_of c ≡ with_rule (app_of command.entry) (shapes.positional id.entry.now)) }
    ensures local { IfOk result (λ c. (fields_of c).has_globals ≡ false) }
{
    command.arg(word(alloc, id))
}

/// The command without its subcommands.
fn bare<'a>(alloc: Global) -> Command<'a>
    ensures { app_of result ≡ shapes.bare }
{
    Command::new(alloc, "stacd")
        .no_binary_name(true)
        .disable_help_flag(true)
        .disable_help_subcommand(true)
}

/// The command `serve`.
fn serve<'a>(alloc: Global) -> Result<Command<'a>, AllocError>
    ensures shape { IfOk result (λ c. shape_of c ≡ shapes.serve) }
    ensures local { IfOk result (λ c. (fields_of c).has_globals ≡ false) }
{
    let serve = Command::new(alloc, "serve");
    let serve = more(alloc, serve, "a")?;
    let serve = more(alloc, serve, "b")?;
    let serve = more(alloc, serve, "c")?;
    more(alloc, serve, "d")
}

/// The command `keep`.
fn keep<'a>(alloc: Global) -> Result<Command<'a>, AllocError>
    ensures shape { IfOk result (λ c. shape_of c ≡ shapes.keep) }
    ensures local { IfOk result (λ c. (fields_of c).has_globals ≡ false) }
{
    let keep = Command::new(alloc, "keep");
    let keep = more(alloc, keep, "a")?;
    let keep = more(alloc, keep, "b")?;
    let keep = more(alloc, keep, "c")?;
    more(alloc, keep, "d")
}

/// The command, as `clap` reads it.
fn command<'a>(alloc: Global) -> Result<Command<'a>, AllocError>
    ensures { IfOk result (λ c. app_of c ≡ shapes.stacd) }
{
    let top = bare(alloc);
    let top = top.subcommand(one(alloc, "page")?)?;
    let top = top.subcommand(one(alloc, "pipe")?)?;
    let top = top.subcommand(serve(alloc)?)?;
    top.subcommand(keep(alloc)?)
}

/// The text of an argument.
fn text_in<'a>(matches: &ArgMatches<'a>, id: &str) -> Option<&'a str>
    ensures { option_map (λ s. s.now) result ≡ first_of id.now (rows_of (found_of matches.now)) }
{
    matches.get_str(id)
}

fn form_in<'a>(name: &str, matches: &ArgMatches<'a>) -> Option<Form<'a>>
    ensures { option_map view.view_of result ≡ shapes.form_in name.now (rows_of (found_of matches.now)) }
{
    if name == "page" {
        return Some(Form::Page(text_in(matches, "a")?));
    }
    if name == "pipe" {
        return Some(Form::Pipe(text_in(matches, "a")?));
    }
    if name == "serve" {
        let a = text_in(matches, "a")?;
        let b = text_in(matches, "b")?;
        let c = text_in(matches, "c")?;
        let d = text_in(matches, "d")?;
        return Some(Form::Serve(a, b, c, d));
    }
    if name == "keep" {
        let a = text_in(matches, "a")?;
        let b = text_in(matches, "b")?;
        let c = text_in(matches, "c")?;
        let d = text_in(matches, "d")?;
        return Some(Form::Keep(a, b, c, d));
    }
    None
}

fn form_met<'a>(matches: &ArgMatches<'a>) -> Option<Form<'a>>
    ensures { option_map view.view_of result ≡ shapes.form_met (subcommand_rows_of matches.now) }
{
    match matches.subcommand() {
        Some((name, inner)) => form_in(name, inner),
        None => None,
    }
}

/// The form that the words have, or none where they have none.
pub(crate) fn read<'a>(alloc: Global, words: &'a [&'a str]) -> Result<Option<Form<'a>>, AllocError>
    requires { shapes.AllPlain (map (λ s. s.now) words.now) }
    ensures { IfOk result (λ form. option_map view.view_of form ≡ shapes.form_of (map (λ s. s.now) words.now)) }
{
    let command = command(alloc)?;
    match command.try_get_matches_from(words) {
        Ok(matches) => Ok(form_met(&matches)),
        Err(error) => {
            if error.kind() == ErrorKind::OutOfMemory {
                return Err(AllocError);
            }
            Ok(None)
        }
    }
}
