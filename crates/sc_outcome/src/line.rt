//! The lines that tell outcomes.
ghost use Rattle.std.specs.Prelude.{◌≡◌, ◌++◌, ◌∷◌, [], OnOk, decimal, string_bytes};
ghost use Rattle.std.specs.Option.{option_copied};
ghost use Rattle.sc_page.specs.Page.{bare_page_text};
ghost use Rattle.sc_page.specs.Search.{shared};
ghost use Rattle.sc_outcome.specs.Outcome as spec;

use crate::bounds::push_bounds;
use crate::outcome::Outcome;
use crate::texts::{
    bounds_end, detail_name, exact_start, gone, joined_start, next_name, not_there, null_text,
    page_name, refused_start, revision_start, stamp_start, too_old_start,
};
use itoa::Buffer;
use sc_base::Text;
use sc_bounds::Bounds;
use sc_json::push_quoted;
use sc_page::{KeyList, Links, Page, push_page_text};
use sc_token::write_token;
use std::alloc::{AllocError, Global};

/// Adds a number in decimal.
fn push_number(out: &mut String, number: u64) -> Result<(), AllocError>
    ensures { OnOk result (string_bytes out.new ≡ string_bytes out.old ++ decimal number) }
{
    let mut buffer = Buffer::new();
    out.push_str(buffer.format(number))
}

/// Adds an object whose one member is a number.
fn push_counted(out: &mut String, start: &str, number: u64) -> Result<(), AllocError>
    ensures { OnOk result (string_bytes out.new ≡ string_bytes out.old ++ (start.now ++ (decimal number ++ 125 ∷ []))) }
{
    out.push_str(start)?;
    push_number(out, number)?;
    out.push('}')
}

/// Adds an object that ends with the list of bounds.
fn push_installed(out: &mut String, start: &str, bounds: &Bounds) -> Result<(), AllocError>
    ensures { OnOk result (string_bytes out.new ≡ string_bytes out.old ++ (start.now ++ (spec.bounds_text bounds.now ++ spec.bounds_end))) }
{
    out.push_str(start)?;
    push_bounds(out, bounds)?;
    out.push_str(bounds_end())
}

/// Adds where the next page begins.
fn push_next(alloc: Global, out: &mut String, next: Option<&KeyList>) -> Result<(), AllocError>
    ensures { OnOk result (string_bytes out.new ≡ string_bytes out.old ++ spec.next_text (option_copied next.entry)) }
{
    let Some(key) = next else {
        return out.push_str(null_text());
    };
    let token = write_token(alloc, key)?;
    push_quoted(out, token.as_str())
}

/// Adds a page without links.
#[tactic(auto, using(crate::proofs::Bare::bare_links))]
fn push_bare(alloc: Global, out: &mut String, page: &Page) -> Result<(), AllocError>
    ensures { OnOk result (string_bytes out.new ≡ string_bytes out.old ++ bare_page_text (shared page.now.items)) }
{
    push_page_text(alloc, out, page, &Links::Bare)
}

/// Adds a page and where the next one begins, as members.
fn push_page(alloc: Global, out: &mut String, page: &Page) -> Result<(), AllocError>
    ensures { OnOk result (string_bytes out.new ≡ string_bytes out.old ++ spec.page_text page.now) }
{
    out.push_str(page_name())?;
    push_bare(alloc, out, page)?;
    out.push_str(next_name())?;
    push_next(alloc, out, page.next.as_ref())
}

/// Adds the object of a page at a revision.
fn push_found(alloc: Global, out: &mut String, revision: u64, page: &Page) -> Result<(), AllocError>
    ensures { OnOk result (string_bytes out.new ≡ string_bytes out.old ++ spec.found_text revision page.now) }
{
    out.push_str(revision_start())?;
    push_number(out, revision)?;
    push_page(alloc, out, page)?;
    out.push('}')
}

/// Adds the object of a refusal.
fn push_refused(out: &mut String, name: &Text, detail: &Text) -> Result<(), AllocError>
    ensures { OnOk result (string_bytes out.new ≡ string_bytes out.old ++ spec.refused_text name.now detail.now) }
{
    out.push_str(refused_start())?;
    push_quoted(out, name.as_str())?;
    out.push_str(detail_name())?;
    push_quoted(out, detail.as_str())?;
    out.push('}')
}

/// Adds the object that tells an outcome.
fn push_outcome(alloc: Global, out: &mut String, outcome: &Outcome) -> Result<(), AllocError>
    ensures { OnOk result (string_bytes out.new ≡ string_bytes out.old ++ spec.outcome_text outcome.now) }
{
    match outcome {
        Outcome::Revision { revision } => push_counted(out, revision_start(), *revision),
        Outcome::Stamp { stamp } => push_counted(out, stamp_start(), *stamp),
        Outcome::Gone => out.push_str(gone()),
        Outcome::Exact { bounds } => push_installed(out, exact_start(), bounds),
        Outcome::Joined { bounds } => push_installed(out, joined_start(), bounds),
        Outcome::TooOld { kept_from } => push_counted(out, too_old_start(), *kept_from),
        Outcome::NotThere => out.push_str(not_there()),
        Outcome::Found { revision, page } => push_found(alloc, out, *revision, page),
        Outcome::Refused { name, detail } => push_refused(out, name, detail),
    }
}

/// Adds the line that tells an outcome at the end of a text: a JSON object and a line feed. Each document of a page is
/// copied once. Where memory runs out a part of the line may have been added.
#[tactic(auto, unfolding(crate::specs::Outcome::line_of))]
pub fn push_line(alloc: Global, out: &mut String, outcome: &Outcome) -> Result<(), AllocError>
    ensures { OnOk result (string_bytes out.new ≡ string_bytes out.old ++ spec.line_of outcome.now) }
{
    push_outcome(alloc, out, outcome)?;
    out.push('\n')
}
