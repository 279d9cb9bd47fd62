ghost use Rattle.std.specs.Prelude.{◌≡◌, ◌++◌, ◌∷◌, IfOk, OnOk, flat_map, string_bytes};
ghost use Rattle.sc_page.specs.Page.{documents, page_start, page_middle, page_end, bare_page_text};

use crate::kept::PageItem;
use sc_base::Text;
use std::alloc::{AllocError, Global};

#[tactic(auto, unfolding(crate::specs::Page::page_start))]
pub(crate) fn start_text() -> &'static str
    ensures { result.now ≡ page_start }
{
    "{\"type\":\"FeatureCollection\",\"features\":["
}

#[tactic(auto, unfolding(crate::specs::Page::page_middle))]
pub(crate) fn middle_text() -> &'static str
    ensures { result.now ≡ page_middle }
{
    "],\"numberReturned\":"
}

#[tactic(auto, unfolding(crate::specs::Page::page_end))]
fn end_text() -> &'static str
    ensures { result.now ≡ page_end }
{
    ",\"links\":[]}"
}

/// Writes each document behind a comma at the end of a text.
fn push_more(text: &mut String, items: &[PageItem]) -> Result<(), AllocError>
    ensures { OnOk result (string_bytes text.new ≡ string_bytes text.old ++ flat_map (λ i. 44 ∷ i.doc) items.now) }
{
    for item in items {
        text.push(',')?;
        text.push_str(item.doc().as_str())?;
    }
    Ok(())
}

/// Writes the documents between commas at the end of a text.
fn push_documents(text: &mut String, items: &[PageItem]) -> Result<(), AllocError>
    ensures { OnOk result (string_bytes text.new ≡ string_bytes text.old ++ documents items.now) }
{
    let Some((first, rest)) = items.split_first() else {
        return Ok(());
    };
    text.push_str(first.doc().as_str())?;
    push_more(text, rest)?;
    Ok(())
}

/// The text of the page of these items without links: the documents between commas, and their number.
pub fn bare_page_text(alloc: Global, page: &[PageItem]) -> Result<Text, AllocError>
    ensures { IfOk result (λ text. text ≡ bare_page_text page.now) }
{
    let mut text = String::from_str(alloc, start_text())?;
    push_documents(&mut text, page)?;
    text.push_str(middle_text())?;
    text.push_str(page.len().to_string(alloc)?.as_str())?;
    text.push_str(end_text())?;
    Ok(Text::from_string(text))
}
