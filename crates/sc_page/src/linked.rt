ghost use Rattle.std.specs.Prelude.{◌≡◌, ◌++◌, IfOk, OnOk, string_bytes};
ghost use Rattle.sc_page.specs.Page.{documents};
ghost use Rattle.sc_page.specs.Linked.{links_start, links_end, linked_page_text, more_documents};
ghost use Rattle.sc_page.specs.Search.{shared};

use crate::found::Page;
use crate::link::push_links;
use crate::links::Links;
use crate::text::{middle_text, start_text};
use sc_base::Text;
use sc_item::Item;
use std::alloc::{AllocError, Global};
use std::sync::Arc;

/// Room for all of a page but its documents and links.
const ROOM: usize = 128;

#[tactic(auto, unfolding(crate::specs::Linked::links_start))]
fn links_start() -> &'static str
    ensures { result.now ≡ links_start }
{
    ",\"links\":["
}

#[tactic(auto, unfolding(crate::specs::Linked::links_end))]
fn links_end() -> &'static str
    ensures { result.now ≡ links_end }
{
    "]}"
}

/// Writes each document behind a comma at the end of a text.
fn push_more(text: &mut String, items: &[Arc<Item>]) -> Result<(), AllocError>
    ensures { OnOk result (string_bytes text.new ≡ string_bytes text.old ++ more_documents items.now) }
{
    for item in items {
        text.push(',')?;
        text.push_str(item.doc().as_str())?;
    }
    Ok(())
}

/// Writes the documents between commas at the end of a text.
fn push_documents(text: &mut String, items: &[Arc<Item>]) -> Result<(), AllocError>
    ensures { OnOk result (string_bytes text.new ≡ string_bytes text.old ++ documents (shared items.now)) }
{
    let Some((first, rest)) = items.split_first() else {
        return Ok(());
    };
    text.push_str(first.doc().as_str())?;
    push_more(text, rest)?;
    Ok(())
}

/// How many bytes the documents and the commas between them take.
fn size_of(items: &[Arc<Item>]) -> usize {
    let mut size: usize = 0;
    for item in items {
        size = size.saturating_add(item.doc().len()).saturating_add(1);
    }
    size
}

/// Writes the text of a page with its links at the end of a text: a GeoJSON FeatureCollection of the documents of its
/// items. Room is taken once, and each document is copied once. Where memory runs out a part of it may have been written.
pub fn push_page_text(
    alloc: Global,
    text: &mut String,
    page: &Page,
    links: &Links,
) -> Result<(), AllocError>
    ensures { OnOk result (string_bytes text.new ≡ string_bytes text.old ++ linked_page_text (shared page.now.items) page.now.next links.now) }
{
    let items = page.items.as_slice();
    let mut linked = String::new(alloc);
    push_links(alloc, &mut linked, links, page.next.as_ref())?;
    text.reserve(
        size_of(items)
            .saturating_add(linked.len())
            .saturating_add(ROOM),
    )?;
    text.push_str(start_text())?;
    push_documents(text, items)?;
    text.push_str(middle_text())?;
    text.push_str(items.len().to_string(alloc)?.as_str())?;
    text.push_str(links_start())?;
    text.push_str(linked.as_str())?;
    text.push_str(links_end())?;
    Ok(())
}

/// The text of a page with its links: a GeoJSON FeatureCollection of the documents of its items.
pub fn page_text(alloc: Global, page: &Page, links: &Links) -> Result<Text, AllocError>
    ensures { IfOk result (λ text. text ≡ linked_page_text (shared page.now.items) page.now.next links.now) }
{
    let mut text = String::new(alloc);
    push_page_text(alloc, &mut text, page, links)?;
    Ok(Text::from_string(text))
}
