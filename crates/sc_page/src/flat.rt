ghost use Rattle.std.specs.Prelude.{IfOk};
ghost use Rattle.sc_item.specs.Names.{AreApart};
ghost use Rattle.sc_page.specs.Search.{IsPage, shared};

use crate::first::FirstItems;
use crate::found::Page;
use crate::search::Search;
use sc_expr::Query;
use sc_item::Item;
use std::alloc::{AllocError, Global};
use std::sync::Arc;

/// The page of a search over these items: those that it selects, in its order, from the first that comes strictly after
/// its place, as far as its limit. The condition is that no two items agree in collection and id.
pub fn flat_page(alloc: Global, items: &[Arc<Item>], query: &Query) -> Result<Page, AllocError>
    requires { AreApart (shared items.now) }
    ensures { IfOk result (λ page. IsPage query.now (shared items.now) (shared page.items) page.next) }
{
    let search = Search::of(alloc, query)?;
    let mut first = FirstItems::new(alloc, &search);
    first.add_all(alloc, &search, items)?;
    first.into_page(alloc, &search)
}
