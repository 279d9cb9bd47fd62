ghost use Rattle.std.specs.Prelude.{◌≡◌, ℕ, Bool, List, Option};
ghost use Rattle.std.specs.declared.cmp.Ordering.{Ordering};
ghost use Rattle.sc_item.specs.Feature.{Feature};
ghost use Rattle.sc_sort.specs.declared.key.Key.{Key};
ghost use Rattle.sc_sort.specs.Keys.{Keys};
ghost use Rattle.sc_expr.specs.Query.{Asked};
ghost use Rattle.sc_page.specs.ItemKey.{item_order};
ghost use Rattle.sc_page.specs.Order.{IsItemOrder, IsListing, default_order};
ghost use Rattle.sc_page.specs.Page.{IsFlatPage};
ghost use Rattle.sc_page.specs.Search.{IsPage};

/// Items have one listing by an order in which only items of one name tie.
pub fn one_listing()
    ensures { (order : Feature → Feature → Ordering) → IsItemOrder order → (items a b : List Feature) → IsListing order items a → IsListing order items b → a ≡ b }
{}

/// Items have one page for a filter, such an order and a limit.
pub fn one_page()
    ensures { (wanted : Feature → Bool) (order : Feature → Feature → Ordering) (limit : ℕ) → IsItemOrder order → (items a b : List Feature) → IsFlatPage wanted order limit items a → IsFlatPage wanted order limit items b → a ≡ b }
{}

/// The order of pages is such an order.
pub fn default_order_is_total()
    ensures { IsItemOrder default_order }
{}

/// So is the order of every sort.
pub fn item_order_is_total()
    ensures { (sort : List Key) → IsItemOrder (item_order sort) }
{}

/// Items have one page for a query, and one place where the next page begins.
pub fn one_page_of_search()
    ensures items { (asked : Asked) (items a b : List Feature) (next other : Option Keys) → IsPage asked items a next → IsPage asked items b other → a ≡ b }
    ensures next { (asked : Asked) (items a b : List Feature) (next other : Option Keys) → IsPage asked items a next → IsPage asked items b other → next ≡ other }
{}
