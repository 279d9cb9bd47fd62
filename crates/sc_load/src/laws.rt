//! What follows from the definitions alone. Each function has an empty body: its clause is the law.
ghost use Rattle.std.specs.Prelude.{◌≡◌, ℕ, List};
ghost use Rattle.sc_json.specs.declared.tree.Json.{Json};
ghost use Rattle.sc_item.specs.declared.fault.ItemFault.{ItemFault};
ghost use Rattle.sc_item.specs.Feature.{Feature};
ghost use Rattle.sc_item.specs.Reading.{IsItem};
ghost use Rattle.sc_cut.specs.declared.cut.Cut.{Cut};
ghost use Rattle.sc_load.specs.declared.fault.PrepareFault.{PrepareFault};
ghost use Rattle.sc_load.specs.Collection.{IsCollection};
ghost use Rattle.sc_load.specs.Items.{AreRead, IsFirstBad};
ghost use Rattle.sc_load.specs.Load.{IsItemOf};
ghost use Rattle.sc_load.specs.Prepared.{IsItemsFault};

/// A document describes one collection at most.
pub fn one_collection()
    ensures { (tree : Json) (id other : List ℕ) (cut another : Cut) → IsCollection tree id cut → IsCollection tree other another →
        (id ≡ other) × (cut ≡ another) }
{}

/// Trees are one list of items of a collection at most.
pub fn one_list_of_items()
    ensures { (collection : List ℕ) (trees : List Json) (items others : List Feature) → AreRead collection trees items → AreRead collection trees others →
        items ≡ others }
{}

/// Trees that are items are refused for want of memory alone.
pub fn items_have_no_fault()
    ensures { (collection : List ℕ) (trees : List Json) (items : List Feature) (fault : PrepareFault) → AreRead collection trees items →
        IsItemsFault collection trees fault → fault ≡ PrepareFault.OutOfMemory }
{}

/// The first bad item has one place.
pub fn one_first_bad_item()
    ensures { (collection : List ℕ) (trees : List Json) (place other : ℕ) (fault another : ItemFault) → IsFirstBad collection trees place fault →
        IsFirstBad collection trees other another → place ≡ other }
{}

/// The own tree of an item that is read, which tells its collection, is the item again.
pub fn items_read_again()
    ensures { (collection : List ℕ) (tree : Json) (item : Feature) → IsItem collection tree item → IsItemOf collection item }
{}
