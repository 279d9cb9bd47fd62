//! What follows from the definitions alone. Each function has an empty body: its clause is the law.
ghost use Rattle.std.specs.Prelude.{◌≡◌, All, IsPermutation, List};
ghost use Rattle.sc_cut.specs.declared.name.PartName.{PartName as Name};
ghost use Rattle.sc_bounds.specs.Places.{IsPlace};
ghost use Rattle.sc_item.specs.Feature.{Feature, IsKept};
ghost use Rattle.sc_item.specs.Names.{AreApart};
ghost use Rattle.sc_part.specs.Scan.{Fits, HaveOwnIds, IsScan, scan_of};

/// Items have one scan.
pub fn one_scan()
    ensures { (items a b : List Feature) → IsScan items a → IsScan items b → a ≡ b }
{}

/// `scan_of` gives the scan of items no two of which have one id.
pub fn scan_of_items()
    ensures { (items : List Feature) → HaveOwnIds items → IsScan items (scan_of items) }
{}

/// Items of one part have ids of their own where they have names of their own.
pub fn own_ids()
    ensures { (name : Name) (items : List Feature) → All (Fits name) items → AreApart items → HaveOwnIds items }
{}

/// Items that have names of their own have them in any order.
pub fn apart_in_any_order()
    ensures { (items other : List Feature) → IsPermutation items other → AreApart items → AreApart other }
{}

/// The place of an item is a box of the world's grid.
pub fn places_are_boxes()
    ensures { (item : Feature) → IsKept item → IsPlace item.place }
{}
