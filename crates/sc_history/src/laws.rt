//! What follows from the definitions alone. Each function has an empty body: its clauses are the laws. A history is a list
//! of loads with the newest first, and `past` tells it as the changes that its loads made.
ghost use Rattle.std.specs.Prelude.{◌≡◌, ◌≢◌, ◌↔◌, ◌⊎◌, ℕ, ℤ, ◌^◌, ◌<◌, ◌≤◌, ◌++◌, ◌||◌, ◌&&◌, List, [], ◌∷◌, Option, Some, None, Bool, true, false, map, drop, length, codes, find, All, Contains, flat_map, IsPermutation, if◌then◌else◌};
ghost use Rattle.std.specs.Option.{option_map, option_or};
ghost use Rattle.std.specs.Str.{bytes_eq};
ghost use Rattle.std.specs.List.{list_any, sum_by};
ghost use Rattle.std.specs.declared.alloc.Global.{Global};
ghost use Rattle.std.specs.declared.sync.Arc.{Arc};
ghost use Rattle.sc_json.specs.declared.tree.Json.{Json};
ghost use Rattle.sc_item.specs.declared.fault.ItemFault.{ItemFault};
ghost use Rattle.sc_item.specs.Feature.{Feature};
ghost use Rattle.sc_item.specs.Names.{AreApart};
ghost use Rattle.sc_cut.specs.declared.cut.Cut.{Cut};
ghost use Rattle.sc_cut.specs.declared.name.PartName.{PartName};
ghost use Rattle.sc_bounds.specs.Extent.{Extent};
ghost use Rattle.sc_bounds.specs.Sets.{IsWithin};
ghost use Rattle.sc_load.specs.declared.load.Load.{Load};
ghost use Rattle.sc_load.specs.declared.load.Load.TheVariants.{AddCollection, DropCollection};
ghost use Rattle.sc_load.specs.declared.fault.LoadFault.{LoadFault};
ghost use Rattle.sc_load.specs.declared.fault.LoadFault.TheVariants as faults;
ghost use Rattle.sc_load.specs.Load.{IsItemOf, IsWellFormed, collection_of, items_of, size_of};
ghost use Rattle.sc_history.specs.Content.{Collection, Content, IsContent, has_item, is_called, item_in};
ghost use Rattle.sc_history.specs.Changes.{Change, Puts, apply, collections_after, takes};
ghost use Rattle.sc_history.specs.Names.{ArePartsOf, Fits, belongs, fits, hull_of, is_cut, has_cut, part_of, scan_of};
ghost use Rattle.sc_history.specs.History.{replay, back, touches, stamp, birth, additions, first_revision, kept_from};
ghost use Rattle.sc_history.specs.Refusals.{HasBadPatch, HasFault, HasFewCollections, HasFewParts, IsAccepted, IsAllowed, IsRefused, is_patch, plain_fault};
ghost use Rattle.sc_history.specs.Taken.{IsPast, Tells};
ghost use Rattle.sc_history.specs.Part.{Part, bounds_of, lookup};
ghost use Rattle.sc_history.specs.Touch.{ArePublished, AreTouched, bounds_next, loses, touched, touched_names};
ghost use Rattle.sc_history.specs.Sound.{CoversAll, Sound, Stand, StandsAs};
ghost use Rattle.sc_history.specs.Installs.{AreInstalled, answer, answer_in, bounds_after, bounds_in};
ghost use Rattle.sc_history.specs.declared.installed.Installed.TheVariants.{TooOld};
ghost use Rattle.sc_history.specs.Views.{IsSnapshot, IsStamp, IsTicket, IsTight, Snap, Stood};
ghost use Rattle.sc_history.specs.Example.{IsExample, april, march, one_a_revision, one_again, one_moved, scene};

/// A history is told in one way: each load puts one list of items into the content before it, a patch too.
pub fn one_telling()
    ensures { (history : List Load) (past others : List Change) → Tells history past → Tells history others → past ≡ others }
{}

/// Every history without refused loads makes a content: no two collections have one id, and each is what its document
/// describes; no two items have one name, and each is of a collection that is there, and is what its own tree is in it. A
/// load that a content allows makes a content of it.
pub fn histories_make_contents()
    ensures past { (past : List Change) → IsPast past → IsContent (replay past) }
    ensures earlier { (past : List Change) (revision : ℕ) → IsPast past → IsPast (back revision past) }
    ensures change { (content : Content) (change : Change) → IsContent content → IsAllowed content change → IsContent (apply content change) }
{}

/// A history keeps the limits: 1,000,000 entries, 2^29 bytes, 65,536 parts and 1,024 collections.
pub fn histories_keep_limits()
    ensures entries { (past : List Change) → IsPast past → length past ≤ 1_000_000 }
    ensures bytes { (past : List Change) → IsPast past → sum_by (λ change. size_of change.load) past ≤ 2 ^ 29 }
    ensures parts { (past : List Change) → IsPast past → HasFewParts (replay past) }
    ensures collections { (past : List Change) → IsPast past → HasFewCollections (replay past) }
{}

/// A load that is accepted is refused for want of memory alone, and one that is refused has one first fault.
pub fn one_first_fault()
    ensures accepted { (past : List Change) (change : Change) (fault : LoadFault) → IsAccepted past change → IsRefused past change.load fault →
        fault ≡ faults.OutOfMemory }
    ensures first { (past : List Change) (load : Load) (one other : LoadFault) → IsRefused past load one → IsRefused past load other →
        (one ≢ faults.OutOfMemory) → (other ≢ faults.OutOfMemory) → one ≡ other }
{}

/// Each load that isn't a patch is accepted, or refused with a fault that isn't want of memory. So is a patch that makes an
/// item of the one that it names. One that can't be made is refused, and so is every load with a fault that needs no patch.
pub fn accepted_or_refused()
    ensures others { (past : List Change) (load : Load) → IsPast past → IsWellFormed load → is_patch load ≡ false →
        IsAccepted past (record { load = load; come = items_of load }) ⊎ HasFault past load }
    ensures made { (past : List Change) (change : Change) → IsPast past → IsWellFormed change.load →
        Puts (replay past).items change.load change.come → IsAccepted past change ⊎ HasFault past change.load }
    ensures bad { (past : List Change) (load : Load) (fault : ItemFault) → HasBadPatch (replay past).items load fault → HasFault past load }
    ensures plain { (past : List Change) (load : Load) (fault : LoadFault) → plain_fault (replay past) load ≡ Some fault → HasFault past load }
{}

/// An item of a content, or of a part that stands, is found by its collection and id. After a load it is found among those
/// that come, or where it stood if the load doesn't take it.
pub fn items_by_id()
    ensures found { (content : Content) (item : Feature) → IsContent content → Contains content.items item →
        item_in content.items item.collection item.id ≡ Some item }
    ensures part { (past : List Change) (name : PartName) (part : Part) (item : Feature) → IsContent (replay past) → StandsAs past name part →
        Contains part.items item → item_in (replay past).items item.collection item.id ≡ Some item }
    ensures after { (content : Content) (change : Change) (collection id : List ℕ) → item_in (apply content change).items collection id ≡
        option_or (item_in change.come collection id)
        (if bytes_eq collection (collection_of change.load) && takes change.load id then None else item_in content.items collection id) }
{}

/// The order of items is of no account for the scan of a part and for its hull.
pub fn any_order_of_items()
    ensures scan { (collection : List ℕ) (items others : List Feature) → All (λ item. item.collection ≡ collection) items → AreApart items →
        IsPermutation items others → scan_of items ≡ scan_of others }
    ensures hull { (items others : List Feature) → All (λ item. IsItemOf item.collection item) items → IsPermutation items others →
        hull_of items ≡ hull_of others }
{}

/// An item that is what its own tree is passes the test of a name exactly where it is of its collection and has its key; a
/// name's cut is that of the one collection with its id. So an item belongs to one part of a content that has it.
pub fn one_part_an_item()
    ensures test { (name : PartName) (item : Feature) → IsItemOf item.collection item → (fits name item ≡ true) ↔ Fits name item }
    ensures cut { (content : Content) (name : PartName) (collection : Collection) → IsContent content →
        find (is_called name.collection) content.collections ≡ Some collection → has_cut content.collections name ≡ is_cut collection.cut name.cut }
    ensures no_cut { (content : Content) (name : PartName) → find (is_called name.collection) content.collections ≡ None →
        has_cut content.collections name ≡ false }
    ensures there { (content : Content) (item : Feature) → IsContent content → Contains content.items item →
        (name : PartName) × (belongs content.collections name item ≡ true) }
    ensures only { (content : Content) (item : Feature) (one other : PartName) → IsContent content → Contains content.items item →
        belongs content.collections one item ≡ true → belongs content.collections other item ≡ true → one ≡ other }
{}

/// A content has one list of the names of its parts, and these parts have its items, each once.
pub fn one_list_of_parts()
    ensures there { (content : Content) → IsContent content → (names : List PartName) × ArePartsOf content names }
    ensures names { (content : Content) (names others : List PartName) → ArePartsOf content names → ArePartsOf content others → names ≡ others }
    ensures items { (content : Content) (names : List PartName) → IsContent content → ArePartsOf content names →
        IsPermutation content.items (flat_map (part_of content) names) }
{}

/// Parts that stand have the names of the content's parts and its items, so an item is there where one of them has it.
pub fn parts_stand_for_the_content()
    ensures each { (past : List Change) (parts : List Part) → Stand past parts → All (λ part. StandsAs past part.name part) parts }
    ensures names { (past : List Change) (parts : List Part) → Stand past parts → ArePartsOf (replay past) (map (λ part. part.name) parts) }
    ensures items { (past : List Change) (parts : List Part) → IsPast past → Stand past parts →
        IsPermutation (replay past).items (flat_map (λ part. part.items) parts) }
    ensures item { (past : List Change) (parts : List Part) (collection id : List ℕ) → IsPast past → Stand past parts →
        has_item (replay past).items collection id ≡ has_item (flat_map (λ part. part.items) parts) collection id }
{}

/// The parts that a load touches are those to which an item that comes belongs, and those that lose an item. One that adds a
/// collection touches none, and of a collection that goes no part is left.
pub fn touched_parts()
    ensures touched { (past : List Change) (parts : List Part) (change : Change) (name : PartName) → Stand past parts →
        touches (replay past) change name ≡
        (list_any (belongs (apply (replay past) change).collections name) change.come || loses change.load (lookup name parts)) }
    ensures add { (content : Content) (id : List ℕ) (cut : Cut) (tree : Json) (name : PartName) →
        touches content (record { load = AddCollection id cut tree; come = [] }) name ≡ false }
    ensures drop { (revision : ℕ) (name : PartName) (id : List ℕ) (part : Option Part) →
        touched revision name (takes (DropCollection id)) [] part ≡ None }
{}

/// The names of the touched parts that stand after a load are told by the history alone, in one way.
pub fn one_list_of_touched()
    ensures are { (past : List Change) (change : Change) (old new : List Part) → IsPast past → IsAllowed (replay past) change → Stand past old →
        ArePublished past change old new → AreTouched past change (touched_names past change new) }
    ensures one { (past : List Change) (change : Change) (names others : List PartName) → AreTouched past change names →
        AreTouched past change others → names ≡ others }
{}

/// The empty catalogue is sound.
pub fn nothing_is_sound()
    ensures { Sound [] [] [] }
{}

/// Where each touched part is replaced by what a load leaves of it, and the others stay, the parts stand for the longer
/// history: the names are those of the parts that there are then, and a catalogue stays sound if the load is accepted.
pub fn a_load_keeps_sound()
    ensures stand { (past : List Change) (change : Change) (old new : List Part) → IsPast past → IsAllowed (replay past) change → Stand past old →
        ArePublished past change old new → Stand (change ∷ past) new }
    ensures names { (past : List Change) (change : Change) (old new : List Part) → IsPast past → IsAllowed (replay past) change → Stand past old →
        ArePublished past change old new → ArePartsOf (apply (replay past) change) (map (λ part. part.name) new) }
    ensures told { (history : List Load) (past : List Change) (change : Change) → Tells history past → IsAccepted past change →
        Tells (change.load ∷ history) (change ∷ past) }
    ensures sound { (history : List Load) (collections : List Collection) (old new : List Part) (change : Change) (is : Sound history collections old) →
        IsAccepted is.past change → ArePublished is.past change old new →
        Sound (change.load ∷ history) (collections_after collections change.load) new }
{}

/// An install of a hull that was taken at some revision keeps a catalogue sound, whichever answer it gives, and never widens
/// bounds.
pub fn an_install_keeps_sound()
    ensures stand { (past : List Change) (name : PartName) (stamp : ℕ) (hull : Extent) (old new : List Part) → IsPast past → Stand past old →
        IsTight past name stamp hull → AreInstalled name stamp hull old new → Stand past new }
    ensures sound { (history : List Load) (collections : List Collection) (name : PartName) (stamp : ℕ) (hull : Extent) (old new : List Part)
        (is : Sound history collections old) → IsTight is.past name stamp hull → AreInstalled name stamp hull old new → Sound history collections new }
    ensures narrows { (past : List Change) (name : PartName) (stamp : ℕ) (hull : Extent) (part : Part) → IsPast past → StandsAs past name part →
        IsTight past name stamp hull → IsWithin (bounds_after stamp hull part) part.bounds }
{}

/// What an install answers, and the bounds that it leaves, by the history alone: the parts that stand hold nothing more.
pub fn an_install_by_the_history()
    ensures answer { (past : List Change) (parts : List Part) (name : PartName) (revision : ℕ) → Stand past parts →
        answer revision (lookup name parts) ≡ answer_in past name revision }
    ensures bounds { (past : List Change) (name : PartName) (revision : ℕ) (hull : Extent) (old new : List Part) → Stand past old →
        AreInstalled name revision hull old new → bounds_of name new ≡ option_map (bounds_in past name revision hull) (bounds_of name old) }
{}

/// A load that is allowed moves the bounds of each name as the history says.
pub fn a_load_moves_bounds()
    ensures { (past : List Change) (change : Change) (old new : List Part) (name : PartName) → IsPast past → IsAllowed (replay past) change →
        Stand past old → ArePublished past change old new → bounds_of name new ≡ bounds_next past change name (bounds_of name old) }
{}

/// A snapshot has what stands, a ticket the items of a part that stands, and the hull of its items is tight.
pub fn views_of_what_stands()
    ensures snapshot { (past : List Change) (parts : List Part) → Stand past parts →
        IsSnapshot past (record { revision = length past; collections = (replay past).collections; parts = parts }) }
    ensures ticket { (past : List Change) (name : PartName) (part : Part) → IsPast past → StandsAs past name part →
        IsTicket past name part.stamp part.items }
    ensures tight { (past : List Change) (name : PartName) (stamp : ℕ) (items : List Feature) → IsTicket past name stamp items →
        IsTight past name stamp (hull_of items) }
{}

/// They stay what they are as the history grows.
pub fn views_stay()
    ensures snapshot { (newer past : List Change) (snap : Snap) → IsSnapshot past snap → IsSnapshot (newer ++ past) snap }
    ensures ticket { (newer past : List Change) (name : PartName) (stamp : ℕ) (items : List Feature) → IsTicket past name stamp items →
        IsTicket (newer ++ past) name stamp items }
    ensures tight { (newer past : List Change) (name : PartName) (stamp : ℕ) (hull : Extent) → IsTight past name stamp hull →
        IsTight (newer ++ past) name stamp hull }
{}

/// The bounds of a snapshot's parts cover their items, no two items of it have one name, and they are those of its revision.
pub fn snapshots_cover()
    ensures covers { (snap : Snap) → Stood snap → All (λ part. CoversAll part.bounds part.items) snap.parts }
    ensures apart { (snap : Snap) → Stood snap → AreApart (flat_map (λ part. part.items) snap.parts) }
    ensures items { (past : List Change) (snap : Snap) → IsPast past → IsSnapshot past snap →
        IsPermutation (replay (back snap.revision past)).items (flat_map (λ part. part.items) snap.parts) }
{}

/// A longer history is told by what tells its beginning, with the changes of the later loads in front; and what was told up to
/// a revision stays.
pub fn longer_histories()
    ensures split { (newer older : List Load) (past : List Change) → Tells (newer ++ older) past →
        (later : List Change) × (before : List Change) × (past ≡ later ++ before) × Tells older before }
    ensures length { (history : List Load) (past : List Change) → Tells history past → length past ≡ length history }
    ensures back { (newer past : List Change) (revision : ℕ) → revision ≤ length past → back revision (newer ++ past) ≡ back revision past }
    ensures whole { (past : List Change) → back (length past) past ≡ past }
{}

/// A ticket of an earlier part of the same name is too old for the part that stands, which was made after it.
pub fn earlier_parts_are_too_old()
    ensures { (past : List Change) (name : PartName) (stamp : ℕ) (part : Part) → IsPast past → StandsAs past name part → IsStamp past name stamp →
        stamp < birth past name → answer stamp (Some part) ≡ TooOld part.kept_from }
{}

/// The example: a patch moves an item from March to April, and both have its revision as stamp; once March has emptied and is
/// made again it has one addition. Of 65 additions from revision 2 on all after revision 2 are kept, of 66 those after 3.
pub fn an_example()
    ensures moved { (tree patch : Json) (first second : List (Arc Feature Global)) (day later : ℤ) → IsExample day later →
        (part_of (replay (one_moved tree patch first second day later)) march ≡ scene (codes "k") day ∷ []) ×
        (part_of (replay (one_moved tree patch first second day later)) april ≡ scene (codes "a") later ∷ []) }
    ensures stamps { (tree patch : Json) (first second : List (Arc Feature Global)) (day later : ℤ) → IsExample day later →
        (stamp (one_moved tree patch first second day later) march ≡ 4) × (stamp (one_moved tree patch first second day later) april ≡ 4) }
    ensures additions { (tree patch : Json) (first second : List (Arc Feature Global)) (day later : ℤ) → IsExample day later →
        (birth (one_moved tree patch first second day later) march ≡ 2) ×
        (map (λ a. a.revision) (additions (one_moved tree patch first second day later) march) ≡ 3 ∷ 2 ∷ []) }
    ensures again { (tree patch : Json) (first second : List (Arc Feature Global)) (day later : ℤ) → IsExample day later →
        (stamp (one_again tree patch first second day later) march ≡ 6) ×
        (map (λ a. a.revision) (additions (one_again tree patch first second day later) march) ≡ 6 ∷ []) ×
        (kept_from (one_again tree patch first second day later) march ≡ 5) }
    ensures kept { (hull : Extent) → (first_revision 1 (drop 64 (one_a_revision hull 65)) ≡ 2) × (first_revision 1 (drop 64 (one_a_revision hull 66)) ≡ 3) }
{}
