//! What a load makes of the index.
ghost use Rattle.std.specs.Prelude.{◌≡◌, All, map};
ghost use Rattle.std.specs.Arc.{arc_value};
ghost use Rattle.sc_load.specs.Load.{IsWellFormed, collection_of};
ghost use Rattle.sc_index.specs.Found.{HasRoom, Indexes};
ghost use Rattle.sc_history.specs.Content.{Content};
ghost use Rattle.sc_history.specs.Changes.{Puts, apply};
ghost use Rattle.sc_catalog.specs.Kept.{change_of};

use sc_index::ItemIndex;
use sc_item::Item;
use sc_load::Load;
use std::sync::Arc;

/// Puts the items of a load that come, and takes out those that go. Takes no memory.
pub(crate) fn index_load(index: &mut ItemIndex, load: &Load, come: Vec<Arc<Item>>)
    requires formed { IsWellFormed load.now }
    requires room { HasRoom index.old (collection_of load.now) (map arc_value come.items) }
    requires own { All (λ item. item.collection ≡ collection_of load.now) (map arc_value come.items) }
    ensures { (content : Content) → Puts content.items load.now (map arc_value come.items) → Indexes content.items index.old → Indexes (apply content (change_of load.now (map arc_value come.items))).items index.new }
{
    match load {
        Load::DropCollection { id } => index.remove_collection(id),
        Load::Delete { collection, id } => index.remove(collection, id),
        _ => index.put(load.collection(), come),
    }
}
