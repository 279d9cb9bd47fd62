ghost use Rattle.std.specs.Prelude.{◌≡◌, ℕ, List, None, map, All, OnOk, if◌then◌else◌, ◌&&◌};
ghost use Rattle.std.specs.Option.{IsSome, option_map, option_or};
ghost use Rattle.std.specs.Str.{bytes_eq};
ghost use Rattle.std.specs.Arc.{arc_value};
ghost use Rattle.std.specs.BTreeMap.{get};
ghost use Rattle.sc_base.specs.Text.{text_order};
ghost use Rattle.sc_history.specs.Content.{item_in};
ghost use Rattle.sc_index.specs.Found.{FindTheSame, HasRoom, found};

use crate::places::{Places, held, put_all, reserve_places};
use sc_base::Text;
use sc_item::Item;
use std::alloc::{AllocError, Global};
use std::collections::BTreeMap;
use std::sync::Arc;

/// Items, each found by its collection and its id. An item is held by one shared pointer.
#[derive(Drop)]
pub struct ItemIndex {
    collections: BTreeMap<Text, Places>,
}

impl ItemIndex {
    /// An index of no items. Takes no memory.
    #[tactic(auto, unfolding(crate::specs::Found::found))]
    pub fn new(alloc: Global) -> ItemIndex
        ensures { (collection id : List ℕ) → found result collection id ≡ None }
    {
        ItemIndex {
            collections: BTreeMap::new(alloc),
        }
    }

    /// The collection's item with the id, or `None` exactly where there is none.
    #[tactic(auto, unfolding(crate::specs::Found::found))]
    pub fn find(&self, collection: &Text, id: &Text) -> Option<&Arc<Item>>
        ensures { option_map (λ item. arc_value item.now) result ≡ found self.now collection.now id.now }
    {
        match self.collections.get(collection) {
            Some(places) => held(places, id),
            None => None,
        }
    }

    /// Makes room for these items of a collection. What is found stays, also where memory is wanting; then the room is given
    /// back.
    #[tactic(auto, unfolding(crate::specs::Found::found, crate::specs::Found::HasRoom))]
    pub fn reserve(
        &mut self,
        alloc: Global,
        collection: &Text,
        items: &[Arc<Item>],
    ) -> Result<(), AllocError>
        ensures found { FindTheSame self.old self.new }
        ensures room { OnOk result (HasRoom self.new collection.now (map arc_value items.now)) }
    {
        self.make_collection(alloc, collection)?;
        match self.collections.get_mut(collection) {
            Some(places) => reserve_places(alloc, places, items),
            None => unreachable!(),
        }
    }

    /// Puts items of the collection under their ids, in the place of those that are there. Of several with one id the first is
    /// found. Takes no memory.
    #[tactic(auto, unfolding(crate::specs::Found::found, crate::specs::Found::HasRoom))]
    pub fn put(&mut self, collection: &Text, items: Vec<Arc<Item>>)
        requires room { HasRoom self.old collection.now (map arc_value items.items) }
        requires collection { All (λ item. item.collection ≡ collection.now) (map arc_value items.items) }
        ensures { (other id : List ℕ) → found self.new other id ≡ option_or (item_in (map arc_value items.items) other id) (found self.old other id) }
    {
        if let Some(places) = self.collections.get_mut(collection) {
            put_all(places, items);
        }
    }

    /// Takes out the collection's item with the id, if there is one.
    #[tactic(auto, unfolding(crate::specs::Found::found))]
    pub fn remove(&mut self, collection: &Text, id: &Text)
        ensures { (other name : List ℕ) → found self.new other name ≡ (if bytes_eq other collection.now && bytes_eq name id.now then None else found self.old other name) }
    {
        if let Some(places) = self.collections.get_mut(collection) {
            places.remove(id);
        }
    }

    /// Takes out all items of the collection.
    #[tactic(auto, unfolding(crate::specs::Found::found))]
    pub fn remove_collection(&mut self, collection: &Text)
        ensures { (other id : List ℕ) → found self.new other id ≡ (if bytes_eq other collection.now then None else found self.old other id) }
    {
        self.collections.remove(collection);
    }

    /// Sees to it that there are places of the collection.
    #[tactic(auto, unfolding(crate::specs::Found::found))]
    fn make_collection(&mut self, alloc: Global, collection: &Text) -> Result<(), AllocError>
        ensures found { FindTheSame self.old self.new }
        ensures made { OnOk result (IsSome (get text_order self.new.collections collection.now)) }
    {
        if !self.collections.contains_key(collection) {
            let id = collection.try_clone(alloc)?;
            self.collections.insert(id, BTreeMap::new(alloc))?;
        }
        Ok(())
    }
}
