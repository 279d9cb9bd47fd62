use sc_base::Text;
use sc_load::Load;
use sc_page::Links;
use sc_query::Query;

/// What a request asks for.
#[derive(Drop)]
pub struct Job {
    /// The revision of the catalogue that the sender has seen, where it says so.
    pub seen: Option<u64>,
    pub work: Work,
}

/// What is to be done for a request.
#[derive(Drop)]
pub enum Work {
    /// The landing page is told.
    Landing,
    /// What the catalogue conforms to is told.
    Conformance,
    /// What can be asked of items is told.
    Queryables,
    /// The collections are told.
    Collections,
    /// A collection is told.
    Collection {
        id: Text,
    },
    /// An item is told.
    Item {
        collection: Text,
        id: Text,
    },
    /// A page is told of the items that a query asks for, all of them in one collection where it is named. It has these
    /// links.
    Search {
        within: Option<Text>,
        query: Query,
        links: Links,
    },
    /// The catalogue is changed.
    Load(Load),
}
