use sc_base::{Seq, Text};
use sc_expr::Pair;

/// Which links a page has (STAC API, Item Search, pagination). The base is the address of the catalogue without a slash
/// at its end.
#[derive(Debug, Drop)]
pub enum Links {
    /// None.
    Bare,
    /// To the start of the catalogue, and to the next page with GET: the path and the pairs of the request that was
    /// answered.
    Get {
        base: Text,
        path: Text,
        pairs: Seq<Pair>,
    },
    /// To the start of the catalogue, and to the next page with POST: a token that is merged into the body that was
    /// answered.
    Post {
        base: Text,
    },
}
