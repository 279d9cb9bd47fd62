//! Names in a table, so that one of many is found at once.
ghost use Rattle.std.specs.Prelude.{◌≡◌, ℕ, List, IfOk};
ghost use Rattle.sc_eval.specs.Selection.{is_one_of};
ghost use Rattle.sc_eval.specs.Names.{AreSameNames};

use sc_base::Text;
use std::alloc::{AllocError, Global};
use std::collections::HashSet;
use std::marker::Model;

/// Names that are looked up, lent by a list of them. Contracts see them as a list, each name once, in no order.
#[derive(Drop)]
pub struct Names<'a> {
    table: HashSet<&'a str>,
}

impl<'a> Model for Names<'a> {
    ghost use Rattle.std.specs.Prelude.{ℕ, List, map};

    ghost Value = { List (List ℕ) };

    ghost view = { λ n. map (λ name. name.now) n.table.keys };
}

impl<'a> Names<'a> {
    /// The table of these names.
    pub fn of(alloc: Global, names: &'a [Text]) -> Result<Names<'a>, AllocError>
        ensures { IfOk result (λ table. AreSameNames table names.now) }
    {
        let mut table = HashSet::with_capacity(alloc, names.len())?;
        for name in names {
            table.insert(name.as_str())?;
        }
        Ok(Names { table })
    }

    /// Whether a name is one of these, by one look-up.
    pub fn has(&self, name: &str) -> bool
        ensures { result ≡ is_one_of self.now name.now }
    {
        self.table.contains(name)
    }
}
