ghost use Rattle.std.specs.Prelude.{◌≡◌, ◌∷◌, [], true, IfOk};
ghost use Rattle.sc_sort.specs.Spec.{IsSort, is_of_time};
ghost use Rattle.sc_sort.specs.Words.{datetime_name};

use crate::names::{is_time, named};
use crate::words::datetime_name;
use sc_base::Text;
use std::alloc::{AllocError, Global};
use std::marker::Model;

/// The most keys of a sort.
pub(crate) const MOST_KEYS: usize = 4;

/// A key of a sort: the name of a property, and whether the order by it is descending.
#[derive(Debug, Drop)]
pub struct Key {
    pub name: Text,
    pub down: bool,
}

impl Key {
    /// Whether the key is the time of an item, and so has a moment for every item: its name is `datetime` or
    /// `properties.datetime`.
    pub fn is_of_time(&self) -> bool
        ensures { result ≡ is_of_time self.now }
    {
        is_time(&named(self.name.as_str()))
    }
}

/// How items are ordered: by 1 to 4 keys in turn, the first of which counts most. Contracts see it as the list of its
/// keys.
#[derive(Debug, Drop)]
pub struct SortSpec {
    keys: Vec<Key>,
}

impl Model for SortSpec {
    ghost use Rattle.std.specs.Prelude.{List};
    ghost use Rattle.sc_sort.specs.declared.key.Key.{Key};
    ghost use Rattle.sc_sort.specs.Spec.{IsSort};

    ghost Value = { List Key };

    ghost view = { λ s. s.keys.items };

    ghost invariant = { λ s. IsSort s.keys.items };
}

impl SortSpec {
    /// The sort of these keys.
    pub(crate) fn new(keys: Vec<Key>) -> SortSpec
        requires { IsSort keys.items }
        ensures { result ≡ keys.items }
    {
        SortSpec { keys }
    }

    /// The keys, of which there are 1 to 4.
    pub fn keys(&self) -> &[Key]
        ensures keys { result.now ≡ self.now }
        ensures number { IsSort self.now }
    {
        self.keys.as_slice()
    }
}

/// The sort of a query that names none: by `datetime`, descending.
pub fn default_sort(alloc: Global) -> Result<SortSpec, AllocError>
    ensures { IfOk result (λ sort. sort ≡ record { name = datetime_name; down = true } ∷ []) }
{
    let mut keys = Vec::with_capacity(alloc, 1)?;
    keys.push(Key {
        name: Text::from_str(alloc, datetime_name())?,
        down: true,
    })?;
    Ok(SortSpec::new(keys))
}
