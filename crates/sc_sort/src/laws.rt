//! What follows from the definitions alone. Each function has an empty body: its clause is the law.
ghost use Rattle.std.specs.Prelude.{◌≡◌, List, length};
ghost use Rattle.std.specs.Cmp.{IsTotalOrder};
ghost use Rattle.std.specs.Prelude.{All};
ghost use Rattle.std.specs.declared.cmp.Ordering.TheVariants.{Less, Equal};
ghost use Rattle.std.specs.Ordering.{ordering_reverse};
ghost use Rattle.sc_sort.specs.declared.key.Key.{Key};
ghost use Rattle.sc_sort.specs.Keys.{Keys, IsKept};
ghost use Rattle.sc_sort.specs.Order.{keys_order, AllTied};

/// The order of key lists under any sort is total: each list ties with itself, turning two round turns their order
/// round, and what comes before a second that comes before a third comes before the third.
pub fn order_is_total()
    ensures total { (sort : List Key) → IsTotalOrder (keys_order sort) }
    ensures itself { (sort : List Key) (a : Keys) → keys_order sort a a ≡ Equal }
    ensures turned { (sort : List Key) (a b : Keys) → keys_order sort a b ≡ ordering_reverse (keys_order sort b a) }
    ensures through { (sort : List Key) (a b c : Keys) → keys_order sort a b ≡ Less → keys_order sort b c ≡ Less → keys_order sort a c ≡ Less }
{}

/// Only key lists that agree in collection and id tie, and their values are tied at each key. Such lists tie.
pub fn ties_are_of_one_name()
    ensures collection { (sort : List Key) (a b : Keys) → keys_order sort a b ≡ Equal → a.collection ≡ b.collection }
    ensures id { (sort : List Key) (a b : Keys) → keys_order sort a b ≡ Equal → a.id ≡ b.id }
    ensures values { (sort : List Key) (a b : Keys) → keys_order sort a b ≡ Equal → AllTied sort a.values b.values }
    ensures tied { (sort : List Key) (a b : Keys) → AllTied sort a.values b.values → a.collection ≡ b.collection → a.id ≡ b.id → keys_order sort a b ≡ Equal }
{}

/// Key lists that tie are the same, where they have a value for each key and their numbers are those that are kept.
pub fn ties_are_the_same()
    ensures { (sort : List Key) (a b : Keys) → length a.values ≡ length sort → length b.values ≡ length sort → All IsKept a.values → All IsKept b.values → keys_order sort a b ≡ Equal → a ≡ b }
{}
