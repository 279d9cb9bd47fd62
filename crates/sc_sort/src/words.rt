ghost use Rattle.std.specs.Prelude.{◌≡◌};
ghost use Rattle.sc_sort.specs.Words.{datetime_name, id_name, collection_name, geometry_name, properties_prefix, field_name, direction_name, ascending_word, descending_word};

#[tactic(auto, unfolding(crate::specs::Words::datetime_name))]
pub(crate) fn datetime_name() -> &'static str
    ensures { result.now ≡ datetime_name }
{
    "datetime"
}

#[tactic(auto, unfolding(crate::specs::Words::id_name))]
pub(crate) fn id_name() -> &'static str
    ensures { result.now ≡ id_name }
{
    "id"
}

#[tactic(auto, unfolding(crate::specs::Words::collection_name))]
pub(crate) fn collection_name() -> &'static str
    ensures { result.now ≡ collection_name }
{
    "collection"
}

#[tactic(auto, unfolding(crate::specs::Words::geometry_name))]
pub(crate) fn geometry_name() -> &'static str
    ensures { result.now ≡ geometry_name }
{
    "geometry"
}

#[tactic(auto, unfolding(crate::specs::Words::properties_prefix))]
pub(crate) fn properties_prefix() -> &'static str
    ensures { result.now ≡ properties_prefix }
{
    "properties."
}

#[tactic(auto, unfolding(crate::specs::Words::field_name))]
pub(crate) fn field_name() -> &'static str
    ensures { result.now ≡ field_name }
{
    "field"
}

#[tactic(auto, unfolding(crate::specs::Words::direction_name))]
pub(crate) fn direction_name() -> &'static str
    ensures { result.now ≡ direction_name }
{
    "direction"
}

#[tactic(auto, unfolding(crate::specs::Words::ascending_word))]
pub(crate) fn ascending_word() -> &'static str
    ensures { result.now ≡ ascending_word }
{
    "asc"
}

#[tactic(auto, unfolding(crate::specs::Words::descending_word))]
pub(crate) fn descending_word() -> &'static str
    ensures { result.now ≡ descending_word }
{
    "desc"
}
