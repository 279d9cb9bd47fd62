ghost use Rattle.std.specs.Prelude.{◌≡◌};
ghost use Rattle.sc_item.specs.Words.{type_name, feature_word, properties_name, id_name, collection_name, geometry_name, datetime_name, start_name, end_name};

#[tactic(auto, unfolding(crate::specs::Words::type_name))]
pub(crate) fn type_name() -> &'static str
    ensures { result.now ≡ type_name }
{
    "type"
}

#[tactic(auto, unfolding(crate::specs::Words::feature_word))]
pub(crate) fn feature_word() -> &'static str
    ensures { result.now ≡ feature_word }
{
    "Feature"
}

#[tactic(auto, unfolding(crate::specs::Words::properties_name))]
pub(crate) fn properties_name() -> &'static str
    ensures { result.now ≡ properties_name }
{
    "properties"
}

#[tactic(auto, unfolding(crate::specs::Words::id_name))]
pub(crate) fn id_name() -> &'static str
    ensures { result.now ≡ id_name }
{
    "id"
}

#[tactic(auto, unfolding(crate::specs::Words::collection_name))]
pub(crate) fn collection_name() -> &'static str
    ensures { result.now ≡ collection_name }
{
    "collection"
}

#[tactic(auto, unfolding(crate::specs::Words::geometry_name))]
pub(crate) fn geometry_name() -> &'static str
    ensures { result.now ≡ geometry_name }
{
    "geometry"
}

#[tactic(auto, unfolding(crate::specs::Words::datetime_name))]
pub(crate) fn datetime_name() -> &'static str
    ensures { result.now ≡ datetime_name }
{
    "datetime"
}

#[tactic(auto, unfolding(crate::specs::Words::start_name))]
pub(crate) fn start_name() -> &'static str
    ensures { result.now ≡ start_name }
{
    "start_datetime"
}

#[tactic(auto, unfolding(crate::specs::Words::end_name))]
pub(crate) fn end_name() -> &'static str
    ensures { result.now ≡ end_name }
{
    "end_datetime"
}
