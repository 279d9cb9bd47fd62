ghost use Rattle.std.specs.Prelude.{◌≡◌};
ghost use Rattle.sc_query.specs.Words as words;

#[tactic(auto, unfolding(crate::specs::Words::limit_name))]
pub(crate) fn limit_name() -> &'static str
    ensures { result.now ≡ words.limit_name }
{
    "limit"
}

#[tactic(auto, unfolding(crate::specs::Words::bbox_name))]
pub(crate) fn bbox_name() -> &'static str
    ensures { result.now ≡ words.bbox_name }
{
    "bbox"
}

#[tactic(auto, unfolding(crate::specs::Words::datetime_name))]
pub(crate) fn datetime_name() -> &'static str
    ensures { result.now ≡ words.datetime_name }
{
    "datetime"
}

#[tactic(auto, unfolding(crate::specs::Words::intersects_name))]
pub(crate) fn intersects_name() -> &'static str
    ensures { result.now ≡ words.intersects_name }
{
    "intersects"
}

#[tactic(auto, unfolding(crate::specs::Words::ids_name))]
pub(crate) fn ids_name() -> &'static str
    ensures { result.now ≡ words.ids_name }
{
    "ids"
}

#[tactic(auto, unfolding(crate::specs::Words::collections_name))]
pub(crate) fn collections_name() -> &'static str
    ensures { result.now ≡ words.collections_name }
{
    "collections"
}

#[tactic(auto, unfolding(crate::specs::Words::language_name))]
pub(crate) fn language_name() -> &'static str
    ensures { result.now ≡ words.language_name }
{
    "filter-lang"
}

#[tactic(auto, unfolding(crate::specs::Words::crs_name))]
pub(crate) fn crs_name() -> &'static str
    ensures { result.now ≡ words.crs_name }
{
    "filter-crs"
}

#[tactic(auto, unfolding(crate::specs::Words::filter_name))]
pub(crate) fn filter_name() -> &'static str
    ensures { result.now ≡ words.filter_name }
{
    "filter"
}

#[tactic(auto, unfolding(crate::specs::Words::sort_name))]
pub(crate) fn sort_name() -> &'static str
    ensures { result.now ≡ words.sort_name }
{
    "sortby"
}

#[tactic(auto, unfolding(crate::specs::Words::token_name))]
pub(crate) fn token_name() -> &'static str
    ensures { result.now ≡ words.token_name }
{
    "token"
}

#[tactic(auto, unfolding(crate::specs::Words::text_language))]
pub(crate) fn text_language() -> &'static str
    ensures { result.now ≡ words.text_language }
{
    "cql2-text"
}

#[tactic(auto, unfolding(crate::specs::Words::tree_language))]
pub(crate) fn tree_language() -> &'static str
    ensures { result.now ≡ words.tree_language }
{
    "cql2-json"
}

#[tactic(auto, unfolding(crate::specs::Words::longitude_latitude))]
pub(crate) fn longitude_latitude() -> &'static str
    ensures { result.now ≡ words.longitude_latitude }
{
    "http://www.opengis.net/def/crs/OGC/1.3/CRS84"
}
