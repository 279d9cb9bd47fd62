ghost use Rattle.std.specs.Prelude.{◌≡◌};
ghost use Rattle.sc_gen.specs.Document as spec;

#[tactic(auto, unfolding(crate::specs::Document::collection_part))]
pub(crate) fn collection_part() -> &'static str
    ensures { result.now ≡ spec.collection_part }
{
    "{\"type\":\"Feature\",\"collection\":\""
}

#[tactic(auto, unfolding(crate::specs::Document::id_part))]
pub(crate) fn id_part() -> &'static str
    ensures { result.now ≡ spec.id_part }
{
    "\",\"id\":\""
}

#[tactic(auto, unfolding(crate::specs::Document::geometry_part))]
pub(crate) fn geometry_part() -> &'static str
    ensures { result.now ≡ spec.geometry_part }
{
    "\",\"geometry\":{\"type\":\"Point\",\"coordinates\":["
}

#[tactic(auto, unfolding(crate::specs::Document::properties_part))]
pub(crate) fn properties_part() -> &'static str
    ensures { result.now ≡ spec.properties_part }
{
    "]},\"properties\":{\"datetime\":\""
}

#[tactic(auto, unfolding(crate::specs::Document::cover_part))]
pub(crate) fn cover_part() -> &'static str
    ensures { result.now ≡ spec.cover_part }
{
    "\",\"eo:cloud_cover\":"
}

#[tactic(auto, unfolding(crate::specs::Document::end_part))]
pub(crate) fn end_part() -> &'static str
    ensures { result.now ≡ spec.end_part }
{
    "}}"
}
