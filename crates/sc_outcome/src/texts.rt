//! The fixed texts of lines.
ghost use Rattle.std.specs.Prelude.{◌≡◌};
ghost use Rattle.sc_outcome.specs.Outcome as spec;

#[tactic(auto, unfolding(crate::specs::Outcome::revision_start))]
pub(crate) fn revision_start() -> &'static str
    ensures { result.now ≡ spec.revision_start }
{
    "{\"revision\":"
}

#[tactic(auto, unfolding(crate::specs::Outcome::stamp_start))]
pub(crate) fn stamp_start() -> &'static str
    ensures { result.now ≡ spec.stamp_start }
{
    "{\"stamp\":"
}

#[tactic(auto, unfolding(crate::specs::Outcome::gone))]
pub(crate) fn gone() -> &'static str
    ensures { result.now ≡ spec.gone }
{
    "{\"gone\":true}"
}

#[tactic(auto, unfolding(crate::specs::Outcome::exact_start))]
pub(crate) fn exact_start() -> &'static str
    ensures { result.now ≡ spec.exact_start }
{
    "{\"installed\":\"Exact\",\"bounds\":["
}

#[tactic(auto, unfolding(crate::specs::Outcome::joined_start))]
pub(crate) fn joined_start() -> &'static str
    ensures { result.now ≡ spec.joined_start }
{
    "{\"installed\":\"Joined\",\"bounds\":["
}

#[tactic(auto, unfolding(crate::specs::Outcome::bounds_end))]
pub(crate) fn bounds_end() -> &'static str
    ensures { result.now ≡ spec.bounds_end }
{
    "]}"
}

#[tactic(auto, unfolding(crate::specs::Outcome::too_old_start))]
pub(crate) fn too_old_start() -> &'static str
    ensures { result.now ≡ spec.too_old_start }
{
    "{\"installed\":\"TooOld\",\"kept_from\":"
}

#[tactic(auto, unfolding(crate::specs::Outcome::not_there))]
pub(crate) fn not_there() -> &'static str
    ensures { result.now ≡ spec.not_there }
{
    "{\"installed\":\"Gone\"}"
}

#[tactic(auto, unfolding(crate::specs::Outcome::page_name))]
pub(crate) fn page_name() -> &'static str
    ensures { result.now ≡ spec.page_name }
{
    ",\"page\":"
}

#[tactic(auto, unfolding(crate::specs::Outcome::next_name))]
pub(crate) fn next_name() -> &'static str
    ensures { result.now ≡ spec.next_name }
{
    ",\"next\":"
}

#[tactic(auto, unfolding(crate::specs::Outcome::null_text))]
pub(crate) fn null_text() -> &'static str
    ensures { result.now ≡ spec.null_text }
{
    "null"
}

#[tactic(auto, unfolding(crate::specs::Outcome::refused_start))]
pub(crate) fn refused_start() -> &'static str
    ensures { result.now ≡ spec.refused_start }
{
    "{\"refused\":"
}

#[tactic(auto, unfolding(crate::specs::Outcome::detail_name))]
pub(crate) fn detail_name() -> &'static str
    ensures { result.now ≡ spec.detail_name }
{
    ",\"detail\":"
}

#[tactic(auto, unfolding(crate::specs::Outcome::no_range))]
pub(crate) fn no_range() -> &'static str
    ensures { result.now ≡ spec.no_range }
{
    "null,null"
}

#[tactic(auto, unfolding(crate::specs::Outcome::no_place))]
pub(crate) fn no_place() -> &'static str
    ensures { result.now ≡ spec.no_place }
{
    "null,null,null,null"
}
