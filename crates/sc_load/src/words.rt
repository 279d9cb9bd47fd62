ghost use Rattle.std.specs.Prelude.{◌≡◌};
ghost use Rattle.sc_item.specs.Words.{type_name, id_name};
ghost use Rattle.sc_load.specs.Words.{features_name, several_word, cut_name, whole_word, year_word, month_word};

#[tactic(auto, unfolding(sc_item::specs::Words::type_name))]
pub(crate) fn type_name() -> &'static str
    ensures { result.now ≡ type_name }
{
    "type"
}

#[tactic(auto, unfolding(sc_item::specs::Words::id_name))]
pub(crate) fn id_name() -> &'static str
    ensures { result.now ≡ id_name }
{
    "id"
}

#[tactic(auto, unfolding(crate::specs::Words::features_name))]
pub(crate) fn features_name() -> &'static str
    ensures { result.now ≡ features_name }
{
    "features"
}

#[tactic(auto, unfolding(crate::specs::Words::several_word))]
pub(crate) fn several_word() -> &'static str
    ensures { result.now ≡ several_word }
{
    "FeatureCollection"
}

#[tactic(auto, unfolding(crate::specs::Words::cut_name))]
pub(crate) fn cut_name() -> &'static str
    ensures { result.now ≡ cut_name }
{
    "catalogue:cut"
}

#[tactic(auto, unfolding(crate::specs::Words::whole_word))]
pub(crate) fn whole_word() -> &'static str
    ensures { result.now ≡ whole_word }
{
    "whole"
}

#[tactic(auto, unfolding(crate::specs::Words::year_word))]
pub(crate) fn year_word() -> &'static str
    ensures { result.now ≡ year_word }
{
    "year"
}

#[tactic(auto, unfolding(crate::specs::Words::month_word))]
pub(crate) fn month_word() -> &'static str
    ensures { result.now ≡ month_word }
{
    "month"
}
