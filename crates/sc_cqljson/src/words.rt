ghost use Rattle.std.specs.Prelude.{◌≡◌};
ghost use Rattle.sc_cqljson.specs.Words.{op_name, args_name, property_name, timestamp_name, date_name, bbox_name, type_name};

#[tactic(auto, unfolding(crate::specs::Words::op_name))]
pub(crate) fn op_name() -> &'static str
    ensures { result.now ≡ op_name }
{
    "op"
}

#[tactic(auto, unfolding(crate::specs::Words::args_name))]
pub(crate) fn args_name() -> &'static str
    ensures { result.now ≡ args_name }
{
    "args"
}

#[tactic(auto, unfolding(crate::specs::Words::property_name))]
pub(crate) fn property_name() -> &'static str
    ensures { result.now ≡ property_name }
{
    "property"
}

#[tactic(auto, unfolding(crate::specs::Words::timestamp_name))]
pub(crate) fn timestamp_name() -> &'static str
    ensures { result.now ≡ timestamp_name }
{
    "timestamp"
}

#[tactic(auto, unfolding(crate::specs::Words::date_name))]
pub(crate) fn date_name() -> &'static str
    ensures { result.now ≡ date_name }
{
    "date"
}

#[tactic(auto, unfolding(crate::specs::Words::bbox_name))]
pub(crate) fn bbox_name() -> &'static str
    ensures { result.now ≡ bbox_name }
{
    "bbox"
}

#[tactic(auto, unfolding(crate::specs::Words::type_name))]
pub(crate) fn type_name() -> &'static str
    ensures { result.now ≡ type_name }
{
    "type"
}
