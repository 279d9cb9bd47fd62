ghost use Rattle.std.specs.Prelude.{◌≡◌};
ghost use Rattle.sc_geom.specs.Kinds.{kind_named, type_name, coordinates_name, geometries_name};

/// The kinds of geometries (RFC 7946 §1.4).
#[derive(Clone, Copy, Debug, PartialEq, Eq)]
pub(crate) enum Kind {
    Point,
    MultiPoint,
    LineString,
    MultiLineString,
    Polygon,
    MultiPolygon,
    GeometryCollection,
}

/// The kind of a name.
#[tactic(auto, unfolding(crate::specs::Kinds::kind_named))]
pub(crate) fn kind_named(name: &[u8]) -> Option<Kind>
    ensures { result ≡ kind_named name.now }
{
    if name == b"Point".as_slice() {
        Some(Kind::Point)
    } else if name == b"MultiPoint".as_slice() {
        Some(Kind::MultiPoint)
    } else if name == b"LineString".as_slice() {
        Some(Kind::LineString)
    } else if name == b"MultiLineString".as_slice() {
        Some(Kind::MultiLineString)
    } else if name == b"Polygon".as_slice() {
        Some(Kind::Polygon)
    } else if name == b"MultiPolygon".as_slice() {
        Some(Kind::MultiPolygon)
    } else if name == b"GeometryCollection".as_slice() {
        Some(Kind::GeometryCollection)
    } else {
        None
    }
}

#[tactic(auto, unfolding(crate::specs::Kinds::type_name))]
pub(crate) fn type_name() -> &'static [u8]
    ensures { result.now ≡ type_name }
{
    b"type".as_slice()
}

#[tactic(auto, unfolding(crate::specs::Kinds::coordinates_name))]
pub(crate) fn coordinates_name() -> &'static [u8]
    ensures { result.now ≡ coordinates_name }
{
    b"coordinates".as_slice()
}

#[tactic(auto, unfolding(crate::specs::Kinds::geometries_name))]
pub(crate) fn geometries_name() -> &'static [u8]
    ensures { result.now ≡ geometries_name }
{
    b"geometries".as_slice()
}
