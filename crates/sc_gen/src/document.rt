ghost use Rattle.std.specs.Prelude.{◌≡◌, ◌+◌, ◌++◌, ◌∷◌, [], ◌<◌, IfOk, OnOk, string_bytes};
ghost use Rattle.sc_gen.specs.Document as spec;
ghost use Rattle.sc_gen.specs.Generated.{IsDocument};

use crate::draw::Draw;
use crate::parts::{
    collection_part, cover_part, end_part, geometry_part, id_part, properties_part,
};
use itoa::Buffer;
use sc_base::Text;
use sc_degrees::push_degrees;
use sc_time::write_instant;
use std::alloc::{AllocError, Global};

/// Room for the longest document.
const ROOM: usize = 256;

/// The collection of a load.
pub(crate) fn collection_of(alloc: Global, load: u32) -> Result<Text, AllocError>
    ensures { IfOk result (λ text. text ≡ spec.collection_of load) }
{
    let mut buffer = Buffer::new();
    let mut text = String::from_str(alloc, "g")?;
    text.push_str(buffer.format(load % 4))?;
    Ok(Text::from_string(text))
}

/// Adds the id of an item of a load.
fn push_id(out: &mut String, load: u32, number: u32) -> Result<(), AllocError>
    ensures { OnOk result (string_bytes out.new ≡ string_bytes out.old ++ spec.id_of load number) }
{
    let mut buffer = Buffer::new();
    out.push_str(buffer.format(load))?;
    out.push('-')?;
    out.push_str(buffer.format(number))
}

/// Adds a digit.
fn push_digit(out: &mut String, digit: u32) -> Result<(), AllocError>
    requires { digit < 10 }
    ensures { OnOk result (string_bytes out.new ≡ string_bytes out.old ++ (48 + digit) ∷ []) }
{
    out.push((b'0' + digit as u8) as char)
}

/// Adds hundredths as a number with two decimals.
fn push_decimals(out: &mut String, hundredths: u32) -> Result<(), AllocError>
    ensures { OnOk result (string_bytes out.new ≡ string_bytes out.old ++ spec.decimals_text hundredths) }
{
    let mut buffer = Buffer::new();
    out.push_str(buffer.format(hundredths / 100))?;
    out.push('.')?;
    push_digit(out, hundredths / 10 % 10)?;
    push_digit(out, hundredths % 10)
}

fn push_names(out: &mut String, collection: &Text, load: u32, number: u32) -> Result<(), AllocError>
    ensures { OnOk result (string_bytes out.new ≡ string_bytes out.old ++ spec.names_text collection.now load number) }
{
    out.push_str(collection_part())?;
    out.push_str(collection.as_str())?;
    out.push_str(id_part())?;
    push_id(out, load, number)
}

fn push_point(out: &mut String, draw: &Draw) -> Result<(), AllocError>
    ensures { OnOk result (string_bytes out.new ≡ string_bytes out.old ++ spec.point_text draw.now) }
{
    out.push_str(geometry_part())?;
    push_degrees(out, draw.longitude())?;
    out.push(',')?;
    push_degrees(out, draw.latitude())
}

fn push_properties(out: &mut String, draw: &Draw, moment: &Text) -> Result<(), AllocError>
    ensures { OnOk result (string_bytes out.new ≡ string_bytes out.old ++ spec.properties_text draw.now moment.now) }
{
    out.push_str(properties_part())?;
    out.push_str(moment.as_str())?;
    out.push_str(cover_part())?;
    push_decimals(out, draw.hundredths())?;
    out.push_str(end_part())
}

/// The document of an item of a load.
#[tactic(auto, unfolding(crate::specs::Document::document_text))]
pub(crate) fn document_of(
    alloc: Global,
    collection: &Text,
    load: u32,
    number: u32,
    draw: &Draw,
) -> Result<String, AllocError>
    ensures { IfOk result (λ text. IsDocument collection.now load number draw.now (string_bytes text)) }
{
    let moment = write_instant(alloc, draw.moment())?;
    let mut out = String::with_capacity(alloc, ROOM)?;
    push_names(&mut out, collection, load, number)?;
    push_point(&mut out, draw)?;
    push_properties(&mut out, draw, &moment)?;
    Ok(out)
}
