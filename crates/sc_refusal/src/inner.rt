ghost use Rattle.std.specs.Prelude.{◌≡◌, ◌++◌, IfOk, OnOk, decimal, string_bytes};
ghost use Rattle.sc_refusal.specs.Refusals as spec;

use sc_base::Text;
use sc_expr::CqlFault;
use sc_geom::GeomFault;
use sc_http::{HeadFault, LengthFault};
use sc_item::ItemFault;
use sc_json::JsonFault;
use sc_sort::SortFault;
use sc_time::TimeFault;
use sc_token::TokenFault;
use std::alloc::{AllocError, Global};

/// Adds a number in decimal to a text.
fn push_number(text: &mut String, number: u64) -> Result<(), AllocError>
    ensures { OnOk result (string_bytes text.new ≡ string_bytes text.old ++ decimal number) }
{
    let mut buffer = itoa::Buffer::new();
    text.push_str(buffer.format(number))
}

/// A number in decimal.
pub fn number_text(alloc: Global, number: u64) -> Result<Text, AllocError>
    ensures { IfOk result (λ text. text ≡ decimal number) }
{
    let mut text = String::new(alloc);
    push_number(&mut text, number)?;
    Ok(Text::from_string(text))
}

/// A name, and a number behind a blank.
pub fn counted(alloc: Global, name: &str, number: u64) -> Result<Text, AllocError>
    ensures { IfOk result (λ about. about ≡ spec.counted name.now number) }
{
    let mut text = String::from_str(alloc, name)?;
    text.push(' ')?;
    push_number(&mut text, number)?;
    Ok(Text::from_string(text))
}

/// What is told of a fault of JSON text.
pub fn json_told(alloc: Global, fault: JsonFault) -> Result<Text, AllocError>
    ensures { IfOk result (λ about. about ≡ spec.json_told fault) }
{
    match fault {
        JsonFault::Syntax { at } => counted(alloc, "Syntax", at),
        JsonFault::Duplicate { at } => counted(alloc, "Duplicate", at),
        JsonFault::TooDeep { at } => counted(alloc, "TooDeep", at),
        JsonFault::NumberTooWide { at } => counted(alloc, "NumberTooWide", at),
        JsonFault::NotUtf8 { at } => counted(alloc, "NotUtf8", at),
        JsonFault::OutOfMemory => Err(AllocError),
    }
}

/// What is told of a fault of a range of time.
pub fn time_told(alloc: Global, fault: TimeFault) -> Result<Text, AllocError>
    ensures { IfOk result (λ about. about ≡ spec.time_told fault) }
{
    match fault {
        TimeFault::BadForm => Text::from_str(alloc, "BadForm"),
        TimeFault::BadDate => Text::from_str(alloc, "BadDate"),
        TimeFault::OutOfRange => Text::from_str(alloc, "OutOfRange"),
        TimeFault::Backwards => Text::from_str(alloc, "Backwards"),
    }
}

/// What is told of a fault of a geometry.
pub fn geometry_told(alloc: Global, fault: GeomFault) -> Result<Text, AllocError>
    ensures { IfOk result (λ about. about ≡ spec.geometry_told fault) }
{
    match fault {
        GeomFault::BadShape => Text::from_str(alloc, "BadShape"),
        GeomFault::OpenRing => Text::from_str(alloc, "OpenRing"),
        GeomFault::OutOfWorld => Text::from_str(alloc, "OutOfWorld"),
        GeomFault::TooManyPositions { count } => counted(alloc, "TooManyPositions", count),
        GeomFault::OutOfMemory => Err(AllocError),
    }
}

/// What is told of a fault of a filter.
pub fn filter_told(alloc: Global, fault: CqlFault) -> Result<Text, AllocError>
    ensures { IfOk result (λ about. about ≡ spec.filter_told fault) }
{
    match fault {
        CqlFault::Syntax { at } => counted(alloc, "Syntax", at),
        CqlFault::TooDeep => Text::from_str(alloc, "TooDeep"),
        CqlFault::TooManyNodes => Text::from_str(alloc, "TooManyNodes"),
        CqlFault::BadLiteral { at } => counted(alloc, "BadLiteral", at),
        CqlFault::OutOfMemory => Err(AllocError),
    }
}

/// What is told of a fault of a sort.
pub fn sort_told(alloc: Global, fault: SortFault) -> Result<Text, AllocError>
    ensures { IfOk result (λ about. about ≡ spec.sort_told fault) }
{
    match fault {
        SortFault::BadField => Text::from_str(alloc, "BadField"),
        SortFault::BadDirection => Text::from_str(alloc, "BadDirection"),
        SortFault::TooManyKeys { count } => counted(alloc, "TooManyKeys", count),
        SortFault::OutOfMemory => Err(AllocError),
    }
}

/// What is told of a fault of a token.
pub fn token_told(alloc: Global, fault: TokenFault) -> Result<Text, AllocError>
    ensures { IfOk result (λ about. about ≡ spec.token_told fault) }
{
    match fault {
        TokenFault::NotHex => Text::from_str(alloc, "NotHex"),
        TokenFault::NotAList => Text::from_str(alloc, "NotAList"),
        TokenFault::WrongCount { count } => counted(alloc, "WrongCount", count),
        TokenFault::WrongKind => Text::from_str(alloc, "WrongKind"),
        TokenFault::OutOfMemory => Err(AllocError),
    }
}

/// What is told of a fault of an item.
pub fn item_told(alloc: Global, fault: ItemFault) -> Result<Text, AllocError>
    ensures { IfOk result (λ about. about ≡ spec.item_told fault) }
{
    match fault {
        ItemFault::NotAFeature => Text::from_str(alloc, "NotAFeature"),
        ItemFault::BadId => Text::from_str(alloc, "BadId"),
        ItemFault::WrongCollection => Text::from_str(alloc, "WrongCollection"),
        ItemFault::BadTime => Text::from_str(alloc, "BadTime"),
        ItemFault::BadGeometry { .. } => Text::from_str(alloc, "BadGeometry"),
        ItemFault::OutOfMemory => Err(AllocError),
    }
}

/// What is told of a fault of a head.
pub fn head_told(alloc: Global, fault: HeadFault) -> Result<Text, AllocError>
    ensures { IfOk result (λ about. about ≡ spec.head_told fault) }
{
    match fault {
        HeadFault::Malformed => Text::from_str(alloc, "Malformed"),
        HeadFault::TooLarge => Text::from_str(alloc, "TooLarge"),
    }
}

/// What is told of a fault of a body's length.
pub fn length_told(alloc: Global, fault: LengthFault) -> Result<Text, AllocError>
    ensures { IfOk result (λ about. about ≡ spec.length_told fault) }
{
    match fault {
        LengthFault::Coded => Text::from_str(alloc, "Coded"),
        LengthFault::Unreadable => Text::from_str(alloc, "Unreadable"),
        LengthFault::TooLong => Text::from_str(alloc, "TooLong"),
    }
}
