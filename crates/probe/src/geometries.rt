use sc_base::first_part;
use sc_cross::meets;
use sc_decimal::Dec;
use sc_geom::{Geom, GeomFault, GridBox, Pt, Seq, box_of, geom_of_json, rects_of_bbox};
use sc_json::read_json;
use sc_wkt::{WktFault, geom_of_wkt};
use std::alloc::{AllocError, Global};

/// The most positions that are read.
const MOST: u32 = 10_000;

fn push_position(out: &mut String, alloc: Global, position: &Pt) -> Result<(), AllocError> {
    let (x, y) = (position.x, position.y);
    let text = format!(in alloc; "[{x},{y}]")?;
    out.push_str(text.as_str())
}

fn push_path(out: &mut String, alloc: Global, path: &[Pt]) -> Result<(), AllocError> {
    out.push_str("[")?;
    for (at, position) in path.iter().enumerate() {
        if at > 0 {
            out.push_str(",")?;
        }
        push_position(out, alloc, position)?;
    }
    out.push_str("]")
}

fn push_paths(out: &mut String, alloc: Global, paths: &[Seq<Pt>]) -> Result<(), AllocError> {
    out.push_str("[")?;
    for (at, path) in paths.iter().enumerate() {
        if at > 0 {
            out.push_str(",")?;
        }
        push_path(out, alloc, path.as_slice())?;
    }
    out.push_str("]")
}

/// A geometry's points, lines and areas in steps of the grid.
pub fn push_geometry(out: &mut String, alloc: Global, geometry: &Geom) -> Result<(), AllocError> {
    out.push_str("{\"points\":")?;
    push_path(out, alloc, geometry.points())?;
    out.push_str(",\"lines\":")?;
    push_paths(out, alloc, geometry.lines())?;
    out.push_str(",\"areas\":[")?;
    for (at, area) in geometry.areas().iter().enumerate() {
        if at > 0 {
            out.push_str(",")?;
        }
        push_paths(out, alloc, area.as_slice())?;
    }
    out.push_str("]}")
}

fn box_text(alloc: Global, sides: &GridBox) -> Result<String, AllocError> {
    let (west, south, east, north) = (sides.west(), sides.south(), sides.east(), sides.north());
    format!(in alloc; "{west},{south},{east},{north}")
}

fn fault(alloc: Global, fault: GeomFault) -> Result<String, AllocError> {
    match fault {
        GeomFault::BadShape => String::from_str(alloc, "fault BadShape"),
        GeomFault::OpenRing => String::from_str(alloc, "fault OpenRing"),
        GeomFault::OutOfWorld => String::from_str(alloc, "fault OutOfWorld"),
        GeomFault::TooManyPositions { count } => {
            format!(in alloc; "fault TooManyPositions {count}")
        }
        GeomFault::OutOfMemory => String::from_str(alloc, "fault OutOfMemory"),
    }
}

/// `geojson`: a geometry of at most 10,000 positions, and its smallest box.
pub fn geojson(alloc: Global, input: &[u8]) -> Result<String, AllocError> {
    let Ok(tree) = read_json(alloc, input) else {
        return String::from_str(alloc, "fault Json");
    };
    match geom_of_json(alloc, &tree, MOST) {
        Ok(geometry) => {
            let mut text = String::from_str(alloc, "ok ")?;
            push_geometry(&mut text, alloc, &geometry)?;
            let sides = box_text(alloc, &box_of(&geometry))?;
            text.push_str(" ")?;
            text.push_str(sides.as_str())?;
            Ok(text)
        }
        Err(found) => fault(alloc, found),
    }
}

/// `wkt`: the geometry of at most 1,000 positions at the front, and how many bytes it takes.
pub fn wkt(alloc: Global, input: &[u8]) -> Result<String, AllocError> {
    match geom_of_wkt(alloc, input, 1_000) {
        Ok((geometry, taken)) => {
            let mut text = format!(in alloc; "ok {taken} ")?;
            push_geometry(&mut text, alloc, &geometry)?;
            Ok(text)
        }
        Err(WktFault::Syntax { at }) => format!(in alloc; "fault Syntax {at}"),
        Err(WktFault::BadLiteral { at }) => format!(in alloc; "fault BadLiteral {at}"),
        Err(WktFault::OutOfMemory) => String::from_str(alloc, "fault OutOfMemory"),
    }
}

/// The numbers between the commas; none where one isn't a number.
fn numbers(alloc: Global, input: &[u8]) -> Result<Option<Vec<Dec>>, AllocError> {
    let mut numbers = Vec::new(alloc);
    let mut left = Some(input);
    for _ in 0..=input.len() {
        let Some(bytes) = left else {
            break;
        };
        let (part, rest) = first_part(b',', bytes);
        let Ok(number) = Dec::read(part) else {
            return Ok(None);
        };
        numbers.push(number)?;
        left = rest;
    }
    Ok(Some(numbers))
}

/// `bbox`: the rectangles of the numbers of a bounding box.
pub fn bbox(alloc: Global, input: &[u8]) -> Result<Option<String>, AllocError> {
    let Some(numbers) = numbers(alloc, input)? else {
        return Ok(None);
    };
    let Some(rects) = rects_of_bbox(numbers.as_slice()) else {
        return Ok(Some(String::from_str(alloc, "none")?));
    };
    let first = box_text(alloc, &rects.first)?;
    match rects.second {
        None => Ok(Some(format!(in alloc; "ok {first}")?)),
        Some(second) => {
            let second = box_text(alloc, &second)?;
            Ok(Some(format!(in alloc; "ok {first} {second}")?))
        }
    }
}

/// The geometry of a text; none where it has none.
fn geometry_of(alloc: Global, text: &[u8]) -> Option<Geom> {
    let tree = read_json(alloc, text).ok()?;
    geom_of_json(alloc, &tree, MOST).ok()
}

/// `meets`: whether the geometries of two lines meet.
pub fn meeting(alloc: Global, input: &[u8]) -> Result<Option<String>, AllocError> {
    let (first, rest) = first_part(b'\n', input);
    let Some(second) = rest else {
        return Ok(None);
    };
    let Some(a) = geometry_of(alloc, first) else {
        return Ok(None);
    };
    let Some(b) = geometry_of(alloc, second) else {
        return Ok(None);
    };
    let meet = meets(&a, &b);
    Ok(Some(format!(in alloc; "{meet}")?))
}
