use crate::faults::query_fault;
use crate::filters::push_filter;
use crate::geometries::{push_geometry, push_rects};
use crate::keys::push_keys;
use crate::lists::push_comma;
use form_urlencoded::parse;
use sc_expr::{Instant, Pair, Query, Range, Select, Seq, Text};
use sc_json::{push_quoted, read_json};
use sc_query::{QueryFault, of_get, of_post};
use sc_sort::Key;
use std::alloc::{AllocError, Global};

const NONE: &str = "null";

fn push_names(out: &mut String, names: &Option<Seq<Text>>) -> Result<(), AllocError> {
    let Some(names) = names else {
        return out.push_str(NONE);
    };
    out.push_str("[")?;
    for name in names.as_slice() {
        push_comma(out)?;
        push_quoted(out, name.as_str())?;
    }
    out.push_str("]")
}

fn end_text(alloc: Global, end: Option<Instant>) -> Result<String, AllocError> {
    match end {
        None => String::from_str(alloc, NONE),
        Some(at) => {
            let moment = at.nanoseconds();
            format!(in alloc; "{moment}")
        }
    }
}

fn push_time(out: &mut String, alloc: Global, time: &Option<Range>) -> Result<(), AllocError> {
    let Some(range) = time else {
        return out.push_str(NONE);
    };
    let from = end_text(alloc, range.from())?;
    let to = end_text(alloc, range.to())?;
    let text = format!(in alloc; "[{from},{to}]")?;
    out.push_str(text.as_str())
}

fn push_places(out: &mut String, alloc: Global, select: &Select) -> Result<(), AllocError> {
    out.push_str(",\"rects\":")?;
    match &select.rects {
        None => out.push_str(NONE)?,
        Some(rects) => push_rects(out, alloc, rects)?,
    }
    out.push_str(",\"shape\":")?;
    match &select.shape {
        None => out.push_str(NONE),
        Some(shape) => push_geometry(out, alloc, shape),
    }
}

fn push_select(out: &mut String, alloc: Global, select: &Select) -> Result<(), AllocError> {
    out.push_str("{\"collections\":")?;
    push_names(out, &select.collections)?;
    out.push_str(",\"ids\":")?;
    push_names(out, &select.ids)?;
    out.push_str(",\"time\":")?;
    push_time(out, alloc, &select.time)?;
    push_places(out, alloc, select)?;
    out.push_str(",\"filter\":")?;
    match &select.filter {
        None => out.push_str(NONE),
        Some(filter) => push_filter(out, alloc, filter),
    }
}

fn push_sort(out: &mut String, keys: &[Key]) -> Result<(), AllocError> {
    out.push_str(",\"sort\":[")?;
    for key in keys {
        push_comma(out)?;
        out.push_str("{\"field\":")?;
        push_quoted(out, key.name.as_str())?;
        out.push_str(",\"direction\":")?;
        out.push_str(if key.down { "\"desc\"}" } else { "\"asc\"}" })?;
    }
    out.push_str("]")
}

fn push_end(out: &mut String, alloc: Global, query: &Query) -> Result<(), AllocError> {
    let limit = query.limit();
    let text = format!(in alloc; ",\"limit\":{limit},\"after\":")?;
    out.push_str(text.as_str())?;
    match query.after() {
        None => out.push_str(NONE)?,
        Some(keys) => push_keys(out, alloc, keys)?,
    }
    out.push_str("}")
}

fn query_text(alloc: Global, query: &Query) -> Result<String, AllocError> {
    let mut out = String::from_str(alloc, "ok ")?;
    push_select(&mut out, alloc, query.select())?;
    push_sort(&mut out, query.sort().keys())?;
    push_end(&mut out, alloc, query)?;
    Ok(out)
}

fn answer_text(alloc: Global, read: Result<Query, QueryFault>) -> Result<String, AllocError> {
    match read {
        Ok(query) => query_text(alloc, &query),
        Err(error) => {
            let fault = query_fault(alloc, error)?;
            format!(in alloc; "fault {fault}")
        }
    }
}

fn pair_of(alloc: Global, name: &str, value: &str) -> Result<Pair, AllocError> {
    let name = Text::from_str(alloc, name)?;
    let value = Text::from_str(alloc, value)?;
    Ok(Pair { name, value })
}

/// The pairs of a query string, decoded.
fn pairs_of(alloc: Global, input: &[u8]) -> Result<Vec<Pair>, AllocError> {
    let mut pairs = Vec::new(alloc);
    for item in parse(alloc, input) {
        let (name, value) = item?;
        pairs.push(pair_of(alloc, name.as_str(), value.as_str())?)?;
    }
    Ok(pairs)
}

/// `query-get`: what a query string asks for.
pub fn query_get(alloc: Global, input: &[u8]) -> Result<Option<String>, AllocError> {
    if str::from_utf8(input).is_err() {
        return Ok(None);
    }
    let pairs = pairs_of(alloc, input)?;
    let text = answer_text(alloc, of_get(alloc, pairs.as_slice()))?;
    Ok(Some(text))
}

/// `query-post`: what a search's body asks for.
pub fn query_post(alloc: Global, input: &[u8]) -> Result<String, AllocError> {
    match read_json(alloc, input) {
        Ok(tree) => answer_text(alloc, of_post(alloc, &tree)),
        Err(_) => String::from_str(alloc, "fault Json"),
    }
}
