use crate::faults::filter_fault;
use sc_cqljson::read_tree;
use sc_cqltext::{CqlFault, SpellFault, read_text, write_text};
use sc_cqltree::write_tree;
use sc_expr::Filter;
use sc_json::{push_json, push_quoted, read_json};
use std::alloc::{AllocError, Global};

/// Adds a filter's tree of CQL2 JSON, without white space.
pub fn push_filter(out: &mut String, alloc: Global, filter: &Filter) -> Result<(), AllocError> {
    push_json(out, &write_tree(alloc, filter)?)
}

/// A filter's tree, and the filter as text.
fn filter_text(alloc: Global, filter: &Filter) -> Result<String, AllocError> {
    let mut out = String::from_str(alloc, "ok ")?;
    push_filter(&mut out, alloc, filter)?;
    out.push_str("\t")?;
    match write_text(alloc, filter) {
        Ok(text) => push_quoted(&mut out, text.as_str())?,
        Err(SpellFault::NoSpelling) => out.push_str("NoSpelling")?,
        Err(SpellFault::OutOfMemory) => return Err(AllocError),
    }
    Ok(out)
}

fn answer(alloc: Global, read: Result<Filter, CqlFault>) -> Result<String, AllocError> {
    match read {
        Ok(filter) => filter_text(alloc, &filter),
        Err(error) => {
            let fault = filter_fault(alloc, error)?;
            format!(in alloc; "fault {fault}")
        }
    }
}

/// `cql-text`: a filter of CQL2 text, shown as a tree and written as text.
pub fn cql_text(alloc: Global, input: &[u8]) -> Result<String, AllocError> {
    answer(alloc, read_text(alloc, input))
}

/// `cql-tree`: a filter of CQL2 JSON, shown as a tree and written as text.
pub fn cql_tree(alloc: Global, input: &[u8]) -> Result<String, AllocError> {
    match read_json(alloc, input) {
        Ok(tree) => answer(alloc, read_tree(alloc, &tree)),
        Err(_) => String::from_str(alloc, "fault Json"),
    }
}
