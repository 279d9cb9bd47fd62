use std::alloc::AllocError;

/// Adds a comma, unless a list was just begun.
pub fn push_comma(out: &mut String) -> Result<(), AllocError> {
    match out.as_str().as_bytes().last() {
        Some(b'[') => Ok(()),
        _ => out.push_str(","),
    }
}
