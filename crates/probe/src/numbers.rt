use sc_decimal::{Dec, NumFault};
use std::alloc::{AllocError, Global};
use std::cmp::Ordering;

/// A number's canonical literal.
pub fn literal(alloc: Global, number: &Dec) -> Result<String, AllocError> {
    let mut bytes = Vec::new(alloc);
    number.push_literal(&mut bytes)?;
    String::from_utf8_lossy(alloc, bytes.as_slice())
}

/// `dec`: a number's text, read and put on the grid.
pub fn dec(alloc: Global, input: &[u8]) -> Result<String, AllocError> {
    match Dec::read(input) {
        Err(NumFault::NotANumber) => String::from_str(alloc, "fault NotANumber"),
        Err(NumFault::NumberTooWide) => String::from_str(alloc, "fault NumberTooWide"),
        Ok(number) => {
            let literal = literal(alloc, &number)?;
            match number.to_grid() {
                None => format!(in alloc; "ok {literal} none"),
                Some(grid) => format!(in alloc; "ok {literal} {grid}"),
            }
        }
    }
}

/// `dec-order`: two numbers with a blank between them, compared.
pub fn dec_order(alloc: Global, input: &[u8]) -> Result<Option<String>, AllocError> {
    let Some(blank) = input.iter().position(|byte| *byte == b' ') else {
        return Ok(None);
    };
    let (left, rest) = input.split_at(blank);
    let Some((_, right)) = rest.split_first() else {
        return Ok(None);
    };
    let (Ok(left), Ok(right)) = (Dec::read(left), Dec::read(right)) else {
        return Ok(None);
    };
    let word = match left.compare(&right) {
        Ordering::Less => "less",
        Ordering::Equal => "equal",
        Ordering::Greater => "greater",
    };
    Ok(Some(String::from_str(alloc, word)?))
}
