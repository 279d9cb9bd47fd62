//! A queue of notices that is full.
use crate::seats::{next_notice_pass, open_notices};
use crate::words::{month, name_text};
use sc_notice::{Notice, NoticePass, hear, tell};
use std::alloc::{AllocError, Global};
use std::rt::Runtime;
use std::sync::Wait;

/// The part that a notice is of, or that it says to stop; none where there is no notice.
fn notice_text(alloc: Global, notice: &Option<Notice>) -> Result<String, AllocError> {
    match notice {
        Some(Notice::Part(name)) => name_text(alloc, name),
        Some(Notice::Stop) => String::from_str(alloc, "stop"),
        None => String::from_str(alloc, "none"),
    }
}

/// Tells of a month's part, and prints what was handed back.
fn print_tell<'n, R: Runtime<A = Global> + Wait>(
    rt: &R,
    pass: &mut NoticePass<'n>,
    key: i32,
) -> anyhow::Result<()> {
    let name = month(rt.alloc(), key)?;
    let back = notice_text(rt.alloc(), &tell(rt, pass, Notice::Part(name)))?;
    println!(rt; "  tell of month {key}, handed back: {back}")?;
    Ok(())
}

/// Hears, and prints what was heard.
fn print_hear<'n, R: Runtime<A = Global> + Wait>(
    rt: &R,
    pass: &mut NoticePass<'n>,
) -> anyhow::Result<()> {
    let heard = notice_text(rt.alloc(), &hear(rt, pass))?;
    println!(rt; "  heard: {heard}")?;
    Ok(())
}

/// A queue with room for one notice hands the second back until the first was heard.
pub fn of_a_full_queue<R: Runtime<A = Global> + Wait>(rt: &R) -> anyhow::Result<()> {
    println!(rt; "A queue with room for one notice")?;
    let (notices, mut cards) = open_notices(rt.alloc(), 1, 1)?;
    let mut pass = next_notice_pass(&notices, &mut cards)?;
    print_tell(rt, &mut pass, 24_288)?;
    print_tell(rt, &mut pass, 24_289)?;
    print_hear(rt, &mut pass)?;
    print_hear(rt, &mut pass)?;
    print_tell(rt, &mut pass, 24_289)?;
    print_hear(rt, &mut pass)
}
