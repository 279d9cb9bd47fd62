//! What a connection wrote, for a reader.
use std::alloc::Global;
use std::rt::Runtime;
use std::str;

/// Prints the replies that were written: of each its status, its header fields but those of the body's type and length, and its
/// body.
pub fn print_replies<R: Runtime<A = Global>>(rt: &R, written: &[u8]) -> anyhow::Result<()> {
    let text = str::from_utf8(written)?;
    for reply in text.split("HTTP/1.1 ").skip(1) {
        for line in reply.split("\r\n") {
            if !line.is_empty() && !line.starts_with("Content-") {
                println!(rt; "    {line}")?;
            }
        }
    }
    Ok(())
}
