//! One connection with several requests.
use crate::loads::scene;
use crate::replies::print_replies;
use crate::requests::{connection, get, post, post_collection};
use crate::seats::{next_notice_pass, next_pass, open_desk, open_notices};
use sc_base::Text;
use sc_outside::OpenGate;
use sc_serve::serve_connection;
use std::alloc::{AllocError, Global};
use std::rt::Runtime;
use std::sync::Wait;

/// A new collection, an item of it, and a search.
fn requests(alloc: Global) -> Result<String, AllocError> {
    let scene = scene(alloc, "a", "2024-01-10T00:00:00Z", 1)?;
    let mut requests = post_collection(alloc, "s2")?;
    requests.push_str(post(alloc, "/collections/s2/items", scene.as_str())?.as_str())?;
    requests.push_str(get(alloc, "/search")?.as_str())?;
    Ok(requests)
}

/// Each reply of a connection has the revision of what the connection has loaded so far, and the search finds the item.
pub fn of_three_requests<R: Runtime<A = Global> + Wait>(rt: &R) -> anyhow::Result<()> {
    println!(rt; "Three requests on one connection")?;
    let alloc = rt.alloc();
    let (desk, mut cards) = open_desk(alloc, 1)?;
    let (notices, mut notice_cards) = open_notices(alloc, 1, 1)?;
    let mut pass = next_pass(&desk, &mut cards)?;
    let mut telling = next_notice_pass(&notices, &mut notice_cards)?;
    let (mut source, mut sink) = connection(alloc, requests(alloc)?.as_str())?;
    let end = serve_connection(
        rt,
        alloc,
        &mut pass,
        &mut telling,
        &Text::from_str(alloc, "http://h")?,
        &mut source,
        &mut sink,
        &mut OpenGate,
    );
    print_replies(rt, sink.bytes())?;
    println!(rt; "  the end: {end:?}")?;
    Ok(())
}
