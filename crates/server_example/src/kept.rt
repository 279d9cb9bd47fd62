//! A kept catalogue that is served: what clients are told where the disk fails, and what the disk has at the end.
use crate::replies::print_replies;
use crate::requests::{connection, get, post_collection};
use sc_base::{Seq, Text};
use sc_journal::{Disk, MemDisk, SureDisk};
use sc_kept::{Kept, reopen};
use sc_outside::MemListen;
use sc_server::{KeptServed, keep_all};
use std::alloc::{AllocError, Global};
use std::rt::Runtime;
use std::sync::Wait;
use std::thread::Threads;

/// The call on an empty disk that writes the first load's record; opening makes those before it.
const FIRST_RECORD: u64 = 4;

/// For so many bytes a sure disk has room.
const ROOM: u64 = 1 << 16;

/// Two new collections, and a look at all.
fn requests(alloc: Global) -> Result<String, AllocError> {
    let mut requests = post_collection(alloc, "s1")?;
    requests.push_str(post_collection(alloc, "s2")?.as_str())?;
    requests.push_str(get(alloc, "/collections")?.as_str())?;
    Ok(requests)
}

/// The catalogue that a disk keeps.
fn reopened<D: Disk + Drop>(alloc: Global, disk: D) -> anyhow::Result<Kept<D>> {
    match reopen(alloc, disk) {
        Ok(kept) => Ok(kept),
        Err(_) => anyhow::bail!("the disk isn't opened"),
    }
}

/// Prints how many loads a kept catalogue has, and how many of them are stored.
fn print_stored<R: Runtime<A = Global>, D: Disk>(
    rt: &R,
    when: &str,
    kept: &Kept<D>,
) -> anyhow::Result<()> {
    let stored = kept.stored();
    let loads = kept.catalogue().revision();
    println!(rt; "  {when}: {stored} of {loads} loads are stored")?;
    Ok(())
}

/// A listener of one connection with the requests.
fn listener(alloc: Global) -> Result<MemListen, AllocError> {
    let mut conns = Vec::new(alloc);
    conns.push(connection(alloc, requests(alloc)?.as_str())?)?;
    MemListen::new(alloc, Seq::of(conns), Seq::new(alloc))
}

/// Serves the catalogue of a disk to one connection, and prints its replies. Gives the disk.
fn serve<R: Runtime<A = Global> + Threads + Wait + Sync, D: Disk + Send + Drop>(
    rt: &R,
    disk: D,
) -> anyhow::Result<D> {
    let alloc = rt.alloc();
    let kept = reopened(alloc, disk)?;
    let mut nets = Vec::new(alloc);
    nets.push(listener(alloc)?)?;
    let base = Text::from_str(alloc, "http://h")?;
    let KeptServed { kept, nets, .. } = keep_all(rt, alloc, &base, Seq::of(nets), kept, 1)?;
    for net in nets.into_vec() {
        for (_, sink) in net.into_handed_back().into_vec() {
            print_replies(rt, sink.bytes())?;
        }
    }
    print_stored(rt, "at the end", &kept)?;
    Ok(kept.into_disk())
}

/// The loads that bytes of a disk keep are printed.
fn print_found<R: Runtime<A = Global>>(rt: &R, bytes: &[u8]) -> anyhow::Result<()> {
    let alloc = rt.alloc();
    let mut copy = Vec::with_capacity(alloc, bytes.len())?;
    copy.extend_from_slice(bytes)?;
    let found = reopened(alloc, MemDisk::new(alloc, copy, Vec::new(alloc)))?;
    print_stored(rt, "opened again", &found)
}

/// The first load's record can't be written. The load is told so, stands in the history, and is stored with the next.
pub fn of_a_failing_disk<R: Runtime<A = Global> + Threads + Wait + Sync>(
    rt: &R,
) -> anyhow::Result<()> {
    println!(rt; "A load that the disk doesn't take")?;
    let alloc = rt.alloc();
    let mut failing = Vec::new(alloc);
    failing.push(FIRST_RECORD)?;
    let disk = serve(rt, MemDisk::new(alloc, Vec::new(alloc), failing))?;
    print_found(rt, disk.bytes())
}

/// A disk that never fails has the whole history at the end.
pub fn of_a_sure_disk<R: Runtime<A = Global> + Threads + Wait + Sync>(
    rt: &R,
) -> anyhow::Result<()> {
    println!(rt; "A disk that never fails")?;
    let alloc = rt.alloc();
    let disk = serve(rt, SureDisk::with_room(alloc, Vec::new(alloc), ROOM)?)?;
    print_found(rt, disk.bytes())
}
