//! A search that is answered while another connection loads, each connection in a thread of its own.
use crate::replies::print_replies;
use crate::requests::{connection, get, post_collection};
use crate::seats::{next_notice_pass, next_pass, open_desk, open_notices};
use sc_base::Text;
use sc_desk::DeskPass;
use sc_notice::NoticePass;
use sc_outside::{Gate, MemSink, OpenGate};
use sc_serve::serve_connection;
use std::alloc::{AllocError, Global};
use std::rt::Runtime;
use std::sync::Wait;
use std::sync::atomic::{AtomicU64, Ordering};
use std::thread;
use std::thread::Threads;

/// So often a thread looks for a sign of the other before it gives up. A sign is a word that isn't 0.
const LOOKS: u32 = 1_000_000;

/// Looks for a sign, and lets other threads run between two looks. Answers whether the sign was given.
fn is_given(sign: &AtomicU64) -> bool {
    for _ in 0..LOOKS {
        if sign.load(Ordering::SeqCst) > 0 {
            return true;
        }
        thread::yield_now();
    }
    false
}

/// A gate that holds a search after its snapshot until the other connection's reply is written.
#[derive(Drop)]
struct HoldingGate<'s> {
    searched: &'s AtomicU64,
    loaded: &'s AtomicU64,
    gave_up: bool,
}

impl<'s> Gate for HoldingGate<'s> {
    fn point(&mut self, n: u8) {
        if n == 1 {
            self.searched.store(1, Ordering::SeqCst);
            self.gave_up = !is_given(self.loaded);
        }
    }
}

/// The passes by which a connection is served.
#[derive(Drop)]
struct Passes<'d, 'n> {
    desk: DeskPass<'d>,
    telling: NoticePass<'n>,
}

/// What a connection wrote, and whether it gave up to wait for the other.
#[derive(Drop)]
struct Answered {
    sink: MemSink,
    gave_up: bool,
}

/// Serves the connection that searches, through the gate that holds it.
fn search<'d, 'n, R: Wait>(
    rt: &R,
    alloc: Global,
    base: &Text,
    searched: &AtomicU64,
    loaded: &AtomicU64,
    passes: Passes<'d, 'n>,
) -> Result<Answered, AllocError> {
    let Passes {
        mut desk,
        mut telling,
    } = passes;
    let (mut source, mut sink) = connection(alloc, get(alloc, "/search")?.as_str())?;
    let mut gate = HoldingGate {
        searched,
        loaded,
        gave_up: false,
    };
    let _end = serve_connection(
        rt,
        alloc,
        &mut desk,
        &mut telling,
        base,
        &mut source,
        &mut sink,
        &mut gate,
    );
    Ok(Answered {
        sink,
        gave_up: gate.gave_up,
    })
}

/// Serves the connection that loads, once the other has its snapshot.
fn load<'d, 'n, R: Wait>(
    rt: &R,
    alloc: Global,
    base: &Text,
    searched: &AtomicU64,
    loaded: &AtomicU64,
    passes: Passes<'d, 'n>,
) -> Result<Answered, AllocError> {
    let Passes {
        mut desk,
        mut telling,
    } = passes;
    let (mut source, mut sink) = connection(alloc, post_collection(alloc, "s2")?.as_str())?;
    let gave_up = !is_given(searched);
    let _end = serve_connection(
        rt,
        alloc,
        &mut desk,
        &mut telling,
        base,
        &mut source,
        &mut sink,
        &mut OpenGate,
    );
    loaded.store(1, Ordering::SeqCst);
    Ok(Answered { sink, gave_up })
}

/// Prints the replies of a connection, and whether it gave up to wait.
fn print_answered<R: Runtime<A = Global>>(
    rt: &R,
    what: &str,
    answered: &Answered,
) -> anyhow::Result<()> {
    println!(rt; "  the connection that {what}")?;
    if answered.gave_up {
        println!(rt; "    gave up to wait for the other")?;
    }
    print_replies(rt, answered.sink.bytes())
}

/// Serves both connections at the same time.
fn serve_both<'d, 'n, R: Threads + Wait + Sync>(
    rt: &R,
    alloc: Global,
    base: &Text,
    searched: &AtomicU64,
    loaded: &AtomicU64,
    searching: Passes<'d, 'n>,
    loading: Passes<'d, 'n>,
) -> (Result<Answered, AllocError>, Result<Answered, AllocError>) {
    thread::join(
        rt,
        move || search(rt, alloc, base, searched, loaded, searching),
        move || load(rt, alloc, base, searched, loaded, loading),
    )
}

/// The search is held after its snapshot until the other connection's load was answered. It answers by the older revision then.
/// If it held its turn meanwhile, the load would wait for that, and the search would give up to wait for the load.
pub fn of_a_held_search<R: Runtime<A = Global> + Threads + Wait + Sync>(
    rt: &R,
) -> anyhow::Result<()> {
    println!(rt; "A load is answered between a search's snapshot and its answer")?;
    let alloc = rt.alloc();
    let base = Text::from_str(alloc, "http://h")?;
    let (desk, mut cards) = open_desk(alloc, 2)?;
    let (notices, mut notice_cards) = open_notices(alloc, 1, 2)?;
    let searching = Passes {
        desk: next_pass(&desk, &mut cards)?,
        telling: next_notice_pass(&notices, &mut notice_cards)?,
    };
    let loading = Passes {
        desk: next_pass(&desk, &mut cards)?,
        telling: next_notice_pass(&notices, &mut notice_cards)?,
    };
    let searched = AtomicU64::new(0);
    let loaded = AtomicU64::new(0);
    let (search, load) = serve_both(rt, alloc, &base, &searched, &loaded, searching, loading);
    print_answered(rt, "loads", &load?)?;
    print_answered(rt, "searches", &search?)
}
