//! The clients of a desk, and the time in which they are served.
ghost use Rattle.std.specs.Prelude.{◌≡◌, ◌≤◌, All, vec_len};
ghost use Rattle.std.specs.Vec.Iter.{into_iter_items};
ghost use Rattle.sc_turn.specs.Passes.{card_desk, desk_id};
ghost use Rattle.sc_notice.specs.Cards.{queue_of};

use crate::client::Client;
use sc_base::Text;
use sc_desk::{Card, Catalogue, Desk, DeskPass, make};
use sc_notice::{NoticeCard, NoticePass, Notices, make_notices};
use std::alloc::{AllocError, Global};
use std::env::Args;
use std::rt::Runtime;
use std::sync::Wait;
use std::thread::Threads;
use std::time::Instant;
use std::vec::IntoIter;
use std::{fs, thread};

/// For so many notices the queue has room.
const ROOM: u32 = 1_024;

/// The bytes of all files that the words but the first name.
pub fn read_all<R: Runtime<A = Global>>(
    rt: &R,
    words: Args<Global>,
) -> anyhow::Result<Vec<Vec<u8>>> {
    let mut files = Vec::new(rt.alloc());
    for word in words.skip(1) {
        files.push(fs::read(rt, word.as_str())?)?;
    }
    Ok(files)
}

/// The next pass of a desk, of which as many are asked for as there are cards.
fn next_pass<'d>(
    desk: &'d Desk<Catalogue>,
    cards: &mut IntoIter<Card<Catalogue>>,
) -> Result<DeskPass<'d>, AllocError>
    requires { All (λ card. card_desk card ≡ desk_id desk.now) (into_iter_items cards.old) }
    ensures { All (λ card. card_desk card ≡ desk_id desk.entry.now) (into_iter_items cards.new) }
{
    match cards.next() {
        Some(card) => Ok(DeskPass::of(card.bind(desk))),
        None => Err(AllocError),
    }
}

/// The next pass of a queue of notices, of which as many are asked for as there are cards.
fn next_notice_pass<'n>(
    notices: &'n Notices,
    cards: &mut IntoIter<NoticeCard>,
) -> Result<NoticePass<'n>, AllocError>
    requires { All (λ card. card.of ≡ queue_of notices.now) (into_iter_items cards.old) }
    ensures { All (λ card. card.of ≡ queue_of notices.entry.now) (into_iter_items cards.new) }
{
    match cards.next() {
        Some(card) => Ok(card.bind(notices)),
        None => Err(AllocError),
    }
}

/// A client of the desk for each of the files, by a card of the desk and one of its notices.
fn clients_of<'d, 'n>(
    alloc: Global,
    desk: &'d Desk<Catalogue>,
    cards: Vec<Card<Catalogue>>,
    notices: &'n Notices,
    notice_cards: Vec<NoticeCard>,
    files: Vec<Vec<u8>>,
) -> Result<Vec<Client<'d, 'n>>, AllocError>
    requires cards { All (λ card. card_desk card ≡ desk_id desk.now) cards.items }
    requires notices { All (λ card. card.of ≡ queue_of notices.now) notice_cards.items }
{
    let mut clients = Vec::with_capacity(alloc, files.len())?;
    let mut cards = cards.into_iter();
    let mut notice_cards = notice_cards.into_iter();
    for bytes in files {
        let pass = next_pass(desk, &mut cards)?;
        let telling = next_notice_pass(notices, &mut notice_cards)?;
        clients.push(Client::new(alloc, pass, telling, bytes))?;
    }
    Ok(clients)
}

/// Serves the first client, and then the others at the same time, each in a thread of its own. Gives how many replies of
/// success the others were given, and the nanoseconds that it took.
fn serve_all<'d, 'n, R: Runtime<A = Global> + Threads + Wait + Sync>(
    rt: &R,
    base: &Text,
    mut clients: Vec<Client<'d, 'n>>,
) -> anyhow::Result<(u64, u128)> {
    let alloc = rt.alloc();
    let Some((first, others)) = clients.as_mut_slice().split_first_mut() else {
        anyhow::bail!("there is no client");
    };
    first.serve(rt, alloc, base);
    let threads = others.len().max(1);
    let start = Instant::now(rt)?;
    thread::for_each_mut(
        rt,
        others,
        threads,
        &|_, client| client.serve(rt, alloc, base),
    );
    let time = start.elapsed(rt)?.as_nanos();
    let mut replies: u64 = 0;
    for client in clients.as_slice().iter().skip(1) {
        replies = replies.saturating_add(client.replies());
    }
    Ok((replies, time))
}

/// Serves a connection that brings the first file, and then one for each other file at the same time, at a desk over a new
/// catalogue.
pub fn measure<R: Runtime<A = Global> + Threads + Wait + Sync>(
    rt: &R,
    files: Vec<Vec<u8>>,
) -> anyhow::Result<(u64, u128)>
    requires { (1 ≤ vec_len files) × (vec_len files ≤ 64) }
{
    let alloc = rt.alloc();
    let count = files.len() as u32;
    let base = Text::from_str(alloc, "http://h")?;
    let (notices, notice_cards) = make_notices(alloc, ROOM, count)?;
    match make(alloc, Catalogue::new(alloc)?, count) {
        Ok((desk, cards)) => {
            let clients = clients_of(
                alloc,
                &desk,
                cards.into_vec(),
                &notices,
                notice_cards.into_vec(),
                files,
            )?;
            serve_all(rt, &base, clients)
        }
        Err(_) => anyhow::bail!("no memory"),
    }
}
