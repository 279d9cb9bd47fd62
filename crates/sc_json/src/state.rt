use crate::buffer::Buffer;
use crate::members::Members;
use crate::tree::Json;
use sc_base::{Seq, Stack, Text};

/// How much of `true`, `false` or `null` came.
#[derive(Clone, Copy)]
pub enum Letters {
    T,
    Tr,
    Tru,
    F,
    Fa,
    Fal,
    Fals,
    N,
    Nu,
    Nul,
}

/// Which part of a number came last.
#[derive(Clone, Copy)]
pub enum Part {
    Minus,
    Zero,
    Whole,
    Point,
    Fraction,
    Mark,
    Sign,
    Power,
}

/// Where in a text in quotes: in whole characters, or so far in an escape.
#[derive(Clone, Copy)]
pub enum Piece {
    Plain,
    /// A backslash.
    Slash,
    /// `\u`, and then one to three digits.
    Unit,
    Unit1(u8),
    Unit2(u16),
    Unit3(u32),
    /// The escape of a high half, then the begin of the low half's.
    Pair(u16),
    PairSlash(u16),
    Low(u16),
    Low1(u16),
    Low2 { high: u16, low: u8 },
    Low3 { high: u16, low: u16 },
}

/// What is open round a place.
#[derive(Drop)]
pub enum Frame {
    /// A list, with the elements so far.
    List(Seq<Json>),
    /// An object before a name, with the members so far.
    Object(Members),
    /// An object at the value of a name.
    Member(Members, Text),
}

/// What may come next.
#[derive(Drop)]
pub enum Mode {
    /// A value.
    Value,
    /// A value or the list's end.
    First,
    /// A name or the object's end.
    FirstName,
    /// A name.
    Name,
    /// The colon behind a name.
    Colon,
    /// The rest of a word.
    Word(Letters),
    /// More of a number, or what follows it.
    Number {
        part: Part,
        literal: Buffer,
        from: u64,
    },
    /// More of a text.
    Quoted {
        is_name: bool,
        piece: Piece,
        bytes: Buffer,
        from: u64,
    },
    /// What follows a value.
    After(Json),
}

/// A reader in the midst of a text.
#[derive(Drop)]
pub struct State {
    pub stack: Stack<Frame>,
    pub mode: Mode,
}
