ghost use Rattle.std.specs.Prelude.{◌≡◌, [], ◌∷◌, ◌++◌, None, Some, Ok, true, false, OnOk};
ghost use Rattle.sc_json.specs.Machine as m;
ghost use Rattle.sc_json.specs.declared.tree.Member.{out-Member};

use crate::buffer::Buffer;
use crate::fault::StepFault;
use crate::hex::push_scalar;
use crate::members::Members;
use crate::number::{behind_whole, is_whole, part_on};
use crate::quoted::{Added, Grown, grow};
use crate::state::{Frame, Letters, Mode, Part, Piece, State};
use crate::tree::{Json, Member, Num};
use sc_base::{Seq, Stack, Text};
use sc_decimal::{Dec, NumFault};
use std::alloc::Global;
use std::mem;

pub(crate) fn is_blank(byte: u8) -> bool
    ensures { result ≡ m.is_blank_byte byte }
{
    byte == 32 || byte == 9 || byte == 10 || byte == 13
}

/// A list or an object begins.
fn nest(stack: &mut Stack<Frame>, frame: Frame, mode: Mode, place: u64) -> Result<Mode, StepFault>
    ensures { m.Turns result stack.new (m.nested stack.old frame mode place) }
{
    if stack.len() >= 64 {
        return Err(StepFault::TooDeep { at: place });
    }
    stack.push(frame)?;
    Ok(mode)
}

fn quote(alloc: Global, is_name: bool, place: u64) -> Mode
    ensures { result ≡ Mode.Quoted is_name Piece.Plain [] place }
{
    Mode::Quoted {
        is_name,
        piece: Piece::Plain,
        bytes: Buffer::new(alloc),
        from: place,
    }
}

fn number(alloc: Global, part: Part, byte: u8, place: u64) -> Result<Mode, StepFault>
    ensures { m.Gives result (Some (Mode.Number part (byte ∷ []) place)) None }
{
    let mut literal = Buffer::for_number(alloc)?;
    literal.push(byte)?;
    Ok(Mode::Number {
        part,
        literal,
        from: place,
    })
}

/// The first byte of a number or a word.
fn scalar(alloc: Global, stack: &mut Stack<Frame>, place: u64, byte: u8) -> Result<Mode, StepFault>
    ensures { m.Turns result stack.new (m.plain (m.scalar_of stack.old place byte)) }
{
    if byte == b'-' {
        return number(alloc, Part::Minus, byte, place);
    }
    if byte == b'0' {
        return number(alloc, Part::Zero, byte, place);
    }
    if 49 <= byte && byte <= 57 {
        return number(alloc, Part::Whole, byte, place);
    }
    if byte == b't' {
        return Ok(Mode::Word(Letters::T));
    }
    if byte == b'f' {
        return Ok(Mode::Word(Letters::F));
    }
    if byte == b'n' {
        return Ok(Mode::Word(Letters::N));
    }
    Err(StepFault::Refused)
}

/// White space, or the first byte of a value.
fn begin(alloc: Global, stack: &mut Stack<Frame>, place: u64, byte: u8) -> Result<Mode, StepFault>
    ensures { m.Turns result stack.new (m.begin_of stack.old place byte) }
{
    if is_blank(byte) {
        return Ok(Mode::Value);
    }
    if byte == b'"' {
        return Ok(quote(alloc, false, place));
    }
    if byte == b'[' {
        return nest(stack, Frame::List(Seq::new(alloc)), Mode::First, place);
    }
    if byte == b'{' {
        let frame = Frame::Object(Members::new(alloc));
        return nest(stack, frame, Mode::FirstName, place);
    }
    scalar(alloc, stack, place, byte)
}

/// The innermost list, which has no element, ends.
fn close_list(stack: &mut Stack<Frame>) -> Result<Mode, StepFault>
    ensures { m.Turns result stack.new (m.plain (m.close_list_of stack.old)) }
{
    match stack.pop() {
        Some(Frame::List(elements)) => Ok(Mode::After(Json::List(elements))),
        _ => Err(StepFault::Refused),
    }
}

fn close_object(stack: &mut Stack<Frame>) -> Result<Mode, StepFault>
    ensures { m.Turns result stack.new (m.plain (m.close_object_of stack.old)) }
{
    match stack.pop() {
        Some(Frame::Object(members)) => Ok(Mode::After(Json::Object(members.into_seq()))),
        _ => Err(StepFault::Refused),
    }
}

fn first(alloc: Global, stack: &mut Stack<Frame>, place: u64, byte: u8) -> Result<Mode, StepFault>
    ensures { m.Turns result stack.new (m.first_of stack.old place byte) }
{
    if is_blank(byte) {
        return Ok(Mode::First);
    }
    if byte == b']' {
        return close_list(stack);
    }
    begin(alloc, stack, place, byte)
}

fn name(alloc: Global, stack: &mut Stack<Frame>, place: u64, byte: u8) -> Result<Mode, StepFault>
    ensures { m.Turns result stack.new (m.plain (m.name_of stack.old place byte)) }
{
    if is_blank(byte) {
        return Ok(Mode::Name);
    }
    if byte == b'"' {
        return Ok(quote(alloc, true, place));
    }
    Err(StepFault::Refused)
}

fn first_name(
    alloc: Global,
    stack: &mut Stack<Frame>,
    place: u64,
    byte: u8,
) -> Result<Mode, StepFault>
    ensures { m.Turns result stack.new (m.plain (m.first_name_of stack.old place byte)) }
{
    if is_blank(byte) {
        return Ok(Mode::FirstName);
    }
    if byte == b'}' {
        return close_object(stack);
    }
    name(alloc, stack, place, byte)
}

fn colon(stack: &mut Stack<Frame>, byte: u8) -> Result<Mode, StepFault>
    ensures { m.Turns result stack.new (m.plain (m.colon_of stack.old byte)) }
{
    if is_blank(byte) {
        return Ok(Mode::Colon);
    }
    if byte == b':' {
        return Ok(Mode::Value);
    }
    Err(StepFault::Refused)
}

/// A value is over: an element or a member's value, or the whole text.
fn after_element(
    stack: &mut Stack<Frame>,
    mut elements: Seq<Json>,
    value: Json,
    byte: u8,
) -> Result<Mode, StepFault>
    ensures { m.Turns result stack.new (m.plain (m.element_of stack.old elements value byte)) }
{
    if byte == b',' {
        elements.push(value)?;
        stack.push(Frame::List(elements))?;
        return Ok(Mode::Value);
    }
    if byte == b']' {
        elements.push(value)?;
        return Ok(Mode::After(Json::List(elements)));
    }
    Err(StepFault::Refused)
}

fn after_member(
    alloc: Global,
    stack: &mut Stack<Frame>,
    mut members: Members,
    member: Member,
    byte: u8,
) -> Result<Mode, StepFault>
    ensures { m.Turns result stack.new (m.plain (m.member_of stack.old members (out-Member member).name (out-Member member).value byte)) }
{
    if byte == b',' {
        members.push(alloc, member)?;
        stack.push(Frame::Object(members))?;
        return Ok(Mode::Name);
    }
    if byte == b'}' {
        members.push(alloc, member)?;
        return Ok(Mode::After(Json::Object(members.into_seq())));
    }
    Err(StepFault::Refused)
}

fn after(alloc: Global, stack: &mut Stack<Frame>, value: Json, byte: u8) -> Result<Mode, StepFault>
    ensures { m.Turns result stack.new (m.plain (m.after_of stack.old value byte)) }
{
    if is_blank(byte) {
        return Ok(Mode::After(value));
    }
    match stack.pop() {
        Some(Frame::List(elements)) => after_element(stack, elements, value, byte),
        Some(Frame::Member(members, name)) => {
            after_member(alloc, stack, members, Member { name, value }, byte)
        }
        _ => Err(StepFault::Refused),
    }
}

fn word(stack: &mut Stack<Frame>, so_far: Letters, byte: u8) -> Result<Mode, StepFault>
    ensures { m.Turns result stack.new (m.plain (m.word_of stack.old so_far byte)) }
{
    let (wanted, mode) = match so_far {
        Letters::T => (b'r', Mode::Word(Letters::Tr)),
        Letters::Tr => (b'u', Mode::Word(Letters::Tru)),
        Letters::Tru => (b'e', Mode::After(Json::Truth(true))),
        Letters::F => (b'a', Mode::Word(Letters::Fa)),
        Letters::Fa => (b'l', Mode::Word(Letters::Fal)),
        Letters::Fal => (b's', Mode::Word(Letters::Fals)),
        Letters::Fals => (b'e', Mode::After(Json::Truth(false))),
        Letters::N => (b'u', Mode::Word(Letters::Nu)),
        Letters::Nu => (b'l', Mode::Word(Letters::Nul)),
        Letters::Nul => (b'l', Mode::After(Json::Null)),
    };
    if byte == wanted {
        Ok(mode)
    } else {
        Err(StepFault::Refused)
    }
}

/// The number of a literal.
fn number_of(literal: Buffer, from: u64) -> Result<Json, StepFault>
    ensures { m.Gives result (m.number_json literal) (m.wide_of literal from) }
{
    match Dec::read(literal.as_slice()) {
        Err(NumFault::NumberTooWide) => Err(StepFault::TooWide { at: from }),
        Err(NumFault::NotANumber) => Err(StepFault::Refused),
        Ok(dec) => match literal.into_text() {
            None => Err(StepFault::Refused),
            Some(literal) => Ok(Json::Number(Num { literal, dec })),
        },
    }
}

/// No more of a number comes: the longest whole one is judged.
fn judge(part: Part, literal: &[u8], from: u64) -> Result<(), StepFault>
    ensures { m.Gives result (Some tt) (m.unfinished_breaks part literal.now from) }
{
    match behind_whole(part) {
        None => Ok(()),
        Some(behind) => {
            let whole = literal.len().saturating_sub(behind);
            match Dec::read(&literal[..whole]) {
                Err(NumFault::NumberTooWide) => Err(StepFault::TooWide { at: from }),
                _ => Ok(()),
            }
        }
    }
}

/// A number is over, which it may be only behind a whole one.
fn whole_number(part: Part, literal: Buffer, from: u64) -> Result<Json, StepFault>
    ensures { m.Gives result (m.ended_value part literal) (m.ended_breaks part literal from) }
{
    if is_whole(part) {
        return number_of(literal, from);
    }
    judge(part, literal.as_slice(), from)?;
    Err(StepFault::Refused)
}

fn in_number(
    alloc: Global,
    stack: &mut Stack<Frame>,
    part: Part,
    mut literal: Buffer,
    from: u64,
    byte: u8,
) -> Result<Mode, StepFault>
    ensures { m.Turns result stack.new (m.number_move stack.old part literal from byte) }
{
    match part_on(part, byte) {
        Some(part) => {
            literal.push(byte)?;
            Ok(Mode::Number {
                part,
                literal,
                from,
            })
        }
        None => {
            let value = whole_number(part, literal, from)?;
            after(alloc, stack, value, byte)
        }
    }
}

/// A name is over.
fn named(stack: &mut Stack<Frame>, name: Text, from: u64) -> Result<Mode, StepFault>
    ensures { m.Turns result stack.new (m.named_of stack.old name from) }
{
    match stack.pop() {
        Some(Frame::Object(members)) => {
            if members.has(&name) {
                return Err(StepFault::Duplicate { at: from });
            }
            stack.push(Frame::Member(members, name))?;
            Ok(Mode::Colon)
        }
        _ => Err(StepFault::Refused),
    }
}

/// The closing quote.
fn unquote(
    stack: &mut Stack<Frame>,
    is_name: bool,
    bytes: Buffer,
    from: u64,
) -> Result<Mode, StepFault>
    ensures { m.Turns result stack.new (m.unquote_of stack.old is_name bytes from) }
{
    match bytes.into_text() {
        None => Err(StepFault::Refused),
        Some(text) => {
            if is_name {
                return named(stack, text, from);
            }
            Ok(Mode::After(Json::Text(text)))
        }
    }
}

fn add(mut bytes: Buffer, added: Added) -> Result<Buffer, StepFault>
    ensures { m.Gives result (m.with_added bytes added) None }
{
    match added {
        Added::Nothing => Ok(bytes),
        Added::Byte(byte) => {
            bytes.push(byte)?;
            Ok(bytes)
        }
        Added::Scalar(c) => {
            if c >= 0x110000 {
                return Err(StepFault::Refused);
            }
            push_scalar(&mut bytes, c)?;
            Ok(bytes)
        }
    }
}

fn is_plain(piece: Piece) -> bool
    ensures { result ≡ m.is_plain piece }
{
    matches!(piece, Piece::Plain)
}

/// More of a text.
fn grown(
    stack: &mut Stack<Frame>,
    is_name: bool,
    piece: Piece,
    bytes: Buffer,
    from: u64,
    byte: u8,
) -> Result<Mode, StepFault>
    ensures { m.Turns result stack.new (m.plain (m.grown_of stack.old is_name piece bytes from byte)) }
{
    match grow(piece, byte) {
        None => Err(StepFault::Refused),
        Some(Grown { piece, added }) => {
            let bytes = add(bytes, added)?;
            Ok(Mode::Quoted {
                is_name,
                piece,
                bytes,
                from,
            })
        }
    }
}

fn in_quotes(
    stack: &mut Stack<Frame>,
    is_name: bool,
    piece: Piece,
    bytes: Buffer,
    from: u64,
    byte: u8,
) -> Result<Mode, StepFault>
    ensures { m.Turns result stack.new (m.quoted_move stack.old is_name piece bytes from byte) }
{
    if is_plain(piece) {
        if byte == b'"' {
            return unquote(stack, is_name, bytes, from);
        }
        return grown(stack, is_name, piece, bytes, from, byte);
    }
    grown(stack, is_name, piece, bytes, from, byte)
}

/// One more byte behind a number, a text or a value, which goes on or is put where it belongs.
fn turn(
    alloc: Global,
    stack: &mut Stack<Frame>,
    mode: Mode,
    place: u64,
    byte: u8,
) -> Result<Mode, StepFault>
    ensures { m.Turns result stack.new (m.step_in stack.old mode place byte) }
{
    match mode {
        Mode::Value => begin(alloc, stack, place, byte),
        Mode::First => first(alloc, stack, place, byte),
        Mode::FirstName => first_name(alloc, stack, place, byte),
        Mode::Name => name(alloc, stack, place, byte),
        Mode::Colon => colon(stack, byte),
        Mode::Word(so_far) => word(stack, so_far, byte),
        Mode::Number {
            part,
            literal,
            from,
        } => in_number(alloc, stack, part, literal, from, byte),
        Mode::Quoted {
            is_name,
            piece,
            bytes,
            from,
        } => in_quotes(stack, is_name, piece, bytes, from, byte),
        Mode::After(value) => after(alloc, stack, value, byte),
    }
}

/// One more byte. Modes that hold nothing aren't moved.
#[tactic(auto, unfolding(crate::specs::Machine::step_of))]
pub(crate) fn step(alloc: Global, state: &mut State, place: u64, byte: u8) -> Result<(), StepFault>
    ensures { m.Steps result state.new (m.step_of state.old place byte) }
{
    match state.mode {
        Mode::Value => state.mode = begin(alloc, &mut state.stack, place, byte)?,
        Mode::Name => state.mode = name(alloc, &mut state.stack, place, byte)?,
        Mode::Colon => state.mode = colon(&mut state.stack, byte)?,
        _ => {
            let mode = mem::replace(&mut state.mode, Mode::Value);
            state.mode = turn(alloc, &mut state.stack, mode, place, byte)?;
        }
    }
    Ok(())
}

/// The text is over.
#[tactic(auto, unfolding(crate::specs::Machine::end_value, crate::specs::Machine::end_breaks))]
pub(crate) fn finish(state: State) -> Result<Json, StepFault>
    ensures { m.Gives result (m.end_value state) (m.end_breaks state) }
{
    let State { mut stack, mode } = state;
    match mode {
        Mode::Number {
            part,
            literal,
            from,
        } => {
            let value = whole_number(part, literal, from)?;
            match stack.pop() {
                None => Ok(value),
                Some(_) => Err(StepFault::Refused),
            }
        }
        Mode::After(value) => match stack.pop() {
            None => Ok(value),
            Some(_) => Err(StepFault::Refused),
        },
        _ => Err(StepFault::Refused),
    }
}
