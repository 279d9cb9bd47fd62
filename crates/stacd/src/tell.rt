ghost use Rattle.std.specs.Prelude.{◌≡◌, ◌++◌, ◌∷◌, [], length, decimal};
ghost use Rattle.stacd.specs.Program.{Tells, message_of, message_of_connection, message_of_keeping, message_of_serving, usage_text, bad_line_start, bad_record_start, disk_fault_text, bad_head_text, bad_length_text, cut_start, cut_end, listen_fault_text, read_fault_text, spent_text, write_fault_text, no_memory_text};

use crate::keeping::KeepEnd;
use crate::page::PageEnd;
use crate::serving::ServeEnd;
use arrayvec::ArrayString;
use itoa::Buffer;
use sc_outside::{Sink, write_all};
use sc_serve::ConnEnd;

/// Tells a text, as far as the sink takes it.
fn tell<E: Sink>(errors: &mut E, text: &[u8])
    ensures { Tells (E.written errors.old) (E.written errors.new) (E.faults errors.old) (E.faults errors.new) text.now }
{
    match write_all(errors, text) {
        Ok(()) => {}
        Err(_) => {}
    }
}

#[tactic(auto, unfolding(crate::specs::Program::usage_text))]
fn usage() -> &'static str
    ensures { result.now ≡ usage_text }
{
    "usage: stacd page LIMIT, pipe BASE, serve PORT WORKERS TIGHTENERS CONNS, keep PORT WORKERS CONNS FILE\n"
}

#[tactic(auto, unfolding(crate::specs::Program::bad_line_start))]
fn bad_line() -> &'static str
    ensures start { result.now ≡ bad_line_start }
    ensures length { length result.now ≡ 16 }
{
    "stacd: bad line "
}

#[tactic(auto, unfolding(crate::specs::Program::read_fault_text))]
fn read_fault() -> &'static str
    ensures { result.now ≡ read_fault_text }
{
    "stacd: read fault\n"
}

#[tactic(auto, unfolding(crate::specs::Program::write_fault_text))]
fn write_fault() -> &'static str
    ensures { result.now ≡ write_fault_text }
{
    "stacd: write fault\n"
}

#[tactic(auto, unfolding(crate::specs::Program::no_memory_text))]
fn no_memory() -> &'static str
    ensures { result.now ≡ no_memory_text }
{
    "stacd: no memory\n"
}

#[tactic(auto, unfolding(crate::specs::Program::cut_start))]
fn cut_after() -> &'static str
    ensures start { result.now ≡ cut_start }
    ensures length { length result.now ≡ 17 }
{
    "stacd: cut after "
}

#[tactic(auto, unfolding(crate::specs::Program::cut_end))]
fn bytes_taken() -> &'static str
    ensures end { result.now ≡ cut_end }
    ensures length { length result.now ≡ 7 }
{
    " bytes\n"
}

#[tactic(auto, unfolding(crate::specs::Program::bad_head_text))]
fn bad_head() -> &'static str
    ensures { result.now ≡ bad_head_text }
{
    "stacd: bad head\n"
}

#[tactic(auto, unfolding(crate::specs::Program::bad_length_text))]
fn bad_length() -> &'static str
    ensures { result.now ≡ bad_length_text }
{
    "stacd: bad length\n"
}

#[tactic(auto, unfolding(crate::specs::Program::spent_text))]
fn spent() -> &'static str
    ensures { result.now ≡ spent_text }
{
    "stacd: spent\n"
}

#[tactic(auto, unfolding(crate::specs::Program::listen_fault_text))]
fn listen_fault() -> &'static str
    ensures { result.now ≡ listen_fault_text }
{
    "stacd: listen fault\n"
}

#[tactic(auto, unfolding(crate::specs::Program::bad_record_start))]
fn bad_record() -> &'static str
    ensures start { result.now ≡ bad_record_start }
    ensures length { length result.now ≡ 18 }
{
    "stacd: bad record "
}

#[tactic(auto, unfolding(crate::specs::Program::disk_fault_text))]
fn disk_fault() -> &'static str
    ensures { result.now ≡ disk_fault_text }
{
    "stacd: disk fault\n"
}

/// Tells how the command line is written.
pub fn tell_usage<E: Sink>(errors: &mut E)
    ensures { Tells (E.written errors.old) (E.written errors.new) (E.faults errors.old) (E.faults errors.new) usage_text }
{
    tell(errors, usage().as_bytes());
}

/// The text of a bad line.
fn bad_line_text(line: u64) -> ArrayString<64>
    ensures { result.bytes ≡ bad_line_start ++ decimal line ++ 10 ∷ [] }
{
    let mut digits = Buffer::new();
    let mut text = ArrayString::new();
    text.push_str(bad_line());
    text.push_str(digits.format(line));
    text.push_str("\n");
    text
}

/// Tells the text of an end, if it has one.
pub fn tell_end<E: Sink>(errors: &mut E, end: PageEnd)
    ensures { Tells (E.written errors.old) (E.written errors.new) (E.faults errors.old) (E.faults errors.new) (message_of end) }
{
    match end {
        PageEnd::Done => {}
        PageEnd::BadLine { line } => tell(errors, bad_line_text(line).as_bytes()),
        PageEnd::ReadFault => tell(errors, read_fault().as_bytes()),
        PageEnd::WriteFault => tell(errors, write_fault().as_bytes()),
        PageEnd::OutOfMemory => tell(errors, no_memory().as_bytes()),
    }
}

/// The text of a connection that was cut.
fn cut_text(taken: u64) -> ArrayString<64>
    ensures { result.bytes ≡ cut_start ++ decimal taken ++ cut_end }
{
    let mut digits = Buffer::new();
    let mut text = ArrayString::new();
    text.push_str(cut_after());
    text.push_str(digits.format(taken));
    text.push_str(bytes_taken());
    text
}

/// Tells the text of the end of a connection, if it has one.
pub fn tell_connection<E: Sink>(errors: &mut E, end: ConnEnd)
    ensures { Tells (E.written errors.old) (E.written errors.new) (E.faults errors.old) (E.faults errors.new) (message_of_connection end) }
{
    match end {
        ConnEnd::Ended => {}
        ConnEnd::Cut { taken } => tell(errors, cut_text(taken).as_bytes()),
        ConnEnd::BadHead { .. } => tell(errors, bad_head().as_bytes()),
        ConnEnd::BadLength { .. } => tell(errors, bad_length().as_bytes()),
        ConnEnd::Spent => tell(errors, spent().as_bytes()),
        ConnEnd::ReadFault => tell(errors, read_fault().as_bytes()),
        ConnEnd::WriteFault => tell(errors, write_fault().as_bytes()),
        ConnEnd::OutOfMemory => tell(errors, no_memory().as_bytes()),
    }
}

/// Tells the text of the end of a run of the server, if it has one.
pub fn tell_serving<E: Sink>(errors: &mut E, end: ServeEnd)
    ensures { Tells (E.written errors.old) (E.written errors.new) (E.faults errors.old) (E.faults errors.new) (message_of_serving end) }
{
    match end {
        ServeEnd::Done => {}
        ServeEnd::ListenFault => tell(errors, listen_fault().as_bytes()),
        ServeEnd::WriteFault => tell(errors, write_fault().as_bytes()),
        ServeEnd::OutOfMemory => tell(errors, no_memory().as_bytes()),
    }
}

/// The text of a bad record.
fn bad_record_text(n: u64) -> ArrayString<64>
    ensures { result.bytes ≡ bad_record_start ++ decimal n ++ 10 ∷ [] }
{
    let mut digits = Buffer::new();
    let mut text = ArrayString::new();
    text.push_str(bad_record());
    text.push_str(digits.format(n));
    text.push_str("\n");
    text
}

/// Tells the text of the end of a run of a server with a journal, if it has one.
pub fn tell_keeping<E: Sink>(errors: &mut E, end: KeepEnd)
    ensures { Tells (E.written errors.old) (E.written errors.new) (E.faults errors.old) (E.faults errors.new) (message_of_keeping end) }
{
    match end {
        KeepEnd::Done => {}
        KeepEnd::ListenFault => tell(errors, listen_fault().as_bytes()),
        KeepEnd::BadRecord { n } => tell(errors, bad_record_text(n).as_bytes()),
        KeepEnd::WriteFault => tell(errors, write_fault().as_bytes()),
        KeepEnd::DiskFault => tell(errors, disk_fault().as_bytes()),
        KeepEnd::OutOfMemory => tell(errors, no_memory().as_bytes()),
    }
}

/// Tells that memory was wanting.
pub fn tell_no_memory<E: Sink>(errors: &mut E)
    ensures { Tells (E.written errors.old) (E.written errors.new) (E.faults errors.old) (E.faults errors.new) no_memory_text }
{
    tell(errors, no_memory().as_bytes());
}
