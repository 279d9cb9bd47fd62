ghost use Rattle.std.specs.Prelude.{◌≡◌, ◌+◌, ◌-◌, ◌≤◌, ◌<◌, ◌++◌, ◌∷◌, [], min, length, take, drop, replicate, vec_capacity};
ghost use Rattle.sc_journal.specs.Disk.{Written};

/// Copies the bytes from a place on, as many as fit, and answers how many.
pub(crate) fn copy_from(file: &[u8], at: u64, into: &mut [u8]) -> usize
    ensures count { result ≡ min (length (drop at file.now)) (length into.old) }
    ensures length { length into.new ≡ length into.old }
    ensures bytes { take result into.new ≡ take result (drop at file.now) }
{
    if at >= file.len() as u64 {
        return 0;
    }
    let rest = &file[at as usize..];
    let count = rest.len().min(into.len());
    into[..count].copy_from_slice(&rest[..count]);
    count
}

/// Adds a piece where there is room for it. Takes no memory.
pub(crate) fn append_within(to: &mut Vec<u8>, piece: &[u8])
    requires { length to.old.items + length piece.now ≤ vec_capacity to.old }
    ensures items { to.new.items ≡ to.old.items ++ piece.now }
    ensures capacity { vec_capacity to.old ≤ vec_capacity to.new }
{
    match to.extend_from_slice(piece) {
        Ok(()) => {}
        Err(_) => unreachable!(),
    }
}

/// Adds an element where there is room for it. Takes no memory.
pub(crate) fn push_within<T: Drop>(to: &mut Vec<T>, item: T)
    requires { length to.old.items < vec_capacity to.old }
    ensures items { to.new.items ≡ to.old.items ++ item ∷ [] }
    ensures capacity { vec_capacity to.old ≤ vec_capacity to.new }
{
    match to.push(item) {
        Ok(()) => {}
        Err(_) => unreachable!(),
    }
}

/// Adds zeros up to this length, where there is room for them. Takes no memory.
fn pad_within(to: &mut Vec<u8>, size: usize)
    requires { size ≤ vec_capacity to.old }
    ensures items { to.new.items ≡ to.old.items ++ replicate (size - length to.old.items) 0 }
    ensures capacity { vec_capacity to.old ≤ vec_capacity to.new }
{
    'padding: while to.len() < size {
        push_within(to, 0);
    }
}

/// Writes a piece at a place of a file, of which `before` is a copy, where there is room for it. Zeros come between the
/// file's end and a place past it. Takes no memory.
pub(crate) fn put_within(file: &mut Vec<u8>, at: usize, piece: &[u8], before: &[u8])
    requires copy { before.now ≡ file.old.items }
    requires room { at + length piece.now ≤ vec_capacity file.old }
    ensures written { Written at piece.now file.old.items file.new.items }
    ensures capacity { vec_capacity file.old ≤ vec_capacity file.new }
{
    file.truncate(at);
    pad_within(file, at);
    append_within(file, piece);
    let end = at + piece.len();
    if end < before.len() {
        append_within(file, &before[end..]);
    }
}
