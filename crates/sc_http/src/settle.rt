ghost use Rattle.std.specs.Prelude.{◌≡◌, ◌≤◌, drop, length};

/// Lets go of the bytes before a place once they are no fewer than those behind it, so that each byte is moved at most
/// once for each that was used. Gives the place of the bytes behind it.
pub fn settle(held: &mut Vec<u8>, at: usize) -> usize
    requires { at ≤ length held.old.items }
    ensures kept { drop result held.new.items ≡ drop at held.old.items }
    ensures within { result ≤ length held.new.items }
{
    let left = held.len() - at;
    if at < left {
        return at;
    }
    held.copy_within(at.., 0);
    held.truncate(left);
    0
}
