ghost use Rattle.std.specs.Prelude.{◌≡◌, ◌+◌, ◌≤◌, ◌<◌, ◌^◌};

/// The most bytes that are taken of one connection.
const MOST_TAKEN: u64 = 1 << 40;

/// The most bytes of one read.
pub const CHUNK: usize = 8192;

/// How many bytes to read where so many are wanted and so many were taken of the connection. None are left exactly where
/// the connection brought all that it may.
pub fn room_for(wanted: usize, taken: u64) -> usize
    requires taken { taken ≤ 2 ^ 40 }
    requires wanted { 0 < wanted }
    ensures wanted { result ≤ wanted }
    ensures chunk { result ≤ 8192 }
    ensures left { taken + result ≤ 2 ^ 40 }
    ensures none { result ≡ 0 → taken ≡ 2 ^ 40 }
{
    let wanted = wanted.min(CHUNK) as u64;
    wanted.min(MOST_TAKEN - taken) as usize
}
