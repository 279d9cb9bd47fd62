ghost use Rattle.std.specs.Prelude.{◌≡◌, ◌<◌, ◌≤◌, ◌*◌, ◌^◌, pos, MatchOption};
ghost use Rattle.sc_decimal.specs.Number.{IsDec, whole_of};

/// `m * 10^e`; `None` exactly where that isn't below 2^127.
fn magnitude(m: u128, e: u32) -> Option<i128>
    requires { 38 < e → 0 < m }
    ensures { MatchOption result (2 ^ 127 ≤ m * 10 ^ e) (λ size. size ≡ pos (m * 10 ^ e)) }
{
    if 38 < e {
        return None;
    }
    match m.checked_mul(10u128.pow(e)) {
        Some(size) => i128::try_from(size).ok(),
        None => None,
    }
}

/// The whole number that is `m * 10^e`, negated where `neg`.
pub(crate) fn to_integer(neg: bool, m: u128, e: i32) -> Option<i128>
    requires { IsDec (record { neg = neg; m = m; e = e }) }
    ensures { result ≡ whole_of neg m e }
{
    if e < 0 {
        return None;
    }
    match magnitude(m, e as u32) {
        Some(size) => Some(if neg { -size } else { size }),
        None => None,
    }
}
