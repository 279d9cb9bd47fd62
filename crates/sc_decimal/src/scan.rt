ghost use Rattle.std.specs.Prelude.{ℕ, IfSome, ◌≡◌, ◌<◌, ◌≤◌, ◌+◌, ◌*◌, ◌^◌};
ghost use Rattle.sc_decimal.specs.Digits.{Digits, add_digit};
ghost use Rattle.sc_decimal.specs.Stands.{Stands, StandsPower};

/// The digits so far: `m`, with `zeros` zeros behind it.
#[derive(Clone, Copy, Debug)]
pub(crate) struct Front {
    pub m: u128,
    pub zeros: u64,
}

/// One more digit; `None` where the digits without the zeros round them pass 34.
pub(crate) fn with_digit(front: Option<Front>, d: u8) -> Option<Front>
    requires digit { d < 10 }
    requires few { IfSome front (λ f. f.zeros < 2 ^ 63) }
    ensures { (digits : Digits) → Stands front digits → Stands result (add_digit digits d) }
{
    let Some(Front { m, zeros }) = front else {
        return None;
    };
    if d == 0 {
        if m == 0 {
            return Some(Front { m: 0, zeros: 0 });
        }
        return Some(Front {
            m,
            zeros: zeros + 1,
        });
    }
    if m == 0 {
        return Some(Front {
            m: d as u128,
            zeros: 0,
        });
    }
    if zeros >= 34 {
        return None;
    }
    let unit = 10u128.pow(zeros as u32 + 1);
    let Some(shifted) = m.checked_mul(unit) else {
        return None;
    };
    if shifted >= 10_000_000_000_000_000_000_000_000_000_000_000 {
        return None;
    }
    Some(Front {
        m: shifted + d as u128,
        zeros: 0,
    })
}

/// One more digit of the exponent, which counts up to 2^80.
pub(crate) fn with_power(power: u128, d: u8) -> u128
    requires digit { d < 10 }
    requires small { power ≤ 2 ^ 80 }
    ensures small { result ≤ 2 ^ 80 }
    ensures stands { (whole : ℕ) → StandsPower power whole → StandsPower result (whole * 10 + d) }
{
    let next = power * 10 + d as u128;
    if next > 1_208_925_819_614_629_174_706_176 {
        1_208_925_819_614_629_174_706_176
    } else {
        next
    }
}
