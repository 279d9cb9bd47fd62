ghost use Rattle.std.specs.Prelude.{◌≡◌, ◌<◌, ◌≤◌, ◌^◌, pos, negsuc, ◌≤ℤ◌, ◌↔◌, ◌++◌, IsTrue, OnOk, OnErr};
ghost use Rattle.sc_decimal.specs.Number.{dec_cmp};

use crate::grid::to_grid;
use crate::literal::push_literal;
use crate::make;
use crate::reading::read;
use crate::scale::compare_magnitudes;
use crate::whole::to_integer;
use std::alloc::AllocError;
use std::cmp::Ordering;
use std::marker::Model;

/// Why a text is no number.
#[derive(Clone, Copy, Debug, PartialEq, Eq)]
pub enum NumFault {
    /// The text isn't of the grammar.
    NotANumber,
    /// The number has more than 34 digits, or its exponent isn't from -6000 to 6000.
    NumberTooWide,
}

/// A decimal number of at most 34 digits: `m * 10^e`, negated where `neg`, with `e` from -6000 to
/// 6000. Each number has one form: `m` doesn't end in the digit 0, and zero is 0 times 10^0, not
/// negated. So equal numbers are equal in all three.
#[derive(Clone, Copy, Debug)]
pub struct Dec {
    neg: bool,
    m: u128,
    e: i32,
}

impl Model for Dec {
    ghost use Rattle.sc_decimal.specs.Number.{Number, IsDec};

    ghost Value = { Number };

    ghost view = { λ d. record { neg = d.neg; m = d.m; e = d.e } };

    ghost invariant = { λ d. IsDec (record { neg = d.neg; m = d.m; e = d.e }) };

    ghost inverse = { λ n. record { neg = n.neg; m = n.m; e = n.e } };
}

impl PartialEq for Dec {
    ghost use Rattle.std.specs.Cmp as Cmp;
    ghost use Rattle.std.specs.Ordering.{eq_by_cmp};
    ghost use Rattle.sc_decimal.specs.Number.{dec_cmp};
    ghost use Rattle.sc_decimal.specs.Number.{dec_cmp_total};

    ghost eq = { eq_by_cmp dec_cmp };

    ghost laws = { Cmp.partial_equiv_from_equiv (Cmp.eq_by_cmp_equiv dec_cmp_total) };

    fn eq(&self, other: &Self) -> bool
        ensures ordered { result ≡ eq_by_cmp dec_cmp self.now other.now }
        ensures same { IsTrue result ↔ (self.now ≡ other.now) }
    {
        self.neg == other.neg && self.m == other.m && self.e == other.e
    }
}

impl Eq for Dec {
    ghost use Rattle.std.specs.Cmp as Cmp;
    ghost use Rattle.sc_decimal.specs.Number.{dec_cmp_total};

    ghost laws = { Cmp.eq_by_cmp_equiv dec_cmp_total };
}

impl PartialOrd for Dec {
    ghost use Rattle.std.specs.Prelude.{Some};
    ghost use Rattle.std.specs.Cmp.{partial_order_from_total};
    ghost use Rattle.sc_decimal.specs.Number.{dec_cmp};
    ghost use Rattle.sc_decimal.specs.Number.{dec_cmp_total};

    ghost partial_cmp = { λ a b. Some (dec_cmp a b) };

    ghost laws = { partial_order_from_total dec_cmp_total };

    fn partial_cmp(&self, other: &Self) -> Option<Ordering> {
        Some(self.compare(other))
    }
}

impl Ord for Dec {
    ghost use Rattle.std.proofs.Common.{refl};
    ghost use Rattle.sc_decimal.specs.Number.{dec_cmp};
    ghost use Rattle.sc_decimal.specs.Number.{dec_cmp_total};

    ghost cmp = { dec_cmp };

    ghost total = { dec_cmp_total };

    ghost matches_partial_cmp = { λ a b. refl };

    ghost matches_eq = { λ a b. refl };

    fn cmp(&self, other: &Self) -> Ordering {
        self.compare(other)
    }
}

impl Dec {
    ghost use Rattle.sc_decimal.specs.Number.{IsDec, IsKept, integer, integer_of, order_of};
    ghost use Rattle.sc_decimal.specs.Numeral.{Reads, IsNumeral};
    ghost use Rattle.sc_decimal.specs.Literal.{literal_of};
    ghost use Rattle.sc_decimal.specs.Value.{Answers};
    ghost use Rattle.sc_decimal.specs.Grid.{IsOnGrid, grid_of};

    /// The number of a sign, digits and an exponent in their one form.
    pub(crate) fn new(neg: bool, m: u128, e: i32) -> Dec
        requires { IsDec (record { neg = neg; m = m; e = e }) }
        ensures { result ≡ record { neg = neg; m = m; e = e } }
    {
        Dec { neg, m, e }
    }

    /// The number `m * 10^e`, negated where `neg`; `None` exactly where it can't be kept, since it
    /// has more than 34 digits, not counting zeros behind them, or an exponent that isn't from
    /// -6000 to 6000.
    pub fn of_parts(neg: bool, m: u128, e: i32) -> Option<Dec>
        ensures { IsKept (record { neg = neg; m = m; e = e }) result }
    {
        make::of_parts(neg, m, e)
    }

    /// A whole number; `None` exactly where it has more than 34 digits, not counting zeros behind
    /// them.
    pub fn of_integer(number: i128) -> Option<Dec>
        ensures { IsKept (integer number) result }
    {
        make::of_integer(number)
    }

    /// The whole number that it equals; `None` exactly where it has a fraction, or where its magnitude isn't below 2^127.
    /// [`whole_numbers`](crate::whole_numbers) says that this takes back what [`Dec::of_integer`] gave.
    pub fn to_integer(&self) -> Option<i128>
        ensures { result ≡ integer_of self.now }
    {
        to_integer(self.neg, self.m, self.e)
    }

    /// Whether the number is negative.
    pub fn neg(&self) -> bool
        ensures value { result ≡ self.now.neg }
        ensures kept { IsDec self.now }
    {
        self.neg
    }

    /// The digits, of which the last isn't 0; 0 for zero.
    pub fn m(&self) -> u128
        ensures { result ≡ self.now.m }
    {
        self.m
    }

    /// The exponent; 0 for zero.
    pub fn e(&self) -> i32
        ensures { result ≡ self.now.e }
    {
        self.e
    }

    /// Reads a number: an optional sign, digits with an optional point and digits or a point and
    /// digits, and an optional exponent. `NotANumber` exactly where the text is none;
    /// `NumberTooWide` exactly where the number has more than 34 digits, not counting zeros before
    /// and behind the others, or its exponent then isn't from -6000 to 6000.
    pub fn read(text: &[u8]) -> Result<Dec, NumFault>
        ensures numeral { Reads text.now result }
        ensures answer { Answers text.now result }
    {
        read(text)
    }

    /// Compares the numbers, in constant memory.
    pub fn compare(&self, other: &Dec) -> Ordering
        ensures order { result ≡ order_of self.now other.now }
        ensures scaled { result ≡ dec_cmp self.now other.now }
    {
        match (self.neg, other.neg) {
            (false, true) => Ordering::Greater,
            (true, false) => Ordering::Less,
            (false, false) => compare_magnitudes(self.m, self.e, other.m, other.e),
            (true, true) => compare_magnitudes(other.m, other.e, self.m, self.e),
        }
    }

    /// Writes the canonical literal at the end of `out`: `-` where the number is negative, the
    /// digits, and `E` and the exponent where that isn't 0. It reads back as the same number.
    /// Want of memory leaves `out` as it was.
    pub fn push_literal(&self, out: &mut Vec<u8>) -> Result<(), AllocError>
        ensures ok { OnOk result (out.new.items ≡ out.old.items ++ literal_of self.now) }
        ensures err { OnErr result (out.new.items ≡ out.old.items) }
        ensures reads { IsNumeral (literal_of self.now) self.now }
    {
        push_literal(self.neg, self.m, self.e, out)
    }

    /// The whole number nearest to the value times 10^7, ties away from zero; `None` exactly
    /// where that is above 3,600,000,000 in magnitude.
    pub fn to_grid(&self) -> Option<i64>
        ensures nearest { IsOnGrid self.now result }
        ensures value { result ≡ grid_of self.now }
    {
        to_grid(self.neg, self.m, self.e)
    }
}
