//! What holds of the definitions that the contracts cite. The functions do nothing: each states
//! a fact for the proofs of other crates.
ghost use Rattle.std.specs.Prelude.{◌≡◌, ◌++◌, ℕ, ℤ, Bool, true, not, List, Option, Some};
ghost use Rattle.std.specs.declared.cmp.Ordering.TheVariants.{Equal};
ghost use Rattle.std.specs.Prelude.{FitsSigned};
ghost use Rattle.std.specs.Int.{w128};
ghost use Rattle.sc_decimal.specs.Number.{Number, IsDec, IsKept, dec_cmp, order_of, integer, integer_of};
ghost use Rattle.sc_decimal.specs.Grid.{IsOnGrid};
ghost use Rattle.sc_decimal.specs.Numeral.{Sign, Mantissa, Exponent, IsNumeral};
ghost use Rattle.sc_decimal.specs.Literal.{literal_of};
ghost use Rattle.sc_decimal.specs.Value.{is_number, number_of, is_narrow, is_wide};

/// A number has one place on the grid, or none.
pub fn one_on_grid()
    ensures { (n : Number) (a b : Option ℤ) → IsOnGrid n a → IsOnGrid n b → a ≡ b }
{}

/// The order of two numbers is that of the whole numbers that both become when they are
/// multiplied by ten to minus the lesser exponent.
pub fn one_order()
    ensures { (a b : Number) → IsDec a → IsDec b → dec_cmp a b ≡ order_of a b }
{}

/// Numbers that are equal are the same in sign, digits and exponent.
pub fn equal_same()
    ensures { (a b : Number) → IsDec a → IsDec b → dec_cmp a b ≡ Equal → a ≡ b }
{}

/// The whole number of a number is the one of 128 bits that equals it, and that which a kept whole number was made of.
pub fn whole_numbers()
    ensures equal { (n : Number) (i : ℤ) → IsDec n → integer_of n ≡ Some i → order_of n (integer i) ≡ Equal }
    ensures only { (n : Number) (i : ℤ) → IsDec n → FitsSigned w128 i → order_of n (integer i) ≡ Equal → integer_of n ≡ Some i }
    ensures back { (n : Number) (i : ℤ) → FitsSigned w128 i → IsKept (integer i) (Some n) → integer_of n ≡ Some i }
{}

/// A text is of one number at most.
pub fn one_numeral()
    ensures { (text : List ℕ) (a b : Number) → IsNumeral text a → IsNumeral text b → a ≡ b }
{}

/// The tests that compute agree with the grammar.
pub fn numeral_tests()
    ensures number { (text : List ℕ) (n : Number) → IsNumeral text n → (is_number text ≡ true) × (number_of text ≡ n) × (is_wide text ≡ not (is_narrow n)) }
    ensures numeral { (text : List ℕ) → is_number text ≡ true → IsNumeral text (number_of text) }
{}

/// A sign, a mantissa and an exponent make a number; each of the three but the mantissa may be
/// empty. The numbers of RFC 8259, section 6, are of this form.
pub fn parts_number()
    ensures { (s m ds x : List ℕ) (neg : Bool) (p : ℕ) (e : ℤ) → Sign s neg → Mantissa m ds p → Exponent x e → is_number (s ++ (m ++ x)) ≡ true }
{}

/// A number's literal is its text, and two numbers with one literal are the same.
pub fn one_literal()
    ensures reads { (n : Number) → IsDec n → IsNumeral (literal_of n) n }
    ensures same { (a b : Number) → IsDec a → IsDec b → literal_of a ≡ literal_of b → a ≡ b }
{}
