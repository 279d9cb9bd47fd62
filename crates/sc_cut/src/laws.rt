//! What follows from the definitions alone. Each function has an empty body: its clause is the law.
ghost use Rattle.std.specs.Prelude.{◌≡◌, ◌↔◌, ℤ, IsTrue};
ghost use Rattle.sc_time.specs.Instant.{IsInstant};
ghost use Rattle.sc_cut.specs.declared.cut.Cut.{Cut};
ghost use Rattle.sc_cut.specs.Key.{HasKey, IsKey, has_key};

/// The keys of a cut are those that instants have.
pub fn keys_of_instants()
    ensures used { (cut : Cut) (key : ℤ) → IsKey cut key → (at : ℤ) × IsInstant at × HasKey cut key at }
    ensures all { (cut : Cut) (key at : ℤ) → IsInstant at → HasKey cut key at → IsKey cut key }
{}

/// An instant has one key under a cut.
pub fn one_key()
    ensures { (cut : Cut) (one other at : ℤ) → HasKey cut one at → HasKey cut other at → one ≡ other }
{}

/// The test for a key is true exactly of the instants that have it.
pub fn key_test()
    ensures { (cut : Cut) (key at : ℤ) → IsKey cut key → IsInstant at → IsTrue (has_key cut key at) ↔ HasKey cut key at }
{}
