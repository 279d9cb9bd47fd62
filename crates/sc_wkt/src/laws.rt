//! What follows from the definitions alone. Each function has an empty body: its clause is the law.
ghost use Rattle.std.specs.Prelude.{◌≡◌, ◌⊎◌, ℕ, List, Bool, false, None, Result, Err};
ghost use Rattle.sc_geom.specs.declared.point.Pt.{Pt};
ghost use Rattle.sc_geom.specs.Shapes.{Shapes};
ghost use Rattle.sc_grammar.specs.declared.token.Token.{Token as TokenRecord};
ghost use Rattle.sc_wkt.specs.declared.fault.WktFault.{WktFault};
ghost use Rattle.sc_wkt.specs.declared.fault.WktFault.TheVariants.{OutOfMemory};
ghost use Rattle.sc_wkt.specs.Answer.{WktAnswers};
ghost use Rattle.sc_wkt.specs.Drawing.{Drawing as Drawn, first_wide, is_bad, FailsByMemoryAlone};
ghost use Rattle.sc_wkt.specs.Reading.{Draws};

/// A text has one answer, beside want of memory: one geometry and one end of it, or one fault at one place.
pub fn one_answer()
    ensures { (bytes : List ℕ) (most : ℕ) (a b : Result (Shapes Pt × ℕ) WktFault) → WktAnswers bytes most a → WktAnswers bytes most b →
        (a ≡ b) ⊎ (a ≡ Err OutOfMemory) ⊎ (b ≡ Err OutOfMemory) }
{}

/// What a whole geometry draws that isn't bad and has no number that is too wide is a geometry: where it isn't finished,
/// memory ran out.
pub fn memory_alone_is_wanting()
    ensures { (text : List ℕ) (is_whole : Bool) (tokens : List TokenRecord) (to : ℕ) (d : Drawn) (most : ℕ) →
        Draws text is_whole tokens to d → first_wide text tokens ≡ None → is_bad most d ≡ false → FailsByMemoryAlone most d }
{}
