//! A text of CQL2 that grows by tokens.
use crate::bytes::{push_coordinate, push_literal, push_quoted, sign_of};
use sc_base::Text;
use sc_decimal::Dec;
use sc_expr::CompOp;
use std::alloc::{AllocError, Global};
use std::marker::Model;

/// The text so far. Contracts see it as its bytes, and whether the next token stands at once behind them.
///
/// A blank stands between tokens, but none behind a function word and `(`, nor before `)` and `,`. Where memory runs out
/// a part of the token may have been added.
#[derive(Drop)]
pub(crate) struct Spelling {
    text: String,
    is_tight: bool,
}

impl Model for Spelling {
    ghost use Rattle.std.specs.Prelude.{string_bytes};
    ghost use Rattle.sc_cqlwrite.specs.Spelling.{Spelled};

    ghost Value = { Spelled };

    ghost view = { λ s. record { bytes = string_bytes s.text; is_tight = s.is_tight } };
}

impl Spelling {
    ghost use Rattle.std.specs.Prelude.{◌≡◌, OnOk, []};
    ghost use Rattle.sc_decimal.specs.Literal.{literal_of};
    ghost use Rattle.sc_cqlwrite.specs.Tokens as tokens;
    ghost use Rattle.sc_cqlwrite.specs.Coordinate.{coordinate_text};
    ghost use Rattle.sc_cqlwrite.specs.Spelling.{Spelled, nothing, with_bytes, with_token, with_tokens, unless_first};

    /// No token yet. Takes no memory.
    pub(crate) fn new(alloc: Global) -> Spelling
        ensures { result ≡ nothing }
    {
        Spelling {
            text: String::new(alloc),
            is_tight: true,
        }
    }

    /// Adds the blank before a token, unless none stands there.
    #[tactic(auto, unfolding(crate::specs::Spelling::with_bytes))]
    fn begin(&mut self, is_held: bool, holds_next: bool) -> Result<(), AllocError>
        ensures { OnOk result (self.new ≡ with_bytes self.old is_held holds_next []) }
    {
        if !self.is_tight && !is_held {
            self.text.push(' ')?;
        }
        self.is_tight = holds_next;
        Ok(())
    }

    /// Adds a keyword.
    #[tactic(auto, unfolding(crate::specs::Spelling::with_token, crate::specs::Spelling::with_bytes, crate::specs::Tokens::spelled))]
    pub(crate) fn word(&mut self, word: &str) -> Result<(), AllocError>
        ensures { OnOk result (self.new ≡ with_token self.old (tokens.word word.now)) }
    {
        self.begin(false, false)?;
        self.text.push_str(word)
    }

    /// Adds a function word, behind which a parenthesis is to stand.
    #[tactic(auto, unfolding(crate::specs::Spelling::with_token, crate::specs::Spelling::with_bytes, crate::specs::Tokens::spelled))]
    pub(crate) fn function(&mut self, word: &str) -> Result<(), AllocError>
        ensures { OnOk result (self.new ≡ with_token self.old (tokens.function word.now)) }
    {
        self.begin(false, true)?;
        self.text.push_str(word)
    }

    /// Adds a name, in double quotes.
    #[tactic(auto, unfolding(crate::specs::Spelling::with_token, crate::specs::Spelling::with_bytes, crate::specs::Tokens::spelled))]
    pub(crate) fn name(&mut self, name: &str) -> Result<(), AllocError>
        ensures { OnOk result (self.new ≡ with_token self.old (tokens.name name.now)) }
    {
        self.begin(false, false)?;
        push_quoted(&mut self.text, b'"', b'"', name)
    }

    /// Adds a text, in single quotes.
    #[tactic(auto, unfolding(crate::specs::Spelling::with_token, crate::specs::Spelling::with_bytes, crate::specs::Tokens::spelled))]
    pub(crate) fn text(&mut self, text: &str) -> Result<(), AllocError>
        ensures { OnOk result (self.new ≡ with_token self.old (tokens.text text.now)) }
    {
        self.begin(false, false)?;
        push_quoted(&mut self.text, b'\\', b'\'', text)
    }

    /// Adds a number, as its canonical literal.
    #[tactic(auto, unfolding(crate::specs::Spelling::with_token, crate::specs::Spelling::with_bytes, crate::specs::Tokens::spelled))]
    pub(crate) fn number(&mut self, number: &Dec) -> Result<(), AllocError>
        ensures { OnOk result (self.new ≡ with_token self.old (tokens.number (literal_of number.now))) }
    {
        self.begin(false, false)?;
        push_literal(&mut self.text, number)
    }

    /// Adds a coordinate, which is given in steps of the grid.
    #[tactic(auto, unfolding(crate::specs::Spelling::with_token, crate::specs::Spelling::with_bytes, crate::specs::Tokens::spelled))]
    pub(crate) fn coordinate(&mut self, steps: i64) -> Result<(), AllocError>
        ensures { OnOk result (self.new ≡ with_token self.old (tokens.number (coordinate_text steps))) }
    {
        self.begin(false, false)?;
        push_coordinate(&mut self.text, steps)
    }

    /// Adds a comparison.
    #[tactic(auto, unfolding(crate::specs::Spelling::with_token, crate::specs::Spelling::with_bytes, crate::specs::Tokens::spelled))]
    pub(crate) fn sign(&mut self, op: CompOp) -> Result<(), AllocError>
        ensures { OnOk result (self.new ≡ with_token self.old (tokens.sign op)) }
    {
        self.begin(false, false)?;
        self.text.push_str(sign_of(op))
    }

    #[tactic(auto, unfolding(crate::specs::Spelling::with_token, crate::specs::Spelling::with_bytes, crate::specs::Tokens::spelled))]
    pub(crate) fn opening(&mut self) -> Result<(), AllocError>
        ensures { OnOk result (self.new ≡ with_token self.old tokens.opening) }
    {
        self.begin(false, true)?;
        self.text.push('(')
    }

    #[tactic(auto, unfolding(crate::specs::Spelling::with_token, crate::specs::Spelling::with_bytes, crate::specs::Tokens::spelled))]
    pub(crate) fn closing(&mut self) -> Result<(), AllocError>
        ensures { OnOk result (self.new ≡ with_token self.old tokens.closing) }
    {
        self.begin(true, false)?;
        self.text.push(')')
    }

    #[tactic(auto, unfolding(crate::specs::Spelling::with_token, crate::specs::Spelling::with_bytes, crate::specs::Tokens::spelled))]
    pub(crate) fn comma(&mut self) -> Result<(), AllocError>
        ensures { OnOk result (self.new ≡ with_token self.old tokens.comma) }
    {
        self.begin(true, false)?;
        self.text.push(',')
    }

    /// Adds a comma, unless the first part of a list follows.
    pub(crate) fn separate(&mut self, is_first: bool) -> Result<(), AllocError>
        ensures { OnOk result (self.new ≡ with_tokens self.old (unless_first is_first tokens.comma)) }
    {
        if is_first { Ok(()) } else { self.comma() }
    }

    /// Adds a keyword, unless the first member of a chain follows.
    pub(crate) fn join(&mut self, is_first: bool, word: &str) -> Result<(), AllocError>
        ensures { OnOk result (self.new ≡ with_tokens self.old (unless_first is_first (tokens.word word.now))) }
    {
        if is_first { Ok(()) } else { self.word(word) }
    }

    /// The text of all tokens. Takes no memory.
    pub(crate) fn into_text(self) -> Text
        ensures { result ≡ self.bytes }
    {
        let Spelling { text, is_tight: _ } = self;
        Text::from_string(text)
    }
}
