//! The tokens of CQL2 text (OGC 21-065r2, Annex B), and grammars that are read with one token of foresight.
//!
//! [`token_at`] gives the token at a place. What a grammar derives, which tokens may begin that, and the machine that reads
//! it with a stack stand in `specs/Grammar`, for any grammar; that the machine takes what is derived, and refuses the first
//! token that no front goes on with, is proved once, in `proofs/Foresight`.
#![tactic(auto)]

mod laws;
mod lexeme;
mod lexing;
mod token;
mod words;

pub use laws::{longest_token, one_kind};
pub use lexeme::{Kind, Lexeme};
pub use lexing::{lexeme_at, readable_len};
pub use token::{Class, Token, token_at};
