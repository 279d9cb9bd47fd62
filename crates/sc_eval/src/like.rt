//! LIKE. Elements up to the first run are taken from the front of a text. Behind a run, the elements up to the next one are
//! a piece; the first place from which it fits is as good as any later one, so the rest goes on behind that place. Where a
//! piece doesn't fit from a place, some part of it doesn't, from its beginning or a `_` on. The characters that this part
//! begins with are sought further on, in time linear in the text and in them, and no place before they stand is tried. The
//! elements behind the last run are tried at the end of the text alone.
//!
//! So a pattern costs its own length and the text's, but for pieces with a `_` between characters: these are tried anew from
//! each place that no part rules out.
ghost use Rattle.std.specs.Prelude.{◌≡◌, ◌∷◌, [], ◌+◌, ◌<◌, ◌≤◌, length, chars, drop, IfOk, MatchOption, string_bytes, true, false};
ghost use Rattle.std.specs.List.{list_any};
ghost use Rattle.sc_eval.specs.declared.like.Element.TheVariants as parts;
ghost use Rattle.sc_eval.specs.Like.{elements, fits, front, front_of, is_nothing, is_run, part_behind, plain, suits};
ghost use Rattle.sc_eval.specs.Ahead.{FitsNowhere, FitsNowhereBefore, IsAhead, IsHead, Leads};

use std::alloc::{AllocError, Global};

/// An element of a pattern.
#[derive(Clone, Copy, Debug, PartialEq, Eq)]
pub(crate) enum Element {
    /// Any run of characters.
    Run,
    /// Any one character.
    One,
    /// This character.
    Same(char),
}

/// A part of a pattern, and the text that it is tried at the front of.
#[derive(Clone, Copy)]
pub(crate) struct Place<'a> {
    pattern: &'a str,
    text: &'a str,
}

/// What is found where elements up to the first run are taken from the front of a text.
#[derive(Clone, Copy)]
pub(crate) enum Ahead<'a> {
    /// They don't fit: this part of the pattern doesn't, at the front of this text.
    Never(&'a str, &'a str),
    /// There are fewer characters than elements.
    Short,
    /// The pattern ends; this is left of the text.
    End(&'a str),
    /// A run comes; this is left of the pattern and of the text.
    Run(&'a str, &'a str),
}

/// The first character of a text, and what stands behind it.
#[tactic(auto, using(crate::proofs::Characters::chars_behind))]
fn first_char(text: &str) -> Option<(char, &str)>
    ensures { MatchOption result (chars text.now ≡ []) (λ r. (chars text.now ≡ r.0 ∷ chars r.1.now) × (length r.1.now < length text.now)) }
{
    let mut chars = text.chars();
    match chars.next() {
        None => None,
        Some(c) => Some((c, chars.as_str())),
    }
}

fn is_nothing(text: &str) -> bool
    ensures { result ≡ is_nothing (chars text.now) }
{
    match first_char(text) {
        None => true,
        Some(_) => false,
    }
}

fn plain(c: char) -> Element
    ensures { result ≡ plain c }
{
    if c == '%' {
        Element::Run
    } else if c == '_' {
        Element::One
    } else {
        Element::Same(c)
    }
}

/// The first element of a pattern, and what stands behind it.
#[tactic(auto, unfolding(crate::specs::Like::elements))]
fn first_element(pattern: &str) -> Option<(Element, &str)>
    ensures { MatchOption result (elements (chars pattern.now) ≡ []) (λ r. (elements (chars pattern.now) ≡ r.0 ∷ elements (chars r.1.now)) × (length r.1.now < length pattern.now)) }
{
    let Some((first, rest)) = first_char(pattern) else {
        return None;
    };
    let Some((second, behind)) = first_char(rest) else {
        return Some((plain(first), rest));
    };
    if first == '\\' {
        Some((Element::Same(second), behind))
    } else {
        Some((plain(first), rest))
    }
}

fn is_run(element: Element) -> bool
    ensures { result ≡ is_run element }
{
    match element {
        Element::Run => true,
        _ => false,
    }
}

fn suits(element: Element, c: char) -> bool
    ensures { result ≡ suits element c }
{
    match element {
        Element::Same(only) => c == only,
        _ => true,
    }
}

/// The place at which a part begins, behind an element: the next place behind a `_`, and the same as before behind a
/// character.
fn part_behind<'a>(element: Element, part: Place<'a>, next: Place<'a>) -> Place<'a>
    ensures { result ≡ part_behind element part.entry next.entry }
{
    match element {
        Element::One => next,
        _ => part,
    }
}

/// Takes the elements of a pattern up to the first run from the front of a text, one by one.
#[tactic(auto, using(crate::proofs::Places::leads_here, crate::proofs::Places::leads_on, crate::proofs::Places::too_short), unfolding(crate::specs::Like::front))]
fn take_front<'a>(pattern: &'a str, text: &'a str) -> Ahead<'a>
    ensures front { front_of result ≡ front (elements (chars pattern.now)) (chars text.now) }
    ensures ahead { IsAhead pattern.now text.now result }
{
    let mut at = Place { pattern, text };
    let mut part = at;
    loop {
        let Some((element, more)) = first_element(at.pattern) else {
            return Ahead::End(at.text);
        };
        if is_run(element) {
            return Ahead::Run(more, at.text);
        }
        let Some((c, rest)) = first_char(at.text) else {
            return Ahead::Short;
        };
        if !suits(element, c) {
            return Ahead::Never(part.pattern, part.text);
        }
        at = Place {
            pattern: more,
            text: rest,
        };
        part = part_behind(element, part, at);
    }
}

/// The characters that a pattern begins with, up to the first `%`, `_` or backslash, and what stands behind them.
fn plain_head(pattern: &str) -> (&str, &str)
    ensures { IsHead result.0.now pattern.now }
{
    match pattern.find(['%', '_', '\\']) {
        None => (pattern, ""),
        Some(at) => pattern.split_at(at),
    }
}

/// The characters that a pattern begins with, up to the first `%` or `_`; each backslash stands for the character behind it.
fn whole_head(alloc: Global, pattern: &str) -> Result<String, AllocError>
    ensures { IfOk result (λ head. IsHead (string_bytes head) pattern.now) }
{
    let mut head = String::new(alloc);
    let mut rest = pattern;
    while let Some((Element::Same(c), more)) = first_element(rest) {
        head.push(c)?;
        rest = more;
    }
    Ok(head)
}

/// What stands in a text before the first place of the characters that a pattern begins with.
fn before_head<'a>(head: &str, pattern: &str, text: &'a str) -> Option<&'a str>
    requires { IsHead head.now pattern.now }
    ensures { MatchOption result (FitsNowhere (elements (chars pattern.now)) (chars text.now)) (λ passed. FitsNowhereBefore (length (chars passed.now)) (elements (chars pattern.now)) (chars text.now)) }
{
    match text.split_once(head) {
        None => None,
        Some((before, _)) => Some(before),
    }
}

/// What stands in a text before the first place from which a pattern can fit. Memory is taken for a copy of characters that
/// have backslashes; where there is none, what stands before the first backslash is sought alone.
fn before_part<'a>(alloc: Global, pattern: &str, text: &'a str) -> Option<&'a str>
    ensures { MatchOption result (FitsNowhere (elements (chars pattern.now)) (chars text.now)) (λ passed. FitsNowhereBefore (length (chars passed.now)) (elements (chars pattern.now)) (chars text.now)) }
{
    let (head, rest) = plain_head(pattern);
    if rest.starts_with('\\') {
        if let Ok(whole) = whole_head(alloc, pattern) {
            return before_head(whole.as_str(), pattern, text);
        }
    }
    before_head(head, pattern, text)
}

/// A text without as many characters of its front as another text has.
fn behind<'a>(text: &'a str, passed: &str) -> &'a str
    ensures left { chars result.now ≡ drop (length (chars passed.now)) (chars text.now) }
    ensures shorter { length result.now ≤ length text.now }
{
    let mut text = text;
    let mut passed = passed;
    while let Some((_, more)) = first_char(passed) {
        let Some((_, rest)) = first_char(text) else {
            return text;
        };
        passed = more;
        text = rest;
    }
    text
}

/// The text behind the characters at which a pattern is known not to fit, and behind one at least.
#[tactic(auto, using(crate::proofs::Runs::run_ends, crate::proofs::Places::one_passed, crate::proofs::Places::some_passed))]
fn pass<'a>(pattern: &str, text: &'a str, passed: &str) -> Option<&'a str>
    requires here { fits (elements (chars pattern.now)) (chars text.now) ≡ false }
    requires passed { FitsNowhereBefore (length (chars passed.now)) (elements (chars pattern.now)) (chars text.now) }
    ensures { MatchOption result (fits (parts.Run ∷ elements (chars pattern.now)) (chars text.now) ≡ false) (λ later. (fits (parts.Run ∷ elements (chars pattern.now)) (chars later.now) ≡ fits (parts.Run ∷ elements (chars pattern.now)) (chars text.now)) × (length later.now < length text.now)) }
{
    match first_char(text) {
        None => None,
        Some((_, rest)) => match first_char(passed) {
            None => Some(rest),
            Some((_, more)) => Some(behind(rest, more)),
        },
    }
}

/// The next text at whose front a pattern may fit, where a part of it doesn't fit at the front of this one.
#[tactic(auto, using(crate::proofs::Places::leads_nowhere, crate::proofs::Places::leads_nowhere_before, crate::proofs::Places::run_nowhere))]
fn move_on<'a>(
    alloc: Global,
    pattern: &str,
    text: &'a str,
    part: &str,
    place: &str,
) -> Option<&'a str>
    requires here { fits (elements (chars pattern.now)) (chars text.now) ≡ false }
    requires leads { Leads (elements (chars pattern.now)) (chars text.now) (elements (chars part.now)) (chars place.now) }
    ensures { MatchOption result (fits (parts.Run ∷ elements (chars pattern.now)) (chars text.now) ≡ false) (λ later. (fits (parts.Run ∷ elements (chars pattern.now)) (chars later.now) ≡ fits (parts.Run ∷ elements (chars pattern.now)) (chars text.now)) × (length later.now < length text.now)) }
{
    match before_part(alloc, part, place) {
        None => None,
        Some(passed) => pass(pattern, text, passed),
    }
}

/// What is left of a pattern and of a text behind the first piece of the pattern, and the run behind it.
#[tactic(auto, using(crate::proofs::Runs::front_never, crate::proofs::Runs::front_runs, crate::proofs::Places::run_nowhere, crate::proofs::Places::ends_without_run))]
fn find_piece<'a>(alloc: Global, pattern: &'a str, text: &'a str) -> Option<(&'a str, &'a str)>
    requires { list_any is_run (elements (chars pattern.now)) ≡ true }
    ensures { MatchOption result (fits (parts.Run ∷ elements (chars pattern.now)) (chars text.now) ≡ false) (λ r. (fits (parts.Run ∷ elements (chars r.0.now)) (chars r.1.now) ≡ fits (parts.Run ∷ elements (chars pattern.now)) (chars text.now)) × (length r.0.now < length pattern.now)) }
{
    let mut text = text;
    loop {
        match take_front(pattern, text) {
            Ahead::Run(more, rest) => return Some((more, rest)),
            Ahead::Short => return None,
            Ahead::End(_) => return None,
            Ahead::Never(part, place) => match move_on(alloc, pattern, text, part, place) {
                None => return None,
                Some(later) => text = later,
            },
        }
    }
}

/// Whether a run stands in a pattern.
fn has_run(pattern: &str) -> bool
    ensures { result ≡ list_any is_run (elements (chars pattern.now)) }
{
    let mut pattern = pattern;
    while let Some((element, more)) = first_element(pattern) {
        if is_run(element) {
            return true;
        }
        pattern = more;
    }
    false
}

/// What is left of a text when a character is taken for each element of a pattern.
fn behind_elements<'a>(pattern: &str, text: &'a str) -> Option<&'a str>
    ensures { MatchOption result (length (chars text.now) < length (elements (chars pattern.now))) (λ rest. length (chars rest.now) + length (elements (chars pattern.now)) ≡ length (chars text.now)) }
{
    let mut pattern = pattern;
    let mut text = text;
    while let Some((_, more)) = first_element(pattern) {
        let Some((_, rest)) = first_char(text) else {
            return None;
        };
        pattern = more;
        text = rest;
    }
    Some(text)
}

/// Whether a text fits a pattern without a run.
#[tactic(auto, using(crate::proofs::Runs::front_never, crate::proofs::Runs::front_ends, crate::proofs::Places::runs_with_run))]
fn fits_here(pattern: &str, text: &str) -> bool
    requires { list_any is_run (elements (chars pattern.now)) ≡ false }
    ensures { result ≡ fits (elements (chars pattern.now)) (chars text.now) }
{
    match take_front(pattern, text) {
        Ahead::End(left) => is_nothing(left),
        _ => false,
    }
}

/// Whether the end of a text fits a pattern without a run.
#[tactic(auto, using(crate::proofs::Places::run_alone, crate::proofs::Places::no_room, crate::proofs::Places::at_end))]
fn fits_end(pattern: &str, text: &str) -> bool
    requires { list_any is_run (elements (chars pattern.now)) ≡ false }
    ensures { result ≡ fits (parts.Run ∷ elements (chars pattern.now)) (chars text.now) }
{
    if pattern.is_empty() {
        return true;
    }
    match behind_elements(pattern, text) {
        None => false,
        Some(passed) => fits_here(pattern, behind(text, passed)),
    }
}

/// Whether a text fits any run of characters and then a pattern.
fn fits_behind_run(alloc: Global, pattern: &str, text: &str) -> bool
    ensures { result ≡ fits (parts.Run ∷ elements (chars pattern.now)) (chars text.now) }
{
    let mut pattern = pattern;
    let mut text = text;
    while has_run(pattern) {
        match find_piece(alloc, pattern, text) {
            None => return false,
            Some((more, rest)) => {
                pattern = more;
                text = rest;
            }
        }
    }
    fits_end(pattern, text)
}

/// Whether a text fits a pattern. Memory is taken where a part of the pattern has backslashes, but needn't be there.
#[tactic(auto, using(crate::proofs::Runs::front_never, crate::proofs::Runs::front_ends, crate::proofs::Runs::front_at_run))]
pub(crate) fn is_like(alloc: Global, pattern: &str, text: &str) -> bool
    ensures { result ≡ fits (elements (chars pattern.now)) (chars text.now) }
{
    match take_front(pattern, text) {
        Ahead::Never(_, _) | Ahead::Short => false,
        Ahead::End(rest) => is_nothing(rest),
        Ahead::Run(more, rest) => fits_behind_run(alloc, more, rest),
    }
}
