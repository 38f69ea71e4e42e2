//! The file that lists a server's tokens.

ghost use Rattle.std.specs.Prelude.{◌≡◌, ◌++◌, ◌∷◌, [], filter, length, map, nat_lt, option_map, IfErr, IfOk, OnOk};
ghost use Rattle.std.specs.Str.Lines.{lines};
ghost use Rattle.wl_admission.specs.Scopes.{reach_of};
ghost use Rattle.wl_admission.specs.declared.token_file.TokenFileFault.TheVariants.{Memory as OutOfMemory};
ghost use Rattle.wl_admission.specs.Tokens.{Answers, origins_of, reach_listed, rule_in, rule_of, rules_from, rules_in};
ghost use Rattle.wl_admission.specs.Tokens.{rules_of, words};

use crate::pieces::pieces;
use crate::scope::{Scope, origin_in};
use crate::tokens::{Grant, Tokens, is_token};
use std::alloc::{AllocError, Global};
use std::error::Error;
use std::fmt;
use wl_origin::OriginKey;
use wl_types::Memory;

/// Why a text lists no tokens.
#[derive(Clone, Copy, Debug, PartialEq, Eq)]
pub enum TokenFileFault {
    /// The line of this number, from 1, begins with no token.
    BadToken(usize),
    /// The line of this number has a word behind its token that is no URL with an origin.
    BadOrigin(usize),
    /// A growth was refused.
    Memory,
}

impl fmt::Display for TokenFileFault {
    fn fmt<W: fmt::Write>(&self, f: &mut fmt::Formatter<W>) -> fmt::Result {
        match self {
            TokenFileFault::BadToken(line) => write!(f, "line {line}: not a token"),
            TokenFileFault::BadOrigin(line) => write!(f, "line {line}: not an origin"),
            TokenFileFault::Memory => write!(f, "out of memory"),
        }
    }
}

impl Error for TokenFileFault {}

/// The tokens that the text of a file lists: on each line one, and behind it, with spaces between, the origins whose
/// URLs may be opened by it; all may where none stands there. The first line that is wrong is named.
pub fn read_tokens(alloc: Global, text: &str) -> Result<Tokens, TokenFileFault>
    ensures { Answers rules_of (rules_in text.now) result }
{
    let Ok(lines) = lines_in(alloc, text) else {
        return Err(TokenFileFault::Memory);
    };
    read_lines(alloc, lines.as_slice())
}

fn read_lines(alloc: Global, lines: &[&str]) -> Result<Tokens, TokenFileFault>
    ensures { Answers rules_of (rules_from 1 (map (λ line. line.now) lines.now)) result }
{
    let mut grants = Vec::new(alloc);
    for index in 0..lines.len() {
        let grant = match grant_in(alloc, index + 1, lines[index]) {
            Ok(grant) => grant,
            Err(fault) => return Err(fault),
        };
        push_grant(&mut grants, grant)?;
    }
    Ok(Tokens { grants })
}

fn push_grant(grants: &mut Vec<Grant>, grant: Grant) -> Result<(), TokenFileFault>
    ensures pushed { OnOk result (map rule_of grants.new.items ≡ map rule_of grants.old.items ++ rule_of grant ∷ []) }
    ensures refused { IfErr result (λ fault. fault ≡ OutOfMemory) }
{
    match grants.push(grant) {
        Ok(()) => Ok(()),
        Err(_) => Err(TokenFileFault::Memory),
    }
}

/// What the line of this number grants.
fn grant_in(alloc: Global, number: usize, line: &str) -> Result<Grant, TokenFileFault>
    ensures { Answers rule_of (rule_in number (words line.now)) result }
{
    let Ok(words) = words_in(alloc, line) else {
        return Err(TokenFileFault::Memory);
    };
    match words.as_slice() {
        [] => Err(TokenFileFault::BadToken(number)),
        [token, origins @ ..] => {
            if !is_token(token) {
                return Err(TokenFileFault::BadToken(number));
            }
            let Ok(token) = String::from_str(alloc, token) else {
                return Err(TokenFileFault::Memory);
            };
            match keys_of(alloc, origins) {
                Ok(Some(keys)) => Ok(Grant {
                    token,
                    scope: scope_listed(keys),
                }),
                Ok(None) => Err(TokenFileFault::BadOrigin(number)),
                Err(Memory) => Err(TokenFileFault::Memory),
            }
        }
    }
}

/// The origins that stand on a line are all that may be opened, unless none stands there.
fn scope_listed(keys: Vec<OriginKey>) -> Scope
    ensures { reach_of result ≡ reach_listed keys.items }
{
    if keys.is_empty() {
        Scope::All
    } else {
        Scope::Only(keys)
    }
}

/// The origins of these words; none where a word has none.
fn keys_of(alloc: Global, words: &[&str]) -> Result<Option<Vec<OriginKey>>, Memory>
    ensures { IfOk result (λ keys. option_map (λ found. found.items) keys ≡ origins_of (map (λ w. w.now) words.now)) }
{
    let mut keys = Vec::new(alloc);
    for word in words {
        match origin_in(alloc, word)? {
            Some(key) => keys.push(key)?,
            None => return Ok(None),
        }
    }
    Ok(Some(keys))
}

fn lines_in(alloc: Global, text: &str) -> Result<Vec<&str>, AllocError>
    ensures { IfOk result (λ found. map (λ line. line.now) found.items ≡ lines text.now) }
{
    text.lines().collect(alloc)
}

/// What stands between spaces.
fn words_in(alloc: Global, line: &str) -> Result<Vec<&str>, AllocError>
    ensures { IfOk result (λ found. map (λ word. word.now) found.items ≡ words line.now) }
{
    let mut found = Vec::new(alloc);
    push_words(&mut found, pieces(alloc, line, ' ')?.as_slice())?;
    Ok(found)
}

/// Adds the pieces that are words.
fn push_words<'a>(found: &mut Vec<&'a str>, pieces: &[&'a str]) -> Result<(), AllocError>
    ensures { OnOk result (map (λ w. w.now) found.new.items
        ≡ map (λ w. w.now) found.old.items ++ filter (λ w. nat_lt 0 (length w)) (map (λ p. p.now) pieces.now)) }
{
    for piece in pieces {
        push_word(found, piece)?;
    }
    Ok(())
}

/// Adds a word, if it is one.
fn push_word<'a>(found: &mut Vec<&'a str>, word: &'a str) -> Result<(), AllocError>
    ensures { OnOk result (map (λ w. w.now) found.new.items
        ≡ map (λ w. w.now) found.old.items ++ filter (λ w. nat_lt 0 (length w)) (word.now ∷ [])) }
{
    if !word.is_empty() {
        found.push(word)?;
    }
    Ok(())
}
