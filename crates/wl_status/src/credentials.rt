//! The token that a request brings, and whether it lets the status be read.

ghost use Rattle.std.specs.Prelude.{◌≡◌, ◌≤◌, length, IfOk, map, option_and_then, option_map};
ghost use Rattle.std.specs.Option.{option_copied};
ghost use Rattle.wl_admission.specs.Scopes.{reach_of};
ghost use Rattle.wl_admission.specs.Tokens.{reach_by, rules_of};
ghost use Rattle.wl_status.specs.Credentials.{access_fault, basic_pair_of, fault_by, headers_fault, password_in};
ghost use Rattle.wl_status.specs.Credentials.{token_of, user_len};
ghost use Rattle.wl_status.specs.inner.Credentials.{AnswersFault};

use crate::routing::Refusal;
use base64::DecodeAllocError;
use base64::engine::general_purpose::STANDARD;
use std::alloc::{AllocError, Global};
use wl_admission::{Scope, Tokens, bearer_in_header};

/// What an `Authorization` header with a password begins with, in any case of its letters (RFC 7617, section 2).
const SCHEME: &[u8] = b"Basic ";

/// Why these `Authorization` headers don't let the status be read, if they don't. Where no token is wanted none is
/// looked at.
pub(crate) fn access_fault(
    alloc: Global,
    known: Option<&Tokens>,
    headers: &[&[u8]],
) -> Option<Refusal>
    ensures { AnswersFault (access_fault (option_map rules_of (option_copied known.entry))
        (map (λ h. h.now) headers.now)) result }
{
    headers_fault(alloc, known?, headers)
}

fn headers_fault(alloc: Global, known: &Tokens, headers: &[&[u8]]) -> Option<Refusal>
    ensures { AnswersFault (headers_fault (rules_of known.now) (map (λ h. h.now) headers.now)) result }
{
    match headers {
        [] => Some(Refusal::NoToken),
        [header] => header_fault(alloc, known, header),
        [_, _, ..] => Some(Refusal::BadRequest),
    }
}

fn header_fault(alloc: Global, known: &Tokens, header: &[u8]) -> Option<Refusal>
    ensures { AnswersFault (fault_by (option_and_then (reach_by (rules_of known.now)) (token_of header.now))) result }
{
    if let Some(token) = bearer_in_header(header) {
        return scope_fault(known.scope_of(token));
    }
    let pair = match basic_pair(alloc, header) {
        Ok(Some(pair)) => pair,
        Ok(None) => return Some(Refusal::NoToken),
        Err(AllocError) => return Some(Refusal::Memory),
    };
    let Some(token) = password_in(pair.as_slice()) else {
        return Some(Refusal::NoToken);
    };
    scope_fault(known.scope_of(token))
}

/// Why what a token opens doesn't let the status be read. None is the scope of a token that is unknown.
fn scope_fault(scope: Option<&Scope>) -> Option<Refusal>
    ensures { result ≡ fault_by (option_map (λ s. reach_of s.now) scope.entry) }
{
    match scope {
        None => Some(Refusal::NoToken),
        Some(Scope::All) => None,
        Some(Scope::Only(_)) => Some(Refusal::Forbidden),
    }
}

/// The user and the password of an `Authorization` header, with a colon between them, if it has them.
fn basic_pair(alloc: Global, header: &[u8]) -> Result<Option<Vec<u8>>, AllocError>
    ensures { IfOk result (λ found. option_map (λ pair. pair.items) found ≡ basic_pair_of header.now) }
{
    if header.len() < SCHEME.len() {
        return Ok(None);
    }
    let (scheme, rest) = header.split_at(SCHEME.len());
    if !scheme.eq_ignore_ascii_case(SCHEME) {
        return Ok(None);
    }
    match STANDARD.decode(alloc, rest) {
        Ok(pair) => Ok(Some(pair)),
        Err(DecodeAllocError::DecodeError(_)) => Ok(None),
        Err(DecodeAllocError::OutOfMemory) => Err(AllocError),
    }
}

/// What stands behind the first colon.
fn password_in(pair: &[u8]) -> Option<&[u8]>
    ensures { option_map (λ password. password.now) result ≡ password_in pair.now }
{
    let colon = user_len(pair);
    if colon < pair.len() {
        Some(&pair[colon + 1..])
    } else {
        None
    }
}

/// How many bytes stand before the first colon.
fn user_len(pair: &[u8]) -> usize
    ensures value { result ≡ user_len pair.now }
    ensures within { result ≤ length pair.now }
{
    pair.iter().take_while(|byte| **byte != b':').count()
}
