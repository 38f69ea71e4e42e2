//! The tokens that a handshake brings.

ghost use Rattle.std.specs.Prelude.{◌≡◌, ◌++◌, [], IfOk, OnOk, map, option_map};
ghost use Rattle.std.specs.List.{cons_option, filter_map};
ghost use Rattle.wl_admission.specs.Handshakes.{bearer_of, bearer_of_header, bearer_of_subprotocol};

use std::alloc::{AllocError, Global};

/// What an `Authorization` header with a token begins with, in any case of its letters (RFC 6750, section 2.1).
const SCHEME: &[u8] = b"Bearer ";

/// What a subprotocol with a token begins with. It is for pages, which can't set `Authorization`.
const PREFIX: &[u8] = b"weblocks.bearer.";

/// Where a token stands.
#[derive(Clone, Copy, Debug, PartialEq, Eq)]
pub enum Carrier {
    /// In an `Authorization` header.
    Header,
    /// In the name of a subprotocol.
    Subprotocol,
}

/// The tokens of these headers or subprotocols.
pub fn tokens_in<'a>(
    alloc: Global,
    carrier: Carrier,
    texts: &[&'a str],
) -> Result<Vec<&'a [u8]>, AllocError>
    ensures { IfOk result (λ found. map (λ t. t.now) found.items
        ≡ filter_map (bearer_of carrier) (map (λ text. text.now) texts.now)) }
{
    let mut found = Vec::new(alloc);
    for text in texts {
        push_given(&mut found, carrier.bearer_of(text))?;
    }
    Ok(found)
}

/// Adds a token, if there is one.
fn push_given<'a>(found: &mut Vec<&'a [u8]>, token: Option<&'a [u8]>) -> Result<(), AllocError>
    ensures { OnOk result (map (λ t. t.now) found.new.items
        ≡ map (λ t. t.now) found.old.items ++ cons_option (option_map (λ t. t.now) token.entry) []) }
{
    if let Some(token) = token {
        found.push(token)?;
    }
    Ok(())
}

impl Carrier {
    /// The token of a text.
    fn bearer_of(self, text: &str) -> Option<&[u8]>
        ensures { option_map (λ t. t.now) result ≡ bearer_of self text.now }
    {
        let bytes = text.as_bytes();
        match self {
            Carrier::Header => bearer_in_header(bytes),
            Carrier::Subprotocol => subprotocol_bearer(bytes),
        }
    }
}

/// The token of an `Authorization` header, if it has one of a bearer's.
pub fn bearer_in_header(bytes: &[u8]) -> Option<&[u8]>
    ensures { option_map (λ t. t.now) result ≡ bearer_of_header bytes.now }
{
    if bytes.len() < SCHEME.len() {
        return None;
    }
    let (scheme, token) = bytes.split_at(SCHEME.len());
    if scheme.eq_ignore_ascii_case(SCHEME) {
        Some(token)
    } else {
        None
    }
}

fn subprotocol_bearer(bytes: &[u8]) -> Option<&[u8]>
    ensures { option_map (λ t. t.now) result ≡ bearer_of_subprotocol bytes.now }
{
    if bytes.starts_with(PREFIX) {
        Some(&bytes[PREFIX.len()..])
    } else {
        None
    }
}
