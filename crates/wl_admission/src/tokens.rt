//! The tokens of a server, and what each may open.

ghost use Rattle.std.specs.Prelude.{◌≡◌, option_map};
ghost use Rattle.std.specs.Str.{bytes_eq};
ghost use Rattle.wl_admission.specs.Scopes.{reach_of};
ghost use Rattle.wl_admission.specs.Tokens.{is_token, is_token_byte, reach_by, reach_for, rule_of, rules_of};

use crate::scope::Scope;

/// A token, and what whoever has it may open. It has no `Debug`, so that no log gets a token.
#[derive(Drop)]
pub struct Grant {
    pub token: String,
    pub scope: Scope,
}

/// The tokens of a server.
#[derive(Drop)]
pub struct Tokens {
    pub grants: Vec<Grant>,
}

impl Tokens {
    /// What the first grant of this token lets open; nothing where there is none.
    ///
    /// All grants are looked at, and of each all bytes, whatever they are, so that the time tells how many there are
    /// and how long, but not how far a guess is right. That is how the code is written: no contract speaks of time.
    pub fn scope_of(&self, token: &[u8]) -> Option<&Scope>
        ensures { option_map (λ scope. reach_of scope.now) result ≡ reach_by (rules_of self.now) token.now }
    {
        let mut found = None;
        for grant in &self.grants {
            found = found.or(grant.scope_for(token));
        }
        found
    }
}

impl Grant {
    /// What it lets open, where this is its token.
    fn scope_for(&self, token: &[u8]) -> Option<&Scope>
        ensures { option_map (λ scope. reach_of scope.now) result ≡ reach_for (rule_of self.now) token.now }
    {
        if is_same_token(self.token.as_bytes(), token) {
            Some(&self.scope)
        } else {
            None
        }
    }
}

/// Whether two tokens are the same. No byte's value decides which steps are taken.
fn is_same_token(known: &[u8], given: &[u8]) -> bool
    ensures { result ≡ bytes_eq known.now given.now }
{
    if known.len() != given.len() {
        return false;
    }
    let mut is_same = true;
    for i in 0..known.len() {
        is_same &= known[i] == given[i];
    }
    is_same
}

/// Whether a text may be a token: some bytes, each one that a token of HTTP may have (RFC 7230, section 3.2.6), so that
/// it can stand in a header and in the name of a subprotocol.
pub fn is_token(text: &str) -> bool
    ensures { result ≡ is_token text.now }
{
    for byte in text.as_bytes() {
        if !is_token_byte(*byte) {
            return false;
        }
    }
    !text.is_empty()
}

#[tactic(auto, unfolding(crate::specs::Tokens::is_token_byte))]
fn is_token_byte(byte: u8) -> bool
    ensures { result ≡ is_token_byte byte }
{
    byte.is_ascii_alphanumeric() || MARKS.contains(&byte)
}

/// The bytes of tokens that are no letters and no digits.
const MARKS: &[u8] = b"!#$%&'*+-.^_`|~";
