//! Who is admitted.

ghost use Rattle.std.specs.Prelude.{◌≡◌, ◌++◌, Ok, Some, is_some, map, option_map};
ghost use Rattle.std.specs.List.{filter_map};
ghost use Rattle.std.specs.Option.{option_copied};
ghost use Rattle.wl_origin.specs.Standing.{tuple_of};
ghost use Rattle.wl_admission.specs.Scopes.{admits, reach_of};
ghost use Rattle.wl_admission.specs.Tokens.{reach_by, rules_of};
ghost use Rattle.wl_admission.specs.declared.credentials.Carrier.TheVariants.{Header};
ghost use Rattle.wl_admission.specs.Handshakes.{Answers, bearer_of, may_open, reach_or_unknown, terms_at, terms_for};
ghost use Rattle.wl_admission.specs.Handshakes.{terms_of, token_reach};

use crate::credentials::{Carrier, tokens_in};
use crate::page::sender_scope;
use crate::rejection::Rejection;
use crate::scope::Scope;
use crate::subprotocols::{Subprotocol, selected_of, subprotocols};
use crate::targets::shard_scope;
use crate::tokens::Tokens;
use std::alloc::Global;
use wl_origin::Standing;

/// What of a handshake decides whether it is admitted: its target, and headers, each with its values in their order.
#[derive(Clone, Copy, Debug)]
pub struct Hello<'a> {
    /// The request's target, as it was sent.
    pub target: &'a str,
    /// `Origin`.
    pub origins: &'a [&'a str],
    /// `Authorization`.
    pub authorizations: &'a [&'a str],
    /// `Sec-WebSocket-Protocol`.
    pub subprotocols: &'a [&'a str],
}

/// Whom a server admits.
#[derive(Drop)]
pub struct Rules {
    /// The origins whose pages may open all URLs, as programs may.
    pub trusted: Scope,
    /// The tokens of which a handshake has to bring one; none where it need not.
    pub tokens: Option<Tokens>,
    /// Whether the subprotocol `weblocks.fence` may be selected, for which a server needs an epoch.
    pub has_fences: bool,
    /// Whether a handshake has to name, by its target, the one origin whose URLs it may open.
    pub is_sharded: bool,
}

/// Whoever was admitted.
#[derive(Debug, Drop)]
pub struct Admitted {
    /// What the handshake's target lets open.
    pub shard: Scope,
    /// What the page that sent the handshake may open.
    pub page: Scope,
    /// What the handshake's token lets open.
    pub token: Scope,
    /// The subprotocol that is selected, if one is.
    pub selected: Option<Subprotocol>,
}

impl Admitted {
    /// Whether changes are pushed, as over each subprotocol that a server selects.
    pub fn is_pushed(&self) -> bool
        ensures { result ≡ is_some self.now.selected }
    {
        self.selected.is_some()
    }

    /// Whether a URL of this origin may be opened.
    pub fn may_open(&self, origin: &Standing) -> bool
        ensures { result ≡ may_open (terms_for self.now) (tuple_of origin.now) }
    {
        self.shard.admits(origin) && self.page.admits(origin) && self.token.admits(origin)
    }
}

/// Whether a handshake is admitted, and what it may open. A refusal is to be answered by its status of HTTP. Of several
/// reasons the first counts, in this order: the target, the `Origin` headers, a token without a subprotocol that the
/// server selects, the number of tokens, the token.
pub fn admit(alloc: Global, hello: &Hello<'_>, rules: &Rules) -> Result<Admitted, Rejection>
    ensures { Answers terms_for (terms_of rules.now.is_sharded (reach_of rules.now.trusted)
        (option_map rules_of rules.now.tokens) rules.now.has_fences hello.now.target.now
        (map (λ h. h.now) hello.now.origins.now) (map (λ h. h.now) hello.now.authorizations.now)
        (map (λ h. h.now) hello.now.subprotocols.now)) result }
{
    let shard = shard_scope(alloc, hello.target, rules.is_sharded)?;
    admit_at(alloc, hello, rules, shard)
}

/// Whether a handshake whose target lets this open is admitted, by its headers.
fn admit_at(
    alloc: Global,
    hello: &Hello<'_>,
    rules: &Rules,
    shard: Scope,
) -> Result<Admitted, Rejection>
    ensures { Answers terms_for (terms_at (Ok (reach_of shard)) (reach_of rules.now.trusted)
        (option_map rules_of rules.now.tokens) rules.now.has_fences (map (λ h. h.now) hello.now.origins.now)
        (map (λ h. h.now) hello.now.authorizations.now) (map (λ h. h.now) hello.now.subprotocols.now)) result }
{
    let page = sender_scope(alloc, hello.origins, &rules.trusted)?;
    let Ok(offers) = subprotocols(alloc, hello.subprotocols) else {
        return Err(Rejection::Memory);
    };
    let selected = selected_of(offers.as_slice(), rules.has_fences);
    let Ok(tokens) = tokens_in(alloc, Carrier::Subprotocol, offers.as_slice()) else {
        return Err(Rejection::Memory);
    };
    if !tokens.is_empty() && selected.is_none() {
        return Err(Rejection::TokenAlone);
    }
    let token = token_scope(
        alloc,
        hello.authorizations,
        tokens.as_slice(),
        rules.tokens.as_ref(),
    )?;
    Ok(Admitted {
        shard,
        page,
        token,
        selected,
    })
}

/// What a handshake's one token lets open. Where no token is wanted none is looked at.
fn token_scope<'a>(
    alloc: Global,
    authorizations: &[&'a str],
    in_subprotocols: &[&'a [u8]],
    known: Option<&Tokens>,
) -> Result<Scope, Rejection>
    ensures { Answers reach_of (token_reach (option_map rules_of (option_copied known.entry))
        (filter_map (bearer_of Header) (map (λ h. h.now) authorizations.now) ++ map (λ t. t.now) in_subprotocols.now))
        result }
{
    let Some(known) = known else {
        return Ok(Scope::All);
    };
    let Ok(mut tokens) = tokens_in(alloc, Carrier::Header, authorizations) else {
        return Err(Rejection::Memory);
    };
    if tokens.extend_from_slice(in_subprotocols).is_err() {
        return Err(Rejection::Memory);
    }
    scope_of_one(alloc, known, tokens.as_slice())
}

/// What the one token lets open.
fn scope_of_one(alloc: Global, known: &Tokens, tokens: &[&[u8]]) -> Result<Scope, Rejection>
    ensures { Answers reach_of (token_reach (Some (rules_of known.now)) (map (λ t. t.now) tokens.now)) result }
{
    match tokens {
        [] => Err(Rejection::NoToken),
        [token] => scope_by(alloc, known, token),
        _ => Err(Rejection::SeveralTokens),
    }
}

/// What a token lets open.
fn scope_by(alloc: Global, known: &Tokens, token: &[u8]) -> Result<Scope, Rejection>
    ensures { Answers reach_of (reach_or_unknown (reach_by (rules_of known.now) token.now)) result }
{
    match known.scope_of(token) {
        Some(scope) => match scope.copy(alloc) {
            Ok(scope) => Ok(scope),
            Err(_) => Err(Rejection::Memory),
        },
        None => Err(Rejection::UnknownToken),
    }
}
