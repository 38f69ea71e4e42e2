//! Who may come in, by the words of the command line.

ghost use Rattle.std.specs.Prelude.{◌≡◌, ◌||◌, false, is_some, Err, None, Some, filter, map, IfOk, OnOk};
ghost use Rattle.std.specs.List.{All, list_any};
ghost use Rattle.wl_admission.specs.Loopback.{IsOfThisMachine};
ghost use Rattle.wl_admission.specs.Scopes.{reach_of};
ghost use Rattle.wl_admission.specs.Tokens.{origins_of};
ghost use Rattle.wl_daemon.specs.declared.entry.EntryFault.TheVariants.{BadOrigin};
ghost use Rattle.wl_daemon.specs.Entry.{is_named, is_star, places_for, trusted_reach};

use crate::token_file::{FileFault, TokenFile};
use std::alloc::{AllocError, Global};
use std::fs::Files;
use std::net::SocketAddr;
use thiserror::Error;
use wl_admission::{PlaceLimits, Rules, Scope, Tokens, is_of_this_machine, origin_in};
use wl_origin::OriginKey;
use wl_types::Memory;

/// Why a server begins with no rules.
#[derive(Clone, Copy, Debug, PartialEq, Eq, Drop, Error)]
pub enum EntryFault<'a> {
    #[error("not an origin: {0}")]
    BadOrigin(&'a str),
    #[error("token file: {0}")]
    File(FileFault),
    /// It would listen beyond this machine without tokens.
    #[error("{0} is reached from other machines, and there is no --token-file: with --open all may come in")]
    Exposed(SocketAddr),
    #[error("out of memory")]
    Memory,
}

/// Whether a server may listen: where its address is of this machine alone, where it wants tokens, or where it is asked
/// to let all come in.
pub fn may_listen(is_loopback: bool, has_tokens: bool, is_open: bool) -> bool
    ensures { result ≡ (is_loopback || (has_tokens || is_open)) }
{
    is_loopback || has_tokens || is_open
}

/// How many may be connected at once.
pub fn places_for(connections: u32, per_address: Option<u32>) -> PlaceLimits
    ensures { result ≡ places_for connections per_address }
{
    let quarter = (u64::from(connections) + 3) / 4;
    PlaceLimits {
        in_all: connections,
        by_address: per_address.unwrap_or(quarter as u32),
        by_loopback: per_address.unwrap_or(connections),
    }
}

/// The scope of pages of these origins: `*` stands for all. What stands beside it has to be an origin too.
pub fn trusted_scope<'a>(alloc: Global, origins: &[&'a str]) -> Result<Scope, EntryFault<'a>>
    ensures made { IfOk result (λ scope. trusted_reach (map (λ o. o.now) origins.now) ≡ Some (reach_of scope)) }
    ensures bad { (text : _) → result ≡ Err (BadOrigin text) → trusted_reach (map (λ o. o.now) origins.now) ≡ None }
{
    let Ok(named) = named_in(alloc, origins) else {
        return Err(EntryFault::Memory);
    };
    let keys = keys_of(alloc, named.as_slice())?;
    Ok(if are_all(origins) {
        Scope::All
    } else {
        Scope::Only(keys)
    })
}

/// Those of these texts that name an origin.
fn named_in<'a>(alloc: Global, texts: &[&'a str]) -> Result<Vec<&'a str>, AllocError>
    ensures { IfOk result (λ named. map (λ t. t.now) named.items ≡ filter is_named (map (λ t. t.now) texts.now)) }
{
    let mut named = Vec::new(alloc);
    for text in texts {
        if *text != "*" {
            named.push(*text)?;
        }
    }
    Ok(named)
}

/// Whether one of these texts stands for all origins.
fn are_all(texts: &[&str]) -> bool
    ensures { result ≡ list_any is_star (map (λ t. t.now) texts.now) }
{
    texts.contains(&"*")
}

/// The origins of these texts.
fn keys_of<'a>(alloc: Global, texts: &[&'a str]) -> Result<Vec<OriginKey>, EntryFault<'a>>
    ensures made { IfOk result (λ keys. origins_of (map (λ t. t.now) texts.now) ≡ Some keys.items) }
    ensures bad { (text : _) → result ≡ Err (BadOrigin text) → origins_of (map (λ t. t.now) texts.now) ≡ None }
{
    let mut keys = Vec::new(alloc);
    for text in texts {
        match origin_in(alloc, text) {
            Ok(Some(key)) => {
                if keys.push(key).is_err() {
                    return Err(EntryFault::Memory);
                }
            }
            Ok(None) => return Err(EntryFault::BadOrigin(text)),
            Err(Memory) => return Err(EntryFault::Memory),
        }
    }
    Ok(keys)
}

/// The rules of a server whose pages and tokens are these, which may have fencing tokens to give, and may want each
/// handshake to name its origin.
pub fn rules_with<'a>(
    alloc: Global,
    origins: &[&'a str],
    tokens: Option<Tokens>,
    has_fences: bool,
    is_sharded: bool,
) -> Result<Rules, EntryFault<'a>>
    ensures trusted { IfOk result (λ rules. trusted_reach (map (λ o. o.now) origins.now)
        ≡ Some (reach_of rules.trusted)) }
    ensures tokens { IfOk result (λ rules. rules.tokens ≡ tokens) }
    ensures fences { IfOk result (λ rules. rules.has_fences ≡ has_fences) }
    ensures sharded { IfOk result (λ rules. rules.is_sharded ≡ is_sharded) }
{
    Ok(Rules {
        trusted: trusted_scope(alloc, origins)?,
        tokens,
        has_fences,
        is_sharded,
    })
}

/// Refuses an address that is reached from other machines, where whoever comes there would be let in, or told the
/// status.
pub fn check_address<'a>(
    address: SocketAddr,
    has_tokens: bool,
    is_open: bool,
) -> Result<(), EntryFault<'a>>
    ensures guarded { OnOk result (is_open ≡ false → has_tokens ≡ false → IsOfThisMachine address) }
{
    if may_listen(is_of_this_machine(address), has_tokens, is_open) {
        Ok(())
    } else {
        Err(EntryFault::Exposed(address))
    }
}

/// Refuses the first address that is reached from other machines, where whoever comes there would be let in.
fn check_addresses<'a>(
    addresses: &[SocketAddr],
    has_tokens: bool,
    is_open: bool,
) -> Result<(), EntryFault<'a>>
    ensures guarded { OnOk result (is_open ≡ false → has_tokens ≡ false → All IsOfThisMachine addresses.now) }
{
    for address in addresses {
        check_address(*address, has_tokens, is_open)?;
    }
    Ok(())
}

/// The rules of the network of a server that listens at these addresses.
pub fn read_rules<'a, R: Files + AllocGlobal>(
    rt: &R,
    addresses: &[SocketAddr],
    is_open: bool,
    origins: &[&'a str],
    file: Option<&mut TokenFile<'_>>,
    has_fences: bool,
    is_sharded: bool,
) -> Result<Rules, EntryFault<'a>>
    ensures trusted { IfOk result (λ rules. trusted_reach (map (λ o. o.now) origins.now)
        ≡ Some (reach_of rules.trusted)) }
    ensures fences { IfOk result (λ rules. rules.has_fences ≡ has_fences) }
    ensures sharded { IfOk result (λ rules. rules.is_sharded ≡ is_sharded) }
    ensures guarded { IfOk result (λ rules. is_open ≡ false → is_some rules.tokens ≡ false
        → All IsOfThisMachine addresses.now) }
{
    check_addresses(addresses, file.is_some(), is_open)?;
    let tokens = match file {
        Some(file) => match file.read(rt) {
            Ok(tokens) => Some(tokens),
            Err(fault) => return Err(EntryFault::File(fault)),
        },
        None => None,
    };
    rules_with(rt.alloc(), origins, tokens, has_fences, is_sharded)
}
