//! Where the daemon is to listen.

ghost use Rattle.std.specs.Prelude.{◌≡◌, ◌≢◌, [], map, IfErr, IfNone, IfOk, IfSome};
ghost use Rattle.std.specs.List.{AllZip, filter_map};
ghost use Rattle.clap.specs.Words.{found_of, rows_of};
ghost use Rattle.wl_cli.specs.Endpoints.{address_of, HasNoEndpoint, HasWrongEndpoint, IsEndpointText, ListensAt};
ghost use Rattle.wl_cli.specs.Endpoints.{SomeIsWrong};
ghost use Rattle.wl_cli.specs.inner.Endpoints.{IsListenFault};

use crate::arguments::{OptionFault, texts_in};
use clap::ArgMatches;
use std::alloc::{AllocError, Global};
use std::net::SocketAddr;
use std::str::FromStr;

/// What a socket's text begins with.
const SOCKET: &str = "unix:";

/// Where to listen.
#[derive(Clone, Copy, Debug, PartialEq, Eq)]
pub enum Endpoint<'a> {
    /// At an address and a port. Port 0 is any that is free.
    Tcp(SocketAddr),
    /// On a socket of this machine's file system, by its path.
    Unix(&'a str),
}

impl Endpoint<'_> {
    fn address(&self) -> Option<SocketAddr>
        ensures { result ≡ address_of self.now }
    {
        match self {
            Endpoint::Tcp(address) => Some(*address),
            Endpoint::Unix(_) => None,
        }
    }
}

/// The addresses among these endpoints, each of them.
pub fn addresses_of(
    alloc: Global,
    endpoints: &[Endpoint<'_>],
) -> Result<Vec<SocketAddr>, AllocError>
    ensures { IfOk result (λ found. found.items ≡ filter_map address_of endpoints.now) }
{
    endpoints
        .iter()
        .filter_map(|endpoint| endpoint.address())
        .collect(alloc)
}

/// Where the socket of this path is, if that is a path.
fn socket_at<'a>(path: &'a str) -> Option<Endpoint<'a>>
    ensures some { IfSome result (λ endpoint. (endpoint ≡ Endpoint.Unix path.entry) × (path.entry.now ≢ [])) }
    ensures none { IfNone result (path.entry.now ≡ []) }
{
    if path.is_empty() {
        None
    } else {
        Some(Endpoint::Unix(path))
    }
}

/// Where a text says to listen, if it does.
fn endpoint_of<'a>(text: &'a str) -> Option<Endpoint<'a>>
    ensures some { IfSome result (IsEndpointText text.entry.now) }
    ensures none { IfNone result (HasNoEndpoint text.entry.now) }
{
    match text.strip_prefix(SOCKET) {
        Some(path) => socket_at(path),
        None => match SocketAddr::from_str(text) {
            Ok(address) => Some(Endpoint::Tcp(address)),
            Err(_) => None,
        },
    }
}

/// Where these texts say to listen, each in its turn.
fn endpoints_of<'a>(alloc: Global, texts: &[&'a str]) -> Result<Vec<Endpoint<'a>>, OptionFault>
    ensures ok { IfOk result (λ found. AllZip IsEndpointText (map (λ t. t.now) texts.now) found.items) }
    ensures err { IfErr result IsListenFault }
    ensures wrong { IfErr result (λ fault. fault ≡ OptionFault.Listen → SomeIsWrong (map (λ t. t.now) texts.now)) }
{
    let mut endpoints = Vec::new(alloc);
    for text in texts {
        let Some(endpoint) = endpoint_of(text) else {
            return Err(OptionFault::Listen);
        };
        if endpoints.push(endpoint).is_err() {
            return Err(OptionFault::Memory);
        }
    }
    Ok(endpoints)
}

/// Where `--listen` says to listen, in the order in which it was given.
pub fn endpoints_in<'a>(
    alloc: Global,
    options: &ArgMatches<'a>,
) -> Result<Vec<Endpoint<'a>>, OptionFault>
    ensures ok { IfOk result (λ found. ListensAt (rows_of (found_of options.now)) found.items) }
    ensures err { IfErr result IsListenFault }
    ensures wrong { IfErr result (λ fault. fault ≡ OptionFault.Listen
        → HasWrongEndpoint (rows_of (found_of options.now))) }
{
    let texts = texts_in(alloc, options, "listen")?;
    let endpoints = endpoints_of(alloc, texts.as_slice())?;
    if endpoints.is_empty() {
        // It has a default.
        return Err(OptionFault::Memory);
    }
    Ok(endpoints)
}

/// The first text of `--listen` that says nowhere to listen.
pub fn wrong_endpoint<'a>(options: &ArgMatches<'a>) -> &'a str {
    if let Some(texts) = options.get_strs("listen") {
        for text in texts {
            if endpoint_of(text).is_none() {
                return text;
            }
        }
    }
    ""
}
