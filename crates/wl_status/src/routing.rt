//! Which request is answered by what.

ghost use Rattle.std.specs.Prelude.{◌≡◌, option_map};
ghost use Rattle.std.specs.Option.{option_copied};
ghost use Rattle.wl_admission.specs.Scopes.{tuple_in};
ghost use Rattle.wl_admission.specs.Tokens.{rules_of};
ghost use Rattle.wl_status.specs.Routes.{form_text, health_status, is_read, known_origin, locks_for, origin_part};
ghost use Rattle.wl_status.specs.Routes.{resource_at, route_of, route_to, status_of, Answers};

use crate::credentials::access_fault;
use crate::hosts::Hosts;
use form_urlencoded::decode;
use std::alloc::{AllocError, Global};
use wl_admission::{Tokens, origin_in};
use wl_origin::OriginKey;
use wl_types::Memory;

/// What a query begins with that names an origin.
const KEY: &[u8] = b"origin=";

/// What of a request decides how it is answered.
#[derive(Clone, Copy, Debug)]
pub struct Head<'a> {
    pub method: &'a str,
    /// Whether the target is a path and a query alone (RFC 9112, section 3.2.1).
    pub is_origin_form: bool,
    pub path: &'a str,
    pub query: Option<&'a str>,
    /// The values of `Host`.
    pub hosts: &'a [&'a [u8]],
    /// The values of `Authorization`.
    pub authorizations: &'a [&'a [u8]],
}

/// What there is to be read.
#[derive(Clone, Copy, Debug, PartialEq, Eq)]
pub enum Resource {
    Health,
    Metrics,
    Locks,
    Page,
}

/// What a request is answered by.
#[derive(Debug, Drop)]
pub enum Route {
    Health,
    Metrics,
    /// The locks of all origins, or of one.
    Locks(Option<OriginKey>),
    Page,
}

/// Why a request is refused.
#[derive(Clone, Copy, Debug, PartialEq, Eq)]
pub enum Refusal {
    /// Its target or its host isn't the server's, it has several credentials, or its query isn't one.
    BadRequest,
    /// A token is wanted, and it has none that is known.
    NoToken,
    /// Its token opens some origins alone.
    Forbidden,
    NotFound,
    WrongMethod,
    /// A growth was refused.
    Memory,
}

impl From<AllocError> for Refusal {
    fn from(_refused: AllocError) -> Refusal {
        Refusal::Memory
    }
}

impl Refusal {
    /// The status of HTTP.
    pub fn status(self) -> u16
        ensures { result ≡ status_of self }
    {
        match self {
            Refusal::BadRequest => 400,
            Refusal::NoToken => 401,
            Refusal::Forbidden => 403,
            Refusal::NotFound => 404,
            Refusal::WrongMethod => 405,
            Refusal::Memory => 503,
        }
    }

    /// What the answer's body says.
    pub fn text(self) -> &'static str {
        match self {
            Refusal::BadRequest => "bad request\n",
            Refusal::NoToken => "a token is wanted\n",
            Refusal::Forbidden => "the token is for some origins alone\n",
            Refusal::NotFound => "not found\n",
            Refusal::WrongMethod => "only GET and HEAD\n",
            Refusal::Memory => "out of memory\n",
        }
    }
}

/// The status of what says whether a server is healthy.
pub fn health_status(is_healthy: bool) -> u16
    ensures { result ≡ health_status is_healthy }
{
    if is_healthy { 200 } else { 503 }
}

/// What a request is answered by, where one of these tokens is wanted, or none.
pub fn find_route(
    alloc: Global,
    hosts: &Hosts,
    tokens: Option<&Tokens>,
    head: &Head<'_>,
) -> Result<Route, Refusal>
    ensures { Answers (route_of hosts.now (option_map rules_of (option_copied tokens.entry)) head.now) result }
{
    if !head.is_origin_form || !hosts.is_one_known(head.hosts) {
        return Err(Refusal::BadRequest);
    }
    if let Some(why) = access_fault(alloc, tokens, head.authorizations) {
        return Err(why);
    }
    let Some(resource) = resource_at(head.path) else {
        return Err(Refusal::NotFound);
    };
    if !is_read(head.method) {
        return Err(Refusal::WrongMethod);
    }
    route_to(alloc, resource, head.query)
}

fn resource_at(path: &str) -> Option<Resource>
    ensures { result ≡ resource_at path.now }
{
    match path {
        "/health" => Some(Resource::Health),
        "/metrics" => Some(Resource::Metrics),
        "/locks" => Some(Resource::Locks),
        "/" => Some(Resource::Page),
        _ => None,
    }
}

fn is_read(method: &str) -> bool
    ensures { result ≡ is_read method.now }
{
    method == "GET" || method == "HEAD"
}

fn route_to(alloc: Global, resource: Resource, query: Option<&str>) -> Result<Route, Refusal>
    ensures { Answers (route_to resource (option_map (λ q. q.now) query.entry)) result }
{
    match resource {
        Resource::Health => Ok(Route::Health),
        Resource::Metrics => Ok(Route::Metrics),
        Resource::Locks => locks_for(alloc, query),
        Resource::Page => Ok(Route::Page),
    }
}

fn locks_for(alloc: Global, query: Option<&str>) -> Result<Route, Refusal>
    ensures { Answers (locks_for (option_map (λ q. q.now) query.entry)) result }
{
    let Some(query) = query else {
        return Ok(Route::Locks(None));
    };
    match origin_part(query.as_bytes()) {
        Some(part) => locks_of(alloc, part),
        None => Err(Refusal::BadRequest),
    }
}

/// What stands behind the key of a query that has this one field.
fn origin_part(query: &[u8]) -> Option<&[u8]>
    ensures { option_map (λ part. part.now) result ≡ origin_part query.now }
{
    if query.len() < KEY.len() {
        return None;
    }
    let (front, part) = query.split_at(KEY.len());
    if front == KEY && !part.contains(&b'&') {
        Some(part)
    } else {
        None
    }
}

/// The locks of the origin that a part of a query names.
fn locks_of(alloc: Global, part: &[u8]) -> Result<Route, Refusal>
    ensures { Answers (known_origin (tuple_in (form_text part.now))) result }
{
    let Ok(text) = decode(alloc, part) else {
        return Err(Refusal::Memory);
    };
    match origin_in(alloc, text.as_str()) {
        Ok(Some(origin)) => Ok(Route::Locks(Some(origin))),
        Ok(None) => Err(Refusal::BadRequest),
        Err(Memory) => Err(Refusal::Memory),
    }
}
