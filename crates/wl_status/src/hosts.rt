//! Which `Host` a request may name.

ghost use Rattle.std.specs.Prelude.{◌≡◌, map, string_bytes};
ghost use Rattle.std.specs.List.{list_any};
ghost use Rattle.wl_status.specs.Hosts.{is_known, is_one_known, is_port, names, same_text};

use std::alloc::{AllocError, Global};
use std::net::SocketAddr;

/// The port that a URL of `http` needn't name.
const DEFAULT_PORT: &str = ":80";

/// Which `Host` a request may name. A page that a stranger wrote can have its name point here, but then it says that
/// name.
#[derive(Debug, Drop)]
pub struct Hosts {
    /// Names with their port.
    pub in_full: Vec<String>,
    /// Names by which others reach the server, as through a proxy: with any port, or none.
    pub names: Vec<String>,
}

impl Hosts {
    /// Those of a server that listens at this address: the address and the names of this machine with its port, and
    /// further names.
    pub fn of(alloc: Global, address: SocketAddr, names: &[&str]) -> Result<Hosts, AllocError> {
        let mut hosts = Hosts {
            in_full: Vec::new(alloc),
            names: Vec::new(alloc),
        };
        let port = address.port();
        for name in ["localhost", "127.0.0.1", "[::1]"] {
            hosts.push_in_full(alloc, format!(in alloc; "{name}:{port}")?)?;
        }
        hosts.push_in_full(alloc, format!(in alloc; "{address}")?)?;
        for name in names {
            hosts.names.push(format!(in alloc; "{name}")?)?;
        }
        Ok(hosts)
    }

    /// Adds a name with its port; and without it, where that is the one that needn't be named.
    fn push_in_full(&mut self, alloc: Global, text: String) -> Result<(), AllocError> {
        if let Some(name) = text.as_str().strip_suffix(DEFAULT_PORT) {
            self.in_full.push(format!(in alloc; "{name}")?)?;
        }
        Ok(self.in_full.push(text)?)
    }

    /// Whether a request with these `Host` headers names one of these.
    pub fn is_one_known(&self, hosts: &[&[u8]]) -> bool
        ensures { result ≡ is_one_known self.now (map (λ h. h.now) hosts.now) }
    {
        match hosts {
            [host] => self.is_known(host),
            _ => false,
        }
    }

    fn is_known(&self, host: &[u8]) -> bool
        ensures { result ≡ is_known self.now host.now }
    {
        has_text(self.in_full.as_slice(), host) || has_name(self.names.as_slice(), host)
    }
}

fn has_text(texts: &[String], host: &[u8]) -> bool
    ensures { result ≡ list_any (λ text. same_text host.now (string_bytes text)) texts.now }
{
    texts.iter().any(|text| is_same_text(host, text.as_bytes()))
}

fn has_name(known: &[String], host: &[u8]) -> bool
    ensures { result ≡ list_any (λ name. names host.now (string_bytes name)) known.now }
{
    known.iter().any(|name| is_named(host, name.as_bytes()))
}

fn is_same_text(a: &[u8], b: &[u8]) -> bool
    ensures { result ≡ same_text a.now b.now }
{
    a.eq_ignore_ascii_case(b)
}

/// Whether a host is this name, with a port or none. What stands behind the colon was read as a port before.
fn is_named(host: &[u8], name: &[u8]) -> bool
    ensures { result ≡ names host.now name.now }
{
    let (front, rest) = host.split_at(name.len().min(host.len()));
    is_same_text(front, name) && is_port(rest)
}

fn is_port(rest: &[u8]) -> bool
    ensures { result ≡ is_port rest.now }
{
    rest.is_empty() || rest.starts_with(b":")
}
