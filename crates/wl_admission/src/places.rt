//! How many may be connected at once.

ghost use Rattle.std.specs.Prelude.{◌≡◌, ◌+◌, ℕ, true, false, OnOk, OnErr, Err};
ghost use Rattle.wl_admission.specs.Places.{Counts, Frees, IsNumberOf, IsSourceOf, count_at, has_place, limit_for};
ghost use Rattle.wl_admission.specs.Places.{subnet_of, unix_peers};
ghost use Rattle.wl_admission.specs.declared.rejection.Rejection.TheVariants.{NoPlace};

use crate::rejection::Rejection;
use std::alloc::Global;
use std::collections::BTreeMap;
use std::net::IpAddr;

/// How many addresses of version 6 a subnet has, all of which one host may use: behind its 64 bits come those of the
/// interface (RFC 4291, section 2.5.1).
const INTERFACES: u128 = 1 << 64;

/// How many may be connected at once.
#[derive(Clone, Copy, Debug, PartialEq, Eq)]
pub struct PlaceLimits {
    /// In all.
    pub in_all: u32,
    /// From one address, or from all of one subnet of version 6.
    pub by_address: u32,
    /// From one address of this machine: whoever works for many others there, as a proxy, is one address.
    pub by_loopback: u32,
}

impl PlaceLimits {
    fn limit_for(&self, source: Source) -> u32
        ensures { result ≡ limit_for self.now source }
    {
        if source.is_loopback {
            self.by_loopback
        } else {
            self.by_address
        }
    }
}

/// An address, as connections are counted by it.
#[derive(Clone, Copy, Debug, PartialEq, Eq)]
pub struct Source {
    /// The address as a number. One of version 4 is the address of version 6 that stands for it (RFC 4291, section
    /// 2.5.5.2), so that it counts as one whichever way it came.
    pub number: u128,
    pub is_loopback: bool,
}

impl Source {
    /// The source of a connection from this address.
    pub fn of(address: IpAddr) -> Source
        ensures { IsSourceOf address result }
    {
        let address = address.to_canonical();
        Source {
            number: number_of(address),
            is_loopback: address.is_loopback(),
        }
    }

    /// Whoever comes over a Unix socket: all of them are one address of this machine, `::`, from which nobody else
    /// comes.
    pub fn of_unix_peers() -> Source
        ensures { result ≡ unix_peers }
    {
        Source {
            number: 0,
            is_loopback: true,
        }
    }

    /// The first address of its subnet, by which its connections are counted. The addresses before all subnets count
    /// by themselves: those of version 4, `::1`, and that of Unix sockets.
    fn subnet(self) -> u128
        ensures { result ≡ subnet_of self }
    {
        if self.number < INTERFACES {
            self.number
        } else {
            self.number - self.number % INTERFACES
        }
    }
}

/// An address as a number.
fn number_of(address: IpAddr) -> u128
    ensures { IsNumberOf address result }
{
    match address {
        IpAddr::V4(ip) => ip.to_ipv6_mapped().to_bits(),
        IpAddr::V6(ip) => ip.to_bits(),
    }
}

/// The places that are taken.
#[derive(Drop)]
pub struct Places {
    limits: PlaceLimits,
    taken: u32,
    // The subnets that have a place, with how many each has.
    by_subnet: BTreeMap<u128, u32>,
}

impl Places {
    /// None is taken yet.
    pub fn new(alloc: Global, limits: PlaceLimits) -> Places
        ensures taken { result.taken ≡ 0 }
        ensures counts { (number : ℕ) → count_at result number ≡ 0 }
        ensures limits { result.limits ≡ limits }
    {
        Places {
            limits,
            taken: 0,
            by_subnet: BTreeMap::new(alloc),
        }
    }

    /// How many are taken in all.
    pub fn count_in_use(&self) -> u32
        ensures { result ≡ self.now.taken }
    {
        self.taken
    }

    /// Takes a place for a connection from this address.
    pub fn take(&mut self, source: Source) -> Result<(), Rejection>
        ensures there { OnOk result (has_place self.old source ≡ true) }
        ensures taken { OnOk result (Counts self.old self.new (subnet_of source)
            (count_at self.old (subnet_of source) + 1) (self.old.taken + 1)) }
        ensures full { result ≡ Err NoPlace → has_place self.old source ≡ false }
        ensures refused { OnErr result (Counts self.old self.new (subnet_of source)
            (count_at self.old (subnet_of source)) self.old.taken) }
    {
        let subnet = source.subnet();
        let count = self.count(subnet);
        if self.taken >= self.limits.in_all || count >= self.limits.limit_for(source) {
            return Err(Rejection::NoPlace);
        }
        if self.by_subnet.insert(subnet, count + 1).is_err() {
            return Err(Rejection::Memory);
        }
        self.taken += 1;
        Ok(())
    }

    /// Gives the place of a connection from this address back.
    pub fn free(&mut self, source: Source)
        ensures { Frees self.old self.new (subnet_of source) }
    {
        let subnet = source.subnet();
        let count = self.count(subnet);
        if count == 0 {
            return;
        }
        self.taken = self.taken.saturating_sub(1);
        if count == 1 {
            self.by_subnet.remove(&subnet);
        } else {
            // Nothing is refused at a key that is there.
            let _ = self.by_subnet.insert(subnet, count - 1);
        }
    }

    /// How many places a subnet has.
    fn count(&self, number: u128) -> u32
        ensures { result ≡ count_at self.now number }
    {
        self.by_subnet.get(&number).copied().unwrap_or(0)
    }
}
