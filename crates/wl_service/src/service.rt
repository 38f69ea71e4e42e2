//! The service.

ghost use Rattle.std.specs.Prelude.{◌≡◌, ◌≢◌, true, is_some, IfErr, Some, Ok};
ghost use Rattle.wl_origin.specs.Bucket.{default_bucket};
ghost use Rattle.wl_origin.specs.Opening.{manager_of};
ghost use Rattle.wl_service.specs.Clients.{number_of};
ghost use Rattle.wl_service.specs.declared.fault.OpenFault.TheVariants.{BadBucket, BadUrl};
ghost use Rattle.wl_service.specs.Opening.{Opens};

use crate::client::{Client, Leaving};
use crate::directory::{Core, Directory, Keeping, fault_of};
use crate::fault::OpenFault;
use std::alloc::Global;
use std::random::RandomSource;
use std::sync::{Arc, Mutex, Wait};
use wl_index::random_seed;
use wl_manager::{Agent, Bell, CoarseClock, Manager, Recent, Visitor};
use wl_origin::{ManagerFault, ManagerKey, manager_of, manager_of_text};
use wl_types::{Kind, Memory, Text};

/// The managers of all buckets of all origins. A manager is made when the first client of its bucket opens, and stays
/// for as long as the service's `Keeping` says.
#[derive(Drop)]
pub struct Service {
    pub(crate) directory: Mutex<Directory>,
    keeping: Keeping,
    pub(crate) alloc: Global,
}

impl Service {
    /// A service without managers, which keeps each that it makes. `Memory` comes only where the system gives no random
    /// words for the seed of its cores.
    pub fn new<R: RandomSource>(rt: &R, alloc: Global) -> Result<Service, Memory> {
        Service::with_keeping(rt, alloc, Keeping::Each)
    }

    /// A service without managers, which keeps these; its cores have one seed. `Memory` as of `new`.
    pub fn with_keeping<R: RandomSource>(
        rt: &R,
        alloc: Global,
        keeping: Keeping,
    ) -> Result<Service, Memory> {
        Service::with_clock(rt, alloc, keeping, None)
    }

    /// As `with_keeping`, of a service whose managers note by this clock when requests are asked for and granted.
    pub fn with_clock<R: RandomSource>(
        rt: &R,
        alloc: Global,
        keeping: Keeping,
        clock: Option<CoarseClock>,
    ) -> Result<Service, Memory> {
        let seed = random_seed(rt)?;
        Ok(Service {
            directory: Mutex::new(Directory::new(alloc, seed, clock)),
            keeping,
            alloc,
        })
    }

    /// Opens a window or worker at a URL, in the bucket `default`: as `open_in`, but never `BadBucket`.
    pub fn open<R: Wait>(&self, rt: &R, url: &str, kind: Kind) -> Result<Client, OpenFault>
        ensures opens { Opens (manager_of url.now default_bucket) kind result }
        ensures fault { IfErr result (λ fault. fault ≢ BadBucket) }
    {
        self.open_in(rt, url, "default", kind)
    }

    /// Opens a window or worker at a URL, in a bucket of its origin: an agent of that bucket's manager, or, where the
    /// origin is opaque, a client that is refused. A manager that is there opens its agent under its own lock alone; a
    /// new one opens its first under the directory's, so that two who open a new bucket at once get one manager.
    pub fn open_in<R: Wait>(
        &self,
        rt: &R,
        url: &str,
        bucket: &str,
        kind: Kind,
    ) -> Result<Client, OpenFault>
        ensures { Opens (manager_of url.now bucket.now) kind result }
    {
        let found = manager_of(self.alloc, url, bucket);
        self.open_found(rt, found, kind, None)
    }

    /// As `open_in`, but keeps the bucket's text, and so makes no copy of it.
    pub fn open_in_text<R: Wait>(
        &self,
        rt: &R,
        url: &str,
        bucket: Text,
        kind: Kind,
    ) -> Result<Client, OpenFault>
        ensures { Opens (manager_of url.now bucket) kind result }
    {
        self.open_heard(rt, url, bucket, kind, None)
    }

    /// As `open_in_text`, of a client that rings this bell when its requests change.
    pub fn open_heard<R: Wait>(
        &self,
        rt: &R,
        url: &str,
        bucket: Text,
        kind: Kind,
        bell: Option<Bell>,
    ) -> Result<Client, OpenFault>
        ensures { Opens (manager_of url.now bucket) kind result }
    {
        let found = manager_of_text(self.alloc, url, bucket);
        self.open_found(rt, found, kind, bell)
    }

    fn open_found<R: Wait>(
        &self,
        rt: &R,
        found: Result<Option<ManagerKey>, ManagerFault>,
        kind: Kind,
        bell: Option<Bell>,
    ) -> Result<Client, OpenFault>
        ensures { Opens found kind result }
    {
        match found {
            Err(ManagerFault::BadUrl) => Err(OpenFault::BadUrl),
            Err(ManagerFault::BadBucket) => Err(OpenFault::BadBucket),
            Err(ManagerFault::Memory) => Err(OpenFault::Memory),
            Ok(None) => Ok(Client::opaque(kind)),
            Ok(Some(key)) => self.open_at(rt, key, kind, bell),
        }
    }

    fn open_at<R: Wait>(
        &self,
        rt: &R,
        key: ManagerKey,
        kind: Kind,
        bell: Option<Bell>,
    ) -> Result<Client, OpenFault>
        ensures { Opens (Ok (Some key)) kind result }
    {
        let own = self.clients_key(&key)?;
        match self.open_agent(rt, key, kind, bell) {
            Ok(agent) => Ok(Client::of_manager(agent, own)),
            Err(fault) => {
                // Its manager may have lost its last client meanwhile.
                if let Some(own) = own {
                    self.drop_unused(rt, &own);
                }
                Err(fault)
            }
        }
    }

    /// The key that a client is to have: none where its manager stays in any case.
    fn clients_key(&self, key: &ManagerKey) -> Result<Option<ManagerKey>, OpenFault>
        ensures { IfErr result (λ fault. fault ≡ OpenFault.Memory) }
    {
        match self.keeping {
            Keeping::Each => Ok(None),
            Keeping::Used { .. } => match key.copy(self.alloc) {
                Ok(copy) => Ok(Some(copy)),
                Err(Memory) => Err(OpenFault::Memory),
            },
        }
    }

    /// A new agent of the key's manager.
    fn open_agent<R: Wait>(
        &self,
        rt: &R,
        key: ManagerKey,
        kind: Kind,
        bell: Option<Bell>,
    ) -> Result<Agent<Core, Recent>, OpenFault>
        ensures { IfErr result (λ fault. (fault ≢ BadUrl) × (fault ≢ BadBucket)) }
    {
        let mut directory = self.directory.lock(rt);
        if let Some(manager) = directory.find(&key) {
            let manager = Arc::try_clone(manager).map_err(|_| OpenFault::Memory)?;
            drop(directory);
            return Manager::open_heard(&manager, rt, kind, bell).map_err(fault_of);
        }
        if let Keeping::Used { most } = self.keeping {
            if directory.len() >= most {
                return Err(OpenFault::TooManyManagers);
            }
        }
        directory.add(rt, self.alloc, key, kind, bell)
    }

    /// Ends a client that was opened here: as `Client::terminate`, and a manager that has no client then, and no
    /// ticket, is dropped unless the service keeps each. What else the client had, as its tickets, should be dropped
    /// before.
    pub fn close<R: Wait>(&self, rt: &R, client: Client) -> Option<Leaving>
        ensures { is_some result ≡ is_some (number_of client) }
    {
        let (leaving, key) = client.close(rt);
        if let Some(key) = key {
            self.drop_unused(rt, &key);
        }
        leaving
    }

    /// Drops the key's manager if nobody uses it, unless the service keeps each.
    pub(crate) fn drop_unused<R: Wait>(&self, rt: &R, key: &ManagerKey) {
        if let Keeping::Used { .. } = self.keeping {
            // It is dropped once the directory's lock is free.
            let unused = self.directory.lock(rt).take_unused(key);
            drop(unused);
        }
    }

    /// How many managers there are.
    pub fn managers<R: Wait>(&self, rt: &R) -> usize {
        self.directory.lock(rt).len()
    }

    /// Shows the entries of the key's manager without the directory's lock, and answers true: all of them, or where
    /// its journal was cut those since then. It answers false and calls nobody where the key has no manager. `Memory`
    /// comes only where the manager's count of owners is used up.
    pub fn visit<R: Wait, V: Visitor>(
        &self,
        rt: &R,
        key: &ManagerKey,
        visitor: &mut V,
    ) -> Result<bool, Memory>
        ensures { result ≢ Ok true → visitor.new ≡ visitor.old }
    {
        let manager = match self.directory.lock(rt).find(key) {
            Some(manager) => Arc::try_clone(manager)?,
            None => return Ok(false),
        };
        manager.visit(rt, visitor);
        Ok(true)
    }
}
