//! What a request keeps, which is made before the lock is taken.

ghost use Rattle.std.specs.Prelude.{◌≡◌, IfOk};
ghost use Rattle.wl_types.specs.declared.phases.Phase.TheVariants.{Pending};

use crate::inbox::Inbox;
use std::alloc::Global;
use std::sync::Arc;
use wl_cell::{Keeper, Owner, cell};
use wl_journal::copy_ask;
use wl_types::{Ask, Memory};

/// What a request that is admitted keeps: the journal's own ask, both ends of its cell, and the inbox that its changes
/// go to.
#[derive(Drop)]
pub(crate) struct Asking {
    pub(crate) ask: Ask,
    pub(crate) keeper: Keeper,
    pub(crate) owner: Owner,
    pub(crate) inbox: Arc<Inbox>,
    ghost one: { owner.cell ≡ keeper.cell },
    ghost pending: { keeper.phase ≡ Pending },
}

impl Asking {
    pub(crate) fn new(alloc: Global, ask: &Ask, inbox: &Arc<Inbox>) -> Result<Asking, Memory>
        ensures { IfOk result (λ asking. asking.ask ≡ ask.now) }
    {
        let ask = copy_ask(alloc, ask)?;
        let (keeper, owner) = cell(alloc)?;
        let inbox = Inbox::join(inbox)?;
        Ok(Asking {
            ask,
            keeper,
            owner,
            inbox,
        })
    }
}
