//! The managers of all buckets of all origins.

ghost use Rattle.std.specs.Prelude.{◌≡◌, if◌then◌else◌, IfOk, OnOk, Some, string_bytes};
ghost use Rattle.std.specs.HashMap.{get};
ghost use Rattle.std.specs.Ordering.{eq_by_cmp};
ghost use Rattle.wl_codec.specs.Replies.{reply_text};
ghost use Rattle.wl_machine.specs.declared.command.Command.TheVariants as command;
ghost use Rattle.wl_origin.specs.Manager.{manager_cmp};
ghost use Rattle.wl_world.specs.Agents.{serve_result};
ghost use Rattle.wl_world.specs.declared.label.Label.TheVariants.{Agent};
ghost use Rattle.wl_world.specs.Entries.{command_entries, entries_at};
ghost use Rattle.wl_world.specs.Isolation.{is_key};
ghost use Rattle.wl_world.specs.Journals.{Grow};
ghost use Rattle.wl_world.specs.Labels.{closes, with_origin};
ghost use Rattle.wl_world.specs.Origins.{admitted};
ghost use Rattle.wl_world.specs.Realms.{realm_of, journals_of};

use crate::answer::{Answer, closes};
use crate::origin::Origin;
use crate::supplies::Supplies;
use std::collections::HashMap;
use wl_codec::{Body, Outcome};
use wl_core::LockCore;
use wl_origin::ManagerKey;
use wl_session::{InTime, SessionOf, carries_notices};
use wl_types::{Kind, Memory};

/// Makes the manager of a key that has none. Until it is used it stands for none.
fn seat<S: Copy + Drop, C: LockCore<Seed = S>>(
    supplies: &Supplies<S>,
    realm: &mut HashMap<ManagerKey, Origin<C>>,
    key: &ManagerKey,
) -> Result<(), Memory>
    ensures there { OnOk result (get (eq_by_cmp manager_cmp) realm.new key.now
        ≡ Some (record { origin = realm_of realm.old key.now; entries = journals_of C.no_entries realm.old key.now })) }
    ensures same { OnOk result (realm_of realm.new ≡ realm_of realm.old) }
    ensures journals { OnOk result (journals_of C.no_entries realm.new ≡ journals_of C.no_entries realm.old) }
{
    if realm.contains_key(key) {
        return Ok(());
    }
    let key = key.copy(supplies.alloc)?;
    realm.insert(key, Origin::new(supplies))?;
    Ok(())
}

/// A line of an agent of this manager.
#[tactic(auto, unfolding(crate::specs::Agents::serve_result))]
pub(crate) fn serve_at<S: Copy + Drop, C: LockCore<Seed = S>>(
    supplies: &Supplies<S>,
    realm: &mut HashMap<ManagerKey, Origin<C>>,
    key: &ManagerKey,
    agent: u64,
    session: &mut SessionOf<InTime>,
    id: u64,
    body: &Body,
) -> Result<Answer, Memory>
    ensures text { IfOk result (λ answer. string_bytes answer.text
        ≡ reply_text (serve_result (realm_of realm.old key.now) agent session.old id body.now).reply) }
    ensures closed { IfOk result (λ answer. answer.closed
        ≡ closes (serve_result (realm_of realm.old key.now) agent session.old id body.now).outcome) }
    ensures realm { OnOk result (realm_of realm.new ≡ with_origin (realm_of realm.old) key.now
        (serve_result (realm_of realm.old key.now) agent session.old id body.now).origin) }
    ensures session { OnOk result (session.new
        ≡ (serve_result (realm_of realm.old key.now) agent session.old id body.now).session) }
    ensures entries { OnOk result (Grow (journals_of C.no_entries realm.old)
        (λ k. entries_at k (realm_of realm.old) (Some (Agent key.now agent session.old)) body.now)
        (journals_of C.no_entries realm.new)) }
{
    seat(supplies, realm, key)?;
    let Some(origin) = realm.get_mut(key) else {
        unreachable!()
    };
    let outcome = origin.act(agent, body)?;
    let closed = closes(&outcome);
    if !carries_notices(&outcome) {
        let text = session.finish_changed(Some(id), outcome, &[])?;
        return Ok(Answer { text, closed });
    }
    let changed = origin.collect(supplies.alloc, agent)?;
    let text = session.finish_changed(Some(id), outcome, &changed)?;
    Ok(Answer { text, closed })
}

/// A new agent of this manager.
pub(crate) fn open_agent_at<S: Copy + Drop, C: LockCore<Seed = S>>(
    supplies: &Supplies<S>,
    realm: &mut HashMap<ManagerKey, Origin<C>>,
    key: &ManagerKey,
    kind: Kind,
) -> Result<Outcome, Memory>
    ensures outcome { IfOk result (λ outcome. outcome ≡ (admitted (realm_of realm.old key.now)
        kind).outcome) }
    ensures realm { OnOk result (realm_of realm.new ≡ with_origin (realm_of realm.old) key.now
        (admitted (realm_of realm.old key.now) kind).origin) }
    ensures entries { OnOk result (Grow (journals_of C.no_entries realm.old)
        (λ k. if is_key k key.now then command_entries (realm_of realm.old k).state (Some (command.Enter kind)) else 0)
        (journals_of C.no_entries realm.new)) }
{
    seat(supplies, realm, key)?;
    match realm.get_mut(key) {
        Some(origin) => origin.open_agent(kind),
        None => unreachable!(),
    }
}
