//! One line of an unopened label.

ghost use Rattle.std.specs.Prelude.{◌≡◌, IfOk, OnOk, string_bytes, Some, None};
ghost use Rattle.wl_codec.specs.Replies.{reply_text};
ghost use Rattle.wl_world.specs.Entries.{entries_at};
ghost use Rattle.wl_world.specs.Journals.{Grow};
ghost use Rattle.wl_world.specs.Labels.{label_of, from_unopened, plain};
ghost use Rattle.wl_world.specs.Realms.{realm_of, journals_of};

use crate::answer::plain_text;
use crate::label::Label;
use crate::origin::Origin;
use crate::realm::open_agent_at;
use crate::supplies::Supplies;
use std::alloc::Global;
use std::collections::HashMap;
use wl_codec::{Body, Outcome};
use wl_core::LockCore;
use wl_origin::{ManagerFault, ManagerKey, manager_of_text};
use wl_session::{InTime, SessionOf};
use wl_types::Memory;

/// What a line is answered, and the label that it opened.
#[derive(Drop)]
pub(crate) struct Opening {
    pub text: String,
    pub label: Option<Label>,
}

/// A line that opens no label.
fn refuse(alloc: Global, id: u64, outcome: Outcome) -> Result<Opening, Memory>
    ensures text { IfOk result (λ opening. string_bytes opening.text ≡ reply_text (plain (Some id) outcome)) }
    ensures label { IfOk result (λ opening. opening.label ≡ None) }
{
    let text = plain_text(alloc, Some(id), outcome)?;
    Ok(Opening { text, label: None })
}

/// The label of a new agent.
fn label_of(alloc: Global, key: ManagerKey, id: u64, outcome: Outcome) -> Result<Opening, Memory>
    ensures text { IfOk result (λ opening. string_bytes opening.text ≡ reply_text (plain (Some id) outcome)) }
    ensures label { IfOk result (λ opening. opening.label ≡ label_of key outcome) }
{
    let agent = match &outcome {
        Outcome::Client(Some(agent)) => *agent,
        _ => return refuse(alloc, id, outcome),
    };
    let mut session = SessionOf::<InTime>::new(alloc);
    let text = session.finish_changed(Some(id), outcome, &[])?;
    let label = Some(Label::Agent(key, agent, session));
    Ok(Opening { text, label })
}

/// A line of an unopened label.
pub(crate) fn open_label<S: Copy + Drop, C: LockCore<Seed = S>>(
    supplies: &Supplies<S>,
    realm: &mut HashMap<ManagerKey, Origin<C>>,
    id: u64,
    body: Body,
) -> Result<Opening, Memory>
    ensures text { IfOk result (λ opening. string_bytes opening.text
        ≡ reply_text (from_unopened (realm_of realm.old) id body).reply) }
    ensures label { IfOk result (λ opening. opening.label
        ≡ (from_unopened (realm_of realm.old) id body).label) }
    ensures realm { OnOk result (realm_of realm.new
        ≡ (from_unopened (realm_of realm.old) id body).realm) }
    ensures entries { OnOk result (Grow (journals_of C.no_entries realm.old)
        (λ k. entries_at k (realm_of realm.old) None body) (journals_of C.no_entries realm.new)) }
{
    let Body::Enter { url, kind, bucket } = body else {
        return refuse(supplies.alloc, id, Outcome::NotOpen);
    };
    match manager_of_text(supplies.alloc, url.as_str(), bucket) {
        Ok(Some(key)) => {
            let outcome = open_agent_at(supplies, realm, &key, kind)?;
            label_of(supplies.alloc, key, id, outcome)
        }
        Ok(None) => {
            let text = plain_text(supplies.alloc, Some(id), Outcome::Client(None))?;
            let label = Some(Label::Opaque(kind, true));
            Ok(Opening { text, label })
        }
        Err(ManagerFault::BadUrl) => refuse(supplies.alloc, id, Outcome::BadUrl),
        Err(ManagerFault::BadBucket) => refuse(supplies.alloc, id, Outcome::BadBucket),
        Err(ManagerFault::Memory) => Err(Memory),
    }
}
