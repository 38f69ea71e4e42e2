//! Cores of two origins, and of two buckets of one.

use crate::keys::{add_key, key_at};
use crate::lists::{Rows, Scene, assert_lists, part};
use std::alloc::Global;
use std::test::Fail;
use wl_core::{Command, LockCore, PlainCore, Reply};
use wl_origin::ManagerKey;
use wl_test_support::{ask, show};
use wl_types::{Kind, Memory, Mode};

/// A key that is there keeps its core. Agents and requests are numbered apart. A call that names no bucket means
/// `default`.
const TWO_ORIGINS: &str = "\
empty -> true
add https://z.test/ -> 1
add https://a.test/ -> 2
empty -> false
open https://a.test/ -> Agent(1)
open https://z.test/ -> Agent(1)
request https://a.test/ -> Request(1)
request https://z.test/ -> Request(1)
add https://a.test:443/x -> 2
query https://a.test/ -> held db/exclusive/1, waiting
query http://a.test/ -> no core
first -> https://a.test default held db/exclusive/1, waiting
";

const TWO_BUCKETS: &str = "\
add https://a.test/ inbox -> 1
add https://a.test/ default -> 2
open https://a.test/ inbox -> Agent(1)
request https://a.test/ inbox -> Request(1)
open https://a.test/ -> Agent(1)
request https://a.test/ -> Request(1)
open https://a.test/ default -> Agent(2)
query https://a.test/ -> held db/exclusive/1, waiting
query https://a.test/ inbox -> held db/exclusive/1, waiting
query https://a.test/ drafts -> no core
add https://a.test:443/x archive -> 3
first -> https://a.test archive NoSuch/agent
";

/// Does a call of the realm, and adds its answer.
pub fn do_call(scene: &mut Scene, came: &mut String, call: &str) -> Result<(), Memory> {
    let (word, at) = part(call);
    match word {
        "empty" => Ok(came.push_str(if scene.realm.is_empty() {
            "true"
        } else {
            "false"
        })?),
        "first" => add_first(scene, came),
        _ => do_at(scene, came, word, at),
    }
}

fn do_at(scene: &mut Scene, came: &mut String, word: &str, at: &str) -> Result<(), Memory> {
    let (url, bucket) = at.split_once(' ').unwrap_or((at, "default"));
    match key_at(scene.alloc, url, bucket) {
        Some(key) => do_there(scene, came, word, key),
        None => Ok(came.push_str("no key")?),
    }
}

fn do_there(
    scene: &mut Scene,
    came: &mut String,
    word: &str,
    key: ManagerKey,
) -> Result<(), Memory> {
    if word == "add" {
        add(scene, came, key)
    } else {
        ask_core(scene, came, word, &key)
    }
}

fn ask_core(
    scene: &mut Scene,
    came: &mut String,
    word: &str,
    key: &ManagerKey,
) -> Result<(), Memory> {
    match word {
        "open" => apply(scene, came, key, &Command::Enter(Kind::Window)),
        "request" => request(scene, came, key),
        _ => add_seen(scene, came, key),
    }
}

/// How many cores there are then.
fn add(scene: &mut Scene, came: &mut String, key: ManagerKey) -> Result<(), Memory> {
    scene.realm.add(key, ())?;
    write!(came, "{}", scene.realm.len())?;
    Ok(())
}

fn request(scene: &mut Scene, came: &mut String, key: &ManagerKey) -> Result<(), Memory> {
    let asked = ask(scene.alloc, "db", Mode::Exclusive)?;
    apply(scene, came, key, &Command::Request(1, asked))
}

/// The answer of the core at the key, if there is one.
fn apply(
    scene: &mut Scene,
    came: &mut String,
    key: &ManagerKey,
    command: &Command,
) -> Result<(), Memory> {
    if scene.realm.has(key) {
        add_reply(scene.alloc, came, &scene.realm.apply(key, command))
    } else {
        Ok(came.push_str("no core")?)
    }
}

fn add_reply(alloc: Global, came: &mut String, reply: &Reply) -> Result<(), Memory> {
    Ok(came.push_str(show(alloc, reply)?.as_str())?)
}

/// What the first agent of the core at the key sees.
fn add_seen(scene: &Scene, came: &mut String, key: &ManagerKey) -> Result<(), Memory> {
    if scene.realm.has(key) {
        add_snapshot(scene.alloc, came, scene.realm.core(key))
    } else {
        Ok(came.push_str("no core")?)
    }
}

fn add_snapshot(alloc: Global, came: &mut String, core: &PlainCore) -> Result<(), Memory> {
    match core.snapshot(1) {
        Ok(snapshot) => add_reply(alloc, came, &Reply::Seen(snapshot)),
        Err(refusal) => add_reply(alloc, came, &Reply::Refused(refusal)),
    }
}

/// The first key of a realm that has one, and what is seen at it.
fn add_first(scene: &Scene, came: &mut String) -> Result<(), Memory> {
    if scene.realm.is_empty() {
        return Ok(came.push_str("no core")?);
    }
    let (key, core) = scene.realm.nth(0);
    add_key(scene.alloc, came, key)?;
    came.push_str(" ")?;
    add_snapshot(scene.alloc, came, core)
}

#[test]
fn each_manager_numbers_its_agents_apart(rt: HostRuntime) -> Result<(), Fail> {
    assert_lists(&rt, &rt, Rows::Realm, &[TWO_ORIGINS, TWO_BUCKETS])?;
    Ok(())
}
