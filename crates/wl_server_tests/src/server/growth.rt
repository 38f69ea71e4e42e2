//! Each growth of a peer refused in turn.

use crate::lists::do_calls;
use crate::scene::Scene;
use std::net::{Net, TcpListener, TcpStream};
use std::random::RandomSource;
use std::sync::Wait;
use std::test::Fail;
use std::thread::Threads;
use wl_test_support::fail_refused;

const A_PEER_HAS_THE_LOCK: &str = "\
peer new -> ()
peer hear open -> {\"id\":1,\"notices\":[],\"ok\":{\"client\":\"client-1\"}}
peer hear request -> {\"id\":2,\"notices\":[{\"phase\":\"granted\",\"request\":1}],\"ok\":{\"request\":1}}
peer hear query -> {\"id\":3,\"notices\":[],\"ok\":{\"held\":[{\"clientId\":\"client-1\",\"mode\":\"exclusive\",\"name\":\"db\"}],\"pending\":[]}}
peer hear poll -> {\"id\":4,\"notices\":[],\"ok\":{}}
";

const ANOTHER_ASKS: &str = "\
open window https://a.test/ -> Ok(Some(2))
request 1 db -> Ok(2)
look 1 -> Granted
";

/// A peer that is refused memory, before it has the lock or after, leaves it free.
fn try_peer<R>(rt: &R, scene: &mut Scene, came: &mut String) -> Result<(), Fail>
where
    R: Net<Listener = TcpListener, Stream = TcpStream> + Threads + Wait + RandomSource + Sync,
{
    do_calls(rt, scene, A_PEER_HAS_THE_LOCK, came)?;
    if came.as_str() == A_PEER_HAS_THE_LOCK {
        return Ok(());
    }
    do_calls(rt, scene, ANOTHER_ASKS, came)?;
    fail_refused(came.as_str().ends_with("look 1 -> Granted\n"))
}

#[test]
fn a_refused_growth_ends_an_agent(rt: HostRuntime) -> Result<(), Fail> {
    let mut came = String::new(rt.alloc());
    let mut scene = Scene::new(&rt, rt.alloc())?;
    let tried = try_peer(&rt, &mut scene, &mut came);
    scene.leave(&rt);
    tried
}
