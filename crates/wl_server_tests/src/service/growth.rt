//! Each growth refused in turn.

use crate::lists::do_again;
use crate::scene::Scene;
use std::test::Fail;
use wl_service::Service;
use wl_test_support::fail_refused;

/// Two clients of each of three managers, a list of these, and each call of a client.
const CALLS: &str = "\
open_in window default https://a.test/ -> Ok(Some(1))
open_in window default http://a.test/ -> Ok(Some(1))
open_in window inbox https://a.test/ -> Ok(Some(1))
open_in window default https://a.test/ -> Ok(Some(2))
open_in window default http://a.test/ -> Ok(Some(2))
open_in window inbox https://a.test/ -> Ok(Some(2))
locks -> http://a.test default: | and 0, https://a.test default: | and 0, https://a.test inbox: | and 0, 0
open window https://b.test/ -> Ok(Some(1))
request 7 db -> Ok(1)
signal 7 -> Ok(1)
set 7 active -> Ok(())
query 7 -> Ok((4, 1))
";

/// Refused memory, the service is as it was, and a client's call leaves no entry: the calls answer as they would have.
#[test]
fn a_refused_growth_opens_nobody(rt: HostRuntime) -> Result<(), Fail> {
    let mut came = String::new(rt.alloc());
    let Ok(mut scene) = Scene::new(&rt, rt.alloc()) else {
        Service::new(&rt, rt.alloc())?;
        return fail_refused(true);
    };
    let tried = do_again(&rt, &mut scene, CALLS, &mut came);
    scene.leave(&rt);
    if tried? {
        return fail_refused(came.as_str() == CALLS);
    }
    assert_eq!(rt; came.as_str(), CALLS);
    Ok(())
}
