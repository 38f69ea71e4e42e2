//! Targets of handshakes, by lists of calls.

use super::Server;
use crate::lists::assert_lists;
use std::test::Fail;

const LISTS: &[&str] = &[
    // Targets: what they let open, and that they are looked at only where the server is sharded.
    "target  -> admitted
target /?origin=null -> admitted
open https://a.test/ -> may
shard  -> is sharded
target /?origin=https%3A%2F%2Fa.test -> admitted
open https://A.test:443/x -> may
open blob:https://a.test/x -> may
open https://a.test:444/ -> may not
open http://a.test/ -> may not
open https://b.test/ -> may not
open data:,x -> may not
target /?origin=http%3A%2F%2Fa.test%3A8080 -> admitted
open http://a.test:8080/ -> may
open http://a.test/ -> may not
target /?origin=http%3A%2F%2F%5B%3A%3A1%5D%3A81 -> admitted
open http://[0:0::1]:81/ -> may
open http://[::1]/ -> may not
target /?origin=ws%3A%2F%2F127.0.0.1 -> admitted
open ws://127.1/ -> may
open http://127.0.0.1/ -> may not
target /?origin=https%3A%2F%2Fa-b_c!~*'().test -> admitted
open https://a-b_c!~*'().test/ -> may
target /?origin=https%3A%2F%2Fa%24%26%2B%2C%3B%3D.test -> admitted
open https://a$&+,;=.test/ -> may
target /?origin=https%3A%2F%2Fxn--bcher-kva.test -> admitted
open https://b\u{fc}cher.test/ -> may
",
    // Targets that name no origin.
    "shard  -> is sharded
target  -> 400
target / -> 400
target * -> 400
target /?origin= -> 400
target /?origin=https://a.test -> 400
target /?origin=https%3a%2f%2fa.test -> 400
target /?origin=https%3A%2f%2Fa.test -> 400
target /?origin=https%3A%2F%2F%61.test -> 400
target /?origin=https%3A%2F%2Fa%2Etest -> 400
target /?origin=https%3A%2F%2FA.test -> 400
target /?origin=HTTPS%3A%2F%2Fa.test -> 400
target /?origin=https%3A%2F%2Fa.test%3A443 -> 400
target /?origin=https%3A%2F%2Fa.test%3A -> 400
target /?origin=https%3A%2F%2Fa.test%3A0444 -> 400
target /?origin=https%3A%2F%2Fa.test%2F -> 400
target /?origin=https%3A%2F%2Fu%40a.test -> 400
target /?origin=%20https%3A%2F%2Fa.test -> 400
target /?origin=https%3A%2F%2Fa.test%20 -> 400
target /?origin=https%3A%2F%2Fa+b.test -> 400
target /?origin=ws%3A%2F%2F127.1 -> 400
target /?origin=http%3A%2F%2F%5B0%3A0%3A%3A1%5D -> 400
target /?origin=https%3A%2F%2Fb%C3%BCcher.test -> 400
target /?origin=https%3A%2F%2F%FF.test -> 400
target /?origin=https%3A%2F%2Fa%.test -> 400
target /?origin=null -> 400
target /?origin=file%3A%2F%2F%2Fx -> 400
target /?origin=data%3A%2Cx -> 400
target /?origin=blob%3Ahttps%3A%2F%2Fa.test%2Fx -> 400
target /?origin=a.test -> 400
",
    // Targets of another form.
    "shard  -> is sharded
target /?origin=https%3A%2F%2Fa.test& -> 400
target /?origin=https%3A%2F%2Fa.test&x=1 -> 400
target /?origin=https%3A%2F%2Fa.test# -> 400
target /?x=1&origin=https%3A%2F%2Fa.test -> 400
target /?x=;origin=https%3A%2F%2Fa.test&origin=https%3A%2F%2Fb.test -> 400
target /?origin=https%3A%2F%2Fa.test&origin=https%3A%2F%2Fa.test -> 400
target /?&origin=https%3A%2F%2Fa.test -> 400
target /?Origin=https%3A%2F%2Fa.test -> 400
target /?origin=origin=https%3A%2F%2Fa.test -> 400
target //?origin=https%3A%2F%2Fa.test -> 400
target /x?origin=https%3A%2F%2Fa.test -> 400
target ?origin=https%3A%2F%2Fa.test -> 400
target http://h/?origin=https%3A%2F%2Fa.test -> 400
target https%3A%2F%2Fa.test -> 400
",
    // A target beside pages and tokens, and the order of refusals.
    "shard  -> is sharded
hello o:https://a.test; o:https://a.test -> 400 a target that is not /?origin= and an origin's canonical text
hello t:/?origin=https%3A%2F%2Fa.test; o:https://a.test; o:https://a.test -> 400 more than one Origin header
hello t:/?origin=https%3A%2F%2Fa.test; o:https://a.test; s:weblocks.push -> admitted, pushed
open https://a.test/ -> may
hello t:/?origin=https%3A%2F%2Fa.test; o:https://b.test -> admitted
open https://a.test/ -> may not
open https://b.test/ -> may not
trust * -> all
hello t:/?origin=https%3A%2F%2Fa.test; o:https://b.test -> admitted
open https://a.test/ -> may
open https://b.test/ -> may not
open data:,x -> may not
tokens one;two https://b.test -> 2 tokens
hello  -> 400 a target that is not /?origin= and an origin's canonical text
hello t:/?origin=https%3A%2F%2Fa.test -> 401 no token
hello t:/?origin=https%3A%2F%2Fa.test; a:Bearer one -> admitted
open https://a.test/ -> may
open https://b.test/ -> may not
hello t:/?origin=https%3A%2F%2Fa.test; a:Bearer two -> admitted
open https://a.test/ -> may not
open https://b.test/ -> may not
",
];

#[test]
fn targets_do_the_lists(rt: HostRuntime) -> Result<(), Fail> {
    assert_lists::<Server, _>(&rt, rt.alloc(), LISTS)
}
