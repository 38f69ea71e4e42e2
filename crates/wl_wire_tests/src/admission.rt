//! Who is admitted, by lists of calls:
//!
//! - `trust WORD ..`: the origins whose pages may open all, or `*`;
//! - `tokens LINE;LINE;..`: the lines of a token file;
//! - `fences`: from now on the server has fencing tokens to give;
//! - `shard`: from now on each handshake has to name its origin;
//! - `hello HEADER; HEADER; ..`: a handshake with these headers, by their first letters (`o`, `a`, `s`), each with its
//!   value behind a colon; `t` stands for its target, which is `/` where it is left out;
//! - `target TARGET`: whether a handshake with this target and no headers is admitted, or by which status it is
//!   refused;
//! - `open URL`: whether whoever was admitted last may open it;
//! - `take ADDRESS` and `leave ADDRESS`: a place of three, two for an address, or a subnet of version 6, and three for
//!   one of this machine.

mod targets;

use crate::lists::{Scene, assert_lists, rest, word};
use std::alloc::{AllocError, Global};
use std::net::IpAddr;
use std::sync::Wait;
use std::test::Fail;
use wl_admission::{
    Admitted, Hello, PlaceLimits, Places, Rules, Scope, Source, Subprotocol, admit, origin_in,
    read_tokens,
};
use wl_origin::key_of;

const LISTS: &[&str] = &[
    // Programs and pages.
    "hello  -> admitted
open https://a.test/ -> may
open data:,x -> may
hello o:https://A.test:443 -> admitted
open https://a.test/x?y#z -> may
open blob:https://a.test/x -> may
open https://a.test:444/ -> may not
open http://a.test/ -> may not
open https://b.test/ -> may not
open data:,x -> may not
hello o:null -> admitted
open https://a.test/ -> may not
open data:,x -> may not
hello o:https://a.test https://b.test -> admitted
open https://a.test/ -> may not
hello o:https://a.test; o:https://a.test -> 400 more than one Origin header
",
    // Trusted pages.
    "trust https://a.test http://b.test:80/ -> 2 origins
hello o:https://a.test -> admitted
open https://c.test/ -> may
open data:,x -> may
hello o:http://b.test -> admitted
open https://c.test/ -> may
hello o:https://b.test -> admitted
open https://c.test/ -> may not
hello o:null -> admitted
open https://c.test/ -> may not
trust * -> all
hello o:null -> admitted
open https://c.test/ -> may
hello o:https://a.test; o:https://a.test -> 400 more than one Origin header
",
    // Subprotocols.
    "hello s:weblocks.push -> admitted, pushed
hello s:chat,\tweblocks.push , x -> admitted, pushed
hello s:chat; s:weblocks.push -> admitted, pushed
hello s:chat -> admitted
hello s:weblocks.pushes -> admitted
hello s:weblocks.bearer.x -> 400 a bearer subprotocol without one that is selected
hello s:weblocks.bearer.x, weblocks.push -> admitted, pushed
hello a:Bearer x -> admitted
",
    // Fencing tokens.
    "hello s:weblocks.fence -> admitted
hello s:weblocks.fence, weblocks.push -> admitted, pushed
hello s:weblocks.fence, weblocks.bearer.x -> 400 a bearer subprotocol without one that is selected
fences  -> are there
hello s:weblocks.fence -> admitted, pushed with fences
hello s:weblocks.fence, weblocks.push -> admitted, pushed with fences
hello s:weblocks.push, weblocks.fence -> admitted, pushed
hello s:chat; s:weblocks.push; s:weblocks.fence -> admitted, pushed
hello s:weblocks.fence, weblocks.bearer.x -> admitted, pushed with fences
hello s:Weblocks.fence -> admitted
hello s:weblocks.bearer.x -> 400 a bearer subprotocol without one that is selected
hello s: -> admitted
",
    // Tokens.
    "tokens one;two https://a.test;three https://a.test http://b.test;one https://c.test -> 4 tokens
hello  -> 401 no token
hello a:Bearer -> 401 no token
hello a:Basic one -> 401 no token
hello a:Bearer four -> 401 unknown token
hello a:Bearer on -> 401 unknown token
hello a:Bearer ones -> 401 unknown token
hello a:Bearer  -> 401 unknown token
hello a:bEARER one -> admitted
open https://b.test/ -> may
open data:,x -> may
hello a:Bearer two -> admitted
open https://a.test/ -> may
open https://b.test/ -> may not
open data:,x -> may not
hello a:Bearer three; o:http://b.test -> admitted
open http://b.test/ -> may
open https://a.test/ -> may not
hello s:weblocks.push, weblocks.bearer.two -> admitted, pushed
open https://a.test/ -> may
hello s:weblocks.push, weblocks.bearer.two; a:Bearer two -> 400 more than one token
hello s:weblocks.bearer.four -> 400 a bearer subprotocol without one that is selected
",
    // The file of tokens.
    "tokens  -> 0 tokens
hello a:Bearer x -> 401 unknown token
tokens x; -> 1 tokens
tokens !#$%&'*+-.^_`|~09azAZ -> 1 tokens
tokens   a   https://a.test   -> 1 tokens
tokens a;;b -> line 2: not a token
tokens a;b=;c -> line 2: not a token
tokens a;b\tc -> line 2: not a token
tokens a;b null -> line 2: not an origin
tokens a;b https://a.test x;c, -> line 2: not an origin
",
    // Places.
    "take 10.0.0.1 -> taken, 1 in all
take ::ffff:10.0.0.1 -> taken, 2 in all
take 10.0.0.1 -> 503 too many connections
take 10.0.0.2 -> taken, 3 in all
take 10.0.0.2 -> 503 too many connections
leave 10.0.0.1 -> 2 in all
leave 10.0.0.3 -> 2 in all
take ::1 -> taken, 3 in all
leave 10.0.0.1 -> 2 in all
leave 10.0.0.2 -> 1 in all
take ::1 -> taken, 2 in all
take ::1 -> taken, 3 in all
leave ::1 -> 2 in all
",
    // Places of subnets.
    "take 2001:db8::1 -> taken, 1 in all
take 2001:db8::2 -> taken, 2 in all
take 2001:db8:0:0:ffff:ffff:ffff:ffff -> 503 too many connections
take 2001:db8:0:1:: -> taken, 3 in all
leave 2001:db8::3 -> 2 in all
leave 2001:db8:0:2::1 -> 2 in all
take 2001:db8::3 -> taken, 3 in all
leave 2001:db8:0:1::5 -> 2 in all
take 2001:db8:0:0:1::1 -> 503 too many connections
",
];

/// A server's rules and places, and whoever was admitted last.
#[derive(Drop)]
struct Server {
    alloc: Global,
    rules: Rules,
    places: Places,
    admitted: Option<Admitted>,
}

impl Scene for Server {
    fn new(alloc: Global) -> Server {
        let limits = PlaceLimits {
            in_all: 3,
            by_address: 2,
            by_loopback: 3,
        };
        Server {
            alloc,
            rules: Rules {
                trusted: Scope::Only(Vec::new(alloc)),
                tokens: None,
                has_fences: false,
                is_sharded: false,
            },
            places: Places::new(alloc, limits),
            admitted: None,
        }
    }

    fn call<R: Wait>(&mut self, _rt: &R, call: &str, came: &mut String) -> Result<(), Fail> {
        match word(call, 0) {
            "trust" => self.trust(rest(call), came),
            "tokens" => self.read(rest(call), came),
            "fences" => {
                self.rules.has_fences = true;
                Ok(came.push_str("are there")?)
            }
            "shard" => {
                self.rules.is_sharded = true;
                Ok(came.push_str("is sharded")?)
            }
            "hello" => self.greet(rest(call), came),
            "target" => self.name(rest(call), came),
            "open" => self.open(rest(call), came),
            "take" => self.take(rest(call), came),
            _ => self.leave(rest(call), came),
        }
    }
}

impl Server {
    fn trust(&mut self, words: &str, came: &mut String) -> Result<(), Fail> {
        if words == "*" {
            self.rules.trusted = Scope::All;
            came.push_str("all")?;
            return Ok(());
        }
        let mut origins = Vec::new(self.alloc);
        for word in words.split(' ') {
            if let Some(origin) = origin_in(self.alloc, word)? {
                origins.push(origin)?;
            }
        }
        write!(came, "{} origins", origins.len())?;
        self.rules.trusted = Scope::Only(origins);
        Ok(())
    }

    fn read(&mut self, lines: &str, came: &mut String) -> Result<(), Fail> {
        let mut text = String::new(self.alloc);
        for byte in lines.chars() {
            text.push(if byte == ';' { '\n' } else { byte })?;
        }
        match read_tokens(self.alloc, text.as_str()) {
            Ok(tokens) => {
                write!(came, "{} tokens", tokens.grants.len())?;
                self.rules.tokens = Some(tokens);
            }
            Err(fault) => write!(came, "{fault}")?,
        }
        Ok(())
    }

    fn greet(&mut self, headers: &str, came: &mut String) -> Result<(), Fail> {
        let origins = values(self.alloc, headers, "o:")?;
        let authorizations = values(self.alloc, headers, "a:")?;
        let subprotocols = values(self.alloc, headers, "s:")?;
        let targets = values(self.alloc, headers, "t:")?;
        let hello = Hello {
            target: targets.first().copied().unwrap_or("/"),
            origins: origins.as_slice(),
            authorizations: authorizations.as_slice(),
            subprotocols: subprotocols.as_slice(),
        };
        match admit(self.alloc, &hello, &self.rules) {
            Ok(admitted) => {
                came.push_str("admitted")?;
                if admitted.is_pushed() {
                    came.push_str(", pushed")?;
                }
                if admitted.selected == Some(Subprotocol::Fence) {
                    came.push_str(" with fences")?;
                }
                self.admitted = Some(admitted);
            }
            Err(rejection) => write!(came, "{} {rejection}", rejection.status())?,
        }
        Ok(())
    }

    fn name(&mut self, target: &str, came: &mut String) -> Result<(), Fail> {
        let hello = Hello {
            target,
            origins: &[],
            authorizations: &[],
            subprotocols: &[],
        };
        match admit(self.alloc, &hello, &self.rules) {
            Ok(admitted) => {
                came.push_str("admitted")?;
                self.admitted = Some(admitted);
            }
            Err(rejection) => write!(came, "{}", rejection.status())?,
        }
        Ok(())
    }

    fn open(&mut self, url: &str, came: &mut String) -> Result<(), Fail> {
        let may = match (&self.admitted, key_of(self.alloc, url)) {
            (Some(admitted), Ok(origin)) => admitted.may_open(&origin),
            _ => false,
        };
        came.push_str(if may { "may" } else { "may not" })?;
        Ok(())
    }

    fn take(&mut self, address: &str, came: &mut String) -> Result<(), Fail> {
        match self.places.take(source_of(address)) {
            Ok(()) => write!(came, "taken, {} in all", self.places.count_in_use())?,
            Err(rejection) => write!(came, "{} {rejection}", rejection.status())?,
        }
        Ok(())
    }

    fn leave(&mut self, address: &str, came: &mut String) -> Result<(), Fail> {
        self.places.free(source_of(address));
        write!(came, "{} in all", self.places.count_in_use())?;
        Ok(())
    }
}

/// The values of the headers that begin so.
fn values<'a>(alloc: Global, headers: &'a str, name: &str) -> Result<Vec<&'a str>, AllocError> {
    let mut found = Vec::new(alloc);
    for header in headers.split(';') {
        if let Some(value) = header.trim_start().strip_prefix(name) {
            found.push(value)?;
        }
    }
    Ok(found)
}

/// The address that a text spells; one without a place where it spells none.
fn source_of(address: &str) -> Source {
    match address.parse::<IpAddr>() {
        Ok(address) => Source::of(address),
        Err(_) => Source {
            number: 0,
            is_loopback: false,
        },
    }
}

#[test]
fn servers_do_the_lists(rt: HostRuntime) -> Result<(), Fail> {
    assert_lists::<Server, _>(&rt, rt.alloc(), LISTS)
}
