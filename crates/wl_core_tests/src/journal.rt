//! What the contracts can't show: that calls succeed with ample memory, and worked histories.

mod growth;

use crate::cores::{LISTS, run_list};
use std::alloc::Global;
use std::hash::RandomState;
use std::test::Fail;
use wl_core::{LockCore, PlainCore, ReleaseAnswer, Reply};
use wl_index::{IndexCore, random_seed};
use wl_journal::{AuditFault, Book, Entry, audit, replay};
use wl_test_support::{do_list, opening, show};
use wl_types::Memory;

#[test]
fn a_book_does_the_lists(rt: HostRuntime) -> Result<(), Fail> {
    for list in LISTS {
        assert_eq!(rt;
            run_list::<Book<PlainCore>>(rt.alloc(), (), list)?.as_str(),
            *list
        );
    }
    Ok(())
}

/// The command and the reply of each entry, and then how many there are.
fn show_entries(alloc: Global, entries: &[Entry]) -> Result<String, Memory> {
    let mut text = String::new(alloc);
    for entry in entries {
        text.push_str(format!(in alloc; "{:?}", entry.command)?.as_str())?;
        text.push_str("/")?;
        text.push_str(show(alloc, &entry.reply)?.as_str())?;
        text.push_str(", ")?;
    }
    text.push_str(format!(in alloc; "{}", entries.len())?.as_str())?;
    Ok(text)
}

/// Does the calls of a list on a new book, and gives the list as it came out. Beside those of every core (`do_list`)
/// there are `count` (how many entries it has, and how many it has had), `entries`, `cut` (the entries that it hands
/// out), `checkpoint`, `audit` (of the entries, from the base), `base` (whether that is the state) and `sight` (of the
/// first agent).
fn run_by_book<C: LockCore>(alloc: Global, seed: C::Seed, list: &str) -> Result<String, Memory> {
    let mut book: Book<C> = opening(alloc, seed);
    let mut came = String::new(alloc);
    for line in list.lines() {
        let (call, _) = line.split_once(" -> ").unwrap_or((line, ""));
        came.push_str(call_line(alloc, &mut book, call)?.as_str())?;
    }
    Ok(came)
}

/// A call and its answer.
fn call_line<C: LockCore>(alloc: Global, book: &mut Book<C>, call: &str) -> Result<String, Memory> {
    let answer = match call {
        "count" => format!(in alloc; "{} of {}", book.len(), book.total())?,
        "audit" => format!(in alloc; "{:?}", audit(book.base(), book.entries()))?,
        "entries" => show_entries(alloc, book.entries())?,
        "cut" => show_entries(alloc, &book.cut()?)?,
        "checkpoint" => {
            book.checkpoint()?;
            "done".to_string(alloc)?
        }
        "base" => format!(in alloc; "{}", book.copy_plain()? == *book.base())?,
        "sight" => sight(alloc, book)?,
        _ => return do_list(alloc, book, call),
    };
    Ok(format!(in alloc; "{call} -> {answer}\n")?)
}

fn sight<C: LockCore>(alloc: Global, book: &Book<C>) -> Result<String, Memory> {
    match book.sight(1) {
        Ok(sight) => {
            let seen = show(alloc, &Reply::Seen(sight.snapshot))?;
            Ok(format!(in alloc; "{} entries, {seen}", sight.seen)?)
        }
        Err(refusal) => show(alloc, &Reply::Refused(refusal)),
    }
}

/// A lock is asked for, taken and released. Its agent asks twice what is held.
const ONE_LOCK: &str = "\
open window -> Agent(1)
sight -> 1 entries, held, waiting
request 1 db -> Request(1), 1 Granted
take 1 -> Took(Taken)
query 1 -> held db/exclusive/1, waiting
release 1 1 -> Released(Released), 1 Released
query 1 -> held, waiting
count -> 4 of 4
entries -> Enter(Window)/Agent(1), \
    Request(1, Ask { name: Text { inner: \"db\" }, mode: Exclusive, if_available: false, steal: false, \
    signal: None })/Request(1), Take(1)/Took(Taken), Release(1, 1)/Released(Released), 4
audit -> Ok(())
base -> false
cut -> Enter(Window)/Agent(1), \
    Request(1, Ask { name: Text { inner: \"db\" }, mode: Exclusive, if_available: false, steal: false, \
    signal: None })/Request(1), Take(1)/Took(Taken), Release(1, 1)/Released(Released), 4
count -> 0 of 4
entries -> 0
audit -> Ok(())
base -> true
";

/// A checkpoint drops the entries, and what comes after it is recorded from there, once more in the same room.
const CHECKPOINTS: &str = "\
open window -> Agent(1)
request 1 db -> Request(1), 1 Granted
checkpoint -> done
count -> 0 of 2
entries -> 0
base -> true
take 1 -> Took(Taken)
release 1 1 -> Released(Released), 1 Released
entries -> Take(1)/Took(Taken), Release(1, 1)/Released(Released), 2
count -> 2 of 4
audit -> Ok(())
base -> false
checkpoint -> done
count -> 0 of 4
audit -> Ok(())
base -> true
query 1 -> held, waiting
";

/// A call that changes nothing isn't recorded, but a window that is made what it was is.
const NOTHING_HAPPENS: &str = "\
open window -> Agent(1)
signal 1 -> Signal(1)
abort 1 1 AbortError -> Aborted(Done)
count -> 3 of 3
abort 1 1 AbortError -> Aborted(AlreadyAborted)
abort 1 1 7 -> Aborted(AlreadyAborted)
abort 1 2 AbortError -> NoSuch/signal
take 9 -> Took(NotGranted)
release 1 9 -> Released(NotHeld)
signal 2 -> NoSuch/agent
set 2 active -> NoSuch/agent
count -> 3 of 3
set 1 active -> Done
count -> 4 of 4
terminate 1 -> Done
count -> 5 of 5
";

#[test]
fn a_book_records_what_was_accepted(rt: HostRuntime) -> Result<(), Fail> {
    for list in [ONE_LOCK, CHECKPOINTS, NOTHING_HAPPENS] {
        assert_eq!(rt;
            run_by_book::<PlainCore>(rt.alloc(), (), list)?.as_str(),
            list
        );
    }
    Ok(())
}

/// The entries of an agent that opens and asks for a lock, which it takes and releases.
fn cut_one_lock<C: LockCore>(alloc: Global, book: &mut Book<C>) -> Result<Vec<Entry>, Memory> {
    do_list(
        alloc,
        book,
        "open window\nrequest 1 db\ntake 1\nrelease 1 1",
    )?;
    book.cut()
}

/// Makes the replies of these entries wrong.
fn spoil(entries: &mut [Entry], places: &[usize]) {
    for place in places {
        if let Some(entry) = entries.get_mut(*place) {
            entry.reply = Reply::Released(ReleaseAnswer::NotHeld);
        }
    }
}

type Found = Result<(), AuditFault>;

/// What an audit finds where the replies at these places are wrong, and what a replay on another core does.
fn judge_spoilt(
    alloc: Global,
    seed: RandomState,
    places: &[usize],
) -> Result<(Found, Found), Memory> {
    let mut entries = cut_one_lock::<PlainCore>(alloc, &mut opening(alloc, ()))?;
    spoil(&mut entries, places);
    let audited = audit(&opening::<PlainCore>(alloc, ()), &entries);
    let replayed = replay(opening::<IndexCore>(alloc, seed), &entries);
    Ok((audited, replayed))
}

/// Places of entries whose replies are wrong, and what an audit and a replay say: they tell the first.
const AUDITS: &[(&[usize], Found)] = &[
    (&[], Ok(())),
    (&[3], Err(AuditFault::Illegal(3))),
    (&[3, 0], Err(AuditFault::Illegal(0))),
];

#[test]
fn a_wrong_reply_is_found_in_its_place(rt: HostRuntime) -> Result<(), Fail> {
    let seed = random_seed(&rt)?;
    for (places, wanted) in AUDITS {
        let (audited, replayed) = judge_spoilt(rt.alloc(), seed, places)?;
        assert!(rt; audited == *wanted);
        assert!(rt; replayed == *wanted);
    }
    Ok(())
}

const FAULTS: &[(AuditFault, &str)] = &[
    (AuditFault::Illegal(3), "entry 3 is illegal"),
    (AuditFault::Memory, "out of memory"),
];

#[test]
fn faults_have_texts(rt: HostRuntime) -> Result<(), Fail> {
    for (fault, wanted) in FAULTS {
        assert_eq!(rt; format!(in rt.alloc(); "{fault}")?.as_str(), *wanted);
    }
    Ok(())
}
