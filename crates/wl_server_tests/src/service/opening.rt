//! Which client an opened URL gives.

use std::test::Fail;
use wl_service::OpenFault;

const CLIENTS_ARE_NUMBERED_IN_THEIR_ORIGIN: &str = "\
open window https://a.test/ -> Ok(Some(1))
open worker https://a.test:443/x -> Ok(Some(2))
open window http://a.test/ -> Ok(Some(1))
open window no url -> Err(BadUrl)
";

const EACH_BUCKET_HAS_A_MANAGER: &str = "\
open window https://a.test/ -> Ok(Some(1))
open_in window inbox https://a.test/ -> Ok(Some(1))
open_in window default https://a.test/ -> Ok(Some(2))
enter window inbox https://a.test:443/x -> Ok(Some(2))
request 1 db -> Ok(1)
request 2 db -> Ok(1)
request 3 db -> Ok(2)
look 1 -> Granted
look 2 -> Granted
look 3 -> Pending
visit https://a.test/ -> (Ok(true), Some(4))
visit https://a.test/ inbox -> (Ok(true), Some(3))
visit https://a.test/ drafts -> (Ok(false), None)
";

/// A bad URL is told before a bad bucket, and that is told of an opaque origin too. Nobody opens by them, and no
/// manager is made.
const BAD_BUCKETS_OPEN_NOBODY: &str = "\
open_in window Inbox https://a.test/ -> Err(BadBucket)
open_in window  https://a.test/ -> Err(BadBucket)
open_in window -a https://a.test/ -> Err(BadBucket)
open_in window aaaaaaaaaaaaaaaaaaaaaaaaaaaaaaaaaaaaaaaaaaaaaaaaaaaaaaaaaaaaaaaaa https://a.test/ -> Err(BadBucket)
enter window Inbox https://a.test/ -> Err(BadBucket)
open_in window Inbox data:text/plain,x -> Err(BadBucket)
open_in window inbox data:text/plain,x -> Ok(None)
enter window Inbox data:text/plain,x -> Err(BadBucket)
enter window inbox data:text/plain,x -> Ok(None)
open_in window Inbox no url -> Err(BadUrl)
enter window Inbox no url -> Err(BadUrl)
visit https://a.test/ -> (Ok(false), None)
open_in window aaaaaaaaaaaaaaaaaaaaaaaaaaaaaaaaaaaaaaaaaaaaaaaaaaaaaaaaaaaaaaaa https://a.test/ -> Ok(Some(1))
open window https://a.test/ -> Ok(Some(1))
";

const A_FULL_MANAGER_OPENS_NO_CLIENT: &str = "\
open window https://a.test/ -> Ok(Some(1))
fill 4095 https://a.test/ -> Ok(Some(4096))
open window https://a.test/ -> Err(TooManyAgents)
open_in window inbox https://a.test/ -> Ok(Some(1))
terminate 1 -> true
open window https://a.test/ -> Ok(Some(4097))
";

const AN_ORIGIN_IS_SHOWN_ONCE_SOMEBODY_OPENED_THERE: &str = "\
open window https://a.test/ -> Ok(Some(1))
visit http://a.test/ -> (Ok(false), None)
visit https://a.test/ -> (Ok(true), Some(1))
";

const FAULTS_HAVE_THEIR_TEXTS: &str = "\
faults -> not a URL
not the name of a bucket
too many agents
numbers spent
too many managers
out of memory
";

pub const LISTS: &[&str] = &[
    CLIENTS_ARE_NUMBERED_IN_THEIR_ORIGIN,
    EACH_BUCKET_HAS_A_MANAGER,
    BAD_BUCKETS_OPEN_NOBODY,
    A_FULL_MANAGER_OPENS_NO_CLIENT,
    AN_ORIGIN_IS_SHOWN_ONCE_SOMEBODY_OPENED_THERE,
    FAULTS_HAVE_THEIR_TEXTS,
];

const FAULTS: [OpenFault; 6] = [
    OpenFault::BadUrl,
    OpenFault::BadBucket,
    OpenFault::TooManyAgents,
    OpenFault::NumbersSpent,
    OpenFault::TooManyManagers,
    OpenFault::Memory,
];

/// Adds the text of each fault.
pub fn put_faults(came: &mut String) -> Result<(), Fail> {
    for fault in FAULTS {
        write!(came, "{fault}\n")?;
    }
    Ok(())
}
