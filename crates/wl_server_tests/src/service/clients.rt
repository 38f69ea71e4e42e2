//! Each call of a client.

const A_CLIENT_IS_AN_AGENT_OF_ITS_MANAGER: &str = "\
open window https://a.test/ -> Ok(Some(1))
open worker https://a.test/ -> Ok(Some(2))
request 1 db -> Ok(1)
request 2 db -> Ok(2)
look 1 -> Granted
look 2 -> Pending
release 1 1 -> Released
look 2 -> Granted
set 2 inactive -> Err(NotAWindow)
terminate 2 -> true
query 1 -> Ok((6, 0))
";

const A_CLIENT_HAS_SIGNALS_AND_MAY_BE_INACTIVE: &str = "\
open window https://a.test/ -> Ok(Some(1))
signal 1 -> Ok(1)
request 1 db 1 -> Ok(1)
abort 1 1 TimeoutError -> Ok(Done)
look 1 -> Aborted(TimeoutError)
set 1 inactive -> Ok(())
request 1 db 1 -> Err(InvalidState)
query 1 -> Err(InvalidState)
";

const A_CODE_TELLS_WHY_A_SIGNAL_WAS_ABORTED: &str = "\
open window https://a.test/ -> Ok(Some(1))
signal 1 -> Ok(1)
request 1 db 1 -> Ok(1)
request 1 db 1 -> Ok(2)
abort 1 1 65535 -> Ok(Done)
abort 1 1 0 -> Ok(AlreadyAborted)
look 1 -> Aborted(Code(65535))
look 2 -> Aborted(Code(65535))
request 1 db 1 -> Err(SignalAborted(Code(65535)))
terminate 1 -> true
";

const AN_OPAQUE_WINDOW_IS_REFUSED: &str = "\
open window https://a.test/ -> Ok(Some(1))
request 1 db -> Ok(1)
open window data:text/plain,x -> Ok(None)
request 2 db -> Err(Security)
signal 2 -> Err(Security)
abort 2 1 AbortError -> Err(NoSuchSignal)
abort 2 1 7 -> Err(NoSuchSignal)
release 2 1 -> NotHeld
set 2 inactive -> Ok(())
query 2 -> Err(InvalidState)
terminate 2 -> false
";

const AN_OPAQUE_WORKER_STAYS_ACTIVE: &str = "\
open worker data:text/plain,x -> Ok(None)
set 1 inactive -> Err(NotAWindow)
query 1 -> Err(Security)
";

pub const LISTS: &[&str] = &[
    A_CLIENT_IS_AN_AGENT_OF_ITS_MANAGER,
    A_CLIENT_HAS_SIGNALS_AND_MAY_BE_INACTIVE,
    A_CODE_TELLS_WHY_A_SIGNAL_WAS_ABORTED,
    AN_OPAQUE_WINDOW_IS_REFUSED,
    AN_OPAQUE_WORKER_STAYS_ACTIVE,
];
