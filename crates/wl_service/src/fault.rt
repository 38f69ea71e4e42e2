//! Why no client is opened.

use thiserror::Error;

/// Why a client wasn't opened. The service is then as it was.
#[derive(Clone, Copy, Debug, PartialEq, Eq, Drop, Error)]
pub enum OpenFault {
    /// The text is no absolute URL.
    #[error("not a URL")]
    BadUrl,
    /// The text is a URL, and the bucket is no name of one.
    #[error("not the name of a bucket")]
    BadBucket,
    /// 4,096 agents of the bucket's manager are live.
    #[error("too many agents")]
    TooManyAgents,
    /// The manager's next agent number would be 2^53.
    #[error("numbers spent")]
    NumbersSpent,
    /// The bucket has no manager, and as many managers as may be have a client.
    #[error("too many managers")]
    TooManyManagers,
    /// A growth was refused, or the URL would be longer than 4,294,967,295 bytes.
    #[error("out of memory")]
    Memory,
}
