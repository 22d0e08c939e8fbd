use thiserror::Error;

/// A read of a source failed. It comes only where the source's count of faults rose.
#[derive(Clone, Copy, Debug, PartialEq, Eq, Error)]
#[error("the source failed")]
pub struct SourceFault;

/// A call on an area failed. It comes only where the world's count of area faults rose.
#[derive(Clone, Copy, Debug, PartialEq, Eq, Error)]
#[error("the area failed")]
pub struct AreaFault;

/// A put of output failed. It comes only where the world's count of put faults rose.
#[derive(Clone, Copy, Debug, PartialEq, Eq, Error)]
#[error("the output failed")]
pub struct PutFault;

/// A put of a feed failed. It comes only where the feed's count of faults rose.
#[derive(Clone, Copy, Debug, PartialEq, Eq, Error)]
#[error("the feed failed")]
pub struct FeedFault;
