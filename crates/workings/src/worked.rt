// What `work` shows, under the path of its own: the numbers of each topic.
pub use crate::working::{FundingWork, MarginWork, PointsWork, SplitWork};
