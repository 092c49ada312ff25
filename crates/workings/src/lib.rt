// Numbers in texts, and the arithmetic of one charge for people: what is asked, and the line that shows it.
#![tactic(auto)]

pub mod asking;
pub mod between;
pub mod figure;
pub mod keyword;
pub mod listed;
pub mod money;
pub mod number;
pub mod ranged;
pub mod shown;
pub mod topic;
pub mod work;
pub mod work_fault;
pub mod worked;
pub mod working;
