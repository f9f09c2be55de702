// The queue: it holds ranks of any one kind in a row that is lent to it, and gives the first. It stands on rank and course.
#![tactic(auto)]

mod row_queue;
#[cfg(test)]
mod tests;

pub use row_queue::Queue;
