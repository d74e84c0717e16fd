// Piles of sinks over lent bytes: what their owner knows afterwards.
#![tactic(auto)]

mod known;
mod posts;

pub use known::{freeze_and_post, freeze_and_post_above, post};
pub use posts::{FrozenPost, Post};

#[cfg(test)]
mod tests;
