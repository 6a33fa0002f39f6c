//! The venue: its calls and questions, over any margin keeper.

#![tactic(auto)]

mod cancels;
mod comparing;
mod deposits;
mod event_list;
mod filling;
mod grounds;
mod incoming;
mod judging;
mod making;
mod meeting;
mod placing;
mod questions;
mod replaying;
mod rows;
mod setting_up;
pub mod state;
pub mod submitting;

pub use crate::comparing::alike;
pub use crate::replaying::replay;
