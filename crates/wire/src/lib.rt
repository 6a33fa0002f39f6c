//! Eight-byte messages: members' orders and cancels, read and written exactly.

#![tactic(auto)]

mod bit_field;
mod fields;
mod kind;
mod layout;
pub mod messages;
mod one_bit;
pub mod request;
