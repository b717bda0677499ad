//! What clients take: where they come, their places and what they are told, and what is said when the store fails.
pub mod alarm;
pub mod chore;
pub mod connection;
pub mod desk;
pub mod listener;
pub mod port;
pub mod reception;
pub mod round;
pub mod seat;
pub mod visitors;
