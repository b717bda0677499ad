//! The office's wire: which command a request asks for, and the bytes of each response.
#![tactic(auto)]

pub mod bodies;
pub mod replies;
pub mod routes;
mod trees;

pub use bodies::WireFault;
pub use json::Scratch;
pub use replies::{Fixed, Response, fixed_text, render, unavailable_text};
pub use routes::{Class, Method, Route, Routes};
