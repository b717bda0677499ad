//! Routes, bodies and responses, worked out by hand.
mod bodies;
mod replies;
pub(super) mod routes;
pub(super) mod words;
