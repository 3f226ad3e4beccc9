//! What is proved of the definitions. Each function has an empty body, and its contract is a law.

pub mod answers;
pub mod books;
pub mod examples;
pub mod indexes;
pub mod payloads;
pub mod rules;
pub mod starts;
pub mod views;
