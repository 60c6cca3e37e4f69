#![tactic(auto)]

// What is sent, what is heard of it, and what a call does to a bucket and an answer buffer of any contents, as definitions with their theorems. This crate has no code.
