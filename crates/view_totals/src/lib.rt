//! What the views of all threads on a shared table come to, added up.
//!
//! A table that threads share (`atomic_table` of the kit) keeps a view for each pass: what its thread knows. The rules of `run_queues`, `memory_pool` and `job_board` count over all of them.
//! Definitions and lemmas alone: the sum of a number of each element of a list (`specs/Totals.antt`), and how it changes where one element does.
//! It stands on nothing but std and `atomic_table`.
#![tactic(auto)]
