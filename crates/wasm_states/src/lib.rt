//! What a vessel stands for: the pending frames of the meaning, in flat operators, cells, labels and frames.
//!
//! `specs/` says which sequence stands at a place of a body, what labels and frames are around it, and which vessels are states of a program.
//! The crates above change vessels: one operator, or one call of the host, at a time. Each change is one step of what is pending.
//! It stands on `wasm_meaning` and `wasm_pending` for what is pending and how it is typed, on `wasm_store` for vessels, and on `wasm_ops` for operators.
#![tactic(auto)]
