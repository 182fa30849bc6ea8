//! What is pending while a program runs is typed, and keeps within its heights.
//!
//! `specs/Typed.antt` says what typing knows of each sequence that is still to run, from the inside outwards, with its operands, its frame and the store;
//! `specs/Steps.antt` where a branch, a return, the end of a sequence, a call and a block go on.
//! `laws` states that all this is kept by each step, whatever machine takes it (WebAssembly Core 1.0, appendix A.5). There is no code.
#![tactic(auto)]

pub mod laws;
