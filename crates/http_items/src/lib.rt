//! What the bytes of one HTTP/1.1 connection ask for, as definitions: which bytes are a head, what
//! becomes of each request, and where a connection ends. Nothing here reads bytes as they come; the
//! crates above do, and are proved against these definitions.
//!
//! Promised: `specs/` says what is there, and the functions of `laws` say what holds of it.
//! It stands on the grammar of heads of `httparse`, and on the words of `http1` for lists of options.
#![tactic(auto)]

mod laws;
mod methods;
mod refusals;

pub use laws::{
    end_of_a_stream, heads_of_the_grammar, items_have_numbers, items_in_order, refusals_by_number,
};
pub use methods::Method;
pub use refusals::Refusal;
