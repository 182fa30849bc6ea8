//! What a call of a function needs.

use wasm_ops::HostName;

/// How much room a call of a function takes that the module defines (WebAssembly Core 1.0, sections 4.2.12 and 4.4.7).
#[derive(Clone, Copy)]
pub struct Shape {
    /// The cells of a call: parameters, declared locals, the operands at their greatest number, and one for each block that is open at the deepest place.
    pub cells: u64,

    /// How many parameters it takes.
    pub params: u32,

    /// How many locals it declares, without the parameters.
    pub locals: u32,

    /// Whether it gives a result.
    pub result: bool,
}

/// A function that is called.
#[derive(Clone, Copy)]
pub enum Callee {
    /// A function of the host.
    Host(HostName),

    /// A function that the module defines: the number of its body, and the room that it needs.
    Defined { body: u32, shape: Shape },
}
