//! Calls of the host's functions (WASI preview1).

/// A function of the host that a module may import from `wasi_snapshot_preview1`.
#[derive(Clone, Copy, Debug)]
pub enum HostName {
    /// `fd_read`: reads from a file descriptor into buffers.
    FdRead,

    /// `fd_write`: writes the bytes of buffers to a file descriptor.
    FdWrite,

    /// `proc_exit`: ends the program.
    ProcExit,
}

/// A call of a function of the host, with its arguments.
#[derive(Clone, Copy, Debug)]
pub struct HostCall {
    /// The function.
    pub name: HostName,

    /// The arguments, the first one first: of `fd_read` and `fd_write` the file descriptor, the place of the array of buffers, their number and the place of the count; of `proc_exit` the code, and 0 three times.
    pub args: [u32; 4],

    /// Whether it was called through the table.
    pub indirect: bool,
}
