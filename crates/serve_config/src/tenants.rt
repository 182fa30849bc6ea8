//! Tenants and their routes, as a configuration names them.

use outside::Text;
use wasm_ops::Items;

/// A function of a tenant, and what each of its requests may take.
#[derive(Debug, Drop)]
pub struct Route {
    /// The path that a request asks for: `/` and visible ASCII letters, at most 256 bytes. None of a tenant's other routes has it.
    pub path: Text,

    /// The name of the file that holds the function's module, 1 to 256 bytes.
    pub module: Text,

    /// The units of fuel that a request may spend, at most 2^40.
    pub budget: u64,

    /// The most pages of linear memory, 64 KiB each, that the function may have: 1 to 1,024.
    pub pages: u32,

    /// The units that a request is taken to spend when it is let in, at most 2^40.
    pub estimate: u64,

    /// How long after a request's coming its reply is due, in milliseconds, below 2^32.
    pub deadline: u64,

    /// The `Content-Type` of the function's replies (RFC 9110, section 8.3): 1 to 128 blanks and visible ASCII letters.
    pub content_type: Text,
}

/// One whose functions are served: a port, a share of the machine, and routes.
#[derive(Debug, Drop)]
pub struct Tenant {
    /// 1 to 64 letters `a` to `z`, digits, `_` and `-`. No other tenant has the name.
    pub name: Text,

    /// The TCP port on which the tenant is served, which no other tenant has; not 0.
    pub port: u16,

    /// The most units that the tenant's requests may be ahead of its rate, at most 2^40.
    pub capacity: u64,

    /// The units that leak from its level in each millisecond, below 2^32.
    pub rate: u64,

    /// 1 to 64 routes, each with a path of its own.
    pub routes: Items<Route>,
}
