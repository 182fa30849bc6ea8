//! The methods that are answered.

/// The method of a request that is served (RFC 9110 section 9.3).
#[derive(Clone, Copy, PartialEq, Eq)]
pub enum Method {
    /// The reply has what the function of the path's route makes of the body, which may be empty (RFC 9110 section 9.3.1).
    Get,

    /// As GET, and the reply has no body (RFC 9110 section 9.3.2).
    Head,

    /// As GET: the function is given the body (RFC 9110 section 9.3.3).
    Post,
}
