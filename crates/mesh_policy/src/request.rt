// HTTP requests.
use mesh_text::{List, Text};

/// An HTTP request, as policies see it (RFC 9110, sections 6 and 7).
#[derive(Debug, Drop, PartialEq, Eq)]
pub struct Request {
    pub method: Text,
    /// The whole target with its query, as it was sent.
    pub path: Text,
    /// The host with its port, if one was sent.
    pub authority: Option<Text>,
    /// As they were sent. Policies ask for a name in any case of its ASCII letters, and see the first header that has it.
    pub headers: List<Header>,
}

/// A header field (RFC 9110, section 5).
#[derive(Debug, Drop, PartialEq, Eq)]
pub struct Header {
    pub name: Text,
    pub value: Text,
}
