//! The verbs of requests.

use vr_types::Request;

/// What a request asks for.
#[derive(Clone, Copy, PartialEq, Eq)]
pub enum Verb {
    Get,
    Point,
    Put,
    Erase,
    EndReq,
    Commit,
    Backout,
}

impl Verb {
    /// The verb of a request.
    pub fn of(request: &Request) -> Verb {
        match request {
            Request::Get { .. } => Verb::Get,
            Request::Point { .. } => Verb::Point,
            Request::Add { .. } | Request::Update { .. } => Verb::Put,
            Request::Erase { .. } => Verb::Erase,
            Request::EndReq { .. } => Verb::EndReq,
            Request::Commit => Verb::Commit,
            Request::Backout => Verb::Backout,
        }
    }

    /// How a deck writes it.
    pub fn text(self) -> &'static str {
        match self {
            Verb::Get => "GET",
            Verb::Point => "POINT",
            Verb::Put => "PUT",
            Verb::Erase => "ERASE",
            Verb::EndReq => "ENDREQ",
            Verb::Commit => "COMMIT",
            Verb::Backout => "BACKOUT",
        }
    }
}
