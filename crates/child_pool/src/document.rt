//! A document that may be mapped.
ghost use Rattle.std.specs.Prelude.{◌≡◌, ◌≤◌, is_some, true};
ghost use Rattle.json_terms.specs.Json.{depth};
ghost use Rattle.json_terms.specs.Kinds.{members_in};
ghost use Rattle.json_terms.specs.Seen.{json};
ghost use Rattle.view_ports.specs.Commands.{document_depth};
ghost use Rattle.query_protocol.specs.CommandLines.{document_of, IsDocument};

use json_terms::Term;
use std::marker::Model;

/// A document that may be mapped: an object of depth 64 at most. Contracts see it as the list of its members.
#[derive(Drop)]
pub struct Document {
    term: Term,
    ghost is_object: { is_some (members_in (json term)) ≡ true },
    ghost is_shallow: { depth (json term) ≤ document_depth },
}

impl Model for Document {
    ghost use Rattle.std.specs.Prelude.{ℕ, List};
    ghost use Rattle.std.specs.Coded.{coded_list, coded×, coded_ℕ};
    ghost use Rattle.json_terms.specs.Json.{Json};
    ghost use Rattle.json_terms.specs.Code.{coded_json};
    ghost use Rattle.json_terms.specs.Seen.{json};
    ghost use Rattle.query_protocol.specs.CommandLines.{document_of};

    ghost Value = { List (List ℕ × Json) };

    ghost coded = { coded_list (coded× (coded_list coded_ℕ) coded_json) };

    ghost view = { λ document. document_of (json document.term) };
}

impl Document {
    /// A document of a term.
    pub fn new(term: Term) -> Document
        requires { IsDocument (json term) }
        ensures { result ≡ document_of (json term) }
    {
        Document { term }
    }

    /// The object that the document is.
    pub fn term(&self) -> &Term
        ensures members { document_of (json result.now) ≡ self.now }
        ensures document { IsDocument (json result.now) }
    {
        &self.term
    }
}
