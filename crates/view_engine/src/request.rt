//! The requests.

use json_terms::{Chars, Members};

/// A view by the name of its design document, without `_design/`, and its own name.
#[derive(Drop)]
pub struct ViewName {
    pub design: Chars,
    pub view: Chars,
}

/// A request line, recognised. Values of another kind or range are no request.
#[derive(Drop)]
pub enum Request {
    /// Stores a document, or deletes it where it has `"_deleted":true`.
    Put {
        document: Members,
    },
    /// Deletes a document, given its present revision.
    Delete {
        id: Chars,
        rev: Option<Chars>,
    },
    /// Prints a live document.
    Get {
        id: Chars,
    },
    /// Prints rows or groups of a view, as the query says.
    View {
        view: ViewName,
        query: Option<Members>,
    },
    /// Opens a cursor over rows of a view. Its name has 1 to 32 bytes.
    Cursor {
        name: Chars,
        view: ViewName,
        query: Option<Members>,
    },
    /// Prints the next rows of a cursor, 1 to 1,000.
    Next {
        name: Chars,
        count: u32,
    },
    /// Closes a cursor.
    Close {
        name: Chars,
    },
    /// Begins the compaction of a design document's index.
    Compact {
        design: Chars,
    },
    /// Copies 1 to 10,000 further items of a compaction.
    CompactStep {
        design: Chars,
        rows: u32,
    },
    /// Compacts the documents.
    CompactDocs,
    /// Drops the indexes that no design document has.
    Cleanup,
    /// Prints how many documents there are, and the update sequence.
    Info,
    /// Prints the live documents as rows, as the query says.
    AllDocs {
        query: Members,
    },
}
