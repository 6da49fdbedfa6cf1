//! What programs give of documents.

use json_terms::{RowLists, read_term, write_term};
use map_lang::{parse, run_map};
use std::alloc::Global;
use std::test::Fail;

// The keys and values of the one list, as JSON.
fn rows_text(alloc: Global, lists: &RowLists) -> Result<String, Fail> {
    let mut text = Vec::new(alloc);
    for list in lists.as_slice() {
        for row in list.as_slice() {
            text.push(b'[')?;
            write_term(alloc, &row.key, &mut text)?;
            text.push(b',')?;
            write_term(alloc, &row.value, &mut text)?;
            text.push(b']')?;
        }
    }
    Ok(String::from_utf8(text)?)
}

// What a source gives of a document.
pub fn mapped(alloc: Global, source: &str, document: &str) -> Result<String, Fail> {
    let document = read_term(alloc, document.as_bytes())?;
    let program = parse(alloc, source)?;
    let lists = run_map(alloc, &program, &document)?;
    rows_text(alloc, &lists)
}
