//! What the reduces give.

use json_terms::{NoMemory, Row, Term};
use map_lang::{parse_reduce, reduce_in_parts, run_reduce, run_rereduce};
use std::alloc::Global;
use std::test::Fail;
use test_tools::{same_text, text_of};
use view_ports::{Command, read_command};

fn reduced(alloc: Global, source: &str, rows: &[Row]) -> Result<Option<Term>, NoMemory> {
    match parse_reduce(source) {
        Some(how) if !rows.is_empty() => Ok(Some(run_reduce(alloc, how, rows)?)),
        _ => Ok(None),
    }
}

fn rereduced(alloc: Global, source: &str, values: &[Term]) -> Result<Option<Term>, NoMemory> {
    match parse_reduce(source) {
        Some(how) if !values.is_empty() => Ok(Some(run_rereduce(alloc, how, values)?)),
        _ => Ok(None),
    }
}

// What the line asks for. `None` where it names no reduce.
fn result_of(alloc: Global, line: &str) -> Result<Option<Term>, NoMemory> {
    match read_command(alloc, line.as_bytes())? {
        Command::Reduce { source, rows } => reduced(alloc, source.as_str(), rows.as_slice()),
        Command::Rereduce { source, values } => {
            rereduced(alloc, source.as_str(), values.as_slice())
        }
        _ => Ok(None),
    }
}

// The result as text, which is empty where the line names no reduce.
fn shown(alloc: Global, line: &str) -> Result<String, Fail> {
    match result_of(alloc, line)? {
        Some(term) => text_of(alloc, &term),
        None => Ok(String::new(alloc)),
    }
}

// Lines that ask for reductions, and the results.
const LINES: &[(&str, &str)] = &[
    (r#"["reduce",["rows"],[[[1,"a"],"b"]]]"#, "1"),
    (
        r#"["reduce",["rows"],[[[1,"a"],3],[[1,"a"],-1],[[1,"a"],"x"]]]"#,
        "3",
    ),
    (
        r#"["reduce",["min"],[[[1,"a"],3],[[2,"a"],1],[[3,"a"],2]]]"#,
        "1",
    ),
    (
        r#"["reduce",["min"],[[[1,"a"],"b"],[[1,"a"],[]],[[1,"a"],{}],[[1,"a"],true],[[1,"a"],null],[[1,"a"],false],[[1,"a"],7]]]"#,
        "7",
    ),
    (
        r#"["reduce",["max"],[[[3,"a"],1],[[2,"a"],3],[[1,"a"],2]]]"#,
        "3",
    ),
    (
        r#"["reduce",["max"],[[[1,"a"],7],[[1,"a"],false],[[1,"a"],null],[[1,"a"],true],[[1,"a"],{}],[[1,"a"],[]],[[1,"a"],""]]]"#,
        r#""""#,
    ),
    (
        r#"["reduce",["first"],[[[1,"a"],3],[[2,"a"],1],[[3,"a"],2]]]"#,
        "3",
    ),
    (
        r#"["reduce",["last"],[[[1,"a"],3],[[2,"a"],1],[[3,"a"],2]]]"#,
        "2",
    ),
    (r#"["reduce",["last"],[[[1,"a"],[1]]]]"#, "[1]"),
    (r#"["rereduce",["rows"],[2,3]]"#, "5"),
    (r#"["rereduce",["rows"],[3,"x",-1,null,[9]]]"#, "3"),
    (
        r#"["rereduce",["rows"],[9223372036854775807,1]]"#,
        "9223372036854775807",
    ),
    (r#"["rereduce",["min"],[3,1,2]]"#, "1"),
    (r#"["rereduce",["max"],["a","b",1]]"#, r#""b""#),
    (r#"["rereduce",["first"],[3,1,2]]"#, "3"),
    (r#"["rereduce",["last"],[3,1,2]]"#, "2"),
    (r#"["rereduce",[""],[1]]"#, ""),
    (r#"["rereduce",["rows "],[1]]"#, ""),
    (r#"["rereduce",["Rows"],[1]]"#, ""),
    (r#"["rereduce",["_sum"],[1]]"#, ""),
    (r#"["rereduce",["min,max"],[1]]"#, ""),
    (r#"["rereduce",["middle"],[1]]"#, ""),
];

#[test]
fn rows_and_results_of_parts_are_reduced(rt: HostRuntime) -> Result<(), Fail> {
    reduce_in_parts();
    for (line, want) in LINES {
        same_text(shown(rt.alloc(), line), want, line)?;
    }
    Ok(())
}
