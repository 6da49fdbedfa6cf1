//! Rows reduced through the child that reduces, by the summers of one view and of a whole design.

use builtin_reduces::RowItem;
use child_pool::{
    ChildSum, ChildSummer, Pool, PoolFault, ReduceSlot, Summers, ViewSum, print_view_sum,
};
use design_docs::{Design, DesignFault, Reduce, View, read_design};
use json_terms::{Chars, NoMemory, Row, Term, read_term, write_term};
use std::alloc::Global;
use std::test::Fail;
use test_tools::same_text;
use tree_laws::Summer;
use view_ports::{Answer, ScriptServers};

/// A view whose reduce a query server runs, and one with a built-in reduce.
const DESIGN: &str =
    r#"{"_id":"_design/d","language":"field","views":{"v":{"map":"a","reduce":"rows"},"w":{"map":"b","reduce":"_sum"},"x":{"map":"c"}}}"#;

fn design_of(alloc: Global) -> Result<Design, Fail> {
    let document = read_term(alloc, DESIGN.as_bytes())?;
    match read_design(alloc, &document) {
        Ok(design) => Ok(design),
        Err(DesignFault::NoMemory) => Err(Fail::from(NoMemory)),
        Err(_fault) => Err(Fail::from("no design")),
    }
}

/// So many rows, each with the value 2.
fn items_of(alloc: Global, count: u32) -> Result<Vec<RowItem>, Fail> {
    let mut items = Vec::new(alloc);
    for place in 0..count {
        let row = Row {
            key: Term::Null,
            id: Chars::from_text(alloc, "x")?,
            place,
            value: Term::Int(2),
        };
        match RowItem::new(alloc, row)? {
            Some(item) => items.push(item)?,
            None => return Err(Fail::from("no item")),
        }
    }
    Ok(items)
}

fn servers_of(alloc: Global, lines: &[&str]) -> Result<ScriptServers, NoMemory> {
    let mut answers = Vec::new(alloc);
    for line in lines {
        answers.push(Answer::Line(Chars::from_text(alloc, line)?))?;
    }
    ScriptServers::new(alloc, answers)
}

/// The value of so many rows: as one list, and then of two such lists joined.
fn joined<M: Summer<Unit = RowItem>>(
    alloc: Global,
    summer: &mut M,
    items: &[RowItem],
) -> Result<M::Sum, M::Fault> {
    let first = match summer.leaf(alloc, items) {
        Ok(sum) => sum,
        Err(fault) => return Err(fault),
    };
    let mut parts = Vec::new(alloc);
    if parts.push(first).is_err() {
        return summer.leaf(alloc, items);
    }
    match summer.leaf(alloc, items) {
        Ok(sum) => {
            if parts.push(sum).is_err() {
                return summer.leaf(alloc, items);
            }
        }
        Err(fault) => return Err(fault),
    }
    summer.join(alloc, parts.as_slice())
}

fn fault_text(alloc: Global, fault: PoolFault) -> Result<String, Fail> {
    match fault {
        PoolFault::BadReply(line) => Ok(format!(in alloc; "bad reply {}", line.as_str())?),
        fault => Ok(format!(in alloc; "{fault}")?),
    }
}

fn child_text(alloc: Global, given: Result<ChildSum, PoolFault>) -> Result<String, Fail> {
    match given {
        Ok(sum) => {
            let mut text = Vec::new(alloc);
            write_term(alloc, &sum.term, &mut text)?;
            Ok(String::from_utf8(text)?)
        }
        Err(fault) => fault_text(alloc, fault),
    }
}

fn view_text(alloc: Global, given: Result<ViewSum, PoolFault>) -> Result<String, Fail> {
    match given {
        Ok(sum) => {
            let mut text = Vec::new(alloc);
            print_view_sum(alloc, &sum, &mut text)?;
            Ok(String::from_utf8(text)?)
        }
        Err(fault) => fault_text(alloc, fault),
    }
}

/// What the summer of the first view gives for so many rows twice, by a child that answers these lines.
fn by_child(alloc: Global, count: u32, lines: &[&str]) -> Result<String, Fail> {
    let design = design_of(alloc)?;
    let items = items_of(alloc, count)?;
    let mut servers = servers_of(alloc, lines)?;
    let mut pool = Pool::new(alloc, 1, &[])?;
    let [
        View {
            reduce: Reduce::Source(_),
            ..
        },
        ..
    ] = design.views.as_slice()
    else {
        return Err(Fail::from("no source"));
    };
    let mut summer = ChildSummer::over(&mut pool, &mut servers, &design, 0);
    child_text(alloc, joined(alloc, &mut summer, items.as_slice()))
}

/// The same of the summers of the whole design, turned to this view.
fn by_view(alloc: Global, view: u32, count: u32, lines: &[&str]) -> Result<String, Fail> {
    let design = design_of(alloc)?;
    let items = items_of(alloc, count)?;
    let mut servers = servers_of(alloc, lines)?;
    let mut pool = Pool::new(alloc, 1, &[])?;
    let mut summers = Summers {
        slot: ReduceSlot::over(&mut pool, &mut servers),
        design: &design,
        view: 0,
    };
    view_text(alloc, joined(alloc, summers.summer(view), items.as_slice()))
}

const FAULT: &str = "query server failed twice";

/// How many rows are reduced twice and joined, the lines that a child answers, and what comes of it. The first line answers the
/// reset; each 32 rows are a line, and values are joined by one more.
const CHILDREN: &[(u32, &[&str], &str)] = &[
    (1, &["true", "[true,[1]]", "[true,[1]]", "[true,[2]]"], "2"),
    (
        32,
        &["true", "[true,[32]]", "[true,[32]]", "[true,[64]]"],
        "64",
    ),
    (
        33,
        &[
            "true",
            "[true,[32]]",
            "[true,[1]]",
            "[true,[33]]",
            "[true,[32]]",
            "[true,[1]]",
            "[true,[33]]",
            "[true,[66]]",
        ],
        "66",
    ),
    (
        1,
        &[
            "true",
            r#"["log","x"]"#,
            "[true,[\"a\"]]",
            "[true,[1]]",
            "[true,[[]]]",
        ],
        "[]",
    ),
    (1, &["true", "[true,[1,2]]"], "bad reply [true,[1,2]]"),
    (1, &["true", "[true,[]]"], "bad reply [true,[]]"),
    (1, &["true", "[false,[1]]"], "bad reply [false,[1]]"),
    (
        1,
        &["true", "[true,[1]]", "[true,[1]]", "true"],
        "bad reply true",
    ),
    (
        1,
        &["true", r#"["error","compilation_error","no"]"#],
        "a source doesn't compile",
    ),
    (
        1,
        &[
            "true",
            "[true,[1]]",
            "[true,[1]]",
            r#"["fatal","compilation_error","no"]"#,
        ],
        "a source doesn't compile",
    ),
    (1, &[], FAULT),
    (1, &["true"], FAULT),
    (1, &["true", "[true,[1]]", "[true,[1]]"], FAULT),
    (0, &["true", "[true,[1]]"], "out of memory"),
];

#[test]
fn rows_are_reduced_in_parts_by_a_child(rt: HostRuntime) -> Result<(), Fail> {
    for (count, lines, want) in CHILDREN {
        same_text(by_child(rt.alloc(), *count, lines), want, "one view")?;
        same_text(by_view(rt.alloc(), 0, *count, lines), want, "a design")?;
    }
    Ok(())
}

/// A view, how many rows are reduced twice and joined, and what comes of it, though no child answers.
const WITHOUT_CHILDREN: &[(u32, u32, &str)] = &[(1, 3, "12"), (1, 0, "0"), (2, 3, ""), (7, 3, "")];

#[test]
fn other_views_ask_no_child(rt: HostRuntime) -> Result<(), Fail> {
    for (view, count, want) in WITHOUT_CHILDREN {
        same_text(by_view(rt.alloc(), *view, *count, &[]), want, "")?;
    }
    Ok(())
}

/// After a refusal nothing more is asked, though the child would answer.
#[test]
fn a_refusal_ends_the_talk(rt: HostRuntime) -> Result<(), Fail> {
    let alloc = rt.alloc();
    let design = design_of(alloc)?;
    let items = items_of(alloc, 1)?;
    let mut servers = servers_of(alloc, &["true", "1", "true", "[true,[1]]"])?;
    let mut pool = Pool::new(alloc, 1, &[])?;
    let mut summers = Summers {
        slot: ReduceSlot::over(&mut pool, &mut servers),
        design: &design,
        view: 0,
    };
    let first = summers.summer(0).leaf(alloc, items.as_slice());
    same_text(view_text(alloc, first), "bad reply 1", "first")?;
    let second = summers.summer(0).leaf(alloc, items.as_slice());
    same_text(view_text(alloc, second), "out of memory", "second")?;
    let mut again = Summers {
        slot: ReduceSlot::over(&mut pool, &mut servers),
        design: &design,
        view: 0,
    };
    let third = again.summer(0).leaf(alloc, items.as_slice());
    same_text(view_text(alloc, third), "1", "third")
}
