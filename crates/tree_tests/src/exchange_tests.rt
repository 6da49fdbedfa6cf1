//! Exchanges of the rows of documents, one after another, in a store in memory.

ghost use Rattle.std.specs.Prelude.{◌≡◌, ◌<◌};

use crate::indexes::{
    Doc, SizedTrees, change_of, changes_of, design_of, entries_text, exchanged, rows_text,
    sum_text, walked,
};
use builtin_reduces::RowItem;
use design_docs::Design;
use index_items::BackItem;
use row_exchange::DocRows;
use std::alloc::Global;
use std::marker::Brand;
use std::sync::ledger::{Blank, Ledger};
use std::test::Fail;
use test_tools::same_text;
use tree_laws::{MemoryFault, MemoryNodes, Steps, TreeFault};
use tree_tools::SizedTree;

/// A view with a reduce that is built in, and one without a reduce.
const TWO_VIEWS: &str =
    r#"{"_id":"_design/d","language":"field","views":{"v":{"map":"a","reduce":"_sum"},"w":{"map":"b"}}}"#;

/// Documents that are exchanged, and what the trees show then: the rows of both views, the entries of the back-index, and the value of
/// the first view's rows.
type Turn = (
    &'static [Doc],
    &'static str,
    &'static str,
    &'static str,
    &'static str,
);

/// Exchanges one after another: of no document, of new ones, of other values in the same places, of other keys, of a document that has
/// no row any more, of none again, of one that comes back beside one that never had a row, of a key with its members in another
/// order, which is the same key, of rows that change places, of all that there are, and of one more.
const TURNS: &[Turn] = &[
    (&[], "", "", "", ""),
    (
        &[
            ("b", &[r#"[["x",2]]"#, "[]"]),
            ("a", &["[[1,5],[1,7]]", r#"[[null,"p"]]"#]),
        ],
        r#"1 a 0 5;1 a 1 7;"x" b 0 2;"#,
        r#"null a 0 "p";"#,
        r#"a: 0 1 0, 0 1 1, 1 null 0,;b: 0 "x" 0,;"#,
        "14",
    ),
    (
        &[("a", &["[[1,6],[1,7]]", r#"[[null,"q"]]"#])],
        r#"1 a 0 6;1 a 1 7;"x" b 0 2;"#,
        r#"null a 0 "q";"#,
        r#"a: 0 1 0, 0 1 1, 1 null 0,;b: 0 "x" 0,;"#,
        "15",
    ),
    (
        &[("b", &[r#"[["w",2]]"#, "[[true,0]]"])],
        r#"1 a 0 6;1 a 1 7;"w" b 0 2;"#,
        r#"null a 0 "q";true b 0 0;"#,
        r#"a: 0 1 0, 0 1 1, 1 null 0,;b: 0 "w" 0, 1 true 0,;"#,
        "15",
    ),
    (
        &[("a", &["[]", "[]"])],
        r#""w" b 0 2;"#,
        "true b 0 0;",
        r#"b: 0 "w" 0, 1 true 0,;"#,
        "2",
    ),
    (
        &[],
        r#""w" b 0 2;"#,
        "true b 0 0;",
        r#"b: 0 "w" 0, 1 true 0,;"#,
        "2",
    ),
    (
        &[
            ("c", &["[]", "[]"]),
            ("a", &[r#"[["w",1],["w",3],[0,4]]"#, "[[true,1]]"]),
        ],
        r#"0 a 2 4;"w" a 0 1;"w" a 1 3;"w" b 0 2;"#,
        "true a 0 1;true b 0 0;",
        r#"a: 0 0 2, 0 "w" 0, 0 "w" 1, 1 true 0,;b: 0 "w" 0, 1 true 0,;"#,
        "10",
    ),
    (
        &[
            ("b", &[r#"[[{"y":2,"x":1},-9]]"#, "[[true,1],[true,0]]"]),
            ("a", &[r#"[[{"x":1,"y":2},4],["w",3]]"#, "[]"]),
        ],
        r#"{"x":1,"y":2} a 0 4;{"x":1,"y":2} b 0 -9;"w" a 1 3;"#,
        "true b 0 1;true b 1 0;",
        r#"a: 0 {"x":1,"y":2} 0, 0 "w" 1,;b: 0 {"x":1,"y":2} 0, 1 true 0, 1 true 1,;"#,
        "-2",
    ),
    (
        &[("b", &[r#"[[{"x":1,"y":2},-8]]"#, "[[true,1],[true,0]]"])],
        r#"{"x":1,"y":2} a 0 4;{"x":1,"y":2} b 0 -8;"w" a 1 3;"#,
        "true b 0 1;true b 1 0;",
        r#"a: 0 {"x":1,"y":2} 0, 0 "w" 1,;b: 0 {"x":1,"y":2} 0, 1 true 0, 1 true 1,;"#,
        "-1",
    ),
    (
        &[("a", &[r#"[["w",3],[{"y":2,"x":1},4]]"#, "[]"])],
        r#"{"x":1,"y":2} a 1 4;{"x":1,"y":2} b 0 -8;"w" a 0 3;"#,
        "true b 0 1;true b 1 0;",
        r#"a: 0 {"x":1,"y":2} 1, 0 "w" 0,;b: 0 {"x":1,"y":2} 0, 1 true 0, 1 true 1,;"#,
        "-1",
    ),
    (
        &[("a", &["[]", "[]"]), ("b", &["[]", "[]"])],
        "",
        "",
        "",
        "",
    ),
    (
        &[("", &["[[[],7]]", "[]"])],
        "[]  0 7;",
        "",
        ": 0 [] 0,;",
        "7",
    ),
];

/// The rows of a tree.
fn rows_of<L: Ledger>(
    alloc: Global,
    store: &mut MemoryNodes,
    tree: &SizedTree,
    steps: &mut Steps<L>,
) -> Result<String, Fail> {
    match walked::<_, RowItem, L>(alloc, store, tree, steps) {
        Ok(rows) => rows_text(alloc, &rows),
        Err(_) => Err(Fail::from("no rows")),
    }
}

/// The trees show what stands in the turn.
fn show<L: Ledger>(
    alloc: Global,
    store: &mut MemoryNodes,
    design: &Design,
    trees: &SizedTrees,
    turn: &Turn,
    steps: &mut Steps<L>,
) -> Result<(), Fail> {
    let (_, first, second, entries, sum) = turn;
    let view = trees.view(0);
    same_text(rows_of(alloc, store, &view, steps), first, "first view")?;
    same_text(sum_text(alloc, store, design, &view, steps), sum, "value")?;
    let view = trees.view(1);
    same_text(rows_of(alloc, store, &view, steps), second, "second view")?;
    match walked::<_, BackItem, L>(alloc, store, &trees.back(), steps) {
        Ok(given) => same_text(entries_text(alloc, &given), entries, "entries"),
        Err(_) => Err(Fail::from("no entries")),
    }
}

/// The trees after each turn show what stands there.
fn show_all<L: Ledger>(
    alloc: Global,
    store: &mut MemoryNodes,
    design: &Design,
    all: &[SizedTrees],
    steps: &mut Steps<L>,
) -> Result<(), Fail> {
    for (trees, turn) in all.iter().zip(TURNS) {
        show(alloc, store, design, trees, turn, steps)?;
    }
    Ok(())
}

/// The trees with the rows exchanged, and whether a call of the store failed first. Where one did, the trees before show what they did.
fn exchanged_at_last<L: Ledger>(
    alloc: Global,
    store: &mut MemoryNodes,
    design: &Design,
    all: &[SizedTrees],
    docs: &[Doc],
    steps: &mut Steps<L>,
) -> Result<(SizedTrees, bool), Fail> {
    let empty = SizedTrees::empty(alloc, 2)?;
    let before = all.last().unwrap_or(&empty);
    let changes = changes_of(alloc, docs)?;
    match exchanged(alloc, store, design, before, &changes, steps) {
        Ok(after) => return Ok((after, false)),
        Err(TreeFault::Store(MemoryFault::Failed)) => {}
        Err(_) => return Err(Fail::from("another fault")),
    }
    show_all(alloc, store, design, all, steps)?;
    match exchanged(alloc, store, design, before, &changes, steps) {
        Ok(after) => Ok((after, true)),
        Err(_) => Err(Fail::from("a fault again")),
    }
}

/// Makes the exchanges in a store whose calls of these numbers fail, of which there is one at most, and answers whether one of them
/// did. Only exchanges call the store until then.
fn play<L: Ledger>(alloc: Global, fail: &[u64], steps: &mut Steps<L>) -> Result<bool, Fail> {
    let design = design_of(alloc, TWO_VIEWS)?;
    let mut store = MemoryNodes::new(alloc, fail.to_vec(alloc)?);
    let mut all = Vec::new(alloc);
    let mut has_failed = false;
    for (docs, ..) in TURNS {
        let (after, fails) = exchanged_at_last(alloc, &mut store, &design, &all, docs, steps)?;
        all.push(after)?;
        has_failed = has_failed || fails;
        if has_failed || fail.is_empty() {
            show_all(alloc, &mut store, &design, &all, steps)?;
        }
    }
    Ok(has_failed)
}

fn play_once<L: Ledger>(alloc: Global, blank: Blank) -> Result<bool, Fail>
    requires name { blank.name ≡ L.name }
    requires parts { blank.parts ≡ L.parts }
    requires some { 0 < L.parts }
{
    let mut steps = Steps::<L>::new(blank);
    play(alloc, &[], &mut steps)
}

#[test]
fn exchanges_one_after_another(rt: HostRuntime) -> Result<(), Fail> {
    let has_failed = play_once::<Brand>(rt.alloc(), Blank::new(1))?;
    assert!(rt; !has_failed);
    Ok(())
}

fn fail_in_turn<L: Ledger>(alloc: Global, blank: Blank) -> Result<u64, Fail>
    requires name { blank.name ≡ L.name }
    requires parts { blank.parts ≡ L.parts }
    requires some { 0 < L.parts }
{
    let mut steps = Steps::<L>::new(blank);
    for call in 0..1_000 {
        if !play(alloc, &[call], &mut steps)? {
            return Ok(call);
        }
    }
    Err(Fail::from("a call fails each time"))
}

#[test]
fn each_call_of_an_exchange_fails_in_turn(rt: HostRuntime) -> Result<(), Fail> {
    let calls = fail_in_turn::<Brand>(rt.alloc(), Blank::new(1))?;
    assert!(rt; calls > 30 && calls < 150, "{calls}");
    Ok(())
}

/// How many documents there are, with the ids 1000 to 1399. Each has a row with its number as the key and the value 1 in each view.
const MANY: u64 = 400;

/// Changes of one document more or less: its rows in each view, and how many rows and entries are removed, added or replaced. Then
/// what the trees have: how many rows of each view and how many entries; the first view's rows before those of the others, where the
/// one of 1137 was, and behind them; and their value.
const CHANGES: &[(&str, &[&str], u64, [u64; 3], [&str; 3], &str)] = &[
    (
        "1137",
        &["[[1137,3]]", "[[1137,1]]"],
        3,
        [400, 400, 400],
        ["", "1137 1137 0 3;", ""],
        "402",
    ),
    (
        "1137",
        &["[[2000,3]]", "[]"],
        4,
        [400, 399, 400],
        ["", "", "2000 1137 0 3;"],
        "402",
    ),
    (
        "1137",
        &["[[1,3],[2000,4]]", "[]"],
        4,
        [401, 399, 400],
        ["1 1137 0 3;", "", "2000 1137 1 4;"],
        "406",
    ),
    (
        "1137",
        &["[]", "[]"],
        3,
        [399, 399, 399],
        ["", "", ""],
        "399",
    ),
    (
        "1137",
        &["[]", "[]"],
        0,
        [399, 399, 399],
        ["", "", ""],
        "399",
    ),
    (
        "137",
        &["[[1137,1]]", "[[1137,1]]"],
        3,
        [400, 400, 400],
        ["", "1137 137 0 1;", ""],
        "400",
    ),
];

fn numbered_docs(alloc: Global) -> Result<Vec<DocRows>, Fail> {
    let mut changes = Vec::new(alloc);
    for number in 1_000..1_400 {
        let id = format!(in alloc; "{number}")?;
        let list = format!(in alloc; "[[{number},1]]")?;
        changes.push(change_of(alloc, &id, &[&list, &list])?)?;
    }
    Ok(changes)
}

/// The rows of all documents but 1137, with others before them, where its row was, and behind them.
fn text_of_many(alloc: Global, others: &[&str; 3]) -> Result<String, Fail> {
    let [front, here, end] = others;
    let mut text = String::from_str(alloc, front)?;
    for number in 1_000..1_400 {
        if number == 1_137 {
            text.push_str(here)?;
        } else {
            text.push_str(&format!(in alloc; "{number} {number} 0 1;")?)?;
        }
    }
    text.push_str(end)?;
    Ok(text)
}

/// The trees with the rows exchanged. So many edits put four nodes at most for each level and one more, and take eight steps at most,
/// beside two for each level and document.
fn measured<L: Ledger>(
    alloc: Global,
    store: &mut MemoryNodes,
    design: &Design,
    trees: &SizedTrees,
    changes: &[DocRows],
    edits: u64,
    steps: &mut Steps<L>,
) -> Result<SizedTrees, Fail> {
    let (puts, reads) = (store.len() as u64, store.reads());
    let Ok(after) = exchanged(alloc, store, design, trees, changes, steps) else {
        return Err(Fail::from("no trees"));
    };
    let puts = (store.len() as u64).saturating_sub(puts);
    let taken = store.reads().saturating_sub(reads).saturating_add(puts);
    let height = height_of(trees).max(height_of(&after));
    let most = edits.saturating_mul(height.saturating_add(1));
    let found = height
        .saturating_mul(2)
        .saturating_mul(changes.len() as u64);
    if puts > most.saturating_mul(4) || taken > most.saturating_mul(8).saturating_add(found) {
        let text = format!(in alloc; "{edits} edits put {puts} nodes and took {taken} steps")?;
        return Err(Fail::from(text));
    }
    Ok(after)
}

/// The greatest height of the trees.
fn height_of(trees: &SizedTrees) -> u64 {
    let views = trees.view(0).tree().height.max(trees.view(1).tree().height);
    views.max(trees.back().tree().height) as u64
}

/// The trees have so many items, and two or three levels each.
fn have_sizes(trees: &SizedTrees, counts: &[u64; 3]) -> bool {
    let all = [trees.view(0), trees.view(1), trees.back()];
    for (tree, count) in all.iter().zip(counts) {
        let tree = tree.tree();
        if tree.count != *count || tree.height < 2 || tree.height > 3 {
            return false;
        }
    }
    true
}

/// The trees of all documents, which are exchanged twice: the same rows come again in the place of the old ones.
fn trees_of_many<L: Ledger>(
    alloc: Global,
    store: &mut MemoryNodes,
    design: &Design,
    steps: &mut Steps<L>,
) -> Result<SizedTrees, Fail> {
    let docs = numbered_docs(alloc)?;
    let rows = text_of_many(alloc, &["", "1137 1137 0 1;", ""])?;
    let mut trees = SizedTrees::empty(alloc, 2)?;
    for _ in 0..2 {
        trees = measured(alloc, store, design, &trees, &docs, 3 * MANY, steps)?;
        if !have_sizes(&trees, &[MANY; 3]) {
            return Err(Fail::from("another size"));
        }
        same_text(rows_of(alloc, store, &trees.view(0), steps), &rows, "first")?;
        same_text(
            rows_of(alloc, store, &trees.view(1), steps),
            &rows,
            "second",
        )?;
    }
    Ok(trees)
}

fn change_one<L: Ledger>(alloc: Global, blank: Blank) -> Result<(), Fail>
    requires name { blank.name ≡ L.name }
    requires parts { blank.parts ≡ L.parts }
    requires some { 0 < L.parts }
{
    let mut steps = Steps::<L>::new(blank);
    let steps = &mut steps;
    let design = design_of(alloc, TWO_VIEWS)?;
    let mut store = MemoryNodes::new(alloc, Vec::new(alloc));
    let store = &mut store;
    let mut trees = trees_of_many(alloc, store, &design, steps)?;
    for (id, lists, edits, counts, others, sum) in CHANGES {
        let change = [change_of(alloc, id, lists)?];
        trees = measured(alloc, store, &design, &trees, &change, *edits, steps)?;
        if !have_sizes(&trees, counts) {
            return Err(Fail::from("another size"));
        }
        let view = trees.view(0);
        let rows = text_of_many(alloc, others)?;
        same_text(rows_of(alloc, store, &view, steps), &rows, id)?;
        same_text(sum_text(alloc, store, &design, &view, steps), sum, id)?;
    }
    Ok(())
}

#[test]
fn one_document_of_many_is_changed(rt: HostRuntime) -> Result<(), Fail> {
    change_one::<Brand>(rt.alloc(), Blank::new(1))
}
