//! Which documents have a design, what it holds, and why others have none.

use design_docs::{
    Builtin, Design, DesignFault, Reduce, View, Views, id_of, is_design_id, read_builtin,
    read_design, revisions_leave_designs, views_are_few_and_in_order, views_are_found_by_name,
    want_of_memory_is_no_fault,
};
use json_terms::{NoMemory, read_term};
use std::alloc::Global;
use std::test::Fail;
use test_tools::{same_text, text_of};

/// The reduce of a view: nothing, or a built-in one or a source behind a slash.
fn reduce_text(alloc: Global, reduce: &Reduce) -> Result<String, Fail> {
    let text = match reduce {
        Reduce::Absent => "",
        Reduce::Builtin(Builtin::Sum) => "/SUM",
        Reduce::Builtin(Builtin::Count) => "/COUNT",
        Reduce::Builtin(Builtin::Stats) => "/STATS",
        Reduce::Source(source) => return Ok(format!(in alloc; "/{}", source.as_str())?),
    };
    Ok(String::from_str(alloc, text)?)
}

/// The name of a view, its source and its reduce.
fn view_text(alloc: Global, view: &View) -> Result<String, Fail> {
    let reduce = reduce_text(alloc, &view.reduce)?;
    let (name, map) = (view.name.as_str(), view.map.as_str());
    Ok(format!(in alloc; " {name}={map}{reduce}")?)
}

/// The language, each view, and the term.
fn shown(alloc: Global, design: &Design) -> Result<String, Fail> {
    let mut views = String::new(alloc);
    for view in design.views.as_slice() {
        views.push_str(view_text(alloc, view)?.as_str())?;
    }
    let term = text_of(alloc, &design.term)?;
    Ok(format!(in alloc; "{}{views} {term}", design.language.as_str())?)
}

/// A fault, and the name that it holds.
fn fault_text(alloc: Global, fault: DesignFault) -> Result<String, Fail> {
    let (kind, name) = match &fault {
        DesignFault::BadLanguage => ("language", ""),
        DesignFault::BadViews => ("views", ""),
        DesignFault::BadView(name) => ("view ", name.as_str()),
        DesignFault::BadOption(name) => ("option ", name.as_str()),
        DesignFault::UnknownBuiltin(name) => ("builtin ", name.as_str()),
        DesignFault::NoMemory => return Err(Fail::from(NoMemory)),
    };
    Ok(format!(in alloc; "{kind}{name}")?)
}

/// What is read of a document's text: a design, or a fault.
fn read_text(alloc: Global, text: &str) -> Result<String, Fail> {
    let document = read_term(alloc, text.as_bytes())?;
    match read_design(alloc, &document) {
        Ok(design) => shown(alloc, &design),
        Err(fault) => fault_text(alloc, fault),
    }
}

/// What is read of a design document with these members: `design`, or the fault.
fn read_members(alloc: Global, members: &str) -> Result<String, Fail> {
    let text = format!(in alloc; "{{\"_id\":\"_design/d\",{members}}}")?;
    let document = read_term(alloc, text.as_str().as_bytes())?;
    match read_design(alloc, &document) {
        Ok(_design) => Ok(String::from_str(alloc, "design")?),
        Err(fault) => fault_text(alloc, fault),
    }
}

/// Documents, and the designs that are read of them.
const DESIGNS: &[(&str, &str)] = &[
    (r#"{"_id":"_design/d"}"#, r#"javascript ["javascript",{}]"#),
    (r#"[]"#, r#"javascript ["javascript",{}]"#),
    (
        r#"{"_id":"_design/d","_rev":"1-0","filters":{},"language":"pick"}"#,
        r#"pick ["pick",{}]"#,
    ),
    (
        r#"{"views":{"b":{"map":"emit 1, 2"},"é":{"map":"e"},"a":{"map":""},"Z":{"map":"z"}},"language":"field"}"#,
        r#"field Z=z a= b=emit 1, 2 é=e ["field",{"Z":{"map":"z"},"a":{"map":""},"b":{"map":"emit 1, 2"},"é":{"map":"e"}}]"#,
    ),
    (
        r#"{"views":{"a":{"map":"m","reduce":"_sum"},"b":{"map":"m","reduce":"_count"},"c":{"map":"m","reduce":"_stats"},"d":{"map":"m","reduce":"sum"},"e":{"map":"m","reduce":""}}}"#,
        r#"javascript a=m/SUM b=m/COUNT c=m/STATS d=m/sum e=m/ ["javascript",{"a":{"map":"m","reduce":"_sum"},"b":{"map":"m","reduce":"_count"},"c":{"map":"m","reduce":"_stats"},"d":{"map":"m","reduce":"sum"},"e":{"map":"m","reduce":""}}]"#,
    ),
    (
        r#"{"options":{"collation":"raw"},"views":{"v":{"map":"m","options":{"local_seq":false},"more":[1]}}}"#,
        r#"javascript v=m ["javascript",{"v":{"map":"m","more":[1],"options":{"local_seq":false}}}]"#,
    ),
];

#[test]
fn designs_are_read(rt: HostRuntime) -> Result<(), Fail> {
    for (text, want) in DESIGNS {
        same_text(read_text(rt.alloc(), text), want, text)?;
    }
    Ok(())
}

/// Members of design documents, and what is read of them.
const MEMBERS: &[(&str, &str)] = &[
    (r#""language":"pick""#, "design"),
    (r#""language":" ""#, "design"),
    (r#""language":"""#, "language"),
    (r#""language":1"#, "language"),
    (r#""language":null"#, "language"),
    (r#""language":false"#, "language"),
    (r#""language":{"pick":"pick"}"#, "language"),
    (r#""language":["pick"]"#, "language"),
    (r#""views":{}"#, "design"),
    (r#""views":null"#, "views"),
    (r#""views":[]"#, "views"),
    (r#""views":"v""#, "views"),
    (r#""options":{}"#, "design"),
    (r#""options":null"#, "option options"),
    (r#""options":[]"#, "option options"),
    (r#""options":"raw""#, "option options"),
    (
        r#""options":{"collation":"raw","include_design":false,"local_seq":false,"partitioned":false}"#,
        "design",
    ),
    (r#""options":{"collation":"Raw"}"#, "option collation"),
    (r#""options":{"collation":false}"#, "option collation"),
    (r#""options":{"collation":null}"#, "option collation"),
    (
        r#""options":{"include_design":true}"#,
        "option include_design",
    ),
    (
        r#""options":{"include_design":"raw"}"#,
        "option include_design",
    ),
    (r#""options":{"local_seq":true}"#, "option local_seq"),
    (r#""options":{"local_seq":null}"#, "option local_seq"),
    (r#""options":{"partitioned":0}"#, "option partitioned"),
    (r#""options":{"raw":"raw"}"#, "option raw"),
    (r#""options":{"":false}"#, "option "),
    (r#""options":{"z":1,"collation":"raw","m":2}"#, "option m"),
    (
        r#""options":{"partitioned":true,"local_seq":true}"#,
        "option local_seq",
    ),
    (r#""views":{"v":{"map":"n"}}"#, "design"),
    (r#""views":{"v":{"map":""}}"#, "design"),
    (r#""views":{"":{"map":"n"}}"#, "design"),
    (r#""views":{"":{}}"#, "view "),
    (r#""views":{"v":{"map":1}}"#, "view v"),
    (r#""views":{"v":{"map":null}}"#, "view v"),
    (r#""views":{"v":{"reduce":"n"}}"#, "view v"),
    (r#""views":{"v":{}}"#, "view v"),
    (r#""views":{"v":"map"}"#, "view v"),
    (r#""views":{"v":["map","n"]}"#, "view v"),
    (r#""views":{"a":{"map":"n"},"b":{}}"#, "view b"),
    (r#""views":{"v":{"map":"n","reduce":null}}"#, "view v"),
    (r#""views":{"v":{"map":"n","reduce":1}}"#, "view v"),
    (r#""views":{"v":{"map":"n","reduce":false}}"#, "view v"),
    (r#""views":{"v":{"map":"n","reduce":{}}}"#, "view v"),
    (r#""views":{"v":{"map":"n","reduce":["_sum"]}}"#, "view v"),
    (r#""views":{"v":{"map":"n","reduce":""}}"#, "design"),
    (r#""views":{"v":{"map":"n","reduce":"_"}}"#, "builtin v"),
    (r#""views":{"v":{"map":"n","reduce":"_Sum"}}"#, "builtin v"),
    (r#""views":{"v":{"map":"n","reduce":"_sum "}}"#, "builtin v"),
    (
        r#""views":{"v":{"map":"n","reduce":"_approx_count_distinct"}}"#,
        "builtin v",
    ),
    (r#""views":{"v":{"map":"n","reduce":" _sum"}}"#, "design"),
    (r#""views":{"lib":{"map":"n"}}"#, "view lib"),
    (r#""views":{"lib":{}}"#, "view lib"),
    (
        r#""views":{"libs":{"map":"n"},"li":{"map":"n"},"Lib":{"map":"n"}}"#,
        "design",
    ),
    (r#""views":{"la":{},"lib":{"map":"n"}}"#, "view la"),
    (
        r#""views":{"li":{"map":"n","reduce":"_x"},"lib":{"map":"n"}}"#,
        "builtin li",
    ),
    (r#""views":{"lib":{"map":"n"},"lib ":{}}"#, "view lib"),
    (r#""views":{"lib":{"map":"n"},"lic":{}}"#, "view lib"),
    (r#""views":{"v":{"map":"n","options":{}}}"#, "design"),
    (
        r#""views":{"v":{"map":"n","options":{"collation":"raw","partitioned":false}}}"#,
        "design",
    ),
    (
        r#""views":{"v":{"map":"n","options":null}}"#,
        "option options",
    ),
    (
        r#""views":{"v":{"map":"n","options":{"b":1,"a":1}}}"#,
        "option a",
    ),
    (
        r#""options":{"b":1},"views":{"v":{"map":"n","options":{"a":1}}}"#,
        "option b",
    ),
    (
        r#""options":{"collation":"raw"},"views":{"v":{"map":"n","options":{"a":1}}}"#,
        "option a",
    ),
];

/// Members with two faults, and the first of these.
const PAIRS: &[(&str, &str)] = &[
    (r#""language":1,"views":1"#, "language"),
    (r#""language":"","options":1"#, "language"),
    (r#""language":"","views":{"v":{}}"#, "language"),
    (
        r#""language":1,"views":{"v":{"map":"n","options":1}}"#,
        "language",
    ),
    (
        r#""language":1,"views":{"v":{"map":"n","reduce":"_x"}}"#,
        "language",
    ),
    (r#""views":1,"options":1"#, "views"),
    (r#""views":[],"options":{"a":1}"#, "views"),
    (r#""options":{"a":1},"views":{"v":{}}"#, "option a"),
    (
        r#""options":1,"views":{"v":{"map":"n","options":{"a":1}}}"#,
        "option options",
    ),
    (
        r#""options":{"a":1},"views":{"v":{"map":"n","reduce":"_x"}}"#,
        "option a",
    ),
    (r#""views":{"v":{"options":1}}"#, "view v"),
    (r#""views":{"v":{"reduce":"_x"}}"#, "view v"),
    (r#""views":{"lib":{"map":"n","reduce":"_x"}}"#, "view lib"),
    (r#""views":{"lib":{"map":"n","options":1}}"#, "view lib"),
    (
        r#""views":{"v":{"map":"n","reduce":1,"options":1}}"#,
        "view v",
    ),
    (
        r#""views":{"v":{"map":"n","options":{"a":1},"reduce":"_x"}}"#,
        "option a",
    ),
    (r#""views":{"a":{},"b":{"map":"n","options":1}}"#, "view a"),
    (
        r#""views":{"b":{},"a":{"map":"n","options":1}}"#,
        "option options",
    ),
    (
        r#""views":{"a":{},"b":{"map":"n","reduce":"_x"}}"#,
        "view a",
    ),
    (
        r#""views":{"b":{},"a":{"map":"n","reduce":"_x"}}"#,
        "builtin a",
    ),
    (
        r#""views":{"a":{"map":"n","options":{"o":1}},"b":{"map":"n","reduce":"_x"}}"#,
        "option o",
    ),
    (
        r#""views":{"b":{"map":"n","options":{"o":1}},"a":{"map":"n","reduce":"_x"}}"#,
        "builtin a",
    ),
    (r#""views":{"a":{},"b":{}}"#, "view a"),
    (
        r#""views":{"a":{"map":"n","reduce":"_x"},"b":{"map":"n","reduce":"_y"}}"#,
        "builtin a",
    ),
    (
        r#""views":{"a":{"map":"n","options":{"p":1}},"b":{"map":"n","options":{"o":1}}}"#,
        "option p",
    ),
];

#[test]
fn faults_are_met_in_their_order(rt: HostRuntime) -> Result<(), Fail> {
    for (members, want) in MEMBERS {
        same_text(read_members(rt.alloc(), members), want, members)?;
    }
    for (members, want) in PAIRS {
        same_text(read_members(rt.alloc(), members), want, members)?;
    }
    Ok(())
}

/// So many views, of which the last has this value.
fn many_views(alloc: Global, count: usize, last: &str) -> Result<String, Fail> {
    let mut views = String::from_str(alloc, "\"views\":{")?;
    for place in 1..count {
        let number = place.saturating_add(10);
        views.push_str(format!(in alloc; "\"v{number}\":{{\"map\":\"\"}},")?.as_str())?;
    }
    views.push_str(format!(in alloc; "\"w\":{last}}}")?.as_str())?;
    Ok(views)
}

/// How many views, the last of them, and what is read.
const COUNTS: &[(usize, &str, &str)] = &[
    (32, r#"{"map":""}"#, "design"),
    (32, r#"{"map":"","reduce":"_x"}"#, "builtin w"),
    (33, r#"{"map":""}"#, "view w"),
    (33, r#"{"map":"","reduce":"_x"}"#, "view w"),
    (34, r#"{"map":""}"#, "view v43"),
];

#[test]
fn there_are_32_views_at_most(rt: HostRuntime) -> Result<(), Fail> {
    for (count, last, want) in COUNTS {
        let members = many_views(rt.alloc(), *count, last)?;
        same_text(read_members(rt.alloc(), members.as_str()), want, last)?;
    }
    Ok(())
}

/// Names, and the built-in reduces that they are of.
const BUILTINS: &[(&str, Option<Builtin>)] = &[
    ("_sum", Some(Builtin::Sum)),
    ("_count", Some(Builtin::Count)),
    ("_stats", Some(Builtin::Stats)),
    ("", None),
    ("sum", None),
    ("_su", None),
    ("_sums", None),
    ("_Count", None),
];

#[test]
fn built_in_reduces_have_names(rt: HostRuntime) {
    for (name, want) in BUILTINS {
        assert!(rt; read_builtin(name) == *want, "{name}");
    }
}

/// Documents, their ids, and whether these are those of designs.
const IDS: &[(&str, &str, bool)] = &[
    (r#"{"_id":"_design/d"}"#, "_design/d", true),
    (r#"{"_id":"_design"}"#, "_design", false),
    (r#"{"_id":"d_design/"}"#, "d_design/", false),
    (r#"{"_id":[]}"#, "", false),
    (r#""_id""#, "", false),
];

#[test]
fn ids_are_told_apart(rt: HostRuntime) -> Result<(), Fail> {
    for (text, id, is_design) in IDS {
        let term = read_term(rt.alloc(), text.as_bytes())?;
        assert!(rt; id_of(&term) == *id && is_design_id(id) == *is_design);
    }
    Ok(())
}

#[test]
fn lists_of_views_are_kept(rt: HostRuntime) {
    let views = Views::new(Vec::new(rt.alloc()));
    assert!(rt; views.is_empty() && views.len() == 0 && views.into_vec().is_empty());
    views_are_few_and_in_order();
    views_are_found_by_name();
    revisions_leave_designs();
    want_of_memory_is_no_fault();
}
