//! Views whose reduces a query server runs, by what the server answers.

use crate::replies::reply_in;
use crash_disk::MemoryFolder;
use json_terms::Chars;
use std::alloc::Global;
use std::test::Fail;
use view_ports::{Answer, ScriptServers};

/// A design of two views, of which the first has a source as its reduce, and one document.
const WRITES: &[&str] = &[
    "{\"put\":{\"_id\":\"_design/s\",\"language\":\"script\",\"views\":{\"v\":{\"map\":\"m\",\"reduce\":\"r\"},\"w\":{\"map\":\"n\"}}}}",
    "{\"put\":{\"_id\":\"x\"}}",
];

const REDUCED: &str = "{\"view\":[\"s\",\"v\"]}";

const GROUPED: &str = "{\"view\":[\"s\",\"v\"],\"query\":{\"group\":true,\"descending\":true}}";

const UNREDUCED: &str = "{\"view\":[\"s\",\"v\"],\"query\":{\"reduce\":false}}";

const MAP_ONLY: &str = "{\"view\":[\"s\",\"w\"]}";

/// A query of a view, what the server answers, and the reply. An answer that is empty is a call that fails. The server is reset,
/// told the two map functions, and asked for the rows of the document. The child that reduces is then reset and asked for a value
/// of the view's rows, where it has some. For the values of the query it is reset again.
const ANSWERED: &[(&str, &[&str], &str)] = &[
    (
        REDUCED,
        &[
            "true",
            "true",
            "true",
            "[[[1,2],[1,3]],[]]",
            "true",
            "[true,[7]]",
            "true",
            "[true,[{\"n\":5}]]",
        ],
        "{\"rows\":[{\"key\":null,\"value\":{\"n\":5}}]}\n",
    ),
    (
        GROUPED,
        &[
            "true",
            "true",
            "true",
            "[[[1,2],[3,3]],[]]",
            "true",
            "[true,[7]]",
            "true",
            "[true,[\"c\"]]",
            "[true,[null]]",
        ],
        "{\"rows\":[{\"key\":3,\"value\":\"c\"},{\"key\":1,\"value\":null}]}\n",
    ),
    (
        REDUCED,
        &["true", "true", "true", "[[],[[1,2]]]"],
        "{\"rows\":[]}\n",
    ),
    (
        MAP_ONLY,
        &["true", "true", "true", "[[],[[1,2]]]"],
        "{\"total_rows\":1,\"offset\":0,\"rows\":[{\"id\":\"x\",\"key\":1,\"value\":2}]}\n",
    ),
    (
        UNREDUCED,
        &["true", "true", "true", "[[[1,2]],[]]", "true", "[true,[7]]"],
        "{\"total_rows\":1,\"offset\":0,\"rows\":[{\"id\":\"x\",\"key\":1,\"value\":2}]}\n",
    ),
    (
        MAP_ONLY,
        &[
            "true",
            "true",
            "true",
            "[[[1,2]],[]]",
            "true",
            "[\"error\",\"compilation_error\",\"no\"]",
        ],
        "{\"error\":\"compilation_error\",\"reason\":\"_design/s\"}\n",
    ),
    (
        REDUCED,
        &[
            "true",
            "true",
            "true",
            "[[[1,2]],[]]",
            "true",
            "[true,[1,2]]",
        ],
        "{\"error\":\"server_reply\",\"reason\":\"[true,[1,2]]\"}\n",
    ),
    (
        REDUCED,
        &[
            "true",
            "true",
            "true",
            "[[[1,2]],[]]",
            "true",
            "[true,[7]]",
            "true",
            "[false,[1]]",
        ],
        "{\"error\":\"server_reply\",\"reason\":\"[false,[1]]\"}\n",
    ),
    (
        REDUCED,
        &[
            "true",
            "true",
            "true",
            "[[[1,2]],[]]",
            "true",
            "[true,[7]]",
            "true",
            "[\"error\",\"compilation_error\",\"no\"]",
        ],
        "{\"error\":\"compilation_error\",\"reason\":\"_design/s\"}\n",
    ),
    (
        REDUCED,
        &[
            "true",
            "true",
            "true",
            "[[[1,2]],[]]",
            "true",
            "",
            "true",
            "[true,[7]]",
            "true",
            "[true,[4]]",
        ],
        "{\"rows\":[{\"key\":null,\"value\":4}]}\n",
    ),
    (
        REDUCED,
        &[
            "true",
            "true",
            "true",
            "[[[1,2]],[]]",
            "true",
            "",
            "true",
            "",
        ],
        "{\"error\":\"server_fault\",\"reason\":\"query server failed twice\"}\n",
    ),
];

fn servers_of(alloc: Global, lines: &[&str]) -> Result<ScriptServers, Fail> {
    let mut answers = Vec::new(alloc);
    for line in lines {
        let answer = match *line {
            "" => Answer::Fail,
            line => Answer::Line(Chars::from_text(alloc, line)?),
        };
        answers.push(answer)?;
    }
    Ok(ScriptServers::new(alloc, answers)?)
}

#[test]
fn a_reduced_view_is_what_its_server_answers(rt: HostRuntime) -> Result<(), Fail> {
    let alloc = rt.alloc();
    for &(query, lines, want) in ANSWERED {
        let mut servers = servers_of(alloc, lines)?;
        let mut folder = MemoryFolder::new(alloc, Vec::new(alloc), false)?;
        for line in WRITES {
            reply_in(alloc, &mut folder, &mut servers, line)?;
        }
        let reply = reply_in(alloc, &mut folder, &mut servers, query)?;
        assert!(rt; reply.as_slice() == want.as_bytes(), "{want}");
    }
    Ok(())
}
