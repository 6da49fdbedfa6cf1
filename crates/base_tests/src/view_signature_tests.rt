//! Signatures beside the digests that `md5sum` gives of the texts of `[language, views]`.

use design_docs::{DesignFault, read_design};
use json_terms::{NoMemory, read_term};
use std::alloc::Global;
use std::test::Fail;
use test_tools::text_of;
use view_signature::{equal_views_have_equal_signatures, signature};

/// The text of a document's `[language, views]`, and whether its signature has these digits.
fn signed(alloc: Global, document: &str, digits: &str) -> Result<(String, bool), Fail> {
    let document = read_term(alloc, document.as_bytes())?;
    let design = match read_design(alloc, &document) {
        Ok(design) => design,
        Err(DesignFault::NoMemory) => return Err(Fail::from(NoMemory)),
        Err(_fault) => return Err(Fail::from("no design")),
    };
    let signature = signature(alloc, &design)?;
    let text = text_of(alloc, &design.term)?;
    Ok((text, signature.as_slice() == digits.as_bytes()))
}

/// Documents, the text that is signed, and its digest.
const SIGNED: &[(&str, &str, &str)] = &[
    (
        r#"{"_id":"_design/d"}"#,
        r#"["javascript",{}]"#,
        "48e05ac5a5d4a61b7450275232da8231",
    ),
    (
        r#"{"_id":"_design/e","_rev":"3-0","language":"javascript","views":{},"filters":{"f":"x"}}"#,
        r#"["javascript",{}]"#,
        "48e05ac5a5d4a61b7450275232da8231",
    ),
    (
        r#"{"language":"pick","views":{"v":{"map":"emit doc._id, null"}}}"#,
        r#"["pick",{"v":{"map":"emit doc._id, null"}}]"#,
        "7119574f32d3f6a84c4c41222bde8802",
    ),
    (
        r#"{"views":{"v":{"map":"emit doc._id, null"}},"options":{"collation":"raw"}}"#,
        r#"["javascript",{"v":{"map":"emit doc._id, null"}}]"#,
        "ccb6e46a22ce91978176852c715d102a",
    ),
    (
        r#"{"language":"field","views":{"é":{"map":"\n"},"a":{"reduce":"_sum","map":""},"Z":{"map":"z"}}}"#,
        r#"["field",{"Z":{"map":"z"},"a":{"map":"","reduce":"_sum"},"é":{"map":"\n"}}]"#,
        "ad0919dac8a19facc71efdf119377857",
    ),
    (
        r#"{"views":{"a":{"options":{"collation":"raw"},"more":[1,{"b":null}],"map":"function (doc) { emit(doc.a, 1); }"}}}"#,
        r#"["javascript",{"a":{"map":"function (doc) { emit(doc.a, 1); }","more":[1,{"b":null}],"options":{"collation":"raw"}}}]"#,
        "ba38157c2bfa836a79189f16350cd09a",
    ),
];

#[test]
fn signatures_are_digests(rt: HostRuntime) -> Result<(), Fail> {
    for (document, want, digits) in SIGNED {
        let (text, is_signed) = signed(rt.alloc(), document, digits)?;
        assert!(rt; text.as_str() == *want && is_signed, "{document}");
    }
    equal_views_have_equal_signatures();
    Ok(())
}
