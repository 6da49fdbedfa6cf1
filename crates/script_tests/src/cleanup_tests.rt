//! What a cleanup leaves of the files.

use crate::left::put_replies;
use crash_disk::MemoryFolder;
use std::test::Fail;
use view_ports::{FieldServers, FileName, Folder, Stem};

const DOCS: FileName = FileName {
    stem: Stem::Docs,
    side: false,
};

const MADE: &str =
    r#"{"put":{"_id":"_design/people","language":"field","views":{"by_name":{"map":"name"}}}}
{"put":{"_id":"b","name":"Ida"}}
{"put":{"_id":"a","name":"Ole"}}
{"put":{"_id":"c","name":"Ida","age":41}}
{"view":["people","by_name"]}
"#;

const GONE: &str = r#"{"delete":"_design/people","rev":"1-00000000000000000000000000000001"}
{"cleanup":true}
"#;

const BACK: &str =
    r#"{"put":{"_id":"_design/people","language":"field","views":{"by_name":{"map":"name"}}}}
{"view":["people","by_name"]}
"#;

const REPLIES: &str =
    r#"{"ok":true,"id":"_design/people","rev":"1-00000000000000000000000000000001"}
{"ok":true,"id":"b","rev":"1-00000000000000000000000000000002"}
{"ok":true,"id":"a","rev":"1-00000000000000000000000000000003"}
{"ok":true,"id":"c","rev":"1-00000000000000000000000000000004"}
{"total_rows":3,"offset":0,"rows":[{"id":"b","key":"Ida","value":null},{"id":"c","key":"Ida","value":null},{"id":"a","key":"Ole","value":null}]}
{"ok":true,"id":"_design/people","rev":"2-00000000000000000000000000000005"}
{"ok":true}
{"ok":true,"id":"_design/people","rev":"3-00000000000000000000000000000006"}
{"total_rows":3,"offset":0,"rows":[{"id":"b","key":"Ida","value":null},{"id":"c","key":"Ida","value":null},{"id":"a","key":"Ole","value":null}]}
"#;

/// Whether an engine is opened anew before the cleanup, or still has the index open.
#[test]
fn a_cleanup_leaves_the_documents_alone(rt: HostRuntime) -> Result<(), Fail> {
    let alloc = rt.alloc();
    for is_anew in [false, true] {
        let mut folder = MemoryFolder::new(alloc, Vec::new(alloc), false)?;
        let mut servers = FieldServers::new(alloc, Vec::new(alloc))?;
        let mut replies = Vec::new(alloc);
        let mut lines = String::from_str(alloc, MADE)?;
        if is_anew {
            put_replies(alloc, &mut folder, &mut servers, MADE, &mut replies)?;
            assert!(rt; folder.names(alloc)?.len() == 2);
            lines.clear();
        }
        lines.push_str(GONE)?;
        put_replies(
            alloc,
            &mut folder,
            &mut servers,
            lines.as_str(),
            &mut replies,
        )?;
        assert!(rt; folder.names(alloc)?.as_slice() == [DOCS].as_slice());
        put_replies(alloc, &mut folder, &mut servers, BACK, &mut replies)?;
        assert!(rt; folder.names(alloc)?.len() == 2);
        assert!(rt; replies.as_slice() == REPLIES.as_bytes());
    }
    Ok(())
}
