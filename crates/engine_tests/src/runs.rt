//! Request lines, each with its reply line behind it. Each run of them begins with a new folder, and its designs are of the
//! language `field`, whose map functions name a member.

use crate::queries::QUERIES;

/// Lines that are refused while nothing was written.
const REFUSED: &str = r#"{"info":true
{"error":"bad_request","reason":"line is not JSON"}
{"put":{"_id":"a","n":1.5}
{"error":"bad_request","reason":"line is not JSON"}
{"put":{"_id":"a","n":1.5}}
{"error":"bad_request","reason":"number is not whole"}
{"put":{"_id":"a","n":1e2}}
{"error":"bad_request","reason":"number is not whole"}
{"put":{"_id":"a","n":-0}}
{"error":"bad_request","reason":"number is not whole"}
{"put":{"_id":"a","n":9223372036854775808}}
{"error":"bad_request","reason":"number is not whole"}
[]
{"error":"bad_request","reason":"unknown request"}
{}
{"error":"bad_request","reason":"unknown request"}
{"info":false}
{"error":"bad_request","reason":"unknown request"}
{"put":[]}
{"error":"bad_request","reason":"unknown request"}
{"put":{},"get":"a"}
{"error":"bad_request","reason":"unknown request"}
{"delete":"a","rev":1}
{"error":"bad_request","reason":"unknown request"}
{"view":["a"]}
{"error":"bad_request","reason":"unknown request"}
{"view":["a","b","c"]}
{"error":"bad_request","reason":"unknown request"}
{"view":["a",1]}
{"error":"bad_request","reason":"unknown request"}
{"query":[],"view":["a","b"]}
{"error":"bad_request","reason":"unknown request"}
{"cursor":"","view":["a","b"]}
{"error":"bad_request","reason":"unknown request"}
{"cursor":"123456789012345678901234567890123","view":["a","b"]}
{"error":"bad_request","reason":"unknown request"}
{"next":"c","count":0}
{"error":"bad_request","reason":"unknown request"}
{"next":"c","count":1001}
{"error":"bad_request","reason":"unknown request"}
{"next":"c","count":-1}
{"error":"bad_request","reason":"unknown request"}
{"compact_step":"s","rows":10001}
{"error":"bad_request","reason":"unknown request"}
{"compact_docs":1}
{"error":"bad_request","reason":"unknown request"}
{"all_docs":true}
{"error":"bad_request","reason":"unknown request"}
{"bulk":[{}]}
{"error":"bad_request","reason":"unknown request"}
{"delete":"a"}
{"error":"not_found","reason":"missing"}
{"delete":"a","rev":"x"}
{"error":"bad_rev","reason":"revision is not well formed"}
{"get":"a"}
{"error":"not_found","reason":"missing"}
{"view":["a","b"],"query":{}}
{"error":"not_found","reason":"missing"}
{"view":["a","b"],"query":{"update":false}}
{"error":"not_found","reason":"missing"}
{"cursor":"12345678901234567890123456789012","view":["a","b"]}
{"error":"bad_request","reason":"not built yet"}
{"cursor":"c","view":["a","b"],"query":{}}
{"error":"bad_request","reason":"not built yet"}
{"next":"c","count":1000}
{"error":"bad_request","reason":"not built yet"}
{"close":"c"}
{"error":"bad_request","reason":"not built yet"}
{"compact":"s"}
{"error":"bad_request","reason":"not built yet"}
{"compact_step":"s","rows":10000}
{"error":"bad_request","reason":"not built yet"}
{"compact_docs":true}
{"error":"bad_request","reason":"not built yet"}
{"all_docs":{"reduce":false}}
{"error":"bad_request","reason":"not built yet"}
{"put":{}}
{"error":"bad_id","reason":"document id is not allowed"}
{"put":{"_id":1}}
{"error":"bad_id","reason":"document id is not allowed"}
{"put":{"_id":""}}
{"error":"bad_id","reason":"document id is not allowed"}
{"put":{"_id":"_x"}}
{"error":"bad_id","reason":"document id is not allowed"}
{"put":{"_id":"_design/"}}
{"error":"bad_id","reason":"document id is not allowed"}
{"put":{"_id":"_design/","_x":1}}
{"error":"bad_id","reason":"document id is not allowed"}
{"put":{"_id":"_x","_y":1,"_rev":2}}
{"error":"bad_id","reason":"document id is not allowed"}
{"put":{"_id":"a","_rev":"1-0"}}
{"error":"bad_rev","reason":"revision is not well formed"}
{"put":{"_id":"a","_rev":1}}
{"error":"bad_rev","reason":"revision is not well formed"}
{"put":{"_id":"a","_":1,"_rev":1}}
{"error":"bad_member","reason":"_"}
{"put":{"_id":"a","_z":1,"_deleted":1}}
{"error":"bad_member","reason":"_deleted"}
{"put":{"_id":"a","_rev":"1-00000000000000000000000000000001"}}
{"error":"conflict","reason":"Document update conflict."}
{"put":{"_id":"a","_deleted":true}}
{"error":"not_found","reason":"missing"}
{"put":{"_id":"_design/d","language":"field","options":{},"_deleted":true}}
{"error":"not_found","reason":"missing"}
{"put":{"_id":"_design/d","_rev":1}}
{"error":"bad_rev","reason":"revision is not well formed"}
{"put":{"_id":"_design/d","_rev":"1-00000000000000000000000000000001","views":[]}}
{"error":"invalid_design_doc","reason":"views"}
{"put":{"_id":"_design/d","language":"field","views":{"lib":{"map":"n"}}}}
{"error":"invalid_design_doc","reason":"view lib"}
{"put":{"_id":"_design/d","views":{"\"":{"map":1}}}}
{"error":"invalid_design_doc","reason":"view \""}
{"put":{"_id":"_design/d","options":{"collation":"raw","local_seq":true}}}
{"error":"invalid_design_doc","reason":"option local_seq"}
{"put":{"_id":"_design/d","views":{"v":{"map":"n","reduce":"_x"}}}}
{"error":"invalid_design_doc","reason":"builtin v"}
{"put":{"_id":"_design/d","language":""}}
{"error":"invalid_design_doc","reason":"language"}
{"put":{"_id":"_design/d","_x":1,"language":""}}
{"error":"bad_member","reason":"_x"}
{"put":{"_id":"_design/d","_x":1,"_rev":1,"views":{"u":{"map":"n"},"v":{"map":"n","reduce":"r"}}}}
{"error":"bad_member","reason":"_x"}
{"put":{"_id":"_design/d","_rev":1,"views":{"u":{"map":"n"},"v":{"map":"n","reduce":"r"}}}}
{"error":"bad_rev","reason":"revision is not well formed"}
{"put":{"_id":"_design/d","_deleted":true,"views":{"v":{"map":"n","reduce":"_sum"}}}}
{"error":"not_found","reason":"missing"}
{"put":{"_id":"_design/","views":{"v":{"map":"n","reduce":"_sum"}}}}
{"error":"bad_id","reason":"document id is not allowed"}
{"view":["people","by_name"]}
{"error":"not_found","reason":"missing"}"#;

/// Three documents give three rows.
const PEOPLE: &str =
    r#"{"put":{"_id":"_design/people","language":"field","views":{"by_name":{"map":"name"}}}}
{"ok":true,"id":"_design/people","rev":"1-00000000000000000000000000000001"}
{"put":{"_id":"b","name":"Ida"}}
{"ok":true,"id":"b","rev":"1-00000000000000000000000000000002"}
{"put":{"_id":"a","name":"Ole"}}
{"ok":true,"id":"a","rev":"1-00000000000000000000000000000003"}
 {"put" : {"name":"Ida","age":41,"_id":"c"}} 
{"ok":true,"id":"c","rev":"1-00000000000000000000000000000004"}
{"view":["people","by_name"]}
{"total_rows":3,"offset":0,"rows":[{"id":"b","key":"Ida","value":null},{"id":"c","key":"Ida","value":null},{"id":"a","key":"Ole","value":null}]}"#;

/// Rows are in the raw order of their keys, and a document without the member has none.
const ORDER: &str =
    r#"{"put":{"_id":"_design/s","language":"field","views":{"by_k":{"map":"k"},"by_rev":{"map":"_rev"}}}}
{"ok":true,"id":"_design/s","rev":"1-00000000000000000000000000000001"}
{"view":["s","by_k"]}
{"total_rows":0,"offset":0,"rows":[]}
{"put":{"_id":"d01","k":"a"}}
{"ok":true,"id":"d01","rev":"1-00000000000000000000000000000002"}
{"put":{"_id":"d02","k":""}}
{"ok":true,"id":"d02","rev":"1-00000000000000000000000000000003"}
{"put":{"_id":"d03","k":[1,0]}}
{"ok":true,"id":"d03","rev":"1-00000000000000000000000000000004"}
{"put":{"_id":"d04","k":[1]}}
{"ok":true,"id":"d04","rev":"1-00000000000000000000000000000005"}
{"put":{"_id":"d05","k":[]}}
{"ok":true,"id":"d05","rev":"1-00000000000000000000000000000006"}
{"put":{"_id":"d06","k":{"a":1}}}
{"ok":true,"id":"d06","rev":"1-00000000000000000000000000000007"}
{"put":{"_id":"d07","k":{}}}
{"ok":true,"id":"d07","rev":"1-00000000000000000000000000000008"}
{"put":{"_id":"d08","k":true}}
{"ok":true,"id":"d08","rev":"1-00000000000000000000000000000009"}
{"put":{"_id":"d09","k":null}}
{"ok":true,"id":"d09","rev":"1-0000000000000000000000000000000a"}
{"put":{"_id":"d10","k":false}}
{"ok":true,"id":"d10","rev":"1-0000000000000000000000000000000b"}
{"put":{"_id":"d11","k":1}}
{"ok":true,"id":"d11","rev":"1-0000000000000000000000000000000c"}
{"put":{"_id":"e","K":1}}
{"ok":true,"id":"e","rev":"1-0000000000000000000000000000000d"}
{"view":["s","by_k"]}
{"total_rows":11,"offset":0,"rows":[{"id":"d11","key":1,"value":null},{"id":"d10","key":false,"value":null},{"id":"d09","key":null,"value":null},{"id":"d08","key":true,"value":null},{"id":"d07","key":{},"value":null},{"id":"d06","key":{"a":1},"value":null},{"id":"d05","key":[],"value":null},{"id":"d04","key":[1],"value":null},{"id":"d03","key":[1,0],"value":null},{"id":"d02","key":"","value":null},{"id":"d01","key":"a","value":null}]}"#;

/// A known id is in conflict, and a view is missing or empty.
const KNOWN: &str = r#"{"put":{"_id":"é\""}}
{"ok":true,"id":"é\"","rev":"1-00000000000000000000000000000001"}
{"put":{"_id":"é\"","n":1}}
{"error":"conflict","reason":"Document update conflict."}
{"put":{"_id":"_design/people","language":"field","views":{"by_name":{"map":"name"}}}}
{"ok":true,"id":"_design/people","rev":"1-00000000000000000000000000000002"}
{"put":{"_id":"_design/people","language":"field","views":{"by_name":{"map":"name"}}}}
{"error":"conflict","reason":"Document update conflict."}
{"view":["people","by_age"]}
{"error":"not_found","reason":"missing_named_view"}
{"view":["people","by_name"]}
{"total_rows":0,"offset":0,"rows":[]}"#;

/// Designs of any language are taken.
const LANGUAGES: &str = r#"{"put":{"_id":"_design/a","views":{"v":{"map":""}}}}
{"ok":true,"id":"_design/a","rev":"1-00000000000000000000000000000001"}
{"put":{"_id":"_design/b","language":"pick"}}
{"ok":true,"id":"_design/b","rev":"1-00000000000000000000000000000002"}
{"put":{"_id":"x"}}
{"ok":true,"id":"x","rev":"1-00000000000000000000000000000003"}
{"view":["a","v"]}
{"error":"unknown_language","reason":"javascript"}
{"view":["b","v"]}
{"error":"not_found","reason":"missing_named_view"}"#;

/// A design document is stored with all of its members, and a put that names its revision deletes it.
const DESIGNS: &str = r#"{"put":{"z":{"_b":1},"A":[],"_id":"_design/x"}}
{"ok":true,"id":"_design/x","rev":"1-00000000000000000000000000000001"}
{"get":"_design/x"}
{"A":[],"_id":"_design/x","_rev":"1-00000000000000000000000000000001","z":{"_b":1}}
{"put":{"_id":"_design/x","_deleted":true,"_rev":"2-0123456789abcdef0123456789abcdef"}}
{"error":"conflict","reason":"Document update conflict."}
{"put":{"z":1,"_id":"_design/x","_deleted":true,"_rev":"1-00000000000000000000000000000001"}}
{"ok":true,"id":"_design/x","rev":"2-00000000000000000000000000000002"}
{"get":"_design/x"}
{"error":"not_found","reason":"deleted"}"#;

/// The last write of an id decides what is written.
const STATES: &str = r#"{"info":true}
{"doc_count":0,"doc_del_count":0,"update_seq":0}
{"put":{"_id":"x"}}
{"ok":true,"id":"x","rev":"1-00000000000000000000000000000001"}
{"put":{"_id":"x"}}
{"error":"conflict","reason":"Document update conflict."}
{"delete":"x"}
{"error":"conflict","reason":"Document update conflict."}
{"delete":"x","rev":"1-00000000000000000000000000000001"}
{"ok":true,"id":"x","rev":"2-00000000000000000000000000000002"}
{"get":"x"}
{"error":"not_found","reason":"deleted"}
{"delete":"x","rev":"2-00000000000000000000000000000002"}
{"error":"not_found","reason":"deleted"}
{"info":true}
{"doc_count":0,"doc_del_count":1,"update_seq":2}
{"put":{"_id":"x"}}
{"ok":true,"id":"x","rev":"3-00000000000000000000000000000003"}
{"put":{"_id":"y","_rev":"1-00000000000000000000000000000001"}}
{"error":"conflict","reason":"Document update conflict."}
{"delete":"z"}
{"error":"not_found","reason":"missing"}
{"put":{"_deleted":false,"n":[1],"_id":"x","_rev":"3-00000000000000000000000000000003"}}
{"ok":true,"id":"x","rev":"4-00000000000000000000000000000004"}
{"get":"x"}
{"_id":"x","_rev":"4-00000000000000000000000000000004","n":[1]}
{"put":{"_id":"x","_deleted":true}}
{"error":"conflict","reason":"Document update conflict."}
{"put":{"_id":"x","_deleted":true,"n":2,"_rev":"4-00000000000000000000000000000004"}}
{"ok":true,"id":"x","rev":"5-00000000000000000000000000000005"}
{"put":{"_id":"x","_rev":"5-00000000000000000000000000000005"}}
{"ok":true,"id":"x","rev":"6-00000000000000000000000000000006"}
{"info":true}
{"doc_count":1,"doc_del_count":0,"update_seq":6}"#;

/// A view has the rows of the last writes, and none where its design is deleted, and a cleanup changes no document.
const VIEW: &str = r#"{"put":{"_id":"_design/s","language":"field","views":{"by_n":{"map":"n"}}}}
{"ok":true,"id":"_design/s","rev":"1-00000000000000000000000000000001"}
{"put":{"_id":"a","n":2}}
{"ok":true,"id":"a","rev":"1-00000000000000000000000000000002"}
{"put":{"_id":"b","n":1}}
{"ok":true,"id":"b","rev":"1-00000000000000000000000000000003"}
{"view":["s","by_n"]}
{"total_rows":2,"offset":0,"rows":[{"id":"b","key":1,"value":null},{"id":"a","key":2,"value":null}]}
{"put":{"_id":"a","n":0,"_rev":"1-00000000000000000000000000000002"}}
{"ok":true,"id":"a","rev":"2-00000000000000000000000000000004"}
{"delete":"b","rev":"1-00000000000000000000000000000003"}
{"ok":true,"id":"b","rev":"2-00000000000000000000000000000005"}
{"view":["s","by_n"]}
{"total_rows":1,"offset":0,"rows":[{"id":"a","key":0,"value":null}]}
{"delete":"_design/s","rev":"1-00000000000000000000000000000001"}
{"ok":true,"id":"_design/s","rev":"2-00000000000000000000000000000006"}
{"view":["s","by_n"]}
{"error":"not_found","reason":"deleted"}
{"cleanup":true}
{"ok":true}
{"cleanup":true}
{"ok":true}
{"info":true}
{"doc_count":1,"doc_del_count":2,"update_seq":6}"#;

/// Groups of rows: with a view's own reduce, and one that doesn't take the values of `field`.
const GROUPS: &str =
    r#"{"put":{"_id":"_design/g","language":"field","views":{"c":{"map":"k","reduce":"_count"},"n":{"map":"k"},"s":{"map":"k","reduce":"_sum"}}}}
{"ok":true,"id":"_design/g","rev":"1-00000000000000000000000000000001"}
{"view":["g","c"]}
{"rows":[]}
{"put":{"_id":"a","k":[1,2]}}
{"ok":true,"id":"a","rev":"1-00000000000000000000000000000002"}
{"put":{"_id":"b","k":[1,3]}}
{"ok":true,"id":"b","rev":"1-00000000000000000000000000000003"}
{"put":{"_id":"c","k":"x"}}
{"ok":true,"id":"c","rev":"1-00000000000000000000000000000004"}
{"view":["g","c"],"query":{"update":false}}
{"update_seq":1,"rows":[]}
{"view":["g","c"]}
{"rows":[{"key":null,"value":3}]}
{"view":["g","c"],"query":{"group_level":1,"descending":true}}
{"rows":[{"key":"x","value":1},{"key":[1],"value":2}]}
{"view":["g","c"],"query":{"group":true,"group_level":1,"skip":1,"limit":1,"update_seq":true}}
{"update_seq":4,"rows":[{"key":[1,3],"value":1}]}
{"view":["g","c"],"query":{"group":true,"keys":["x",7,[1,2],"x"],"descending":true}}
{"rows":[{"key":"x","value":1},{"key":[1,2],"value":1},{"key":"x","value":1}]}
{"view":["g","c"],"query":{"keys":["x"]}}
{"error":"query_parse_error","reason":"keys need group=true"}
{"view":["g","c"],"query":{"reduce":false,"keys":["x"]}}
{"total_rows":3,"offset":null,"rows":[{"id":"c","key":"x","value":null}]}
{"view":["g","c"],"query":{"reduce":false,"group":true}}
{"error":"query_parse_error","reason":"grouping without reduce"}
{"view":["g","s"],"query":{"startkey":"x"}}
{"rows":[{"key":null,"value":{"error":"builtin_reduce_error"}}]}
{"view":["g","n"],"query":{"group":true}}
{"error":"query_parse_error","reason":"grouping without reduce"}
{"view":["g","n"],"query":{"reduce":true}}
{"error":"query_parse_error","reason":"reduce of a map-only view"}"#;

/// The language has no reduce functions, so a source of one doesn't compile. It is asked where its view has rows.
const SOURCES: &str =
    r#"{"put":{"_id":"_design/d","language":"field","views":{"m":{"map":"m"},"v":{"map":"n","reduce":"sum"}}}}
{"ok":true,"id":"_design/d","rev":"1-00000000000000000000000000000001"}
{"view":["d","v"]}
{"rows":[]}
{"put":{"_id":"x","m":1}}
{"ok":true,"id":"x","rev":"1-00000000000000000000000000000002"}
{"view":["d","v"]}
{"rows":[]}
{"view":["d","m"]}
{"total_rows":1,"offset":0,"rows":[{"id":"x","key":1,"value":null}]}
{"put":{"_id":"y","n":1}}
{"ok":true,"id":"y","rev":"1-00000000000000000000000000000003"}
{"view":["d","v"]}
{"error":"compilation_error","reason":"_design/d"}
{"view":["d","m"]}
{"error":"compilation_error","reason":"_design/d"}
{"view":["d","v"],"query":{"reduce":false}}
{"error":"compilation_error","reason":"_design/d"}
{"view":["d","v"],"query":{"update":false}}
{"update_seq":2,"rows":[]}
{"view":["d","m"],"query":{"update":false}}
{"total_rows":1,"update_seq":2,"offset":0,"rows":[{"id":"x","key":1,"value":null}]}
{"delete":"y","rev":"1-00000000000000000000000000000003"}
{"ok":true,"id":"y","rev":"2-00000000000000000000000000000004"}
{"view":["d","v"]}
{"rows":[]}"#;

pub const RUNS: [&str; 11] = [
    REFUSED, PEOPLE, ORDER, KNOWN, LANGUAGES, DESIGNS, STATES, VIEW, QUERIES, GROUPS, SOURCES,
];
