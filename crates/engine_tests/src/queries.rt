//! Queries of a view, each with its reply behind it, over one set of rows: each parameter alone, each two together, and queries that
//! are refused.

/// A design, its documents, and the queries.
pub const QUERIES: &str =
    r#"{"put":{"_id":"_design/q","language":"field","views":{"n":{"map":"n"}}}}
{"ok":true,"id":"_design/q","rev":"1-00000000000000000000000000000001"}
{"put":{"_id":"a","n":1}}
{"ok":true,"id":"a","rev":"1-00000000000000000000000000000002"}
{"put":{"_id":"b","n":2}}
{"ok":true,"id":"b","rev":"1-00000000000000000000000000000003"}
{"put":{"_id":"ba","n":2}}
{"ok":true,"id":"ba","rev":"1-00000000000000000000000000000004"}
{"put":{"_id":"c","n":2}}
{"ok":true,"id":"c","rev":"1-00000000000000000000000000000005"}
{"put":{"_id":"d","n":"x"}}
{"ok":true,"id":"d","rev":"1-00000000000000000000000000000006"}
{"put":{"_id":"e","n":[1]}}
{"ok":true,"id":"e","rev":"1-00000000000000000000000000000007"}
{"query":{"update":false},"view":["q","n"]}
{"total_rows":0,"update_seq":0,"offset":0,"rows":[]}
{"query":{"skip":2,"startkey":1,"update":false},"view":["q","n"]}
{"total_rows":0,"update_seq":0,"offset":0,"rows":[]}
{"query":{"stale":1,"update":false},"view":["q","n"]}
{"error":"query_parse_error","reason":"unknown parameter stale"}
{"query":{},"view":["q","n"]}
{"total_rows":6,"offset":0,"rows":[{"id":"a","key":1,"value":null},{"id":"b","key":2,"value":null},{"id":"ba","key":2,"value":null},{"id":"c","key":2,"value":null},{"id":"e","key":[1],"value":null},{"id":"d","key":"x","value":null}]}
{"query":{"key":2},"view":["q","n"]}
{"total_rows":6,"offset":1,"rows":[{"id":"b","key":2,"value":null},{"id":"ba","key":2,"value":null},{"id":"c","key":2,"value":null}]}
{"query":{"keys":[2,"x",2,7]},"view":["q","n"]}
{"total_rows":6,"offset":null,"rows":[{"id":"b","key":2,"value":null},{"id":"ba","key":2,"value":null},{"id":"c","key":2,"value":null},{"id":"d","key":"x","value":null},{"id":"b","key":2,"value":null},{"id":"ba","key":2,"value":null},{"id":"c","key":2,"value":null}]}
{"query":{"startkey":2},"view":["q","n"]}
{"total_rows":6,"offset":1,"rows":[{"id":"b","key":2,"value":null},{"id":"ba","key":2,"value":null},{"id":"c","key":2,"value":null},{"id":"e","key":[1],"value":null},{"id":"d","key":"x","value":null}]}
{"query":{"endkey":2},"view":["q","n"]}
{"total_rows":6,"offset":0,"rows":[{"id":"a","key":1,"value":null},{"id":"b","key":2,"value":null},{"id":"ba","key":2,"value":null},{"id":"c","key":2,"value":null}]}
{"query":{"startkey_docid":"ba"},"view":["q","n"]}
{"total_rows":6,"offset":0,"rows":[{"id":"a","key":1,"value":null},{"id":"b","key":2,"value":null},{"id":"ba","key":2,"value":null},{"id":"c","key":2,"value":null},{"id":"e","key":[1],"value":null},{"id":"d","key":"x","value":null}]}
{"query":{"endkey_docid":"ba"},"view":["q","n"]}
{"total_rows":6,"offset":0,"rows":[{"id":"a","key":1,"value":null},{"id":"b","key":2,"value":null},{"id":"ba","key":2,"value":null},{"id":"c","key":2,"value":null},{"id":"e","key":[1],"value":null},{"id":"d","key":"x","value":null}]}
{"query":{"inclusive_end":false},"view":["q","n"]}
{"total_rows":6,"offset":0,"rows":[{"id":"a","key":1,"value":null},{"id":"b","key":2,"value":null},{"id":"ba","key":2,"value":null},{"id":"c","key":2,"value":null},{"id":"e","key":[1],"value":null},{"id":"d","key":"x","value":null}]}
{"query":{"descending":true},"view":["q","n"]}
{"total_rows":6,"offset":0,"rows":[{"id":"d","key":"x","value":null},{"id":"e","key":[1],"value":null},{"id":"c","key":2,"value":null},{"id":"ba","key":2,"value":null},{"id":"b","key":2,"value":null},{"id":"a","key":1,"value":null}]}
{"query":{"skip":1},"view":["q","n"]}
{"total_rows":6,"offset":1,"rows":[{"id":"b","key":2,"value":null},{"id":"ba","key":2,"value":null},{"id":"c","key":2,"value":null},{"id":"e","key":[1],"value":null},{"id":"d","key":"x","value":null}]}
{"query":{"limit":2},"view":["q","n"]}
{"total_rows":6,"offset":0,"rows":[{"id":"a","key":1,"value":null},{"id":"b","key":2,"value":null}]}
{"query":{"update":false},"view":["q","n"]}
{"total_rows":6,"update_seq":7,"offset":0,"rows":[{"id":"a","key":1,"value":null},{"id":"b","key":2,"value":null},{"id":"ba","key":2,"value":null},{"id":"c","key":2,"value":null},{"id":"e","key":[1],"value":null},{"id":"d","key":"x","value":null}]}
{"query":{"update_seq":true},"view":["q","n"]}
{"total_rows":6,"update_seq":7,"offset":0,"rows":[{"id":"a","key":1,"value":null},{"id":"b","key":2,"value":null},{"id":"ba","key":2,"value":null},{"id":"c","key":2,"value":null},{"id":"e","key":[1],"value":null},{"id":"d","key":"x","value":null}]}
{"query":{"reduce":false},"view":["q","n"]}
{"total_rows":6,"offset":0,"rows":[{"id":"a","key":1,"value":null},{"id":"b","key":2,"value":null},{"id":"ba","key":2,"value":null},{"id":"c","key":2,"value":null},{"id":"e","key":[1],"value":null},{"id":"d","key":"x","value":null}]}
{"query":{"group":false},"view":["q","n"]}
{"total_rows":6,"offset":0,"rows":[{"id":"a","key":1,"value":null},{"id":"b","key":2,"value":null},{"id":"ba","key":2,"value":null},{"id":"c","key":2,"value":null},{"id":"e","key":[1],"value":null},{"id":"d","key":"x","value":null}]}
{"query":{"group_level":0},"view":["q","n"]}
{"total_rows":6,"offset":0,"rows":[{"id":"a","key":1,"value":null},{"id":"b","key":2,"value":null},{"id":"ba","key":2,"value":null},{"id":"c","key":2,"value":null},{"id":"e","key":[1],"value":null},{"id":"d","key":"x","value":null}]}
{"query":{"key":2,"keys":[2,"x",2,7]},"view":["q","n"]}
{"error":"query_parse_error","reason":"keys, key and range together"}
{"query":{"key":2,"startkey":2},"view":["q","n"]}
{"error":"query_parse_error","reason":"keys, key and range together"}
{"query":{"endkey":2,"key":2},"view":["q","n"]}
{"error":"query_parse_error","reason":"keys, key and range together"}
{"query":{"key":2,"startkey_docid":"ba"},"view":["q","n"]}
{"total_rows":6,"offset":2,"rows":[{"id":"ba","key":2,"value":null},{"id":"c","key":2,"value":null}]}
{"query":{"endkey_docid":"ba","key":2},"view":["q","n"]}
{"total_rows":6,"offset":1,"rows":[{"id":"b","key":2,"value":null},{"id":"ba","key":2,"value":null}]}
{"query":{"inclusive_end":false,"key":2},"view":["q","n"]}
{"total_rows":6,"offset":1,"rows":[]}
{"query":{"descending":true,"key":2},"view":["q","n"]}
{"total_rows":6,"offset":2,"rows":[{"id":"c","key":2,"value":null},{"id":"ba","key":2,"value":null},{"id":"b","key":2,"value":null}]}
{"query":{"key":2,"skip":1},"view":["q","n"]}
{"total_rows":6,"offset":2,"rows":[{"id":"ba","key":2,"value":null},{"id":"c","key":2,"value":null}]}
{"query":{"key":2,"limit":2},"view":["q","n"]}
{"total_rows":6,"offset":1,"rows":[{"id":"b","key":2,"value":null},{"id":"ba","key":2,"value":null}]}
{"query":{"key":2,"update":false},"view":["q","n"]}
{"total_rows":6,"update_seq":7,"offset":1,"rows":[{"id":"b","key":2,"value":null},{"id":"ba","key":2,"value":null},{"id":"c","key":2,"value":null}]}
{"query":{"key":2,"update_seq":true},"view":["q","n"]}
{"total_rows":6,"update_seq":7,"offset":1,"rows":[{"id":"b","key":2,"value":null},{"id":"ba","key":2,"value":null},{"id":"c","key":2,"value":null}]}
{"query":{"key":2,"reduce":false},"view":["q","n"]}
{"total_rows":6,"offset":1,"rows":[{"id":"b","key":2,"value":null},{"id":"ba","key":2,"value":null},{"id":"c","key":2,"value":null}]}
{"query":{"group":false,"key":2},"view":["q","n"]}
{"total_rows":6,"offset":1,"rows":[{"id":"b","key":2,"value":null},{"id":"ba","key":2,"value":null},{"id":"c","key":2,"value":null}]}
{"query":{"group_level":0,"key":2},"view":["q","n"]}
{"total_rows":6,"offset":1,"rows":[{"id":"b","key":2,"value":null},{"id":"ba","key":2,"value":null},{"id":"c","key":2,"value":null}]}
{"query":{"keys":[2,"x",2,7],"startkey":2},"view":["q","n"]}
{"error":"query_parse_error","reason":"keys, key and range together"}
{"query":{"endkey":2,"keys":[2,"x",2,7]},"view":["q","n"]}
{"error":"query_parse_error","reason":"keys, key and range together"}
{"query":{"keys":[2,"x",2,7],"startkey_docid":"ba"},"view":["q","n"]}
{"total_rows":6,"offset":null,"rows":[{"id":"b","key":2,"value":null},{"id":"ba","key":2,"value":null},{"id":"c","key":2,"value":null},{"id":"d","key":"x","value":null},{"id":"b","key":2,"value":null},{"id":"ba","key":2,"value":null},{"id":"c","key":2,"value":null}]}
{"query":{"endkey_docid":"ba","keys":[2,"x",2,7]},"view":["q","n"]}
{"total_rows":6,"offset":null,"rows":[{"id":"b","key":2,"value":null},{"id":"ba","key":2,"value":null},{"id":"c","key":2,"value":null},{"id":"d","key":"x","value":null},{"id":"b","key":2,"value":null},{"id":"ba","key":2,"value":null},{"id":"c","key":2,"value":null}]}
{"query":{"inclusive_end":false,"keys":[2,"x",2,7]},"view":["q","n"]}
{"total_rows":6,"offset":null,"rows":[{"id":"b","key":2,"value":null},{"id":"ba","key":2,"value":null},{"id":"c","key":2,"value":null},{"id":"d","key":"x","value":null},{"id":"b","key":2,"value":null},{"id":"ba","key":2,"value":null},{"id":"c","key":2,"value":null}]}
{"query":{"descending":true,"keys":[2,"x",2,7]},"view":["q","n"]}
{"total_rows":6,"offset":null,"rows":[{"id":"c","key":2,"value":null},{"id":"ba","key":2,"value":null},{"id":"b","key":2,"value":null},{"id":"d","key":"x","value":null},{"id":"c","key":2,"value":null},{"id":"ba","key":2,"value":null},{"id":"b","key":2,"value":null}]}
{"query":{"keys":[2,"x",2,7],"skip":1},"view":["q","n"]}
{"total_rows":6,"offset":null,"rows":[{"id":"ba","key":2,"value":null},{"id":"c","key":2,"value":null},{"id":"d","key":"x","value":null},{"id":"b","key":2,"value":null},{"id":"ba","key":2,"value":null},{"id":"c","key":2,"value":null}]}
{"query":{"keys":[2,"x",2,7],"limit":2},"view":["q","n"]}
{"total_rows":6,"offset":null,"rows":[{"id":"b","key":2,"value":null},{"id":"ba","key":2,"value":null}]}
{"query":{"keys":[2,"x",2,7],"update":false},"view":["q","n"]}
{"total_rows":6,"update_seq":7,"offset":null,"rows":[{"id":"b","key":2,"value":null},{"id":"ba","key":2,"value":null},{"id":"c","key":2,"value":null},{"id":"d","key":"x","value":null},{"id":"b","key":2,"value":null},{"id":"ba","key":2,"value":null},{"id":"c","key":2,"value":null}]}
{"query":{"keys":[2,"x",2,7],"update_seq":true},"view":["q","n"]}
{"total_rows":6,"update_seq":7,"offset":null,"rows":[{"id":"b","key":2,"value":null},{"id":"ba","key":2,"value":null},{"id":"c","key":2,"value":null},{"id":"d","key":"x","value":null},{"id":"b","key":2,"value":null},{"id":"ba","key":2,"value":null},{"id":"c","key":2,"value":null}]}
{"query":{"keys":[2,"x",2,7],"reduce":false},"view":["q","n"]}
{"total_rows":6,"offset":null,"rows":[{"id":"b","key":2,"value":null},{"id":"ba","key":2,"value":null},{"id":"c","key":2,"value":null},{"id":"d","key":"x","value":null},{"id":"b","key":2,"value":null},{"id":"ba","key":2,"value":null},{"id":"c","key":2,"value":null}]}
{"query":{"group":false,"keys":[2,"x",2,7]},"view":["q","n"]}
{"total_rows":6,"offset":null,"rows":[{"id":"b","key":2,"value":null},{"id":"ba","key":2,"value":null},{"id":"c","key":2,"value":null},{"id":"d","key":"x","value":null},{"id":"b","key":2,"value":null},{"id":"ba","key":2,"value":null},{"id":"c","key":2,"value":null}]}
{"query":{"group_level":0,"keys":[2,"x",2,7]},"view":["q","n"]}
{"total_rows":6,"offset":null,"rows":[{"id":"b","key":2,"value":null},{"id":"ba","key":2,"value":null},{"id":"c","key":2,"value":null},{"id":"d","key":"x","value":null},{"id":"b","key":2,"value":null},{"id":"ba","key":2,"value":null},{"id":"c","key":2,"value":null}]}
{"query":{"endkey":2,"startkey":2},"view":["q","n"]}
{"total_rows":6,"offset":1,"rows":[{"id":"b","key":2,"value":null},{"id":"ba","key":2,"value":null},{"id":"c","key":2,"value":null}]}
{"query":{"startkey":2,"startkey_docid":"ba"},"view":["q","n"]}
{"total_rows":6,"offset":2,"rows":[{"id":"ba","key":2,"value":null},{"id":"c","key":2,"value":null},{"id":"e","key":[1],"value":null},{"id":"d","key":"x","value":null}]}
{"query":{"endkey_docid":"ba","startkey":2},"view":["q","n"]}
{"total_rows":6,"offset":1,"rows":[{"id":"b","key":2,"value":null},{"id":"ba","key":2,"value":null},{"id":"c","key":2,"value":null},{"id":"e","key":[1],"value":null},{"id":"d","key":"x","value":null}]}
{"query":{"inclusive_end":false,"startkey":2},"view":["q","n"]}
{"total_rows":6,"offset":1,"rows":[{"id":"b","key":2,"value":null},{"id":"ba","key":2,"value":null},{"id":"c","key":2,"value":null},{"id":"e","key":[1],"value":null},{"id":"d","key":"x","value":null}]}
{"query":{"descending":true,"startkey":2},"view":["q","n"]}
{"total_rows":6,"offset":2,"rows":[{"id":"c","key":2,"value":null},{"id":"ba","key":2,"value":null},{"id":"b","key":2,"value":null},{"id":"a","key":1,"value":null}]}
{"query":{"skip":1,"startkey":2},"view":["q","n"]}
{"total_rows":6,"offset":2,"rows":[{"id":"ba","key":2,"value":null},{"id":"c","key":2,"value":null},{"id":"e","key":[1],"value":null},{"id":"d","key":"x","value":null}]}
{"query":{"limit":2,"startkey":2},"view":["q","n"]}
{"total_rows":6,"offset":1,"rows":[{"id":"b","key":2,"value":null},{"id":"ba","key":2,"value":null}]}
{"query":{"startkey":2,"update":false},"view":["q","n"]}
{"total_rows":6,"update_seq":7,"offset":1,"rows":[{"id":"b","key":2,"value":null},{"id":"ba","key":2,"value":null},{"id":"c","key":2,"value":null},{"id":"e","key":[1],"value":null},{"id":"d","key":"x","value":null}]}
{"query":{"startkey":2,"update_seq":true},"view":["q","n"]}
{"total_rows":6,"update_seq":7,"offset":1,"rows":[{"id":"b","key":2,"value":null},{"id":"ba","key":2,"value":null},{"id":"c","key":2,"value":null},{"id":"e","key":[1],"value":null},{"id":"d","key":"x","value":null}]}
{"query":{"reduce":false,"startkey":2},"view":["q","n"]}
{"total_rows":6,"offset":1,"rows":[{"id":"b","key":2,"value":null},{"id":"ba","key":2,"value":null},{"id":"c","key":2,"value":null},{"id":"e","key":[1],"value":null},{"id":"d","key":"x","value":null}]}
{"query":{"group":false,"startkey":2},"view":["q","n"]}
{"total_rows":6,"offset":1,"rows":[{"id":"b","key":2,"value":null},{"id":"ba","key":2,"value":null},{"id":"c","key":2,"value":null},{"id":"e","key":[1],"value":null},{"id":"d","key":"x","value":null}]}
{"query":{"group_level":0,"startkey":2},"view":["q","n"]}
{"total_rows":6,"offset":1,"rows":[{"id":"b","key":2,"value":null},{"id":"ba","key":2,"value":null},{"id":"c","key":2,"value":null},{"id":"e","key":[1],"value":null},{"id":"d","key":"x","value":null}]}
{"query":{"endkey":2,"startkey_docid":"ba"},"view":["q","n"]}
{"total_rows":6,"offset":0,"rows":[{"id":"a","key":1,"value":null},{"id":"b","key":2,"value":null},{"id":"ba","key":2,"value":null},{"id":"c","key":2,"value":null}]}
{"query":{"endkey":2,"endkey_docid":"ba"},"view":["q","n"]}
{"total_rows":6,"offset":0,"rows":[{"id":"a","key":1,"value":null},{"id":"b","key":2,"value":null},{"id":"ba","key":2,"value":null}]}
{"query":{"endkey":2,"inclusive_end":false},"view":["q","n"]}
{"total_rows":6,"offset":0,"rows":[{"id":"a","key":1,"value":null}]}
{"query":{"descending":true,"endkey":2},"view":["q","n"]}
{"total_rows":6,"offset":0,"rows":[{"id":"d","key":"x","value":null},{"id":"e","key":[1],"value":null},{"id":"c","key":2,"value":null},{"id":"ba","key":2,"value":null},{"id":"b","key":2,"value":null}]}
{"query":{"endkey":2,"skip":1},"view":["q","n"]}
{"total_rows":6,"offset":1,"rows":[{"id":"b","key":2,"value":null},{"id":"ba","key":2,"value":null},{"id":"c","key":2,"value":null}]}
{"query":{"endkey":2,"limit":2},"view":["q","n"]}
{"total_rows":6,"offset":0,"rows":[{"id":"a","key":1,"value":null},{"id":"b","key":2,"value":null}]}
{"query":{"endkey":2,"update":false},"view":["q","n"]}
{"total_rows":6,"update_seq":7,"offset":0,"rows":[{"id":"a","key":1,"value":null},{"id":"b","key":2,"value":null},{"id":"ba","key":2,"value":null},{"id":"c","key":2,"value":null}]}
{"query":{"endkey":2,"update_seq":true},"view":["q","n"]}
{"total_rows":6,"update_seq":7,"offset":0,"rows":[{"id":"a","key":1,"value":null},{"id":"b","key":2,"value":null},{"id":"ba","key":2,"value":null},{"id":"c","key":2,"value":null}]}
{"query":{"endkey":2,"reduce":false},"view":["q","n"]}
{"total_rows":6,"offset":0,"rows":[{"id":"a","key":1,"value":null},{"id":"b","key":2,"value":null},{"id":"ba","key":2,"value":null},{"id":"c","key":2,"value":null}]}
{"query":{"endkey":2,"group":false},"view":["q","n"]}
{"total_rows":6,"offset":0,"rows":[{"id":"a","key":1,"value":null},{"id":"b","key":2,"value":null},{"id":"ba","key":2,"value":null},{"id":"c","key":2,"value":null}]}
{"query":{"endkey":2,"group_level":0},"view":["q","n"]}
{"total_rows":6,"offset":0,"rows":[{"id":"a","key":1,"value":null},{"id":"b","key":2,"value":null},{"id":"ba","key":2,"value":null},{"id":"c","key":2,"value":null}]}
{"query":{"endkey_docid":"ba","startkey_docid":"ba"},"view":["q","n"]}
{"total_rows":6,"offset":0,"rows":[{"id":"a","key":1,"value":null},{"id":"b","key":2,"value":null},{"id":"ba","key":2,"value":null},{"id":"c","key":2,"value":null},{"id":"e","key":[1],"value":null},{"id":"d","key":"x","value":null}]}
{"query":{"inclusive_end":false,"startkey_docid":"ba"},"view":["q","n"]}
{"total_rows":6,"offset":0,"rows":[{"id":"a","key":1,"value":null},{"id":"b","key":2,"value":null},{"id":"ba","key":2,"value":null},{"id":"c","key":2,"value":null},{"id":"e","key":[1],"value":null},{"id":"d","key":"x","value":null}]}
{"query":{"descending":true,"startkey_docid":"ba"},"view":["q","n"]}
{"total_rows":6,"offset":0,"rows":[{"id":"d","key":"x","value":null},{"id":"e","key":[1],"value":null},{"id":"c","key":2,"value":null},{"id":"ba","key":2,"value":null},{"id":"b","key":2,"value":null},{"id":"a","key":1,"value":null}]}
{"query":{"skip":1,"startkey_docid":"ba"},"view":["q","n"]}
{"total_rows":6,"offset":1,"rows":[{"id":"b","key":2,"value":null},{"id":"ba","key":2,"value":null},{"id":"c","key":2,"value":null},{"id":"e","key":[1],"value":null},{"id":"d","key":"x","value":null}]}
{"query":{"limit":2,"startkey_docid":"ba"},"view":["q","n"]}
{"total_rows":6,"offset":0,"rows":[{"id":"a","key":1,"value":null},{"id":"b","key":2,"value":null}]}
{"query":{"startkey_docid":"ba","update":false},"view":["q","n"]}
{"total_rows":6,"update_seq":7,"offset":0,"rows":[{"id":"a","key":1,"value":null},{"id":"b","key":2,"value":null},{"id":"ba","key":2,"value":null},{"id":"c","key":2,"value":null},{"id":"e","key":[1],"value":null},{"id":"d","key":"x","value":null}]}
{"query":{"startkey_docid":"ba","update_seq":true},"view":["q","n"]}
{"total_rows":6,"update_seq":7,"offset":0,"rows":[{"id":"a","key":1,"value":null},{"id":"b","key":2,"value":null},{"id":"ba","key":2,"value":null},{"id":"c","key":2,"value":null},{"id":"e","key":[1],"value":null},{"id":"d","key":"x","value":null}]}
{"query":{"reduce":false,"startkey_docid":"ba"},"view":["q","n"]}
{"total_rows":6,"offset":0,"rows":[{"id":"a","key":1,"value":null},{"id":"b","key":2,"value":null},{"id":"ba","key":2,"value":null},{"id":"c","key":2,"value":null},{"id":"e","key":[1],"value":null},{"id":"d","key":"x","value":null}]}
{"query":{"group":false,"startkey_docid":"ba"},"view":["q","n"]}
{"total_rows":6,"offset":0,"rows":[{"id":"a","key":1,"value":null},{"id":"b","key":2,"value":null},{"id":"ba","key":2,"value":null},{"id":"c","key":2,"value":null},{"id":"e","key":[1],"value":null},{"id":"d","key":"x","value":null}]}
{"query":{"group_level":0,"startkey_docid":"ba"},"view":["q","n"]}
{"total_rows":6,"offset":0,"rows":[{"id":"a","key":1,"value":null},{"id":"b","key":2,"value":null},{"id":"ba","key":2,"value":null},{"id":"c","key":2,"value":null},{"id":"e","key":[1],"value":null},{"id":"d","key":"x","value":null}]}
{"query":{"endkey_docid":"ba","inclusive_end":false},"view":["q","n"]}
{"total_rows":6,"offset":0,"rows":[{"id":"a","key":1,"value":null},{"id":"b","key":2,"value":null},{"id":"ba","key":2,"value":null},{"id":"c","key":2,"value":null},{"id":"e","key":[1],"value":null},{"id":"d","key":"x","value":null}]}
{"query":{"descending":true,"endkey_docid":"ba"},"view":["q","n"]}
{"total_rows":6,"offset":0,"rows":[{"id":"d","key":"x","value":null},{"id":"e","key":[1],"value":null},{"id":"c","key":2,"value":null},{"id":"ba","key":2,"value":null},{"id":"b","key":2,"value":null},{"id":"a","key":1,"value":null}]}
{"query":{"endkey_docid":"ba","skip":1},"view":["q","n"]}
{"total_rows":6,"offset":1,"rows":[{"id":"b","key":2,"value":null},{"id":"ba","key":2,"value":null},{"id":"c","key":2,"value":null},{"id":"e","key":[1],"value":null},{"id":"d","key":"x","value":null}]}
{"query":{"endkey_docid":"ba","limit":2},"view":["q","n"]}
{"total_rows":6,"offset":0,"rows":[{"id":"a","key":1,"value":null},{"id":"b","key":2,"value":null}]}
{"query":{"endkey_docid":"ba","update":false},"view":["q","n"]}
{"total_rows":6,"update_seq":7,"offset":0,"rows":[{"id":"a","key":1,"value":null},{"id":"b","key":2,"value":null},{"id":"ba","key":2,"value":null},{"id":"c","key":2,"value":null},{"id":"e","key":[1],"value":null},{"id":"d","key":"x","value":null}]}
{"query":{"endkey_docid":"ba","update_seq":true},"view":["q","n"]}
{"total_rows":6,"update_seq":7,"offset":0,"rows":[{"id":"a","key":1,"value":null},{"id":"b","key":2,"value":null},{"id":"ba","key":2,"value":null},{"id":"c","key":2,"value":null},{"id":"e","key":[1],"value":null},{"id":"d","key":"x","value":null}]}
{"query":{"endkey_docid":"ba","reduce":false},"view":["q","n"]}
{"total_rows":6,"offset":0,"rows":[{"id":"a","key":1,"value":null},{"id":"b","key":2,"value":null},{"id":"ba","key":2,"value":null},{"id":"c","key":2,"value":null},{"id":"e","key":[1],"value":null},{"id":"d","key":"x","value":null}]}
{"query":{"endkey_docid":"ba","group":false},"view":["q","n"]}
{"total_rows":6,"offset":0,"rows":[{"id":"a","key":1,"value":null},{"id":"b","key":2,"value":null},{"id":"ba","key":2,"value":null},{"id":"c","key":2,"value":null},{"id":"e","key":[1],"value":null},{"id":"d","key":"x","value":null}]}
{"query":{"endkey_docid":"ba","group_level":0},"view":["q","n"]}
{"total_rows":6,"offset":0,"rows":[{"id":"a","key":1,"value":null},{"id":"b","key":2,"value":null},{"id":"ba","key":2,"value":null},{"id":"c","key":2,"value":null},{"id":"e","key":[1],"value":null},{"id":"d","key":"x","value":null}]}
{"query":{"descending":true,"inclusive_end":false},"view":["q","n"]}
{"total_rows":6,"offset":0,"rows":[{"id":"d","key":"x","value":null},{"id":"e","key":[1],"value":null},{"id":"c","key":2,"value":null},{"id":"ba","key":2,"value":null},{"id":"b","key":2,"value":null},{"id":"a","key":1,"value":null}]}
{"query":{"inclusive_end":false,"skip":1},"view":["q","n"]}
{"total_rows":6,"offset":1,"rows":[{"id":"b","key":2,"value":null},{"id":"ba","key":2,"value":null},{"id":"c","key":2,"value":null},{"id":"e","key":[1],"value":null},{"id":"d","key":"x","value":null}]}
{"query":{"inclusive_end":false,"limit":2},"view":["q","n"]}
{"total_rows":6,"offset":0,"rows":[{"id":"a","key":1,"value":null},{"id":"b","key":2,"value":null}]}
{"query":{"inclusive_end":false,"update":false},"view":["q","n"]}
{"total_rows":6,"update_seq":7,"offset":0,"rows":[{"id":"a","key":1,"value":null},{"id":"b","key":2,"value":null},{"id":"ba","key":2,"value":null},{"id":"c","key":2,"value":null},{"id":"e","key":[1],"value":null},{"id":"d","key":"x","value":null}]}
{"query":{"inclusive_end":false,"update_seq":true},"view":["q","n"]}
{"total_rows":6,"update_seq":7,"offset":0,"rows":[{"id":"a","key":1,"value":null},{"id":"b","key":2,"value":null},{"id":"ba","key":2,"value":null},{"id":"c","key":2,"value":null},{"id":"e","key":[1],"value":null},{"id":"d","key":"x","value":null}]}
{"query":{"inclusive_end":false,"reduce":false},"view":["q","n"]}
{"total_rows":6,"offset":0,"rows":[{"id":"a","key":1,"value":null},{"id":"b","key":2,"value":null},{"id":"ba","key":2,"value":null},{"id":"c","key":2,"value":null},{"id":"e","key":[1],"value":null},{"id":"d","key":"x","value":null}]}
{"query":{"group":false,"inclusive_end":false},"view":["q","n"]}
{"total_rows":6,"offset":0,"rows":[{"id":"a","key":1,"value":null},{"id":"b","key":2,"value":null},{"id":"ba","key":2,"value":null},{"id":"c","key":2,"value":null},{"id":"e","key":[1],"value":null},{"id":"d","key":"x","value":null}]}
{"query":{"group_level":0,"inclusive_end":false},"view":["q","n"]}
{"total_rows":6,"offset":0,"rows":[{"id":"a","key":1,"value":null},{"id":"b","key":2,"value":null},{"id":"ba","key":2,"value":null},{"id":"c","key":2,"value":null},{"id":"e","key":[1],"value":null},{"id":"d","key":"x","value":null}]}
{"query":{"descending":true,"skip":1},"view":["q","n"]}
{"total_rows":6,"offset":1,"rows":[{"id":"e","key":[1],"value":null},{"id":"c","key":2,"value":null},{"id":"ba","key":2,"value":null},{"id":"b","key":2,"value":null},{"id":"a","key":1,"value":null}]}
{"query":{"descending":true,"limit":2},"view":["q","n"]}
{"total_rows":6,"offset":0,"rows":[{"id":"d","key":"x","value":null},{"id":"e","key":[1],"value":null}]}
{"query":{"descending":true,"update":false},"view":["q","n"]}
{"total_rows":6,"update_seq":7,"offset":0,"rows":[{"id":"d","key":"x","value":null},{"id":"e","key":[1],"value":null},{"id":"c","key":2,"value":null},{"id":"ba","key":2,"value":null},{"id":"b","key":2,"value":null},{"id":"a","key":1,"value":null}]}
{"query":{"descending":true,"update_seq":true},"view":["q","n"]}
{"total_rows":6,"update_seq":7,"offset":0,"rows":[{"id":"d","key":"x","value":null},{"id":"e","key":[1],"value":null},{"id":"c","key":2,"value":null},{"id":"ba","key":2,"value":null},{"id":"b","key":2,"value":null},{"id":"a","key":1,"value":null}]}
{"query":{"descending":true,"reduce":false},"view":["q","n"]}
{"total_rows":6,"offset":0,"rows":[{"id":"d","key":"x","value":null},{"id":"e","key":[1],"value":null},{"id":"c","key":2,"value":null},{"id":"ba","key":2,"value":null},{"id":"b","key":2,"value":null},{"id":"a","key":1,"value":null}]}
{"query":{"descending":true,"group":false},"view":["q","n"]}
{"total_rows":6,"offset":0,"rows":[{"id":"d","key":"x","value":null},{"id":"e","key":[1],"value":null},{"id":"c","key":2,"value":null},{"id":"ba","key":2,"value":null},{"id":"b","key":2,"value":null},{"id":"a","key":1,"value":null}]}
{"query":{"descending":true,"group_level":0},"view":["q","n"]}
{"total_rows":6,"offset":0,"rows":[{"id":"d","key":"x","value":null},{"id":"e","key":[1],"value":null},{"id":"c","key":2,"value":null},{"id":"ba","key":2,"value":null},{"id":"b","key":2,"value":null},{"id":"a","key":1,"value":null}]}
{"query":{"limit":2,"skip":1},"view":["q","n"]}
{"total_rows":6,"offset":1,"rows":[{"id":"b","key":2,"value":null},{"id":"ba","key":2,"value":null}]}
{"query":{"skip":1,"update":false},"view":["q","n"]}
{"total_rows":6,"update_seq":7,"offset":1,"rows":[{"id":"b","key":2,"value":null},{"id":"ba","key":2,"value":null},{"id":"c","key":2,"value":null},{"id":"e","key":[1],"value":null},{"id":"d","key":"x","value":null}]}
{"query":{"skip":1,"update_seq":true},"view":["q","n"]}
{"total_rows":6,"update_seq":7,"offset":1,"rows":[{"id":"b","key":2,"value":null},{"id":"ba","key":2,"value":null},{"id":"c","key":2,"value":null},{"id":"e","key":[1],"value":null},{"id":"d","key":"x","value":null}]}
{"query":{"reduce":false,"skip":1},"view":["q","n"]}
{"total_rows":6,"offset":1,"rows":[{"id":"b","key":2,"value":null},{"id":"ba","key":2,"value":null},{"id":"c","key":2,"value":null},{"id":"e","key":[1],"value":null},{"id":"d","key":"x","value":null}]}
{"query":{"group":false,"skip":1},"view":["q","n"]}
{"total_rows":6,"offset":1,"rows":[{"id":"b","key":2,"value":null},{"id":"ba","key":2,"value":null},{"id":"c","key":2,"value":null},{"id":"e","key":[1],"value":null},{"id":"d","key":"x","value":null}]}
{"query":{"group_level":0,"skip":1},"view":["q","n"]}
{"total_rows":6,"offset":1,"rows":[{"id":"b","key":2,"value":null},{"id":"ba","key":2,"value":null},{"id":"c","key":2,"value":null},{"id":"e","key":[1],"value":null},{"id":"d","key":"x","value":null}]}
{"query":{"limit":2,"update":false},"view":["q","n"]}
{"total_rows":6,"update_seq":7,"offset":0,"rows":[{"id":"a","key":1,"value":null},{"id":"b","key":2,"value":null}]}
{"query":{"limit":2,"update_seq":true},"view":["q","n"]}
{"total_rows":6,"update_seq":7,"offset":0,"rows":[{"id":"a","key":1,"value":null},{"id":"b","key":2,"value":null}]}
{"query":{"limit":2,"reduce":false},"view":["q","n"]}
{"total_rows":6,"offset":0,"rows":[{"id":"a","key":1,"value":null},{"id":"b","key":2,"value":null}]}
{"query":{"group":false,"limit":2},"view":["q","n"]}
{"total_rows":6,"offset":0,"rows":[{"id":"a","key":1,"value":null},{"id":"b","key":2,"value":null}]}
{"query":{"group_level":0,"limit":2},"view":["q","n"]}
{"total_rows":6,"offset":0,"rows":[{"id":"a","key":1,"value":null},{"id":"b","key":2,"value":null}]}
{"query":{"update":false,"update_seq":true},"view":["q","n"]}
{"total_rows":6,"update_seq":7,"offset":0,"rows":[{"id":"a","key":1,"value":null},{"id":"b","key":2,"value":null},{"id":"ba","key":2,"value":null},{"id":"c","key":2,"value":null},{"id":"e","key":[1],"value":null},{"id":"d","key":"x","value":null}]}
{"query":{"reduce":false,"update":false},"view":["q","n"]}
{"total_rows":6,"update_seq":7,"offset":0,"rows":[{"id":"a","key":1,"value":null},{"id":"b","key":2,"value":null},{"id":"ba","key":2,"value":null},{"id":"c","key":2,"value":null},{"id":"e","key":[1],"value":null},{"id":"d","key":"x","value":null}]}
{"query":{"group":false,"update":false},"view":["q","n"]}
{"total_rows":6,"update_seq":7,"offset":0,"rows":[{"id":"a","key":1,"value":null},{"id":"b","key":2,"value":null},{"id":"ba","key":2,"value":null},{"id":"c","key":2,"value":null},{"id":"e","key":[1],"value":null},{"id":"d","key":"x","value":null}]}
{"query":{"group_level":0,"update":false},"view":["q","n"]}
{"total_rows":6,"update_seq":7,"offset":0,"rows":[{"id":"a","key":1,"value":null},{"id":"b","key":2,"value":null},{"id":"ba","key":2,"value":null},{"id":"c","key":2,"value":null},{"id":"e","key":[1],"value":null},{"id":"d","key":"x","value":null}]}
{"query":{"reduce":false,"update_seq":true},"view":["q","n"]}
{"total_rows":6,"update_seq":7,"offset":0,"rows":[{"id":"a","key":1,"value":null},{"id":"b","key":2,"value":null},{"id":"ba","key":2,"value":null},{"id":"c","key":2,"value":null},{"id":"e","key":[1],"value":null},{"id":"d","key":"x","value":null}]}
{"query":{"group":false,"update_seq":true},"view":["q","n"]}
{"total_rows":6,"update_seq":7,"offset":0,"rows":[{"id":"a","key":1,"value":null},{"id":"b","key":2,"value":null},{"id":"ba","key":2,"value":null},{"id":"c","key":2,"value":null},{"id":"e","key":[1],"value":null},{"id":"d","key":"x","value":null}]}
{"query":{"group_level":0,"update_seq":true},"view":["q","n"]}
{"total_rows":6,"update_seq":7,"offset":0,"rows":[{"id":"a","key":1,"value":null},{"id":"b","key":2,"value":null},{"id":"ba","key":2,"value":null},{"id":"c","key":2,"value":null},{"id":"e","key":[1],"value":null},{"id":"d","key":"x","value":null}]}
{"query":{"group":false,"reduce":false},"view":["q","n"]}
{"total_rows":6,"offset":0,"rows":[{"id":"a","key":1,"value":null},{"id":"b","key":2,"value":null},{"id":"ba","key":2,"value":null},{"id":"c","key":2,"value":null},{"id":"e","key":[1],"value":null},{"id":"d","key":"x","value":null}]}
{"query":{"group_level":0,"reduce":false},"view":["q","n"]}
{"total_rows":6,"offset":0,"rows":[{"id":"a","key":1,"value":null},{"id":"b","key":2,"value":null},{"id":"ba","key":2,"value":null},{"id":"c","key":2,"value":null},{"id":"e","key":[1],"value":null},{"id":"d","key":"x","value":null}]}
{"query":{"group":false,"group_level":0},"view":["q","n"]}
{"total_rows":6,"offset":0,"rows":[{"id":"a","key":1,"value":null},{"id":"b","key":2,"value":null},{"id":"ba","key":2,"value":null},{"id":"c","key":2,"value":null},{"id":"e","key":[1],"value":null},{"id":"d","key":"x","value":null}]}
{"query":{"endkey":1,"startkey":"x"},"view":["q","n"]}
{"total_rows":6,"offset":5,"rows":[]}
{"query":{"descending":true,"endkey":"x","startkey":1},"view":["q","n"]}
{"total_rows":6,"offset":5,"rows":[]}
{"query":{"endkey":2,"startkey":2},"view":["q","n"]}
{"total_rows":6,"offset":1,"rows":[{"id":"b","key":2,"value":null},{"id":"ba","key":2,"value":null},{"id":"c","key":2,"value":null}]}
{"query":{"endkey":2,"inclusive_end":false,"startkey":2},"view":["q","n"]}
{"total_rows":6,"offset":1,"rows":[]}
{"query":{"endkey":2,"endkey_docid":"ba","startkey":2,"startkey_docid":"ba"},"view":["q","n"]}
{"total_rows":6,"offset":2,"rows":[{"id":"ba","key":2,"value":null}]}
{"query":{"endkey":2,"endkey_docid":"ba","inclusive_end":false,"startkey":2,"startkey_docid":"ba"},"view":["q","n"]}
{"total_rows":6,"offset":2,"rows":[]}
{"query":{"descending":true,"endkey":2,"endkey_docid":"ba","startkey":2,"startkey_docid":"c"},"view":["q","n"]}
{"total_rows":6,"offset":2,"rows":[{"id":"c","key":2,"value":null},{"id":"ba","key":2,"value":null}]}
{"query":{"descending":true,"endkey":2,"endkey_docid":"b","inclusive_end":false,"startkey":2,"startkey_docid":"c"},"view":["q","n"]}
{"total_rows":6,"offset":2,"rows":[{"id":"c","key":2,"value":null},{"id":"ba","key":2,"value":null}]}
{"query":{"endkey_docid":"c","inclusive_end":false,"key":2,"startkey_docid":"ba"},"view":["q","n"]}
{"total_rows":6,"offset":2,"rows":[{"id":"ba","key":2,"value":null}]}
{"query":{"endkey_docid":"c","key":2,"startkey_docid":"ba"},"view":["q","n"]}
{"total_rows":6,"offset":2,"rows":[{"id":"ba","key":2,"value":null},{"id":"c","key":2,"value":null}]}
{"query":{"descending":true,"limit":2,"skip":1,"startkey":2,"startkey_docid":"c"},"view":["q","n"]}
{"total_rows":6,"offset":3,"rows":[{"id":"ba","key":2,"value":null},{"id":"b","key":2,"value":null}]}
{"query":{"keys":[2,1,2],"limit":3,"skip":2},"view":["q","n"]}
{"total_rows":6,"offset":null,"rows":[{"id":"c","key":2,"value":null},{"id":"a","key":1,"value":null},{"id":"b","key":2,"value":null}]}
{"query":{"descending":true,"keys":[2,1,2],"limit":3,"skip":2},"view":["q","n"]}
{"total_rows":6,"offset":null,"rows":[{"id":"b","key":2,"value":null},{"id":"a","key":1,"value":null},{"id":"c","key":2,"value":null}]}
{"query":{"keys":[]},"view":["q","n"]}
{"total_rows":6,"offset":null,"rows":[]}
{"query":{"keys":[3]},"view":["q","n"]}
{"total_rows":6,"offset":null,"rows":[]}
{"query":{"keys":[2],"skip":9},"view":["q","n"]}
{"total_rows":6,"offset":null,"rows":[]}
{"query":{"limit":0},"view":["q","n"]}
{"total_rows":6,"offset":0,"rows":[]}
{"query":{"limit":6},"view":["q","n"]}
{"total_rows":6,"offset":0,"rows":[{"id":"a","key":1,"value":null},{"id":"b","key":2,"value":null},{"id":"ba","key":2,"value":null},{"id":"c","key":2,"value":null},{"id":"e","key":[1],"value":null},{"id":"d","key":"x","value":null}]}
{"query":{"limit":9223372036854775807},"view":["q","n"]}
{"total_rows":6,"offset":0,"rows":[{"id":"a","key":1,"value":null},{"id":"b","key":2,"value":null},{"id":"ba","key":2,"value":null},{"id":"c","key":2,"value":null},{"id":"e","key":[1],"value":null},{"id":"d","key":"x","value":null}]}
{"query":{"skip":6},"view":["q","n"]}
{"total_rows":6,"offset":6,"rows":[]}
{"query":{"skip":9223372036854775807},"view":["q","n"]}
{"total_rows":6,"offset":6,"rows":[]}
{"query":{"limit":0,"startkey":2},"view":["q","n"]}
{"total_rows":6,"offset":1,"rows":[]}
{"query":{"key":2,"skip":9},"view":["q","n"]}
{"total_rows":6,"offset":4,"rows":[]}
{"query":{"key":3},"view":["q","n"]}
{"total_rows":6,"offset":4,"rows":[]}
{"query":{"key":[1]},"view":["q","n"]}
{"total_rows":6,"offset":4,"rows":[{"id":"e","key":[1],"value":null}]}
{"query":{"key":[]},"view":["q","n"]}
{"total_rows":6,"offset":4,"rows":[]}
{"query":{"startkey":null},"view":["q","n"]}
{"total_rows":6,"offset":4,"rows":[{"id":"e","key":[1],"value":null},{"id":"d","key":"x","value":null}]}
{"query":{"endkey":{}},"view":["q","n"]}
{"total_rows":6,"offset":0,"rows":[{"id":"a","key":1,"value":null},{"id":"b","key":2,"value":null},{"id":"ba","key":2,"value":null},{"id":"c","key":2,"value":null}]}
{"query":{"startkey":[1,0]},"view":["q","n"]}
{"total_rows":6,"offset":5,"rows":[{"id":"d","key":"x","value":null}]}
{"query":{"endkey":[]},"view":["q","n"]}
{"total_rows":6,"offset":0,"rows":[{"id":"a","key":1,"value":null},{"id":"b","key":2,"value":null},{"id":"ba","key":2,"value":null},{"id":"c","key":2,"value":null}]}
{"query":{"descending":true,"endkey":""},"view":["q","n"]}
{"total_rows":6,"offset":0,"rows":[{"id":"d","key":"x","value":null}]}
{"query":{"endkey":"x","limit":2,"skip":1,"startkey":2,"update_seq":true},"view":["q","n"]}
{"total_rows":6,"update_seq":7,"offset":2,"rows":[{"id":"ba","key":2,"value":null},{"id":"c","key":2,"value":null}]}
{"query":{"stale":"ok"},"view":["q","n"]}
{"error":"query_parse_error","reason":"unknown parameter stale"}
{"query":{"start_key":1},"view":["q","n"]}
{"error":"query_parse_error","reason":"unknown parameter start_key"}
{"query":{"skip":-1},"view":["q","n"]}
{"error":"query_parse_error","reason":"bad value of skip"}
{"query":{"limit":-1},"view":["q","n"]}
{"error":"query_parse_error","reason":"bad value of limit"}
{"query":{"skip":"1"},"view":["q","n"]}
{"error":"query_parse_error","reason":"bad value of skip"}
{"query":{"limit":null},"view":["q","n"]}
{"error":"query_parse_error","reason":"bad value of limit"}
{"query":{"keys":1},"view":["q","n"]}
{"error":"query_parse_error","reason":"bad value of keys"}
{"query":{"keys":{}},"view":["q","n"]}
{"error":"query_parse_error","reason":"bad value of keys"}
{"query":{"startkey_docid":1},"view":["q","n"]}
{"error":"query_parse_error","reason":"bad value of startkey_docid"}
{"query":{"endkey_docid":null},"view":["q","n"]}
{"error":"query_parse_error","reason":"bad value of endkey_docid"}
{"query":{"inclusive_end":1},"view":["q","n"]}
{"error":"query_parse_error","reason":"bad value of inclusive_end"}
{"query":{"descending":"true"},"view":["q","n"]}
{"error":"query_parse_error","reason":"bad value of descending"}
{"query":{"reduce":null},"view":["q","n"]}
{"error":"query_parse_error","reason":"bad value of reduce"}
{"query":{"group":0},"view":["q","n"]}
{"error":"query_parse_error","reason":"bad value of group"}
{"query":{"group_level":-1},"view":["q","n"]}
{"error":"query_parse_error","reason":"bad value of group_level"}
{"query":{"group_level":1001},"view":["q","n"]}
{"error":"query_parse_error","reason":"bad value of group_level"}
{"query":{"group_level":"1"},"view":["q","n"]}
{"error":"query_parse_error","reason":"bad value of group_level"}
{"query":{"update_seq":1},"view":["q","n"]}
{"error":"query_parse_error","reason":"bad value of update_seq"}
{"query":{"update":"lazy"},"view":["q","n"]}
{"error":"query_parse_error","reason":"bad value of update"}
{"query":{"reduce":true},"view":["q","n"]}
{"error":"query_parse_error","reason":"reduce of a map-only view"}
{"query":{"group":true},"view":["q","n"]}
{"error":"query_parse_error","reason":"grouping without reduce"}
{"query":{"group_level":1},"view":["q","n"]}
{"error":"query_parse_error","reason":"grouping without reduce"}
{"query":{"group_level":1000},"view":["q","n"]}
{"error":"query_parse_error","reason":"grouping without reduce"}
{"query":{"key":1,"keys":[1]},"view":["q","n"]}
{"error":"query_parse_error","reason":"keys, key and range together"}
{"query":{"key":1,"startkey":1},"view":["q","n"]}
{"error":"query_parse_error","reason":"keys, key and range together"}
{"query":{"endkey":1,"key":1},"view":["q","n"]}
{"error":"query_parse_error","reason":"keys, key and range together"}
{"query":{"keys":[],"startkey":1},"view":["q","n"]}
{"error":"query_parse_error","reason":"keys, key and range together"}
{"query":{"endkey":1,"keys":[]},"view":["q","n"]}
{"error":"query_parse_error","reason":"keys, key and range together"}
{"query":{"endkey":1,"key":1,"startkey":1},"view":["q","n"]}
{"error":"query_parse_error","reason":"keys, key and range together"}
{"query":{"skip":-1,"zz":1},"view":["q","n"]}
{"error":"query_parse_error","reason":"unknown parameter zz"}
{"query":{"zy":1,"zz":1},"view":["q","n"]}
{"error":"query_parse_error","reason":"unknown parameter zy"}
{"query":{"limit":-1,"skip":-1},"view":["q","n"]}
{"error":"query_parse_error","reason":"bad value of limit"}
{"query":{"key":1,"keys":1},"view":["q","n"]}
{"error":"query_parse_error","reason":"bad value of keys"}
{"query":{"group":true,"key":1,"keys":[]},"view":["q","n"]}
{"error":"query_parse_error","reason":"keys, key and range together"}
{"query":{"group":true,"reduce":true},"view":["q","n"]}
{"error":"query_parse_error","reason":"reduce of a map-only view"}
{"query":{"endkey":1,"key":1,"reduce":true},"view":["q","n"]}
{"error":"query_parse_error","reason":"keys, key and range together"}
{"query":{"group":true,"skip":-1},"view":["q","n"]}
{"error":"query_parse_error","reason":"bad value of skip"}
{"put":{"_id":"f","n":0}}
{"ok":true,"id":"f","rev":"1-00000000000000000000000000000008"}
{"query":{"limit":1,"update":false},"view":["q","n"]}
{"total_rows":6,"update_seq":7,"offset":0,"rows":[{"id":"a","key":1,"value":null}]}
{"query":{"endkey":1,"startkey":0,"update":false},"view":["q","n"]}
{"total_rows":6,"update_seq":7,"offset":0,"rows":[{"id":"a","key":1,"value":null}]}
{"query":{"limit":0,"update_seq":true},"view":["q","n"]}
{"total_rows":7,"update_seq":8,"offset":0,"rows":[]}
{"query":{"limit":1,"update":false},"view":["q","n"]}
{"total_rows":7,"update_seq":8,"offset":0,"rows":[{"id":"f","key":0,"value":null}]}
{"query":{"zz":1},"view":["r","n"]}
{"error":"not_found","reason":"missing"}
{"query":{"zz":1},"view":["q","m"]}
{"error":"not_found","reason":"missing_named_view"}
{"put":{"_id":"_design/u","language":"none","views":{"n":{"map":"n"}}}}
{"ok":true,"id":"_design/u","rev":"1-00000000000000000000000000000009"}
{"query":{"zz":1},"view":["u","n"]}
{"error":"query_parse_error","reason":"unknown parameter zz"}
{"query":{"limit":1},"view":["u","n"]}
{"error":"unknown_language","reason":"none"}
{"query":{"update":false},"view":["u","n"]}
{"error":"unknown_language","reason":"none"}"#;
