//! Tests of the public calls of the crates `json_terms`, `raw_collation`, `term_codec`, `view_ports` (query servers),
//! `design_docs`, `tree_laws`, `view_signature`, `builtin_reduces`, `query_protocol`, `view_model` and `index_items`; nothing else.
#![tactic(auto)]

#[cfg(test)]
mod builtin_reduces_tests;
#[cfg(test)]
mod design_docs_tests;
#[cfg(test)]
mod index_items_tests;
#[cfg(test)]
mod json_terms_tests;
#[cfg(test)]
mod query_protocol_tests;
#[cfg(test)]
mod raw_collation_tests;
#[cfg(test)]
mod server_tests;
#[cfg(test)]
mod term_codec_tests;
#[cfg(test)]
mod tree_laws_tests;
#[cfg(test)]
mod view_model_tests;
#[cfg(test)]
mod view_signature_tests;
