//! The pool of query servers: it knows the path of each language, and keeps children between requests.
ghost use Rattle.std.specs.Prelude.{◌≡◌};

mod calls;
mod each;

use crate::languages::{built_in, language_word};
use json_terms::{Chars, NoMemory};
use std::alloc::Global;
use view_ports::SLOT_COUNT;

/// A language that the command line names, and the path of its query server.
#[derive(Drop)]
pub struct Language {
    name: Chars,
    path: Chars,
}

/// Children that are kept between requests.
#[derive(Drop)]
struct Started {
    // The path that they were started by.
    path: Chars,
    // How many they are, from the first slot on.
    count: u32,
}

/// A pool of query servers. Each of its slots below the width may have a child, which maps documents; the child of the slot at
/// the width reduces. So far the width is 1.
#[derive(Drop)]
pub struct Pool {
    languages: Vec<Language>,
    width: u32,
    started: Option<Started>,
    // The path of the child that reduces.
    reducer: Option<Chars>,
    ghost one_child: { width ≡ 1 },
}

impl Pool {
    ghost use Rattle.std.specs.Prelude.{◌≡◌, ◌<◌, IfOk, None, map, option_map, string_bytes};
    ghost use Rattle.child_pool.specs.Languages.{languages_in, path_in};
    ghost use Rattle.child_pool.specs.Pools.{languages_of, reducer_of, started_of, width_of};

    /// A pool of this width, without children. Of the words those of the form LANG=PATH name a language and the path of its
    /// server; the first that names a language counts. `NoMemory` comes where memory runs out.
    pub fn new(alloc: Global, width: u32, words: &[String]) -> Result<Pool, NoMemory>
        requires { width ≡ 1 }
        ensures languages { IfOk result (λ pool. languages_of pool ≡ languages_in (map string_bytes words.now)) }
        ensures width { IfOk result (λ pool. width_of pool ≡ width) }
        ensures childless { IfOk result (λ pool. (started_of pool ≡ None) × (reducer_of pool ≡ None)) }
    {
        let mut languages = Vec::new(alloc);
        for word in words {
            if let Some((name, path)) = language_word(word.as_str()) {
                languages.push(Language {
                    name: Chars::from_text(alloc, name)?,
                    path: Chars::from_text(alloc, path)?,
                })?;
            }
        }
        Ok(Pool {
            languages,
            width,
            started: None,
            reducer: None,
        })
    }

    /// The slot whose child reduces.
    pub(crate) fn reduce_slot(&self) -> u32
        ensures slot { result ≡ self.now.width }
        ensures few { result < SLOT_COUNT }
    {
        self.width
    }

    /// The path of a language: the one that a word names, or that of a server in the process. It takes no memory.
    pub fn path_of(&self, language: &str) -> Option<&str>
        ensures { option_map (λ path. path.now) result ≡ path_in (languages_of self.now) language.now }
    {
        for known in &self.languages {
            if known.name.as_str() == language {
                return Some(known.path.as_str());
            }
        }
        built_in(language)
    }
}
