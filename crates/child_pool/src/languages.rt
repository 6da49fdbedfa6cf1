//! The languages that the command line names.
ghost use Rattle.std.specs.Prelude.{◌≡◌, option_map};
ghost use Rattle.child_pool.specs.Languages as spec;

/// The language and the path of a word LANG=PATH, which is cut at its first `=`. It is `None` where the word has no `=`, or
/// no language before it.
pub fn language_word(word: &str) -> Option<(&str, &str)>
    ensures { option_map (λ found. (found.0.now, found.1.now)) result ≡ spec.language_in word.now }
{
    let (language, path) = word.split_once('=')?;
    if language.is_empty() {
        return None;
    }
    Some((language, path))
}

/// The path of a language whose server runs in the process.
pub fn built_in(language: &str) -> Option<&'static str>
    ensures { option_map (λ path. path.now) result ≡ spec.built_in language.now }
{
    match language {
        "field" => Some("builtin:field"),
        "pick" => Some("builtin:pick"),
        _ => None,
    }
}
