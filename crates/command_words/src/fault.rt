//! Why words are no command.

ghost use Rattle.std.specs.Prelude.{◌≡◌};
ghost use Rattle.command_words.specs.declared.fault.WordsFault.TheVariants.{NoMemory as OutOfMemory};

use json_terms::NoMemory;
use std::alloc::{AllocError, AllocFailed};
use thiserror::Error;

/// Why words are no command.
#[derive(Clone, Copy, Debug, PartialEq, Eq, Error)]
pub enum WordsFault {
    /// There is no word.
    #[error("a command is wanted: serve or load")]
    NoWord,
    /// The first word is no command.
    #[error("the commands are serve and load")]
    UnknownCommand,
    /// An option behind `serve` begins with one dash alone. It is the word at this place behind the command, where the next
    /// word has place 0.
    #[error("serve takes no option but --width; a word behind -- may begin with a dash")]
    ShortOption { place: usize },
    /// An option behind `serve` is another one than `--width`.
    #[error("serve takes no option but --width; a word behind -- may begin with a dash")]
    UnknownOption,
    /// `--width` is given more than once.
    #[error("--width is given once at most, with one digit from 1 to 8")]
    WidthTwice,
    /// The width is missing or no number from 1 to 8.
    #[error("--width is given once at most, with one digit from 1 to 8")]
    BadWidth,
    /// A word behind `load`, before any `--`, begins with `-`.
    #[error("load takes no option, only two numbers: how many documents, from 1 to 20000, and one from 0 to 2147483647")]
    LoadOption,
    /// The words behind `load` aren't two.
    #[error("load takes two numbers: how many documents, from 1 to 20000, and one from 0 to 2147483647")]
    NotTwoNumbers,
    /// The first word behind `load` is no number from 1 to 20,000.
    #[error("load takes first how many documents, a number from 1 to 20000 without sign or leading zeros")]
    BadDocs,
    /// The second word behind `load` is no number from 0 to 2,147,483,647.
    #[error("load takes second a number from 0 to 2147483647 without sign or leading zeros")]
    BadNumber,
    /// Memory ran out.
    #[error("out of memory")]
    NoMemory,
}

impl From<NoMemory> for WordsFault {
    ghost from_gives = { λ _ e. e ≡ OutOfMemory };

    fn from(_fault: NoMemory) -> WordsFault {
        WordsFault::NoMemory
    }
}

impl From<AllocError> for WordsFault {
    ghost from_gives = { λ _ e. e ≡ OutOfMemory };

    fn from(_error: AllocError) -> WordsFault {
        WordsFault::NoMemory
    }
}

impl<T: Drop> From<AllocFailed<T>> for WordsFault {
    ghost from_gives = { λ _ e. e ≡ OutOfMemory };

    fn from(_failed: AllocFailed<T>) -> WordsFault {
        WordsFault::NoMemory
    }
}
