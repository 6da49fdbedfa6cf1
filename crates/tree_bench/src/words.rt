//! What is to be built, by the words of the command line.

/// In which order the keys of the rows come, or that they are only sorted and spelled.
#[derive(Clone, Copy, Debug, PartialEq, Eq)]
pub enum Order {
    Rising,
    Random,
    Sort,
}

/// What a tree is asked for: how many rows stand before one, the value of a range, all rows one after another; or each node is got
/// and decoded alone.
#[derive(Clone, Copy, Debug, PartialEq, Eq)]
pub enum Question {
    Count,
    Reduce,
    Walk,
    Decode,
}

/// What is to be built.
#[derive(Clone, Copy, Debug)]
pub struct Task {
    pub order: Order,
    /// How many rows are inserted, by batches of so many.
    pub items: u32,
    pub batch: u32,
    /// How many rows are replaced one by one behind that.
    pub edits: u32,
    /// Whether the nodes stand in a file, and not in memory.
    pub in_a_file: bool,
    /// What is asked behind all that, and how often.
    pub question: Question,
    pub times: u32,
}

/// What the words ask for. A word that is none stands for that of a small tree.
pub fn read_words(words: &[String]) -> Task {
    let order = match words.first().map(|word| word.as_str()) {
        Some("rising") => Order::Rising,
        Some("sort") => Order::Sort,
        _ => Order::Random,
    };
    let question = match words.get(5).map(|word| word.as_str()) {
        Some("reduce") => Question::Reduce,
        Some("walk") => Question::Walk,
        Some("decode") => Question::Decode,
        _ => Question::Count,
    };
    Task {
        order,
        items: number(words, 1, 2_000),
        batch: number(words, 2, 100),
        edits: number(words, 3, 50),
        in_a_file: words.get(4).is_some_and(|word| word.as_str() == "file"),
        question,
        times: number(words, 6, 10),
    }
}

fn number(words: &[String], place: usize, other: u32) -> u32 {
    match words.get(place) {
        Some(word) => word.as_str().parse::<u32>().unwrap_or(other),
        None => other,
    }
}
