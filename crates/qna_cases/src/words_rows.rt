//! Rows of the program's words.

/// The program's words, and what it reports of them where there are no files at all.
pub struct WordsCase {
    /// The words without the program's name.
    pub words: &'static [&'static str],
    /// All that is reported.
    pub report: &'static [u8],
    /// The number of the exit status.
    pub status: u8,
}

/// Words of no form, and words of the form whose first file doesn't stand.
pub fn words() -> &'static [WordsCase] {
    &WORDS
}

static WORDS: [WordsCase; 14] = [
    WordsCase {
        words: &[],
        report: b"usage\n",
        status: 2,
    },
    WordsCase {
        words: &["batch"],
        report: b"usage\n",
        status: 2,
    },
    WordsCase {
        words: &["batch", "p", "i"],
        report: b"usage\n",
        status: 2,
    },
    WordsCase {
        words: &["batch", "p", "i", "o", "x"],
        report: b"usage\n",
        status: 2,
    },
    WordsCase {
        words: &["batch", "a", "a", "b"],
        report: b"usage\n",
        status: 2,
    },
    WordsCase {
        words: &["batch", "a", "b", "a"],
        report: b"usage\n",
        status: 2,
    },
    WordsCase {
        words: &["batch", "b", "a", "a"],
        report: b"usage\n",
        status: 2,
    },
    WordsCase {
        words: &["batch", "p", "-i", "o"],
        report: b"usage\n",
        status: 2,
    },
    WordsCase {
        words: &["batch", "p", "", "o"],
        report: b"usage\n",
        status: 2,
    },
    WordsCase {
        words: &["Batch", "p", "i", "o"],
        report: b"usage\n",
        status: 2,
    },
    WordsCase {
        words: &["check", "-x"],
        report: b"usage\n",
        status: 2,
    },
    WordsCase {
        words: &["live", "p", "j", "i"],
        report: b"usage\n",
        status: 2,
    },
    WordsCase {
        words: &["live", "--workers", "17", "p", "j", "i", "o"],
        report: b"usage\n",
        status: 2,
    },
    WordsCase {
        words: &["batch", "p", "i", "o"],
        report: b"open,p\n",
        status: 4,
    },
];
