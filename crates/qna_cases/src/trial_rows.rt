//! Rows of the command `trial`.

use crate::words_rows::WordsCase;

/// Trials from one item and one year up, and words that are of no trial. A program that shares no code with this one
/// made the inputs by SplitMix64 and compiled them.
pub fn trials() -> &'static [WordsCase] {
    &TRIALS
}

static TRIALS: [WordsCase; 12] = [
    WordsCase {
        words: &["trial", "7", "20", "6", "3"],
        report: b"trial,7,20,6,3\ninputs,810\nbenchmarked,90\nlevel,925245000\nsame\n",
        status: 0,
    },
    WordsCase {
        words: &["trial", "9", "1", "1", "1"],
        report: b"trial,9,1,1,1\ninputs,9\nbenchmarked,1\nlevel,54600000\nsame\n",
        status: 0,
    },
    WordsCase {
        words: &["trial", "007", "4", "2", "1"],
        report: b"trial,7,4,2,1\ninputs,54\nbenchmarked,6\nlevel,182010000\nsame\n",
        status: 0,
    },
    WordsCase {
        words: &["trial", "18446744073709551615", "33", "12", "5"],
        report: b"trial,18446744073709551615,33,12,5\ninputs,2700\nbenchmarked,300\nlevel,1586616285\nsame\n",
        status: 0,
    },
    WordsCase {
        words: &["trial", "18446744073709551616", "1", "1", "1"],
        report: b"usage\n",
        status: 2,
    },
    WordsCase {
        words: &["trial", "1", "513", "64", "16"],
        report: b"usage\n",
        status: 2,
    },
    WordsCase {
        words: &["trial", "1", "0", "4", "1"],
        report: b"usage\n",
        status: 2,
    },
    WordsCase {
        words: &["trial", "1", "2", "65", "1"],
        report: b"usage\n",
        status: 2,
    },
    WordsCase {
        words: &["trial", "1", "2", "3", "17"],
        report: b"usage\n",
        status: 2,
    },
    WordsCase {
        words: &["trial", "7", "20", "6"],
        report: b"usage\n",
        status: 2,
    },
    WordsCase {
        words: &["trial", "7", "20", "6", "3", "1"],
        report: b"usage\n",
        status: 2,
    },
    WordsCase {
        words: &["trial", "7", "20", "6", "-3"],
        report: b"usage\n",
        status: 2,
    },
];
