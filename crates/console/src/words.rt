// The lines of a script and the words of a line.
ghost use Rattle.std.specs.Prelude.{◌≡◌, length, ◌≤◌, IfSome};
ghost use Rattle.rules.specs.Paths.{span};
ghost use Rattle.console.specs.Words.{line_length, line_at, line_end, next_line, is_space, not_space, from_word, first_word, after_word, past_words, word_of, index_of};

use tables::parts::{after, upto};

// How long the line is that has the place `at` of the script, from there on.
fn line_length(script: &[u8], at: usize) -> usize
    ensures { result ≡ line_length script.now at }
{
    after(script, at)
        .iter()
        .take_while(|b| **b != b'\n')
        .count()
}

// That line.
pub(crate) fn line_at(script: &[u8], at: usize) -> &[u8]
    ensures { result.now ≡ line_at script.now at }
{
    upto(after(script, at), line_length(script, at))
}

fn line_end(script: &[u8], at: usize) -> usize
    ensures { result ≡ line_end script.now at }
{
    at + line_length(script, at)
}

// Where the next line begins.
#[tactic(auto, unfolding(crate::specs::Words::next_line))]
pub(crate) fn next_line(script: &[u8], at: usize) -> usize
    ensures { result ≡ next_line script.now at }
{
    let end = line_end(script, at);
    if end < script.len() { end + 1 } else { end }
}

// How many spaces a line begins with.
fn spaces(line: &[u8]) -> usize
    ensures { result ≡ span is_space line.now }
{
    line.iter().take_while(|b| **b == b' ').count()
}

// How many bytes stand before a line's first space.
fn word_length(line: &[u8]) -> usize
    ensures { result ≡ span not_space line.now }
{
    line.iter().take_while(|b| **b != b' ').count()
}

// A line from its first word on.
fn from_word(line: &[u8]) -> &[u8]
    ensures { result.now ≡ from_word line.now }
{
    after(line, spaces(line))
}

// The first word; empty where there is none.
pub(crate) fn first_word(line: &[u8]) -> &[u8]
    ensures { result.now ≡ first_word line.now }
{
    let rest = from_word(line);
    upto(rest, word_length(rest))
}

// What follows the first word.
pub(crate) fn after_word(line: &[u8]) -> &[u8]
    ensures { result.now ≡ after_word line.now }
{
    let rest = from_word(line);
    after(rest, word_length(rest))
}

// What follows the first k words. A scan of the bytes, since a split at spaces makes a part for each of them.
pub(crate) fn past_words(line: &[u8], k: usize) -> &[u8]
    ensures { result.now ≡ past_words k line.now }
{
    let mut rest = line;
    for _ in 0..k {
        rest = after_word(rest);
    }
    rest
}

// Word k of a line, counted from 0; empty past the last.
pub(crate) fn word(line: &[u8], k: usize) -> &[u8]
    ensures { result.now ≡ word_of line.now k }
{
    first_word(past_words(line, k))
}

// Which word of a list is this one. The list has one space between words.
pub(crate) fn index_of(list: &[u8], name: &[u8]) -> Option<usize>
    ensures is { result ≡ index_of list.now name.now }
    ensures small { IfSome result (λ k. k ≤ length list.now) }
{
    list.split(|b| *b == b' ').position(|w| w == name)
}
