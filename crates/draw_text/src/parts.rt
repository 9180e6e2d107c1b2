//! A text, and the moves that are told behind it.
ghost use Rattle.std.specs.Prelude.{◌≡◌, ◌≤◌, ◌++◌, length, true};
ghost use Rattle.text_lines.specs.Lexer.{lines_of};
ghost use Rattle.draw_text.specs.Parts as meaning;

use text_lines::lexer::next_line;

/// Whether a line tells a move, as `# 1 falls asleep`.
fn is_told(line: &[u8]) -> bool
    ensures { result ≡ meaning.is_told line.now }
{
    match line {
        [byte, ..] => *byte == b'#',
        [] => false,
    }
}

/// Whether each line tells a move.
fn are_told(lines: &[u8]) -> bool
    ensures { result ≡ meaning.are_told (lines_of lines.now) }
{
    let mut rest = lines;
    while let Some((line, after)) = next_line(rest) {
        if !is_told(line) {
            return false;
        }
        rest = after;
    }
    true
}

/// Where the first line that tells a move begins.
fn mark_at(text: &[u8]) -> usize
    ensures { result ≤ length text.now }
{
    for at in 0..text.len() {
        if text[at] == b'#' && (at == 0 || text[at - 1] == b'\n') {
            return at;
        }
    }
    text.len()
}

/// A text, and behind it the lines that tell its moves, as `sync-explore --told` writes both.
pub fn parts_of(text: &[u8]) -> (&[u8], &[u8])
    ensures whole { text.now ≡ result.0.now ++ result.1.now }
    ensures told { meaning.are_told (lines_of result.1.now) ≡ true }
{
    let (played, moves) = text.split_at(mark_at(text));
    if are_told(moves) {
        (played, moves)
    } else {
        (text, b"")
    }
}
