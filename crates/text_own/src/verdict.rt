//! What is answered of a lock of one's own.
ghost use Rattle.std.specs.Prelude.{◌≡◌, ◌++◌, [], get_or, map, IfOk, IfErr};
ghost use Rattle.text_lines.specs.Fault.{IsFaultOf};
ghost use Rattle.text_own.specs.Answer as meaning;

use crate::judge::{Misfit, Verdict, verdict_of};
use crate::question::read_asked;
use crate::table::push;
use std::alloc::{AllocError, Global};
use text_lines::fault::TextFault;
use text_lines::lexer::{is, next_line, next_word};

/// What is answered, and whether that is what was wanted.
#[derive(Drop)]
pub struct Judged {
    pub bytes: Vec<u8>,
    pub shown: bool,
}

/// Whether a text begins with a lock of one's own.
pub fn begins_own(text: &[u8]) -> bool
    ensures { result ≡ meaning.begins_own text.now }
{
    let Some((line, _)) = next_line(text) else {
        return false;
    };
    match next_word(line) {
        Some((word, _)) => is(word, b"object"),
        None => false,
    }
}

/// A blank in the place of a mark, which says nothing.
fn unmark(byte: u8) -> u8
    ensures { result ≡ meaning.unmark byte }
{
    if byte == b',' || byte == b':' || byte == b';' {
        b' '
    } else {
        byte
    }
}

/// A text in which `,`, `:` and `;` are blanks.
pub fn unmarked(alloc: Global, text: &[u8]) -> Result<Vec<u8>, AllocError>
    ensures { IfOk result (λ bytes. bytes.items ≡ map meaning.unmark text.now) }
{
    let mut bytes = Vec::new(alloc);
    let mut rest = text;
    while let Some((byte, after)) = rest.split_first() {
        push(&mut bytes, unmark(*byte))?;
        rest = after;
    }
    Ok(bytes)
}

fn front(verdict: Verdict) -> &'static [u8]
    ensures { result.now ≡ meaning.front verdict }
{
    match verdict {
        Verdict::Proved => b"never: proved, for any number of parties",
        Verdict::NoCall => b"not shown by its rows: no call takes the hold",
        Verdict::NoWord => {
            b"not shown by its rows: none takes the hold on a word that is 0 at first"
        }
        Verdict::Row(_, _) => b"not shown by its rows, at row ",
    }
}

fn why(misfit: Misfit) -> &'static [u8]
    ensures { result.now ≡ meaning.why misfit }
{
    match misfit {
        Misfit::Unreached => b": no call comes to it\n",
        Misfit::Without => b": without the hold a step looks, or takes it where it finds 0\n",
        Misfit::With => b": with the hold a step looks, or ends it where it puts 0\n",
        Misfit::Both => b": calls come to it with the hold and without\n",
        Misfit::Answer => b": success is answered with the hold, and all else without\n",
    }
}

fn back(verdict: Verdict) -> &'static [u8]
    ensures { result.now ≡ meaning.back verdict }
{
    match verdict {
        Verdict::Proved | Verdict::NoCall | Verdict::NoWord => b"\n",
        Verdict::Row(_, misfit) => why(misfit),
    }
}

fn label_at<'t>(labels: &[&'t [u8]], at: usize) -> &'t [u8]
    ensures { result.now ≡ get_or (map (λ l. l.now) labels.now) at [] }
{
    match labels.get(at) {
        Some(label) => label,
        None => b"",
    }
}

/// The name of the row that does not fit.
fn label_of<'t>(labels: &[&'t [u8]], verdict: Verdict) -> &'t [u8]
    ensures { result.now ≡ meaning.label_of (map (λ l. l.now) labels.now) verdict }
{
    match verdict {
        Verdict::Proved | Verdict::NoCall | Verdict::NoWord => b"",
        Verdict::Row(at, _) => label_at(labels, at),
    }
}

/// What is printed, of three parts.
fn joined(alloc: Global, front: &[u8], label: &[u8], back: &[u8]) -> Result<Vec<u8>, AllocError>
    ensures { IfOk result (λ bytes. bytes.items ≡ front.now ++ (label.now ++ back.now)) }
{
    let mut bytes = Vec::new(alloc);
    bytes.extend_from_slice(front)?;
    bytes.extend_from_slice(label)?;
    bytes.extend_from_slice(back)?;
    Ok(bytes)
}

/// Answers the question of a lock of one's own: whether its rows show that one has the hold at most, in every run of any number of parties, and
/// which does not.
pub fn answer(alloc: Global, text: &[u8]) -> Result<Judged, TextFault>
    ensures answers { IfOk result (λ judged. meaning.Answers text.now judged.bytes.items judged.shown) }
    ensures fault { IfErr result (λ e. IsFaultOf e (meaning.own_lock_of text.now)) }
{
    let plain = unmarked(alloc, text)?;
    let lock = read_asked(alloc, &plain)?;
    let verdict = verdict_of(alloc, &lock)?;
    let label = label_of(&lock.labels, verdict);
    let bytes = joined(alloc, front(verdict), label, back(verdict))?;
    Ok(Judged {
        bytes,
        shown: matches!(verdict, Verdict::Proved),
    })
}
