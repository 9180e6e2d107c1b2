//! What a page calls: it plays, traces, draws and explores a text that lies in memory.
//!
//! Each export writes to `out` what its program writes to standard output, and to `error` what that writes to standard error, and tells how long
//! each is. What has no room is not written.
#![tactic(auto)]

ghost use Rattle.std.specs.Prelude.{◌≡◌, ◌≤◌, ◌<◌, length, take, None, Ok, IsErr};
ghost use Rattle.own_play.specs.Output.{output_of};
ghost use Rattle.text_lines.specs.Fault.{status_of};
ghost use Rattle.text_trace.specs.Whole.{trace_of};
ghost use Rattle.draw_text.specs.Picture.{IsPictureOfPart};
ghost use Rattle.explore_client.specs.Report.{NoneIsMissing, IsNever};
ghost use Rattle.explore_text.specs.declared.report.Scope.TheVariants as scopes;
ghost use Rattle.sync_page.specs.Moves.{AreMovesOf};

use draw_text::parts::parts_of;
use draw_text::picture::draw_text;
use explore_client::run::answer;
use explore_client::unanswered::Unanswered;
use explore_search::watch::Unwatched;
use explore_text::report::Scope;
use own_play::play_text;
use std::alloc::{AllocError, Global};
use std::fmt;
use text_advice::Failed;
use text_lines::fault::{RunFault, TextFault};
use text_trace::trace::trace_text;

/// What an export tells beside what it writes.
#[repr(C)]
pub struct Told {
    /// The exit status of the program.
    pub status: u64,
    /// How many bytes it would write to standard output.
    pub out: usize,
    /// How many bytes it would write to standard error.
    pub error: usize,
    /// Of an answer, 1 where it tells of all schedules, else 0.
    pub all: u64,
}

/// Writes as much of these bytes as there is room for, and tells how many there are.
fn put(room: &mut [u8], bytes: &[u8]) -> usize
    ensures count { result ≡ length bytes.now }
    ensures all { length bytes.now ≤ length room.old → take (length bytes.now) room.new ≡ bytes.now }
    ensures size { length room.new ≡ length room.old }
{
    if bytes.len() <= room.len() {
        room[..bytes.len()].copy_from_slice(bytes);
    }
    bytes.len()
}

/// The lines of a fault.
fn lines<E: fmt::Display>(
    alloc: Global,
    fault: &E,
    advice: &Option<Vec<u8>>,
) -> Result<Vec<u8>, AllocError> {
    let mut out = String::new(alloc);
    if fmt::Write::write_fmt(&mut out, format_args!("{fault}\n")).is_err() {
        return Err(AllocError);
    }
    let mut bytes = out.into_bytes();
    if let Some(advice) = advice {
        bytes.extend_from_slice(advice)?;
    }
    Ok(bytes)
}

fn put_lines<E: fmt::Display>(
    alloc: Global,
    fault: &E,
    advice: &Option<Vec<u8>>,
    error: &mut [u8],
) -> usize {
    match lines(alloc, fault, advice) {
        Ok(bytes) => put(error, &bytes),
        Err(_) => 0,
    }
}

fn put_failed(alloc: Global, failed: &Failed, error: &mut [u8], told: &mut Told)
    ensures { told.new.status ≡ status_of failed.now.fault }
{
    told.status = u64::from(failed.fault.status());
    told.error = put_lines(alloc, &failed.fault, &failed.advice, error);
}

/// 1 for all schedules, else 0.
fn all_of(scope: Scope) -> u64
    ensures { result ≡ 1 → scope ≡ scopes.All }
{
    match scope {
        Scope::All => 1,
        Scope::Explored | Scope::One => 0,
    }
}

/// Nothing was written yet.
fn begin(told: &mut Told)
    ensures status { told.new.status ≡ 0 }
    ensures all { told.new.all ≡ 0 }
    ensures out { told.new.out ≡ 0 }
{
    told.status = 0;
    told.out = 0;
    told.error = 0;
    told.all = 0;
}

/// Plays a text.
#[unsafe(no_mangle)]
pub extern "C" fn page_play(
    alloc: Global,
    text: &[u8],
    out: &mut [u8],
    error: &mut [u8],
    told: &mut Told,
)
    ensures fault { told.new.status ≡ 2 → IsErr (output_of text.now) }
    ensures played { told.new.status ≡ 0 → told.new.out ≤ length out.old → output_of text.now ≡ Ok (take told.new.out out.new) }
{
    begin(told);
    match play_text(alloc, text) {
        Ok(output) => told.out = put(out, &output),
        Err(fault) => put_failed(alloc, &Failed::of_text(alloc, text, fault), error, told),
    }
}

/// Traces a text.
#[unsafe(no_mangle)]
pub extern "C" fn page_trace(
    alloc: Global,
    text: &[u8],
    out: &mut [u8],
    error: &mut [u8],
    told: &mut Told,
)
    ensures traced { told.new.status ≡ 0 → told.new.out ≤ length out.old → trace_of text.now ≡ record { bytes = take told.new.out out.new; fault = None } }
{
    begin(told);
    match trace_text(alloc, text) {
        Ok(trace) => {
            told.out = put(out, &trace.bytes);
            if let Some(found) = trace.fault {
                put_failed(
                    alloc,
                    &Failed::of_text(alloc, text, TextFault::from(found)),
                    error,
                    told,
                );
            }
        }
        Err(_) => put_failed(alloc, &Failed::from(RunFault::Memory), error, told),
    }
}

/// Draws a text, and what is told of moves in lines behind it that begin with `#`.
#[unsafe(no_mangle)]
pub extern "C" fn page_draw(
    alloc: Global,
    text: &[u8],
    out: &mut [u8],
    error: &mut [u8],
    told: &mut Told,
)
    ensures drawn { told.new.status ≡ 0 → told.new.out ≤ length out.old → IsPictureOfPart text.now (take told.new.out out.new) }
{
    begin(told);
    let (played, moves) = parts_of(text);
    match draw_text(alloc, played, moves) {
        Ok(picture) => told.out = put(out, &picture),
        Err(fault) => put_failed(alloc, &Failed::of_text(alloc, played, fault), error, told),
    }
}

/// Answers a question.
#[unsafe(no_mangle)]
pub extern "C" fn page_explore(
    alloc: Global,
    text: &[u8],
    out: &mut [u8],
    error: &mut [u8],
    told: &mut Told,
)
    ensures complete { told.new.all ≡ 1 → told.new.out ≤ length out.old → NoneIsMissing text.now (take told.new.out out.new) }
    ensures never { told.new.all ≡ 1 → IsNever text.now }
{
    begin(told);
    let mut watch = Unwatched;
    match answer(alloc, text, false, &mut watch) {
        Ok(found) => {
            told.status = u64::from(found.verdict.status());
            told.all = all_of(found.scope);
            told.out = put(out, &found.bytes);
            told.error = put(error, &found.aside);
        }
        Err(fault) => {
            let unanswered = Unanswered::of_question(alloc, text, fault);
            told.status = u64::from(unanswered.fault.status());
            told.error = put_lines(alloc, &unanswered.fault, &unanswered.advice, error);
        }
    }
}

/// Tells the moves of a question's answer, in the lines that `sync-explore --told` writes below it; nothing where it has none, or a fault.
#[unsafe(no_mangle)]
pub extern "C" fn page_moves(
    alloc: Global,
    text: &[u8],
    out: &mut [u8],
    error: &mut [u8],
    told: &mut Told,
)
    ensures { 0 < told.new.out → told.new.out ≤ length out.old → AreMovesOf text.now (take told.new.out out.new) }
{
    begin(told);
    let mut watch = Unwatched;
    if let Ok(found) = answer(alloc, text, true, &mut watch) {
        told.out = put(out, &found.moves);
    }
}
