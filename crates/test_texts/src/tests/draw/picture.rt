use draw_text::picture::draw_text;
use draw_text::run::run;
use draw_text::several;
use draw_text::story::{Story, StoryStep, play};
use std::alloc::{AllocError, Global};
use std::str;
use std::test::Fail;
use text_lines::fault::{LineFault, TextFault};

/// The README's first text.
const ABORT: &str = "mutex 2\n1 try_lock\n1 run\n2 lock\n2 run\n2 abort\n2 run\n";

/// Writes a step of a story: its line, where it is the first of one, and how many equal steps it stands for.
fn push_step(out: &mut String, step: &StoryStep<u64>) -> Result<(), AllocError> {
    if let Some(line) = &step.line {
        let number = line.number;
        let words = line.words.as_str();
        write!(out, "{number}: {words} / ")?;
    }
    let count = step.count;
    write!(out, "{count} / ")?;
    Ok(())
}

/// The steps of a story, how many are left out, and its last line.
fn shown(alloc: Global, story: &Story<u64>) -> Result<String, AllocError> {
    let mut out = String::new(alloc);
    for step in &story.steps {
        push_step(&mut out, step)?;
    }
    let left_out = story.left_out;
    let last = story.last.as_str();
    write!(out, "{left_out} left out / {last}")?;
    Ok(out)
}

/// The story of a text; empty where it has a fault.
fn story_of(alloc: Global, text: &str) -> Result<String, AllocError> {
    match play::<u64>(alloc, text.as_bytes(), b"") {
        Ok(story) => shown(alloc, &story),
        Err(_) => Ok(String::new(alloc)),
    }
}

#[test]
fn a_spin_is_one_step_of_a_story(rt: HostRuntime) -> Result<(), Fail> {
    let story = story_of(rt.alloc(), ABORT)?;
    // try_lock, its exchange; lock, its 10000 exchanges, the one after which it stands, its answer, the last exchange.
    assert_eq!(rt;
        story.as_str(),
        "2: 1 try_lock / 1 / 3: 1 run / 1 / 4: 2 lock / 1 / 5: 2 run / 10000 / 1 / 6: 2 abort / 1 / 7: 2 run / 1 / \
         0 left out / word 1 failed 10002\n"
    );
    Ok(())
}

#[test]
fn each_line_stands_at_its_first_step(rt: HostRuntime) -> Result<(), Fail> {
    let story = story_of(rt.alloc(), "once 1\n\n 1   call_once\t\n1 go 3\n")?;
    assert_eq!(rt;
        story.as_str(),
        "3: 1 call_once / 1 / 4: 1 go 3 / 1 / 1 / 1 / 0 left out / word 1 failed 0\n"
    );
    Ok(())
}

/// A mutex that is taken and freed so often, five steps each time.
fn taken(alloc: Global, times: u64) -> Result<String, AllocError> {
    let mut text = String::from_str(alloc, "mutex 1\n")?;
    for _ in 0..times {
        text.push_str("1 try_lock\n1 run\n1 unlock\n1 run\n")?;
    }
    Ok(text)
}

/// How many steps the story of such a text has, and how many are left out.
fn kept(alloc: Global, times: u64) -> Option<(usize, u64)> {
    let text = taken(alloc, times).ok()?;
    let story = play::<u64>(alloc, text.as_bytes(), b"").ok()?;
    Some((story.steps.len(), story.left_out))
}

#[test]
fn a_story_keeps_two_thousand_steps(rt: HostRuntime) {
    assert_eq!(rt; kept(rt.alloc(), 401), Some((2000, 5)));
}

/// Whether a picture has these words, if it is text.
fn says(picture: &[u8], words: &str) -> Option<bool> {
    let picture = str::from_utf8(picture).ok()?;
    Some(picture.contains(words))
}

/// Whether the picture of a text has these words, if the text has no fault.
fn has(alloc: Global, text: &str, words: &str) -> Option<bool> {
    match draw_text(alloc, text.as_bytes(), b"") {
        Ok(picture) => says(&picture, words),
        Err(_) => None,
    }
}

/// The first of these words that the picture of the text beside them does not have, or has though it is not to.
fn wrong_words<'w>(alloc: Global, pictures: &[(&str, &'w str, bool)]) -> Option<&'w str> {
    for (text, words, wanted) in pictures {
        if has(alloc, text, words) != Some(*wanted) {
            return Some(*words);
        }
    }
    None
}

/// Texts, with words that their pictures have.
const TOLD: [(&str, &str, bool); 8] = [
    (ABORT, ">found locked × 10,000</text>", true),
    (ABORT, ">✕ interrupted</text>", true),
    (ABORT, ">word 1 failed 10002</text>", true),
    (
        "barrier 2 2\n1 start_wait\n1 go 2\n",
        ">round 0: 1/2</text>",
        true,
    ),
    (
        "rwreader 1\n1 write_lock\n1 run\n",
        ">free → write</text>",
        true,
    ),
    ("semaphore 1 2\n1 post 3\n1 run\n", ">post 3</text>", true),
    (
        "condvar 1\n1 notify_one\n1 run\n",
        ">sees waiters 0</text>",
        true,
    ),
    (
        "mutex 3\n2 lock\n",
        ">Without a step, and so without a lane: 2 of the parties. </text>",
        true,
    ),
];

#[test]
fn a_picture_tells_what_happened(rt: HostRuntime) {
    assert_eq!(rt; wrong_words(rt.alloc(), &TOLD), None);
}

/// A `fetch_add` at an atomic up to the first of its two stores: an exchange, two loads, and that store.
const HALF: &str = "atomic_u128 1 18446744073709551615\n1 fetch_add 2\n1 go 4\n";

/// The same with the other store and the release.
const WHOLE: &str = "atomic_u128 1 18446744073709551615\n1 fetch_add 2\n1 go 6\n";

/// Words about the value, which only the picture of the whole has after it.
const VALUES: [(&str, &str, bool); 6] = [
    (HALF, ">18446744073709551615</text>", true),
    (HALF, ">half written</text>", true),
    (HALF, ">18446744073709551617</text>", false),
    (WHOLE, ">18446744073709551617</text>", true),
    (
        WHOLE,
        ">sees high half 0: value 18446744073709551615</text>",
        true,
    ),
    (
        WHOLE,
        ">stores high half 1: value 18446744073709551617</text>",
        true,
    ),
];

#[test]
fn an_atomic_has_a_band_for_its_value(rt: HostRuntime) {
    assert_eq!(rt; wrong_words(rt.alloc(), &VALUES), None);
}

/// Each of two parties has one of two locks.
const LOCKS: &str =
    "parties 2\nlet one mutex\nlet other mutex\n1 one.lock\n1 run\n2 other.lock\n2 run\n";

/// Writes the object of a step, by its name, and whether the step's party holds it then.
fn push_place(
    out: &mut String,
    story: &Story<u64>,
    step: &StoryStep<u64>,
) -> Result<(), AllocError> {
    if let Some(object) = story.objects.get(step.object) {
        let name = object.name.as_str();
        let holds = step.hold.is_some();
        write!(out, "{name} {holds} / ")?;
    }
    Ok(())
}

/// The objects of the steps of a text of several, and its last lines; empty where it has a fault.
fn places_of(alloc: Global, text: &str) -> Result<String, AllocError> {
    let mut out = String::new(alloc);
    if let Ok(story) = several::play::<u64>(alloc, text.as_bytes(), b"") {
        for step in &story.steps {
            push_place(&mut out, &story, step)?;
        }
        out.push_str(story.last.as_str())?;
    }
    Ok(out)
}

#[test]
fn each_step_of_several_is_at_its_object(rt: HostRuntime) -> Result<(), Fail> {
    let places = places_of(rt.alloc(), LOCKS)?;
    assert_eq!(rt;
        places.as_str(),
        "one false / one true / other false / other true / one word 1 failed 0\nother word 1 failed 0\n"
    );
    Ok(())
}

/// Words of the picture of several objects, each behind its name.
const NAMED: [(&str, &str, bool); 6] = [
    (LOCKS, ">one: lock</text>", true),
    (LOCKS, ">other: lock</text>", true),
    (LOCKS, ">other.lock</text>", true),
    (LOCKS, "<title>holds one, alone</title>", true),
    (LOCKS, ">other word 1 failed 0</text>", true),
    (LOCKS, "one.word 1, other.word 0, holds 1 one,", true),
];

#[test]
fn a_picture_names_each_object(rt: HostRuntime) {
    assert_eq!(rt; wrong_words(rt.alloc(), &NAMED), None);
}

/// The title of a group, if the line begins with one.
fn title_in(line: &str) -> Option<&str> {
    let (title, _) = line.strip_prefix("<g><title>")?.split_once("</title>")?;
    Some(title)
}

/// The titles of the groups of a picture, a line each.
fn titles_in(alloc: Global, picture: &str) -> Result<String, AllocError> {
    let mut titles = String::new(alloc);
    for line in picture.lines() {
        if let Some(title) = title_in(line) {
            writeln!(titles, "{title}")?;
        }
    }
    Ok(titles)
}

/// The titles of the groups in the picture of a text; empty where it has a fault.
fn titles_of(alloc: Global, text: &str) -> Result<String, AllocError> {
    match draw_text(alloc, text.as_bytes(), b"") {
        Ok(picture) => titles_in(alloc, str::from_utf8(&picture).unwrap_or("")),
        Err(_) => Ok(String::new(alloc)),
    }
}

#[test]
fn a_group_for_each_row_has_the_row_as_its_title(rt: HostRuntime) -> Result<(), Fail> {
    let titles = titles_of(rt.alloc(), ABORT)?;
    assert_eq!(rt;
        titles.as_str(),
        "\
step 1, line 2, party 1: try_lock; word 0, holds -, call begins
step 2, line 3, party 1: exchange 0 for 1, found 0, done; word 1, holds 1, call success
step 3, line 4, party 2: lock; word 1, holds 1, call begins
step 4-10003, 10000 times, line 5, party 2: exchange 0 for 1, found 1, failed; word 1, holds 1, call goes on
step 10004, line 5, party 2: exchange 0 for 1, found 1, failed; word 1, holds 1, call waits 1
step 10005, line 6, party 2: its closure answers Abort; word 1, holds 1, call goes on
step 10006, line 7, party 2: exchange 0 for 1, found 1, failed; word 1, holds 1, call interrupted
"
    );
    Ok(())
}

/// Texts with a fault, and the line that has it.
const FAULTY: [(&[u8], u64, LineFault); 6] = [
    (b"", 1, LineFault::NoObject),
    (b"mutex 0\n", 1, LineFault::BadNumber),
    (b"mutex 1\n\n1 lock 2\n", 3, LineFault::BadLine),
    (b"mutex 1\n1 lock\n1 run\n1 run\n", 4, LineFault::Idle),
    (b"parties 1\nlet one mutx\n", 2, LineFault::NoObject),
    (
        b"parties 1\nlet one mutex\n1 one.lock\n1 one.lock\n",
        4,
        LineFault::Busy,
    ),
];

/// The exit status where the text of a run has a fault, and how many bytes are written.
fn ended(alloc: Global, text: &[u8]) -> (Option<u8>, usize) {
    let mut reader = text;
    let mut written: Vec<u8> = Vec::new(alloc);
    match run(alloc, &mut reader, &mut written) {
        Ok(()) => (None, written.len()),
        Err(failed) => (Some(failed.fault.status()), written.len()),
    }
}

#[test]
fn a_fault_is_told_and_nothing_is_written(rt: HostRuntime) {
    for (text, line, fault) in FAULTY {
        let told = draw_text(rt.alloc(), text, b"").err();
        assert_eq!(rt; told, Some(TextFault::Line { line, fault }));
        assert_eq!(rt; ended(rt.alloc(), text), (Some(2), 0));
    }
}

/// A text, and its moves as they are told behind it.
const PLAYED: &str = "mutex 1\n1 lock\n1 run\n";

const MOVES: &str = "# 1 lock\n# 1 reads ready 0\n# 1 run\n# 1 sets ready 1\n";

/// The rows of the steps of a story, and of the moves that are told beside it.
fn rows_of(alloc: Global, story: &Story<u64>) -> Result<String, AllocError> {
    let mut out = String::new(alloc);
    for step in &story.steps {
        let row = step.row;
        write!(out, "{row} ")?;
    }
    for aside in &story.asides {
        let row = aside.row;
        let words = aside.words.as_str();
        write!(out, "/ {row} {words} ")?;
    }
    Ok(out)
}

#[test]
fn a_move_that_is_told_has_its_row(rt: HostRuntime) -> Result<(), Fail> {
    let mut rows = String::new(rt.alloc());
    if let Ok(story) = play::<u64>(rt.alloc(), PLAYED.as_bytes(), MOVES.as_bytes()) {
        rows = rows_of(rt.alloc(), &story)?;
    }
    assert_eq!(rt; rows.as_str(), "0 2 / 1 reads ready 0 / 3 sets ready 1 ");
    Ok(())
}

/// What a run draws of a text and what stands behind it; nothing where it has a fault.
fn drawn(alloc: Global, text: &str, behind: &str) -> Result<Vec<u8>, AllocError> {
    let both = format!(in alloc; "{text}{behind}")?;
    let mut reader = both.as_bytes();
    let mut written: Vec<u8> = Vec::new(alloc);
    match run(alloc, &mut reader, &mut written) {
        Ok(()) => Ok(written),
        Err(_) => Ok(Vec::new(alloc)),
    }
}

#[test]
fn moves_are_told_in_the_last_lines_alone(rt: HostRuntime) -> Result<(), Fail> {
    let picture = drawn(rt.alloc(), PLAYED, MOVES)?;
    for words in [">reads ready 0<", ">sets ready 1<", ">ready<"] {
        assert_eq!(rt; says(&picture, words), Some(true));
    }
    let between = drawn(rt.alloc(), PLAYED, "# 1 lock\n1 unlock\n")?;
    assert!(rt; between.is_empty());
    Ok(())
}
