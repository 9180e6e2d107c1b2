//! Draws a story where its layout has it.
ghost use Rattle.std.specs.Prelude.{◌≡◌, OnOk, IfOk, IfErr, string_bytes};
ghost use Rattle.text_lines.specs.Fault.{IsFaultOf};
ghost use Rattle.text_lines.specs.Lexer.{lines_of};
ghost use Rattle.sync_play.specs.Text.{typed_output};
ghost use Rattle.text_room.specs.Output.{output_of, room_output};
ghost use Rattle.text_trace.specs.Several as several;
ghost use Rattle.draw_markup.specs.Group.{titles_of};
ghost use Rattle.draw_story.specs.Story.{HasOutput};
ghost use Rattle.text_trace.specs.Trace as single;
ghost use Rattle.draw_text.specs.Picture.{step_titles, IsPicture, IsPictureOfRows, IsPictureOf};

use draw_layout::layout::Layout;
use draw_markup::group::Group;
use draw_markup::markup::Markup;
use draw_markup::name::{Key, Tag};
use draw_markup::opening::Opening;
use draw_parts::foot::{draw_foot, height_of};
use draw_parts::ground::draw_ground;
use draw_parts::step::draw_inside;
use draw_story::several;
use draw_story::story::{Story, StoryStep, play};
use std::alloc::{AllocError, Global};
use text_lines::by_value_type;
use text_lines::fault::TextFault;
use text_lines::integer::TextInteger;
use text_room::text::begins_several;

/// Draws a step, with the row of the trace as its title.
fn draw_step<'s, T: TextInteger>(
    alloc: Global,
    story: &Story<T>,
    layout: &Layout,
    step: &'s StoryStep<T>,
) -> Result<Group<'s>, AllocError>
    ensures { IfOk result (λ group. group.title.now ≡ string_bytes step.now.title) }
{
    let mut inside = Markup::new(alloc);
    draw_inside(alloc, &mut inside, story, layout, step)?;
    Ok(Group {
        title: step.title.as_str(),
        inside,
    })
}

/// Draws the steps.
fn draw_steps<'s, T: TextInteger>(
    alloc: Global,
    story: &'s Story<T>,
    layout: &Layout,
) -> Result<Vec<Group<'s>>, AllocError>
    ensures { IfOk result (λ groups. titles_of groups.items ≡ step_titles story.now.steps.items) }
{
    let mut groups = Vec::new(alloc);
    for step in &story.steps {
        let group = draw_step(alloc, story, layout, step)?;
        groups.push(group)?;
    }
    Ok(groups)
}

/// The element of a picture, as far as all pictures have it.
fn svg(alloc: Global) -> Result<Opening, AllocError>
    ensures { IfOk result (λ opening. opening.tag ≡ Tag.Svg) }
{
    Opening::new(alloc, Tag::Svg)?.with(Key::Namespace, "http://www.w3.org/2000/svg")
}

/// The same, with what it shows.
fn with_view(svg: Opening, view: &str, width: u64, height: u64) -> Result<Opening, AllocError>
    ensures { IfOk result (λ opening. opening.tag ≡ svg.tag) }
{
    svg.with(Key::ViewBox, view)?
        .at(Key::Width, width)?
        .at(Key::Height, height)
}

/// The element of a picture.
fn frame<T: Copy>(alloc: Global, story: &Story<T>, layout: &Layout) -> Result<Opening, AllocError>
    ensures { IfOk result (λ opening. opening.tag ≡ Tag.Svg) }
{
    let width = u64::from(layout.width);
    let height = height_of(alloc, story, layout)?;
    let view = format!(in alloc; "0 0 {width} {height}")?;
    with_view(svg(alloc)?, view.as_str(), width, height)?.with(Key::Role, "img")
}

/// The picture of a story.
pub fn draw<T: TextInteger>(alloc: Global, story: &Story<T>) -> Result<Vec<u8>, AllocError>
    ensures { IfOk result (λ bytes. IsPicture (step_titles story.now.steps.items) bytes.items) }
{
    let layout = Layout::of(alloc, story)?;
    draw_by(alloc, story, &layout)
}

/// The picture of a story, by its layout.
fn draw_by<T: TextInteger>(
    alloc: Global,
    story: &Story<T>,
    layout: &Layout,
) -> Result<Vec<u8>, AllocError>
    ensures { IfOk result (λ bytes. IsPicture (step_titles story.now.steps.items) bytes.items) }
{
    let steps = draw_steps(alloc, story, layout)?;
    draw_round(alloc, story, layout, &steps)
}

/// The picture of a story whose steps are drawn.
fn draw_round<T: TextInteger>(
    alloc: Global,
    story: &Story<T>,
    layout: &Layout,
    steps: &[Group<'_>],
) -> Result<Vec<u8>, AllocError>
    ensures { IfOk result (λ bytes. IsPicture (titles_of steps.now) bytes.items) }
{
    let ground = draw_ground(alloc, story, layout)?;
    let foot = draw_foot(alloc, story, layout)?;
    document(frame(alloc, story, layout)?, &ground, steps, &foot)
}

/// The bytes of a whole picture.
fn document(
    picture: Opening,
    ground: &Markup,
    steps: &[Group<'_>],
    foot: &Markup,
) -> Result<Vec<u8>, AllocError>
    requires { picture.tag ≡ Tag.Svg }
    ensures { IfOk result (λ bytes. IsPicture (titles_of steps.now) bytes.items) }
{
    let mut bytes = picture.whole_with(ground, steps, foot)?;
    bytes.push_str("\n")?;
    Ok(bytes.into_bytes())
}

/// The picture of a text of one object whose values are of this type, with the moves that are told beside it.
fn draw_typed<T: TextInteger>(
    alloc: Global,
    text: &[u8],
    moves: &[u8],
) -> Result<Vec<u8>, TextFault>
    ensures drawn { IfOk result (λ bytes. IsPictureOfRows (single.rows_of T.arithmetic T.numerals (lines_of text.now)) bytes.items) }
    ensures played { OnOk result (HasOutput (typed_output T.arithmetic T.numerals (lines_of text.now))) }
    ensures fault { IfErr result (λ e. IsFaultOf e (typed_output T.arithmetic T.numerals (lines_of text.now))) }
{
    let story = play::<T>(alloc, text, moves)?;
    let picture = draw(alloc, &story)?;
    Ok(picture)
}

/// The picture of a text of several objects whose values are of this type, with the moves that are told beside it.
fn draw_several<T: TextInteger>(
    alloc: Global,
    text: &[u8],
    moves: &[u8],
) -> Result<Vec<u8>, TextFault>
    ensures drawn { IfOk result (λ bytes. IsPictureOfRows (several.rows_of T.arithmetic T.numerals (lines_of text.now)) bytes.items) }
    ensures played { OnOk result (HasOutput (room_output T.arithmetic T.numerals (lines_of text.now))) }
    ensures fault { IfErr result (λ e. IsFaultOf e (room_output T.arithmetic T.numerals (lines_of text.now))) }
{
    let story = several::play::<T>(alloc, text, moves)?;
    let picture = draw(alloc, &story)?;
    Ok(picture)
}

/// The picture of a text of one object or of several, or the fault of its first faulty line. Moves that are told beside it, in lines such as
/// `# 1 sets ready 1`, are drawn where they come.
pub fn draw_text(alloc: Global, text: &[u8], moves: &[u8]) -> Result<Vec<u8>, TextFault>
    ensures drawn { IfOk result (λ bytes. IsPictureOf text.now bytes.items) }
    ensures played { OnOk result (HasOutput (output_of text.now)) }
    ensures fault { IfErr result (λ e. IsFaultOf e (output_of text.now)) }
{
    if begins_several(text) {
        by_value_type!(text, draw_several(alloc, text, moves))
    } else {
        by_value_type!(text, draw_typed(alloc, text, moves))
    }
}
