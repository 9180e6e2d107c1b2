use draw_markup::group::Group;
use draw_markup::markup::Markup;
use draw_markup::name::{Key, Tag};
use draw_markup::opening::Opening;
use draw_markup::words::Words;
use std::alloc::{AllocError, Global};
use std::test::Fail;

#[test]
fn special_characters_are_escaped(rt: HostRuntime) -> Result<(), Fail> {
    let words = Words::of(rt.alloc(), "<a & \"b\">'\u{1}\u{fffe}\n→")?;
    assert_eq!(rt; words.as_str(), "&lt;a &amp; &quot;b&quot;&gt;&#39;??\n→");
    Ok(())
}

/// A circle with a title in it.
fn circle(alloc: Global) -> Result<Markup, AllocError> {
    let title = Opening::new(alloc, Tag::Title)?.saying("1 < 2")?;
    Opening::new(alloc, Tag::Circle)?
        .with(Key::Class, "a\"b")?
        .at(Key::Radius, 5)?
        .around(&title)
}

/// An element with nothing in it.
fn empty(alloc: Global, tag: Tag) -> Result<Markup, AllocError> {
    Opening::new(alloc, tag)?.empty()
}

/// Words alone.
fn said(alloc: Global, words: &str) -> Result<Markup, AllocError> {
    let mut markup = Markup::new(alloc);
    markup.say(words)?;
    Ok(markup)
}

#[test]
fn an_element_is_closed(rt: HostRuntime) -> Result<(), Fail> {
    let circle = circle(rt.alloc())?;
    let empty = empty(rt.alloc(), Tag::Defs)?;
    let mut both = Markup::new(rt.alloc());
    both.add(&circle)?;
    both.say("&")?;
    both.add(&empty)?;
    assert_eq!(rt;
        both.as_str(),
        "<circle class=\"a&quot;b\" r=\"5\"><title>1 &lt; 2</title></circle>&amp;<defs></defs>"
    );
    Ok(())
}

/// A group with a circle, and one with nothing.
fn groups(alloc: Global) -> Result<Vec<Group<'static>>, AllocError> {
    let mut groups = Vec::new(alloc);
    groups.push(Group {
        title: "1 & 2",
        inside: empty(alloc, Tag::Circle)?,
    })?;
    groups.push(Group {
        title: "",
        inside: Markup::new(alloc),
    })?;
    Ok(groups)
}

/// A picture with these groups, between a `<` and an arrow.
fn picture_of(alloc: Global, groups: &[Group<'_>]) -> Result<String, AllocError> {
    let before = said(alloc, "<")?;
    let after = said(alloc, "→")?;
    Opening::new(alloc, Tag::Svg)?.whole_with(&before, groups, &after)
}

#[test]
fn groups_stand_between_other_markup(rt: HostRuntime) -> Result<(), Fail> {
    let groups = groups(rt.alloc())?;
    let picture = picture_of(rt.alloc(), &groups)?;
    assert_eq!(rt;
        picture.as_str(),
        "\
<svg>&lt;<g><title>1 &amp; 2</title><circle></circle></g>
<g><title></title></g>
→</svg>"
    );
    Ok(())
}
