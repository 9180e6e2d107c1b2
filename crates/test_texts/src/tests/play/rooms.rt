//! Texts of several objects: stride by stride, and each growth refused in turn.
ghost use Rattle.std.specs.Prelude.{◌<◌, ◌+◌, ◌^◌, length};

use linked_list_allocator::LocalHeap;
use model_room::room::Room;
use std::test::Fail;
use text_lines::fault::TextFault;
use text_room::play_text;
use text_room::walk::{Group, Rest, next_stride, open};

const TEXT: &[u8] =
    b"parties 2\nlet one mutex\n\nlet items semaphore 0\n2 items.start_wait\n1 one.lock\n2 run\n1 run\n";

const OUTPUT: &[u8] = b"2 waits 0\n1 success\none word 1 failed 0\nitems word 0 failed 0\n";

/// The next stride: the line that asks for it, how many steps it has, its party and its object.
fn next(
    room: &mut Room<u64>,
    group: &Group<'_, u64>,
    rest: &mut Rest<'_, u64>,
) -> Result<Option<(u64, u64, usize, usize)>, Fail>
    requires { rest.old.line + length rest.old.lines.now < 2 ^ 64 }
    ensures { rest.new.line + length rest.new.lines.now < 2 ^ 64 }
{
    match next_stride(room, &group.names, &group.objects, rest) {
        Ok(Some(stride)) => {
            let event = stride.step.event;
            Ok(Some((
                stride.step.line,
                stride.times,
                event.event.party,
                event.object,
            )))
        }
        Ok(None) => Ok(None),
        Err(_) => Err("it has no fault")?,
    }
}

#[test]
fn a_text_of_several_is_walked(rt: HostRuntime) -> Result<(), Fail> {
    let Ok((group, mut rest)) = open::<u64, _>(rt.alloc(), TEXT) else {
        return Err("it has no fault")?;
    };
    let mut room = Room::new(rt.alloc(), &group.objects, group.parties)?;
    let told = [
        next(&mut room, &group, &mut rest)?,
        next(&mut room, &group, &mut rest)?,
        next(&mut room, &group, &mut rest)?,
        next(&mut room, &group, &mut rest)?,
        next(&mut room, &group, &mut rest)?,
        next(&mut room, &group, &mut rest)?,
    ];
    assert_eq!(rt;
        told,
        [
            Some((5, 1, 1, 1)),
            Some((6, 1, 0, 0)),
            Some((7, 10000, 1, 1)),
            Some((7, 1, 1, 1)),
            Some((8, 1, 0, 0)),
            None,
        ]
    );
    Ok(())
}

/// Whether the heap has room for the objects, their names and the output.
fn has_room(heap: &LocalHeap) -> Result<bool, Fail> {
    match play_text(heap, TEXT) {
        Ok(bytes) if bytes.as_slice() == OUTPUT => Ok(true),
        Ok(_) => Err("it prints something else")?,
        Err(TextFault::Memory) => Ok(false),
        Err(TextFault::Line { .. }) => Err("it has no fault")?,
    }
}

#[test]
fn texts_of_several_that_find_no_memory(rt: HostRuntime) -> Result<(), Fail> {
    let mut found = false;
    for blocks in 0..1024usize {
        let heap = LocalHeap::new(rt.alloc(), 16 * blocks)?;
        let plays = has_room(&heap)?;
        assert!(rt; heap.used() == 0 && (plays || !found) && (blocks > 0 || !plays));
        found = plays;
    }
    assert!(rt; found);
    Ok(())
}
