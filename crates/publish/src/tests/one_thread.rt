//! Each call on one thread, where what it answers is determined.
ghost use Rattle.std.specs.Prelude.{◌≡◌, ◌≤◌, length, take};
ghost use Rattle.std.specs.Arc.{arc_value};

use crate::tests::fronts::{Front, first_of, numbers_below, post_all};
use crate::{Memory, Numbered, Poster, Reader, open_board};
use std::alloc::Global;
use std::sync::{Arc, Wait};
use std::test::Fail;

// The numbers that two readers read in turn, while eight lists are posted.
fn read_in_turn<W: Wait>(
    rt: &W,
    alloc: Global,
    all: &Arc<Vec<u64>, Global>,
    poster: &mut Poster<Front>,
    one: &mut Reader<Front>,
    two: &mut Reader<Front>,
) -> Result<Vec<u64>, Memory>
    requires numbers { 8 ≤ length (arc_value all.now).items }
    requires first { poster.old.list ≡ take 0 (arc_value all.now).items }
    requires one { one.old.board ≡ poster.old.board }
    requires two { two.old.board ≡ poster.old.board }
{
    let mut read = Vec::new(alloc);
    read.push(one.latest()?.number())?;
    post_all(rt, alloc, poster, all, 0, 3)?;
    read.push(one.latest()?.number())?;
    let early = poster.tell();
    post_all(rt, alloc, poster, all, 3, 5)?;
    two.learn(poster.tell());
    two.learn(early.again());
    two.learn(early);
    let (number, kept) = two.refresh(rt);
    kept?;
    read.push(number)?;
    read.push(u64::from(poster.covers(two)))?;
    post_all(rt, alloc, poster, all, 5, 8)?;
    read.push(two.latest()?.number())?;
    read.push(one.refresh(rt).0)?;
    Ok(read)
}

#[test]
fn a_reader_keeps_what_it_read(rt: HostRuntime) -> Result<(), Fail> {
    let alloc = rt.alloc();
    let all = numbers_below(alloc, 8)?;
    let first = first_of(alloc, &all, 0)?;
    let (mut poster, mut readers) = open_board(&rt, alloc, first, 64)?;
    let count = readers.len();
    let mut read = Ok(Vec::new(alloc));
    let mut late = Err(Memory);
    if let Some(mut two) = readers.pop()
        && let Some(mut one) = readers.pop()
    {
        read = read_in_turn(&rt, alloc, &all, &mut poster, &mut one, &mut two);
        poster.end(&rt);
        late = one.latest();
    } else {
        poster.end(&rt);
    }
    assert_eq!(rt; count, 64);
    assert_eq!(rt; read?.as_slice(), [0, 3, 5, 1, 8, 8].as_slice());
    let late = late?;
    assert_eq!(rt; late.numbers(), all.as_slice(), "the board has ended");
    Ok(())
}
