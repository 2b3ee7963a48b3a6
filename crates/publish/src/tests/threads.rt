//! One thread posts, and others read.
ghost use Rattle.std.specs.Prelude.{◌≡◌, ◌≤◌, length, take};
ghost use Rattle.std.specs.Arc.{arc_value};

use crate::tests::fronts::{Front, first_of, numbers_below, post_all};
use crate::{Memory, Numbered, Poster, Reader, open_board};
use std::alloc::Global;
use std::sync::atomic::{AtomicBool, Ordering};
use std::sync::{Arc, Wait};
use std::test::Fail;
use std::thread;
use std::thread::{Threads, join};

const POSTS: usize = 10_000;

const READERS: u32 = 8;

// So often a reader may call once all is posted, until it has the last list.
const CALLS: u32 = 1_000;

// What a reader saw: the last list, and whether each list began with the one before.
#[derive(Drop)]
struct Followed {
    kept: Arc<Front, Global>,
    rose: bool,
}

impl Followed {
    fn read_on(&mut self, reader: &mut Reader<Front>) -> Result<(), Memory> {
        let next = reader.latest()?;
        self.rose = self.rose && next.numbers().starts_with(self.kept.numbers());
        self.kept = next;
        Ok(())
    }
}

// Reads until all is posted.
fn follow<W: Wait>(
    rt: &W,
    reader: &mut Reader<Front>,
    posted: &AtomicBool,
) -> Result<Followed, Memory> {
    let mut followed = Followed {
        kept: reader.latest()?,
        rose: true,
    };
    for _ in rt.forever() {
        if posted.load(Ordering::SeqCst) {
            return Ok(followed);
        }
        followed.read_on(reader)?;
    }
    unreachable!()
}

// Reads while lists are posted, and then until it has the last list or has called often enough.
fn follow_to_the_end<W: Wait>(
    rt: &W,
    reader: Reader<Front>,
    posted: &AtomicBool,
) -> Result<Followed, Memory> {
    let mut reader = reader;
    let mut followed = follow(rt, &mut reader, posted)?;
    for _ in 0..CALLS {
        if followed.kept.number() == POSTS as u64 {
            break;
        }
        followed.read_on(&mut reader)?;
    }
    Ok(followed)
}

// Posts all lists, and then says so, also where it failed.
fn post_and_say<W: Wait>(
    rt: &W,
    alloc: Global,
    all: &Arc<Vec<u64>, Global>,
    poster: &mut Poster<Front>,
    posted: &AtomicBool,
) -> Result<(), Memory>
    requires numbers { POSTS ≤ length (arc_value all.now).items }
    requires first { poster.old.list ≡ take 0 (arc_value all.now).items }
{
    let done = post_all(rt, alloc, poster, all, 0, POSTS);
    posted.store(true, Ordering::SeqCst);
    done
}

// One thread posts, and each reader reads in a thread of its own.
fn run<R: Threads + Wait + Sync>(
    rt: &R,
    all: &Arc<Vec<u64>, Global>,
    alloc: Global,
    poster: &mut Poster<Front>,
    readers: Vec<Reader<Front>>,
) -> Result<Vec<Result<Followed, Memory>>, Memory>
    requires numbers { POSTS ≤ length (arc_value all.now).items }
    requires first { poster.old.list ≡ take 0 (arc_value all.now).items }
{
    let posted = AtomicBool::new(false);
    let (posting, following) = join(
        rt,
        || -> Result<(), Memory>
            requires { (POSTS ≤ length (arc_value all.now).items) × (poster.now.list ≡ take 0 (arc_value all.now).items) }
        { post_and_say(rt, alloc, all, poster, &posted) },
        || thread::map_vec(
            rt,
            readers,
            &|reader| follow_to_the_end(rt, reader, &posted),
        ),
    );
    posting?;
    Ok(following?)
}

#[test]
fn readers_never_go_back(rt: HostRuntime) -> Result<(), Fail> {
    let alloc = rt.alloc();
    let all = numbers_below(alloc, POSTS as u64)?;
    let first = first_of(alloc, &all, 0)?;
    let (mut poster, readers) = open_board(&rt, alloc, first, READERS)?;
    let followed = run(&rt, &all, alloc, &mut poster, readers);
    poster.end(&rt);
    let followed = followed?;
    assert_eq!(rt; followed.len(), READERS as usize);
    for one in followed {
        let one = one?;
        assert!(rt; one.rose, "each list begins with the one before");
        assert_eq!(rt; one.kept.number(), POSTS as u64, "the last list was read");
    }
    Ok(())
}
