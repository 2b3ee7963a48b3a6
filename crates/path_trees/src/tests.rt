//! Tables of cases, each row a call, its trees and what it gives.
//!
//! A tree is written as entries between commas, each its path, mark and distance. Steps stand between slashes: `a` is an
//! attribute, `'a` a key, `*` any key and `%` the keys; `-` is the path of no steps. `S` and `T` are sources, `K` is a sink,
//! `=path` is an exact out to a path of the result, and `~path` a flat one.

use crate::*;
use rv_names::{Name, Text};
use std::alloc::Global;
use std::process::Abort;
use std::test::Fail;

fn read_step(alloc: Global, text: &str) -> Result<Step, Fail> {
    if text == "*" {
        return Ok(Step::Any);
    }
    if text == "%" {
        return Ok(Step::Keys);
    }
    if let Some(key) = text.strip_prefix('\'') {
        return Ok(Step::Key(Text::read(alloc, key)?));
    }
    Ok(Step::Attr(Name::read(alloc, text)?))
}

fn read_path(alloc: Global, text: &str) -> Result<Path, Fail> {
    let mut steps = Vec::new(alloc);
    if text != "-" {
        for part in text.split('/') {
            steps.push(read_step(alloc, part)?)?;
        }
    }
    Ok(Path::of(alloc, &steps)?)
}

fn read_out(alloc: Global, text: &str, flat: bool) -> Result<Mark, Fail> {
    let path = read_path(alloc, text)?;
    let port = Port::Result;
    Ok(Mark::Out { port, path, flat })
}

fn read_mark(alloc: Global, text: &str) -> Result<Mark, Fail> {
    if text == "S" {
        return Ok(Mark::Source { kind: 1, leaf: 1 });
    }
    if text == "T" {
        return Ok(Mark::Source { kind: 1, leaf: 2 });
    }
    if text == "K" {
        return Ok(Mark::Sink { kind: 1, leaf: 1 });
    }
    if let Some(path) = text.strip_prefix('~') {
        return read_out(alloc, path, true);
    }
    read_out(alloc, text.strip_prefix('=').ok_or("no mark")?, false)
}

fn read_entry(alloc: Global, text: &str) -> Result<Tree, Fail> {
    let (path, rest) = text.split_once(' ').ok_or("no path")?;
    let (mark, distance) = rest.split_once(' ').ok_or("no mark")?;
    let path = read_path(alloc, path)?;
    let mark = read_mark(alloc, mark)?;
    let distance: u8 = distance.parse()?;
    if distance > 63 {
        return Err(Fail::from("too far"));
    }
    let spot = Spot { path, mark };
    Ok(Tree::of(alloc, Entry { spot, distance })?)
}

fn read_tree(alloc: Global, text: &str) -> Result<Tree, Fail> {
    let mut tree = Tree::empty(alloc);
    if text != "none" {
        for entry in text.split(", ") {
            let entry = read_entry(alloc, entry)?;
            tree.join_in(&entry)?;
        }
    }
    Ok(tree)
}

// What a call with a step gives of a tree.
fn by_step(name: &str, step: &Step, tree: &Tree) -> Result<Tree, Fail> {
    if name == "part" {
        return Ok(part(tree, step)?);
    }
    if name == "under" {
        return Ok(under(step, tree)?);
    }
    if name == "without" {
        return Ok(without(tree, step)?);
    }
    Err(Fail::from("no call"))
}

fn applied(alloc: Global, argument: &str, tree: &Tree) -> Result<Tree, Fail> {
    let (from, to) = argument.split_once(' ').ok_or("no out")?;
    let from = read_path(alloc, from)?;
    let flat = to.starts_with('~');
    let to = to
        .strip_prefix(if flat { '~' } else { '=' })
        .ok_or("no out")?;
    let path = read_path(alloc, to)?;
    let port = Port::Result;
    let out = Mark::Out { port, path, flat };
    Ok(apply(tree, &from, &out)?)
}

// What a call with an argument gives of a tree: `part *`, say.
fn with_argument(alloc: Global, name: &str, argument: &str, tree: &Tree) -> Result<Tree, Fail> {
    match name {
        "join" => Ok(join(tree, &read_tree(alloc, argument)?)?),
        "graft" => Ok(graft(&read_path(alloc, argument)?, tree)?),
        "sub" => Ok(sub(tree, &read_path(alloc, argument)?)?),
        "apply" => applied(alloc, argument, tree),
        _ => by_step(name, &read_step(alloc, argument)?, tree),
    }
}

fn called(alloc: Global, call: &str, tree: &Tree) -> Result<Tree, Fail> {
    if call == "collapse" {
        return Ok(collapse(tree)?);
    }
    if call == "bump" {
        return Ok(bump(tree)?);
    }
    let (name, argument) = call.split_once(' ').ok_or("no argument")?;
    with_argument(alloc, name, argument, tree)
}

// Each row: a call, a tree, and what the call gives of it.
fn check_rows(rt: &impl Abort, alloc: Global, rows: &str) -> Result<(), Fail> {
    for row in rows.split('\n') {
        let (call, rest) = row.split_once(" | ").ok_or("no call")?;
        let (tree, wanted) = rest.split_once(" | ").ok_or("no tree")?;
        let tree = read_tree(alloc, tree)?;
        let wanted = read_tree(alloc, wanted)?;
        let given = called(alloc, call, &tree)?;
        assert!(rt; le(&given, &wanted), "{row}");
        assert!(rt; le(&wanted, &given), "{row}");
    }
    Ok(())
}

#[test]
fn parts(rt: HostRuntime) -> Result<(), Fail> {
    let rows = "part * | 'k/x S 0, k S 1, % S 3 | x S 0
part b | - =a 0 | - =a/b 0
part b | - =a/b/c/d 0 | - ~a/b/c/d 0
part b | - =a/b/c 7 | - =a/b/c/b 7
part b | - ~a 0, - S 3 | - ~a 0, - S 3
part 'k | */x S 4, 'k/x S 2, 'j/x S 1, k/x S 0 | x S 2
part % | %/x S 4, */x S 2, 'k S 1 | x S 4
part * | */x S 1, 'k/x S 5, 'j/y T 6, % S 2 | x S 1, y T 6
part a | a/b/c/d S 63, a =x 1 | b/c/d S 63, - =x 1
part a | none | none
without a | a S 1, a/b S 2, b S 3, - S 4 | b S 3, - S 4
without * | * S 1, 'k S 2, % S 3 | 'k S 2, % S 3
without 'k | 'k/x S 1, 'j S 2, * S 3, k S 4 | 'j S 2, * S 3, k S 4
without % | %/a/b/c S 63, a/% S 0 | a/% S 0
sub a/b | a/b/c S 1, a S 2, b S 3, - =r 4 | c S 1, - S 2, - =r/a/b 4
sub - | a S 1 | a S 1
sub a/b/c/d | - =r 0, a/b/c/d S 3 | - ~r/a/b/c 0, - S 3";
    check_rows(&rt, rt.alloc(), rows)
}

#[test]
fn wholes(rt: HostRuntime) -> Result<(), Fail> {
    let rows = "under a | b/c/d/e =- 0 | a/b/c/d ~- 0
under a | b/c/d =- 0 | a/b/c/d =- 0
under a | b/c/d/e S 2, b/c/d/f S 1, b/c/d S 9 | a/b/c/d S 1
under * | - S 63, 'k K 0 | * S 63, */'k K 0
under a | b/c/d/e =x 3, b/c/d/e ~x 1, b/c/d =x 0 | a/b/c/d ~x 1, a/b/c/d =x 0
graft a/b | c S 1, - =r 2 | a/b/c S 1, a/b =r 2
graft - | c S 1 | c S 1
graft a/b/c | d S 1, d/e =r 2, x/y T 3 | a/b/c/d S 1, a/b/c/d ~r 2, a/b/c/x T 3
collapse | a/b S 4, c S 2, - S 3, a =x 1 | - S 2, - ~x 1
collapse | - =x 5, a ~x 3 | - ~x 3
collapse | a/b/c/d S 63, K K 0 | - S 63, - K 0
bump | - S 63 | - S 63
bump | - S 62, a S 0, b =x 1 | - S 63, a S 1, b =x 2
bump | none | none
bump | 'k/x ~a/b 61, */x T 63, - S 0, - K 63 | 'k/x ~a/b 62, */x T 63, - S 1, - K 63
join a S 1, b S 5 | a S 3, b S 2, - T 0 | a S 1, b S 2, - T 0
join none | a S 63 | a S 63
join a S 63, a =x 1 | a S 0, a ~x 1 | a S 0, a =x 1, a ~x 1
join b S 1, d S 1 | a S 1, c S 1, e S 1 | a S 1, b S 1, c S 1, d S 1, e S 1";
    check_rows(&rt, rt.alloc(), rows)
}

#[test]
fn outs(rt: HostRuntime) -> Result<(), Fail> {
    let rows = "apply a =- | a/b S 2, c S 1, - S 5 | b S 2, - S 5
apply a ~- | a/b S 2, c S 1, - S 5 | - S 2
apply - =x/y | a S 1, - K 2 | x/y/a S 1, x/y K 2
apply a =x/y/z | a/b/c =- 1, a/b =r 0 | x/y/z/b ~- 1, x/y/z/b =r 0
apply a/b ~x | a/b/c S 3, a/b S 4, a/c S 0 | x S 3
apply * =- | 'k/a S 1, 'j/a S 63, * =r 5 | a S 1, - =r 5";
    check_rows(&rt, rt.alloc(), rows)
}

#[test]
fn touching(rt: HostRuntime) -> Result<(), Fail> {
    let alloc = rt.alloc();
    let rows = "a S 1 | a K 2 | yes
a K 1 | a S 2 | no
a/b S 1 | a K 2 | yes
a S 63 | a/b/c K 63 | yes
a/b S 1 | a/c K 1 | no
- S 1 | x/y K 1 | yes
'k S 1 | * K 1 | yes
*/a S 1 | 'k/a K 1 | yes
% S 1 | * K 1 | no
k S 1 | 'k K 1 | no
a S 1, b S 1 | c K 1, b/x K 1 | yes
a =x 1 | a K 1 | no
none | a K 1 | no";
    for row in rows.split('\n') {
        let (left, rest) = row.split_once(" | ").ok_or("no tree")?;
        let (right, wanted) = rest.split_once(" | ").ok_or("no tree")?;
        let left = read_tree(alloc, left)?;
        let right = read_tree(alloc, right)?;
        let given = touches(&left, &right);
        assert_eq!(rt; given, wanted == "yes", "{row}");
    }
    Ok(())
}

#[test]
fn joins_in_place(rt: HostRuntime) -> Result<(), Fail> {
    let alloc = rt.alloc();
    let mut tree = read_tree(alloc, "a S 3, b S 2")?;
    let less = read_tree(alloc, "a S 4")?;
    let more = read_tree(alloc, "a S 1, c K 0")?;
    assert!(rt; Tree::empty(alloc).is_empty());
    assert!(rt; !tree.is_empty());
    assert!(rt; le(&less, &tree));
    assert!(rt; !le(&more, &tree));
    assert!(rt; !tree.join_in(&less)?);
    assert!(rt; tree.join_in(&more)?);
    assert!(rt; !tree.join_in(&more)?);
    let copy = tree.copy()?;
    let same = Tree::from_entries(alloc, tree.entries())?;
    assert!(rt; le(&copy, &tree) && le(&tree, &same));
    let wanted = read_tree(alloc, "a S 1, b S 2, c K 0")?;
    assert!(rt; le(&tree, &wanted) && le(&wanted, &copy));
    Ok(())
}
