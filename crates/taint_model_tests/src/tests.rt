//! Tables of cases, each row a call, its models and what it gives.
//!
//! Columns stand between bars. A step is an attribute `a`, a key `'a`, any key `*` or the keys `%`. A tree is written as
//! marks at the root with their distances, between commas: `S` and `T` are sources, `K` is a sink, `R` an exact out to the
//! result. Puts are written as cells with a mark and a distance. A model is its result, its parameters between slashes (`-`
//! for a callable without parameters), and its puts, between semicolons.

use path_trees::{Entry, Mark, Path, Port, Spot, Step, Tree, le};
use rv_names::{Name, Text};
use std::alloc::Global;
use std::process::Abort;
use std::test::Fail;
use taint_model::*;

fn read_step(alloc: Global, text: &str) -> Result<Step, Fail> {
    if text == "*" {
        return Ok(Step::Any);
    }
    if text == "%" {
        return Ok(Step::Keys);
    }
    if let Some(key) = text.strip_prefix('\'') {
        return Ok(Step::Key(Text::read(alloc, key)?));
    }
    Ok(Step::Attr(Name::read(alloc, text)?))
}

fn read_mark(alloc: Global, text: &str) -> Result<Mark, Fail> {
    match text {
        "S" => Ok(Mark::Source { kind: 1, leaf: 1 }),
        "T" => Ok(Mark::Source { kind: 1, leaf: 2 }),
        "K" => Ok(Mark::Sink { kind: 2, leaf: 1 }),
        "R" => {
            let path = Path::empty(alloc);
            let port = Port::Result;
            let flat = false;
            Ok(Mark::Out { port, path, flat })
        }
        _ => Err(Fail::from("no mark")),
    }
}

fn read_entry(alloc: Global, text: &str) -> Result<Tree, Fail> {
    let (mark, distance) = text.split_once(' ').ok_or("no distance")?;
    let mark = read_mark(alloc, mark)?;
    let distance: u8 = distance.parse()?;
    if distance > 63 {
        return Err(Fail::from("too far"));
    }
    let path = Path::empty(alloc);
    let spot = Spot { path, mark };
    Ok(Tree::of(alloc, Entry { spot, distance })?)
}

fn read_tree(alloc: Global, text: &str) -> Result<Tree, Fail> {
    let mut tree = Tree::empty(alloc);
    if text != "none" {
        for entry in text.split(", ") {
            let entry = read_entry(alloc, entry)?;
            tree.join_in(&entry)?;
        }
    }
    Ok(tree)
}

fn read_puts(alloc: Global, text: &str) -> Result<Puts, Fail> {
    let mut puts = Puts::empty(alloc);
    if text != "none" {
        for part in text.split(", ") {
            let (cell, entry) = part.split_once(' ').ok_or("no cell")?;
            let cell = read_step(alloc, cell)?;
            let tree = read_entry(alloc, entry)?;
            puts.put(&cell, &tree)?;
        }
    }
    Ok(puts)
}

fn read_trees(alloc: Global, text: &str) -> Result<Trees, Fail> {
    let mut trees = Vec::new(alloc);
    if text != "-" {
        for tree in text.split(" / ") {
            trees.push(read_tree(alloc, tree)?)?;
        }
    }
    Ok(Trees::of(trees))
}

fn read_model(alloc: Global, text: &str) -> Result<Model, Fail> {
    let (result, rest) = text.split_once("; ").ok_or("no result")?;
    let (back, puts) = rest.split_once("; ").ok_or("no parameters")?;
    let result = read_tree(alloc, result)?;
    let back = read_trees(alloc, back)?;
    let puts = read_puts(alloc, puts)?;
    Ok(Model { result, back, puts })
}

fn same_trees(a: &Tree, b: &Tree) -> bool {
    le(a, b) && le(b, a)
}

fn same_models(a: &Model, b: &Model) -> bool {
    model_le(a, b) && model_le(b, a)
}

// Each row: puts, a step, and what is found there.
#[test]
fn found_at_steps(rt: HostRuntime) -> Result<(), Fail> {
    let alloc = rt.alloc();
    let rows = "a S 3, b S 1 | a | S 4
a S 3, b S 1 | c | none
a S 3 | 'a | none
'a S 3 | a | none
'k S 1, 'j T 2, * K 5, % S 0, k S 9 | 'k | S 2, K 6
'k S 1, 'j T 2, * K 5, % S 0, k S 9 | * | S 2, T 3, K 6
'k S 1, 'j T 2, * K 5, % S 0, k S 9 | % | S 1
'k S 1, 'j T 2, * K 5, % S 0, k S 9 | k | S 10
'k S 1, 'j T 2, * K 5, % S 0, k S 9 | 'x | K 6
'k S 5, * S 2 | 'k | S 3
'k S 2, * S 5 | 'k | S 3
'k S 5, 'j S 7, 'i S 6 | * | S 6
a S 63, a T 62, a R 0 | a | S 63, T 63, R 1
* S 63 | * | S 63
none | * | none
none | a | none";
    for row in rows.split('\n') {
        let (puts, rest) = row.split_once(" | ").ok_or("no step")?;
        let (step, wanted) = rest.split_once(" | ").ok_or("no tree")?;
        let puts = read_puts(alloc, puts)?;
        let step = read_step(alloc, step)?;
        let wanted = read_tree(alloc, wanted)?;
        let found = puts.cells_at(&step)?;
        assert!(rt; same_trees(&found, &wanted), "{row}");
    }
    Ok(())
}

// Each row: two models, and whether the first is below the second.
#[test]
fn order(rt: HostRuntime) -> Result<(), Fail> {
    let alloc = rt.alloc();
    let rows = "S 1; K 0 / none; a S 2 | S 1; K 0 / none; a S 2 | yes
none; none / none; none | S 1; K 0 / R 0; a S 2 | yes
S 2; -; none | S 1, T 0; -; none | yes
S 1, T 0; -; none | S 2; -; none | no
S 1; -; none | S 2; -; none | no
none; K 1; none | none; K 0, R 5; none | yes
none; K 0 / K 1; none | none; K 0 / K 2; none | no
none; K 0 / K 1; none | none; K 0 / K 1, R 0; none | yes
none; K 1 / K 0; none | none; K 0 / K 1; none | no
none; none; none | none; none / none; none | no
none; none / none; none | none; none; none | no
none; -; none | none; none; none | no
none; -; a S 3 | none; -; a S 2, b S 9 | yes
none; -; a S 2 | none; -; a S 3, b S 0 | no
none; -; a S 2, b S 9 | none; -; a S 2 | no
none; -; a S 2 | none; -; none | no
none; -; 'k S 2 | none; -; * S 0 | no
none; -; k S 2 | none; -; 'k S 0 | no
S 3; K 3; a S 3 | S 3; K 3; a S 4 | no
S 3; K 4; a S 3 | S 3; K 4; a S 3, % T 0 | yes";
    for row in rows.split('\n') {
        let (left, rest) = row.split_once(" | ").ok_or("no model")?;
        let (right, wanted) = rest.split_once(" | ").ok_or("no answer")?;
        let left = read_model(alloc, left)?;
        let right = read_model(alloc, right)?;
        assert_eq!(rt; model_le(&left, &right), wanted == "yes", "{row}");
    }
    Ok(())
}

// Joins the second of two models to the first, and compares with what is wanted.
fn check_join(rt: &impl Abort, alloc: Global, texts: &str, wanted: &Model) -> Result<(), Fail> {
    let (left, right) = texts.split_once(" | ").ok_or("no model")?;
    let mut left = read_model(alloc, left)?;
    let right = read_model(alloc, right)?;
    if left.back.as_slice().len() != right.back.as_slice().len() {
        return Err(Fail::from("other parameters"));
    }
    let joined = left.join(&right)?;
    assert!(rt; same_models(&joined, wanted), "{texts}");
    let grows = !model_le(&right, &left);
    assert_eq!(rt; left.join_in(&right)?, grows, "{texts}");
    assert!(rt; same_models(&left, wanted), "{texts}");
    assert!(rt; same_models(&joined.copy()?, wanted), "{texts}");
    Ok(())
}

// Each row: two models and their join.
#[test]
fn joins(rt: HostRuntime) -> Result<(), Fail> {
    let alloc = rt.alloc();
    let rows =
        "S 3; K 1 / none; a S 2 | S 1, T 5; K 2 / R 0; a S 3, b T 0 | S 1, T 5; K 1 / R 0; a S 2, b T 0
S 3; -; none | S 4; -; none | S 3; -; none
none; none; none | none; none; none | none; none; none
none; none; none | S 63; R 63; % S 63 | S 63; R 63; % S 63
S 0; K 0 / K 1; a S 0, 'a S 1 | none; none / none; none | S 0; K 0 / K 1; a S 0, 'a S 1
none; -; 'k S 5, 'k T 1, * S 3 | none; -; 'k S 4, 'j K 0, * S 6 | none; -; 'k S 4, 'k T 1, 'j K 0, * S 3";
    for row in rows.split('\n') {
        let (left, rest) = row.split_once(" | ").ok_or("no model")?;
        let (right, wanted) = rest.split_once(" | ").ok_or("no join")?;
        let texts = format!(in alloc; "{left} | {right}")?;
        let wanted = read_model(alloc, wanted)?;
        check_join(&rt, alloc, &texts, &wanted)?;
    }
    Ok(())
}

// The distances of the cells' only entries, in the order of the cells.
fn distances(alloc: Global, puts: &Puts) -> Result<Vec<u8>, Fail> {
    let mut distances = Vec::new(alloc);
    for (_cell, tree) in puts.iter() {
        for entry in tree.entries() {
            distances.push(entry.distance)?;
        }
    }
    Ok(distances)
}

#[test]
fn puts_in_place(rt: HostRuntime) -> Result<(), Fail> {
    let alloc = rt.alloc();
    let mut puts = read_puts(alloc, "% S 4, * S 3, 'b S 2, b S 1, a S 0")?;
    assert_eq!(rt;
        distances(alloc, &puts)?.as_slice(),
        [0, 1, 2, 3, 4].as_slice()
    );
    let b = read_step(alloc, "b")?;
    let c = read_step(alloc, "c")?;
    assert!(rt; !puts.put(&b, &read_tree(alloc, "S 2")?)?);
    assert!(rt; !puts.put(&c, &Tree::empty(alloc))?);
    assert!(rt; puts.get(&c).is_none());
    assert!(rt; puts.put(&b, &read_tree(alloc, "T 7")?)?);
    let there = puts.get(&b).ok_or("no cell")?;
    assert!(rt; same_trees(there, &read_tree(alloc, "S 1, T 7")?));
    assert!(rt; !puts.is_empty());
    assert!(rt; Puts::empty(alloc).is_empty());
    Ok(())
}

// Models are shared by threads.
fn may_be_shared<T: Send + Sync>(value: T) -> T {
    value
}

#[test]
fn empty_models(rt: HostRuntime) -> Result<(), Fail> {
    let alloc = rt.alloc();
    let model = may_be_shared(Model::empty(alloc, 2)?);
    assert!(rt; same_models(&model, &read_model(alloc, "none; none / none; none")?));
    let trees = Trees::empty(alloc, 3)?.into_vec();
    assert_eq!(rt; trees.len(), 3);
    let trees = Trees::of(trees);
    assert!(rt; trees.le(&trees.copy()?));
    let joined = trees.join(&trees)?;
    assert!(rt; joined.le(&trees));
    let puts = read_puts(alloc, "a S 1")?;
    let joined = puts.join(&model.puts)?;
    assert!(rt; joined.le(&puts.copy()?));
    assert!(rt; !joined.le(&model.puts));
    Ok(())
}
