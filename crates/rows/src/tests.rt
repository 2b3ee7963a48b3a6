//! Systems of rows with their solutions, and the worklist against a plain sweep over all rows.
//!
//! A tree is written as entries between commas, each its path, mark and distance. Steps stand between slashes: `a` is an
//! attribute, `'a` a key, `*` any key and `%` the keys; `-` is the path of no steps. `S` is a source, `K` is a sink, `=path`
//! is an exact out to a path of the result, `~path` a flat one, and `>cell` an exact out to a cell.

ghost use Rattle.std.specs.Prelude.{◌<◌, ◌^◌};

use crate::outputs::grow;
use crate::values::{node, of_callee, value};
use crate::*;
use path_trees::{Entry, Mark, Move, Path, Port, Spot, Step, Tree, apply};
use rv_names::{Name, Text};
use std::alloc::Global;
use std::process::Abort;
use std::test::Fail;

fn read_step(alloc: Global, text: &str) -> Result<Step, Fail> {
    if text == "*" {
        return Ok(Step::Any);
    }
    if text == "%" {
        return Ok(Step::Keys);
    }
    if let Some(key) = text.strip_prefix('\'') {
        return Ok(Step::Key(Text::read(alloc, key)?));
    }
    Ok(Step::Attr(Name::read(alloc, text)?))
}

fn read_path(alloc: Global, text: &str) -> Result<Path, Fail> {
    let mut steps = Vec::new(alloc);
    if text != "-" {
        for part in text.split('/') {
            steps.push(read_step(alloc, part)?)?;
        }
    }
    Ok(Path::of(alloc, &steps)?)
}

fn read_mark(alloc: Global, text: &str) -> Result<Mark, Fail> {
    if text == "S" {
        return Ok(Mark::Source { kind: 1, leaf: 1 });
    }
    if text == "K" {
        return Ok(Mark::Sink { kind: 1, leaf: 1 });
    }
    if let Some(cell) = text.strip_prefix('>') {
        let port = Port::Cell(read_step(alloc, cell)?);
        let path = Path::empty(alloc);
        let flat = false;
        return Ok(Mark::Out { port, path, flat });
    }
    let flat = text.starts_with('~');
    let path = text
        .strip_prefix(if flat { '~' } else { '=' })
        .ok_or("no mark")?;
    let path = read_path(alloc, path)?;
    let port = Port::Result;
    Ok(Mark::Out { port, path, flat })
}

fn read_entry(alloc: Global, text: &str) -> Result<Tree, Fail> {
    let (path, rest) = text.split_once(' ').ok_or("no path")?;
    let (mark, distance) = rest.split_once(' ').ok_or("no mark")?;
    let path = read_path(alloc, path)?;
    let mark = read_mark(alloc, mark)?;
    let distance: u8 = distance.parse()?;
    if distance > 63 {
        return Err(Fail::from("too far"));
    }
    let spot = Spot { path, mark };
    Ok(Tree::of(alloc, Entry { spot, distance })?)
}

fn read_tree(alloc: Global, text: &str) -> Result<Tree, Fail> {
    let mut tree = Tree::empty(alloc);
    if text != "none" {
        for entry in text.split(", ") {
            let entry = read_entry(alloc, entry)?;
            tree.join_in(&entry)?;
        }
    }
    Ok(tree)
}

fn read_move(alloc: Global, text: &str) -> Result<Move, Fail> {
    if text == "bump" {
        return Ok(Move::Bump);
    }
    if text == "collapse" {
        return Ok(Move::Collapse);
    }
    let (name, step) = text.split_once(' ').ok_or("no move")?;
    let step = read_step(alloc, step)?;
    if name == "part" {
        return Ok(Move::Part(step));
    }
    if name == "under" {
        return Ok(Move::Under(step));
    }
    Ok(Move::Without(step))
}

// Moves between semicolons, or `same`.
fn read_moves(alloc: Global, text: &str) -> Result<Moves, Fail> {
    let mut moves = Vec::new(alloc);
    if text != "same" {
        for part in text.split("; ") {
            moves.push(read_move(alloc, part)?)?;
        }
    }
    Ok(Moves::of(moves))
}

// A right side of a case, by the name of its sort. What a case names otherwise is in the texts.
fn read_right(alloc: Global, sort: &str, text: &str) -> Result<Right, Fail> {
    if sort == "known" {
        return Ok(Right::Known(read_tree(alloc, text)?));
    }
    if sort == "local" {
        return Ok(Right::Local(read_moves(alloc, text)?, 0));
    }
    if sort == "outer" {
        return Ok(Right::Outer(read_moves(alloc, text)?, 0, Place::Result));
    }
    if sort == "cells" {
        let step = read_step(alloc, text)?;
        return Ok(Right::Cells(Moves::none(alloc), step));
    }
    if sort == "carried" {
        return Ok(Right::Carried(0, 0));
    }
    if sort == "through" {
        return Ok(Right::Through(0, 0, 0));
    }
    Ok(Right::Wanted(0, 0, 0))
}

fn row(left: Place, right: Right) -> Row {
    Row::Into { left, right }
}

fn is_same(a: &Tree, b: &Tree) -> bool {
    a.le(b) && b.le(a)
}

/// The callee's result and its parameter's backward tree, and what is put into the cells `'k` and `b`.
const RESULT: &str = "a S 2, - S 63";

const BACK: &str = "- K 1, a =b 0, c ~- 0, d >e 3, - S 0";

const IN_KEY: &str = "- S 4";

const IN_B: &str = "x S 0";

fn told(alloc: Global) -> Result<Told, Fail> {
    let mut backs = Vec::new(alloc);
    backs.push(read_tree(alloc, BACK)?)?;
    let result = read_tree(alloc, RESULT)?;
    let mut callees = Vec::new(alloc);
    callees.push(CalleeTrees { result, backs })?;
    let mut puts = Vec::new(alloc);
    for (cell, tree) in [("'k", IN_KEY), ("b", IN_B)] {
        let cell = read_step(alloc, cell)?;
        let tree = read_tree(alloc, tree)?;
        puts.push(PutTree { cell, tree })?;
    }
    Ok(Told {
        alloc,
        callees,
        puts,
    })
}

/// Right sides over a node with a tree: the sort, the text, the node's tree, and the value. The rules of the operations are
/// those of access path trees.
const RIGHTS: [(&str, &str, &str, &str); 13] = [
    ("known", "a S 0, - K 1", "none", "a S 0, - K 1"),
    ("local", "same", "a/b S 0", "a/b S 0"),
    ("local", "part a; under c", "a/b S 0, d S 1", "c/b S 0"),
    ("local", "without a; bump", "a S 0, b S 0", "b S 1"),
    ("outer", "bump", "none", "a S 3, - S 63"),
    ("outer", "collapse", "none", "- S 2"),
    ("cells", "*", "none", "- S 5"),
    ("cells", "'k", "none", "- S 5"),
    ("cells", "'m", "none", "none"),
    ("cells", "b", "none", "x S 1"),
    ("carried", "", "none", "- K 2, d >e 4"),
    ("through", "", "a/x S 1, c/y S 2, d S 0", "b/x S 1, - S 2"),
    ("wanted", "", "b/x K 0, z K 1", "a/x K 0, c K 0"),
];

fn check_rights(
    rt: &impl Abort,
    alloc: Global,
    rights: &[(&str, &str, &str, &str)],
) -> Result<(), Fail> {
    let inputs = told(alloc)?;
    for (sort, text, tree, wants) in rights {
        let mut rows = Vec::new(alloc);
        rows.push(row(Place::Result, read_right(alloc, sort, text)?))?;
        rows.push(row(Place::Node(1), read_right(alloc, sort, text)?))?;
        let tree = Right::Known(read_tree(alloc, tree)?);
        rows.push(row(Place::Node(0), tree))?;
        let solution = least(alloc, &inputs, &rows)?;
        let wants = read_tree(alloc, wants)?;
        assert!(rt;
            is_same(&solution.result, &wants),
            "{sort} {text} as result: {solution:?}"
        );
        let at_node = solution.nodes.get(1).ok_or("no node")?;
        assert!(rt;
            is_same(at_node, &wants),
            "{sort} {text} at a node: {solution:?}"
        );
    }
    Ok(())
}

#[test]
fn right_sides(rt: HostRuntime) -> Result<(), Fail> {
    check_rights(&rt, rt.alloc(), &RIGHTS)
}

/// Numbers that look random and are the same on each run.
#[derive(Drop)]
struct Dice(u64);

impl Dice {
    fn roll(&mut self, sides: u64) -> u32
        requires low { 0 < sides }
        requires high { sides < 2 ^ 32 }
    {
        self.0 = self
            .0
            .wrapping_mul(6364136223846793005)
            .wrapping_add(1442695040888963407);
        ((self.0 >> 33) % sides) as u32
    }
}

fn any_step(alloc: Global, dice: &mut Dice) -> Result<Step, Fail> {
    match dice.roll(6) {
        0 => read_step(alloc, "a"),
        1 => read_step(alloc, "b"),
        2 => read_step(alloc, "c"),
        3 => read_step(alloc, "'k"),
        4 => Ok(Step::Any),
        _ => Ok(Step::Keys),
    }
}

fn any_tree(alloc: Global, dice: &mut Dice) -> Result<Tree, Fail> {
    match dice.roll(6) {
        0 => read_tree(alloc, "- S 0"),
        1 => read_tree(alloc, "a S 1, b/c S 2"),
        2 => read_tree(alloc, "'k S 0, * S 3"),
        3 => read_tree(alloc, "- K 0, a K 5"),
        4 => read_tree(alloc, "c =- 0, d S 0"),
        _ => Ok(Tree::empty(alloc)),
    }
}

fn any_moves(alloc: Global, dice: &mut Dice) -> Result<Moves, Fail> {
    let mut moves = Vec::new(alloc);
    for _ in 0..dice.roll(3) {
        let step = any_step(alloc, dice)?;
        moves.push(match dice.roll(6) {
            0 => Move::Bump,
            1 => Move::Part(step),
            2 => Move::Under(step),
            3 => Move::Without(step),
            4 => Move::Collapse,
            _ => Move::Same,
        })?;
    }
    Ok(Moves::of(moves))
}

fn any_right(alloc: Global, dice: &mut Dice) -> Result<Right, Fail> {
    let node = dice.roll(6);
    match dice.roll(9) {
        0 => Ok(Right::Known(any_tree(alloc, dice)?)),
        1 => Ok(Right::Outer(any_moves(alloc, dice)?, dice.roll(2), Place::Result)),
        2 => Ok(Right::Carried(0, dice.roll(2))),
        3 => Ok(Right::Through(0, 0, node)),
        4 => Ok(Right::Wanted(0, 0, node)),
        5 => Ok(Right::Cells(any_moves(alloc, dice)?, any_step(alloc, dice)?)),
        _ => Ok(Right::Local(any_moves(alloc, dice)?, node)),
    }
}

fn any_row(alloc: Global, dice: &mut Dice) -> Result<Row, Fail> {
    let left = match dice.roll(9) {
        0 => Place::Result,
        1 => Place::Back(dice.roll(2)),
        2 => Place::Put(any_step(alloc, dice)?),
        3 => {
            return Ok(Row::Puts {
                callee: 0,
                parameter: dice.roll(2),
                node: dice.roll(6),
            });
        }
        _ => Place::Node(dice.roll(6)),
    };
    Ok(row(left, any_right(alloc, dice)?))
}

fn raise_at(alloc: Global, trees: &mut Vec<Tree>, at: u32, tree: &Tree) -> Result<bool, Fail> {
    grow(alloc, trees, at as usize + 1)?;
    let old = trees.get_mut(at as usize).ok_or("not grown")?;
    Ok(old.join_in(tree)?)
}

fn raise_cell(puts: &mut Vec<PutTree>, cell: &Step, tree: &Tree) -> Result<bool, Fail> {
    for put in puts.iter_mut() {
        if put.cell.same(cell) {
            return Ok(put.tree.join_in(tree)?);
        }
    }
    let cell = cell.copy()?;
    let tree = tree.copy()?;
    let more = !tree.is_empty();
    puts.push(PutTree { cell, tree })?;
    Ok(more)
}

fn raise(alloc: Global, solution: &mut Solution, place: &Place, tree: &Tree) -> Result<bool, Fail> {
    match place {
        Place::Node(at) => raise_at(alloc, &mut solution.nodes, *at, tree),
        Place::Result => Ok(solution.result.join_in(tree)?),
        Place::Back(at) => raise_at(alloc, &mut solution.backs, *at, tree),
        Place::Put(cell) => raise_cell(&mut solution.puts, cell, tree),
    }
}

fn raise_outs(argument: &Tree, back: &Tree, puts: &mut Vec<PutTree>) -> Result<bool, Fail> {
    let mut changed = false;
    for entry in back.entries() {
        if let Mark::Out {
            port: Port::Cell(cell),
            ..
        } = &entry.spot.mark
        {
            let tree = apply(argument, &entry.spot.path, &entry.spot.mark)?;
            if raise_cell(puts, cell, &tree)? {
                changed = true;
            }
        }
    }
    Ok(changed)
}

fn apply_row(
    alloc: Global,
    inputs: &Told,
    row: &Row,
    solution: &mut Solution,
) -> Result<bool, Fail> {
    match row {
        Row::Into { left, right } => {
            let tree = value(alloc, inputs, &solution.nodes, right)?;
            raise(alloc, solution, left, &tree)
        }
        Row::Puts {
            callee,
            parameter,
            node: at,
        } => {
            let none = Tree::empty(alloc);
            let place = Place::Back(*parameter);
            let back = of_callee(inputs, *callee, &place, &none);
            let argument = node(&solution.nodes, *at, &none);
            raise_outs(argument, back, &mut solution.puts)
        }
    }
}

fn sweep_once(
    alloc: Global,
    inputs: &Told,
    rows: &[Row],
    solution: &mut Solution,
) -> Result<bool, Fail> {
    let mut changed = false;
    for row in rows {
        if apply_row(alloc, inputs, row, solution)? {
            changed = true;
        }
    }
    Ok(changed)
}

// The plain program: it goes over all rows until no tree grows.
fn sweep(alloc: Global, inputs: &Told, rows: &[Row]) -> Result<Solution, Fail> {
    let mut solution = Solution {
        nodes: Vec::new(alloc),
        result: Tree::empty(alloc),
        backs: Vec::new(alloc),
        puts: Vec::new(alloc),
    };
    for _ in 0..10_000 {
        if !sweep_once(alloc, inputs, rows, &mut solution)? {
            return Ok(solution);
        }
    }
    Err(Fail::from("no end"))
}

fn compare_trees(rt: &impl Abort, alloc: Global, a: &[Tree], b: &[Tree]) {
    let none = Tree::empty(alloc);
    for at in 0..8 {
        let one = node(a, at, &none);
        let other = node(b, at, &none);
        assert!(rt; is_same(one, other), "{at}: {one:?} and {other:?}");
    }
}

fn in_cell(alloc: Global, puts: &[PutTree], cell: &Step) -> Result<Tree, Fail> {
    let mut all = Tree::empty(alloc);
    for put in puts {
        if put.cell.same(cell) {
            all.join_in(&put.tree)?;
        }
    }
    Ok(all)
}

fn compare(rt: &impl Abort, alloc: Global, a: &Solution, b: &Solution) -> Result<(), Fail> {
    compare_trees(rt, alloc, &a.nodes, &b.nodes);
    compare_trees(rt, alloc, &a.backs, &b.backs);
    assert!(rt; is_same(&a.result, &b.result));
    for text in ["a", "b", "c", "e", "'k", "*", "%"] {
        let cell = read_step(alloc, text)?;
        let one = in_cell(alloc, &a.puts, &cell)?;
        let other = in_cell(alloc, &b.puts, &cell)?;
        assert!(rt; is_same(&one, &other), "{text}: {one:?} and {other:?}");
    }
    Ok(())
}

#[test]
fn a_thousand_systems(rt: HostRuntime) -> Result<(), Fail> {
    let alloc = rt.alloc();
    let inputs = told(alloc)?;
    let mut dice = Dice(10);
    let mut entries = 0usize;
    for _ in 0..1_000 {
        let mut rows = Vec::new(alloc);
        for _ in 0..dice.roll(20) {
            rows.push(any_row(alloc, &mut dice)?)?;
        }
        let solution = least(alloc, &inputs, &rows)?;
        let swept = sweep(alloc, &inputs, &rows)?;
        compare(&rt, alloc, &solution, &swept)?;
        entries = entries.wrapping_add(solution.result.entries().len());
    }
    assert!(rt; entries > 500, "the results are not empty: {entries}");
    Ok(())
}

// A chain of nodes, each of which takes the tree of the next one, and the last a source.
fn chain(alloc: Global, nodes: u32) -> Result<Vec<Row>, Fail> {
    let mut rows = Vec::new(alloc);
    for at in 0..nodes {
        let right = Right::Local(Moves::one(alloc, Move::Bump)?, at + 1);
        rows.push(row(Place::Node(at), right))?;
    }
    let right = Right::Known(read_tree(alloc, "- S 0")?);
    rows.push(row(Place::Node(nodes), right))?;
    Ok(rows)
}

#[test]
fn a_long_chain(rt: HostRuntime) -> Result<(), Fail> {
    let alloc = rt.alloc();
    let inputs = told(alloc)?;
    let solution = least(alloc, &inputs, &chain(alloc, 20_000)?)?;
    let wants = read_tree(alloc, "- S 63")?;
    let first = solution.nodes.get(0).ok_or("no node")?;
    assert!(rt; is_same(first, &wants), "{first:?}");
    assert_eq!(rt; solution.nodes.len(), 20_001);
    Ok(())
}
