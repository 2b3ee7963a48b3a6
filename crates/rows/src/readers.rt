//! The rows by the node that they read.

ghost use Rattle.std.specs.Prelude.{◌≡◌, ◌<◌, ◌≤◌, ◌^◌, ℕ, true, length, vec_len, Contains, IfOk, MatchOption};
ghost use Rattle.ready_list.specs.Listed.{IsWellFormed};
ghost use Rattle.rows.specs.Reading.{IsIndex, earlier, node_read, noted, reads_node, right_node};

use crate::{Place, Right, Row};
use ready_list::Links;
use rv_names::Memory;
use std::alloc::Global;

/// Rows, and for each node those that read it: `last` has for each node one more than the index of the last row that reads
/// it, or 0, and `before` for each row one more than the index of the last row before it that reads the same node, or 0.
#[derive(Drop)]
pub(crate) struct Readers<'a> {
    pub(crate) rows: &'a [Row],
    pub(crate) last: Vec<u32>,
    pub(crate) before: Vec<u32>,
}

/// Finds the readers of each of some nodes, in one pass over the rows.
pub(crate) fn readers_of<'a>(
    alloc: Global,
    rows: &'a [Row],
    nodes: usize,
) -> Result<Readers<'a>, Memory>
    requires { length rows.now < 2 ^ 32 }
    ensures rows { IfOk result (λ r. r.rows.now ≡ rows.now) }
    ensures nodes { IfOk result (λ r. vec_len r.last ≡ nodes) }
    ensures index { IfOk result (λ r. IsIndex rows.now (length rows.now) r.last.items r.before.items) }
{
    let mut last = Vec::new(alloc);
    last.resize(nodes, 0)?;
    let mut before = Vec::new(alloc);
    for (i, row) in rows.iter().enumerate() {
        let earlier = note(&mut last, (i + 1) as u32, node_read(row));
        before.push(earlier)?;
    }
    Ok(Readers { rows, last, before })
}

// Makes a reader the last one of its node, and answers which was the last one before.
fn note(last: &mut Vec<u32>, reader: u32, node: Option<u32>) -> u32
    ensures noted { last.new.items ≡ noted last.old.items reader node }
    ensures earlier { result ≡ earlier last.old.items node }
{
    match node {
        None => 0,
        Some(node) => {
            if (node as usize) < last.len() {
                let earlier = last[node as usize];
                last[node as usize] = reader;
                return earlier;
            }
            0
        }
    }
}

// The node that a row of a node reads.
fn node_read(row: &Row) -> Option<u32>
    ensures { result ≡ node_read row.now }
{
    match row {
        Row::Into { left, right } => match left {
            Place::Node(_) => right_node(right),
            Place::Result => None,
            Place::Back(_) => None,
            Place::Put(_) => None,
        },
        Row::Puts { .. } => None,
    }
}

fn right_node(right: &Right) -> Option<u32>
    ensures { result ≡ right_node right.now }
{
    match right {
        Right::Known(_) => None,
        Right::Local(_, node) => Some(*node),
        Right::Outer(_, _, _) => None,
        Right::Carried(_, _) => None,
        Right::Through(_, _, node) => Some(*node),
        Right::Wanted(_, _, node) => Some(*node),
        Right::Cells(_, _) => None,
    }
}

/// Puts each row that reads a node into the list. In time linear in their number.
pub(crate) fn push_readers(readers: &Readers, node: u32, list: &mut Links)
    requires index { let r = readers.now in IsIndex r.rows.now (length r.rows.now) r.last.items r.before.items }
    requires node { node < vec_len readers.now.last }
    requires room { length readers.now.rows.now ≤ list.old.room }
    requires well_formed { IsWellFormed list.old }
    ensures kept { (i : ℕ) → Contains list.old.ids i → Contains list.new.ids i }
    ensures pushed { (i : ℕ) → i < length readers.now.rows.now → reads_node readers.now.rows.now i node ≡ true → Contains list.new.ids i }
    ensures room { list.new.room ≡ list.old.room }
    ensures well_formed { IsWellFormed list.new }
{
    let mut at = readers.last[node as usize];
    while at > 0 {
        let row = at - 1;
        list.push_back(row);
        at = readers.before[row as usize];
    }
}
