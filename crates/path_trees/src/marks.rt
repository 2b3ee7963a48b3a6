//! Marks: what is known of a value, or wanted of it.

ghost use Rattle.std.specs.Prelude.{◌≡◌, ◌++◌, ◌∷◌, [], IfOk};
ghost use Rattle.path_trees.specs.Spots.{IsHeldMark, IsHeldPort, cut_out, flattened, mark_order, marks_touch, port_order, read_on};

use crate::{Path, Step};
use rv_names::Memory;
use std::cmp::Ordering;

/// Where an out leads.
#[derive(Debug, Drop)]
pub enum Port {
    /// To what a callable returns.
    Result,
    /// To the cell of a step, which stands for that part of any object.
    Cell(Step),
}

/// What is known of a value, or wanted of it.
#[derive(Debug, Drop)]
pub enum Mark {
    /// The value comes from a source: the number of its kind and of its leaf.
    Source { kind: u8, leaf: u32 },
    /// The value goes to a sink: the number of its kind and of its leaf.
    Sink { kind: u8, leaf: u32 },
    /// The value goes to a path of a port. An exact out keeps the depths below it, a flat one does not.
    Out { port: Port, path: Path, flat: bool },
}

impl Port {
    /// The same port.
    pub fn copy(&self) -> Result<Port, Memory>
        ensures { IfOk result (λ p. p ≡ self.now) }
    {
        match self {
            Port::Result => Ok(Port::Result),
            Port::Cell(step) => {
                let step = step.copy()?;
                Ok(Port::Cell(step))
            }
        }
    }

    /// How the two are ordered: the result first, and then the cells by their steps.
    pub fn order(&self, other: &Port) -> Ordering
        ensures { result ≡ port_order self.now other.now }
    {
        match self {
            Port::Result => match other {
                Port::Result => Ordering::Equal,
                Port::Cell(_) => Ordering::Less,
            },
            Port::Cell(a) => match other {
                Port::Result => Ordering::Greater,
                Port::Cell(b) => a.order(b),
            },
        }
    }

    /// The port is one of finitely many, which a proof that counts them may use.
    pub fn know(&self)
        ensures { IsHeldPort self.now }
    {
        match self {
            Port::Result => {}
            Port::Cell(step) => step.know(),
        }
    }
}

impl Mark {
    /// The same mark.
    pub fn copy(&self) -> Result<Mark, Memory>
        ensures { IfOk result (λ m. m ≡ self.now) }
    {
        match self {
            Mark::Source { kind, leaf } => Ok(Mark::Source {
                kind: *kind,
                leaf: *leaf,
            }),
            Mark::Sink { kind, leaf } => Ok(Mark::Sink {
                kind: *kind,
                leaf: *leaf,
            }),
            Mark::Out { port, path, flat } => {
                let port = port.copy()?;
                let path = path.copy()?;
                Ok(Mark::Out {
                    port,
                    path,
                    flat: *flat,
                })
            }
        }
    }

    /// The mark, where an out is made flat.
    pub fn flattened(&self) -> Result<Mark, Memory>
        ensures { IfOk result (λ m. m ≡ flattened self.now) }
    {
        match self {
            Mark::Source { kind, leaf } => Ok(Mark::Source {
                kind: *kind,
                leaf: *leaf,
            }),
            Mark::Sink { kind, leaf } => Ok(Mark::Sink {
                kind: *kind,
                leaf: *leaf,
            }),
            Mark::Out {
                port,
                path,
                flat: _,
            } => {
                let port = port.copy()?;
                let path = path.copy()?;
                Ok(Mark::Out {
                    port,
                    path,
                    flat: true,
                })
            }
        }
    }

    /// The mark read on by a step: an exact out goes on by it, and becomes flat where its path would be longer than four.
    pub fn read_on(&self, step: &Step) -> Result<Mark, Memory>
        ensures { IfOk result (λ m. m ≡ read_on step.now self.now) }
    {
        match self {
            Mark::Source { kind, leaf } => Ok(Mark::Source {
                kind: *kind,
                leaf: *leaf,
            }),
            Mark::Sink { kind, leaf } => Ok(Mark::Sink {
                kind: *kind,
                leaf: *leaf,
            }),
            Mark::Out { port, path, flat } => {
                if *flat {
                    return self.copy();
                }
                out_read_on(port, path, step)
            }
        }
    }

    /// How the two are ordered: sources, sinks and outs, and each of these by its parts.
    pub fn order(&self, other: &Mark) -> Ordering
        ensures { result ≡ mark_order self.now other.now }
    {
        match self {
            Mark::Source { kind: a, leaf: b } => match other {
                Mark::Source { kind: c, leaf: d } => a.cmp(c).then(b.cmp(d)),
                Mark::Sink { .. } => Ordering::Less,
                Mark::Out { .. } => Ordering::Less,
            },
            Mark::Sink { kind: a, leaf: b } => match other {
                Mark::Source { .. } => Ordering::Greater,
                Mark::Sink { kind: c, leaf: d } => a.cmp(c).then(b.cmp(d)),
                Mark::Out { .. } => Ordering::Less,
            },
            Mark::Out { port, path, flat } => match other {
                Mark::Source { .. } => Ordering::Greater,
                Mark::Sink { .. } => Ordering::Greater,
                Mark::Out {
                    port: p,
                    path: q,
                    flat: f,
                } => port.order(p).then(path.order(q).then(flat.cmp(f))),
            },
        }
    }

    /// Whether this is a source, and the other a sink.
    pub fn touches(&self, other: &Mark) -> bool
        ensures { result ≡ marks_touch self.now other.now }
    {
        match self {
            Mark::Source { .. } => match other {
                Mark::Source { .. } => false,
                Mark::Sink { .. } => true,
                Mark::Out { .. } => false,
            },
            Mark::Sink { .. } => false,
            Mark::Out { .. } => false,
        }
    }

    /// The mark is one of finitely many, which a proof that counts them may use.
    pub fn know(&self)
        ensures { IsHeldMark self.now }
    {
        match self {
            Mark::Source { kind, leaf } => {
                let _kind = *kind;
                let _leaf = *leaf;
            }
            Mark::Sink { kind, leaf } => {
                let _kind = *kind;
                let _leaf = *leaf;
            }
            Mark::Out { port, path, .. } => {
                port.know();
                path.know();
            }
        }
    }
}

// An exact out, read on by a step.
fn out_read_on(port: &Port, path: &Path, step: &Step) -> Result<Mark, Memory>
    ensures { IfOk result (λ m. m ≡ cut_out port.now (path.now ++ step.now ∷ [])) }
{
    let port = port.copy()?;
    if path.steps().len() < 4 {
        let path = path.and_then(step)?;
        return Ok(Mark::Out {
            port,
            path,
            flat: false,
        });
    }
    let path = path.copy()?;
    Ok(Mark::Out {
        port,
        path,
        flat: true,
    })
}
