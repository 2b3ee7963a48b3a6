//! Marks by number.

ghost use Rattle.std.specs.Prelude.{◌≡◌, ◌++◌, IfOk, OnOk};
ghost use Rattle.std.specs.List.{list_any};
ghost use Rattle.pysa_models.specs.Marks.{is_known, is_through, kind_number, mark_of, marks_of};

use path_trees::Mark;
use pysa_syntax::DeclMark;
use rv_names::Memory;
use sqlite_items::Items;
use std::alloc::Global;
use taint_config::Config;

/// The number of a mark's kind: `None` exactly where the kind is unknown, or the mark is `TaintInTaintOut`.
fn kind_number(config: &Config, mark: &DeclMark) -> Option<u8>
    ensures { result ≡ kind_number config.now mark.now }
{
    match mark {
        DeclMark::Source(kind, _) => config.source_number(kind),
        DeclMark::Sink(kind, _) => config.sink_number(kind),
        DeclMark::Through => None,
    }
}

/// Whether one of the marks has a known kind.
pub fn has_known(config: &Config, marks: &[DeclMark]) -> bool
    ensures { result ≡ list_any (is_known config.now) marks.now }
{
    marks.iter().any(|mark| kind_number(config, mark).is_some())
}

/// The mark with the number of its kind and that leaf, where the kind is known.
fn mark(config: &Config, leaf: u32, mark: &DeclMark) -> Option<Mark>
    ensures { result ≡ mark_of config.now leaf mark.now }
{
    match mark {
        DeclMark::Source(kind, _) => {
            let kind = config.source_number(kind)?;
            Some(Mark::Source { kind, leaf })
        }
        DeclMark::Sink(kind, _) => {
            let kind = config.sink_number(kind)?;
            Some(Mark::Sink { kind, leaf })
        }
        DeclMark::Through => None,
    }
}

/// Adds the marks of known kinds, in their order, to those that are there.
pub fn push_marks(
    config: &Config,
    leaf: u32,
    marks: &[DeclMark],
    known: &mut Items<Mark>,
) -> Result<(), Memory>
    ensures { OnOk result (known.new ≡ known.old ++ marks_of config.now leaf marks.now) }
{
    for declared in marks {
        if let Some(mark) = mark(config, leaf, declared) {
            known.push(mark)?;
        }
    }
    Ok(())
}

/// The marks of known kinds, in their order.
pub fn marks(
    alloc: Global,
    config: &Config,
    leaf: u32,
    marks: &[DeclMark],
) -> Result<Items<Mark>, Memory>
    ensures { IfOk result (λ known. known ≡ marks_of config.now leaf marks.now) }
{
    let mut known = Items::new(alloc);
    push_marks(config, leaf, marks, &mut known)?;
    Ok(known)
}

/// Whether `TaintInTaintOut` is among the marks.
pub fn is_through(marks: &[DeclMark]) -> bool
    ensures { result ≡ list_any is_through marks.now }
{
    marks.iter().any(|mark| matches!(mark, DeclMark::Through))
}
