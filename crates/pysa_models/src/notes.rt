//! The notes on models: the kinds that the configuration doesn't declare.

ghost use Rattle.std.specs.Prelude.{◌≡◌, ◌++◌, IfOk, OnOk, map};
ghost use Rattle.std.specs.List.{flat_map};
ghost use Rattle.pysa_models.specs.Models.{marks_in};
ghost use Rattle.pysa_models.specs.Notes.{AreNotes, all_notes, note_at, note_of, notes_in};
ghost use Rattle.pysa_models.specs.Views.{model_at};

use crate::models::Placed;
use py_ast::{Remark, RemarkKind};
use py_literals::place::Pos;
use pysa_syntax::{Decl, DeclMark, DeclParam};
use rv_names::{Memory, Name, Text};
use std::alloc::Global;
use taint_config::Config;

fn note_at(path: &Text, kind: &Name, at: Pos) -> Result<Remark, Memory>
    ensures { IfOk result (λ r. r ≡ note_at path.now kind.now at) }
{
    Ok(Remark {
        path: path.copy()?,
        at,
        kind: RemarkKind::UnknownKind,
        text: kind.to_text()?,
    })
}

/// The note on a mark, where its kind is unknown.
fn note(config: &Config, path: &Text, mark: &DeclMark) -> Result<Option<Remark>, Memory>
    ensures { IfOk result (λ n. n ≡ note_of config.now path.now mark.now) }
{
    match mark {
        DeclMark::Source(kind, at) => match config.source_number(kind) {
            Some(_) => Ok(None),
            None => Ok(Some(note_at(path, kind, *at)?)),
        },
        DeclMark::Sink(kind, at) => match config.sink_number(kind) {
            Some(_) => Ok(None),
            None => Ok(Some(note_at(path, kind, *at)?)),
        },
        DeclMark::Through => Ok(None),
    }
}

fn note_marks(
    config: &Config,
    path: &Text,
    marks: &[DeclMark],
    notes: &mut Vec<Remark>,
) -> Result<(), Memory>
    ensures { OnOk result (notes.new.items ≡ notes.old.items ++ notes_in config.now path.now marks.now) }
{
    for mark in marks {
        if let Some(remark) = note(config, path, mark)? {
            notes.push(remark)?;
        }
    }
    Ok(())
}

fn note_parameters(
    config: &Config,
    path: &Text,
    params: &[DeclParam],
    notes: &mut Vec<Remark>,
) -> Result<(), Memory>
    ensures { OnOk result (notes.new.items ≡ notes.old.items ++ notes_in config.now path.now (flat_map (λ p. p.marks) params.now)) }
{
    for param in params {
        note_marks(config, path, param.marks.as_slice(), notes)?;
    }
    Ok(())
}

fn note_model(
    config: &Config,
    path: &Text,
    decl: &Decl,
    notes: &mut Vec<Remark>,
) -> Result<(), Memory>
    ensures { OnOk result (notes.new.items ≡ notes.old.items ++ notes_in config.now path.now (marks_in decl.now)) }
{
    note_parameters(config, path, decl.params.as_slice(), notes)?;
    note_marks(config, path, decl.marks.as_slice(), notes)?;
    Ok(())
}

fn unsorted(alloc: Global, config: &Config, models: &[Placed<'_>]) -> Result<Vec<Remark>, Memory>
    ensures { IfOk result (λ v. v.items ≡ all_notes config.now (map model_at models.now)) }
{
    let mut notes = Vec::new(alloc);
    for model in models {
        note_model(config, model.path, model.decl, &mut notes)?;
    }
    Ok(notes)
}

/// The notes on models, in order. It costs a sort of them.
pub fn notes(alloc: Global, config: &Config, models: &[Placed<'_>]) -> Result<Vec<Remark>, Memory>
    ensures { IfOk result (λ v. AreNotes config.now (map model_at models.now) v.items) }
{
    let mut notes = unsorted(alloc, config, models)?;
    notes.sort_unstable();
    Ok(notes)
}
