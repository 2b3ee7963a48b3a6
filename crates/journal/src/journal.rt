//! The live files with the number of edits and the text that was kept.

ghost use Rattle.std.specs.Prelude.{◌≡◌, ◌≢◌, ◌+◌, ◌<◌, ◌≤◌, Some, None, Err, IfOk, OnOk, OnErr};
ghost use Rattle.std.specs.Arc.{arc_value};
ghost use Rattle.std.specs.FinMap.{empty};
ghost use Rattle.project.specs.Items.{Fits};
ghost use Rattle.journal.specs.declared.edit.ReadEdit.TheVariants as edits;
ghost use Rattle.journal.specs.declared.faults.EditFault.{EditFault};
ghost use Rattle.journal.specs.declared.faults.EditFault.TheVariants.{Memory as NoMemory};
ghost use Rattle.journal.specs.Journal.{FitsEdit, after, edit_fault, is_full};

use crate::edit::ReadEdit;
use crate::faults::EditFault;
use project::{CALLABLES_LIMIT, EDITS_LIMIT, Files, FilesError, Item, KEPT_LIMIT, Which};
use rv_names::{Memory, Text};
use std::alloc::Global;
use std::marker::Model;
use std::sync::Arc;

/// The files that edits left, how many edits there were, and the bytes of all texts that were put. There are at most 65,536 edits,
/// 64 MiB of such texts, and 65,535 callables.
#[derive(Drop)]
pub struct Journal {
    files: Files,
    number: u32,
    kept: u64,
}

impl Model for Journal {
    ghost use Rattle.std.specs.Coded.{codes};
    ghost use Rattle.project.specs.contracts.files.Files as files_row;
    ghost use Rattle.journal.specs.Journal.{IsJournal, JournalParts};

    ghost Value = { JournalParts };

    ghost coded = { Prim.hlevel (codes, files_row.the_row.coded) };

    ghost view = { λ j. record { files = j.files; number = j.number; kept = j.kept } };

    ghost invariant = { λ j. IsJournal j.files j.number j.kept };
}

impl Journal {
    /// No files and no edits. It takes no memory.
    pub fn new(alloc: Global) -> Journal
        ensures { result ≡ record { files = empty; number = 0; kept = 0 } }
    {
        Journal {
            files: Files::new(alloc),
            number: 0,
            kept: 0,
        }
    }

    /// The live files.
    pub fn files(&self) -> &Files
        ensures { result.now ≡ self.now.files }
    {
        &self.files
    }

    /// How many edits were kept.
    pub fn number(&self) -> u32
        ensures { result ≡ self.now.number }
    {
        self.number
    }

    /// Does an edit, and gives its number, from 1 on.
    ///
    /// The fault is the first that holds of these, and then nothing has changed: `JournalFull` where 65,536 edits are kept or the
    /// texts that were put would have more than 64 MiB; `NotThere`, with the number of edits so far, where a file is dropped that
    /// isn't live; `ProjectFull` with the first of files, text and callables that would be past its limit. `Memory` comes where there
    /// is no memory left. It compares with about log n paths of n, and is linear in the path and in the top level of a module and
    /// the bodies of its classes.
    pub fn edit(&mut self, edit: ReadEdit) -> Result<u32, EditFault>
        requires fits { FitsEdit edit }
        ensures number { IfOk result (λ number. number ≡ self.old.number + 1) }
        ensures journal { OnOk result (self.new ≡ after self.old edit) }
        ensures free { OnOk result (edit_fault self.old edit ≡ None) }
        ensures told { (fault : EditFault) → fault ≢ NoMemory → result ≡ Err fault → edit_fault self.old edit ≡ Some fault }
        ensures err { OnErr result (self.new ≡ self.old) }
    {
        match edit {
            ReadEdit::Put { path, item, len } => self.put(path, item, len),
            ReadEdit::Drop { path } => self.drop_file(&path),
        }
    }

    // Whether there is no room for one more edit that puts so much text.
    fn is_full(&self, more: u32) -> bool
        ensures { result ≡ is_full self.now more }
    {
        self.number >= EDITS_LIMIT || self.kept + more as u64 > KEPT_LIMIT
    }

    // Why a drop is refused.
    fn drop_fault(&self, path: &Text) -> Option<EditFault>
        ensures { result ≡ edit_fault self.now (edits.Drop path.now) }
    {
        if self.is_full(0) {
            return Some(EditFault::JournalFull);
        }
        let Some(_file) = self.files.get(path) else {
            return Some(EditFault::NotThere {
                number: self.number,
            });
        };
        self.files.know();
        if self.files.callables_without(path) > CALLABLES_LIMIT {
            return Some(EditFault::ProjectFull(Which::Callables));
        }
        None
    }

    // Puts an item at a path, where its text has `len` bytes.
    fn put(&mut self, path: Text, item: Arc<Item>, len: u32) -> Result<u32, EditFault>
        requires fits { Fits path (arc_value item) }
        ensures number { IfOk result (λ number. number ≡ self.old.number + 1) }
        ensures journal { OnOk result (self.new ≡ after self.old (edits.Put path item len)) }
        ensures free { OnOk result (edit_fault self.old (edits.Put path item len) ≡ None) }
        ensures told { (fault : EditFault) → fault ≢ NoMemory → result ≡ Err fault → edit_fault self.old (edits.Put path item len) ≡ Some fault }
        ensures err { OnErr result (self.new ≡ self.old) }
    {
        if self.is_full(len) {
            return Err(EditFault::JournalFull);
        }
        let few = self
            .files
            .callables_within(&path, &item, len, CALLABLES_LIMIT)?;
        if !few {
            let which = self.files.over_with(&path, len);
            return Err(EditFault::ProjectFull(which.unwrap_or(Which::Callables)));
        }
        match self.files.put(path, item, len) {
            Ok(()) => {
                self.number += 1;
                self.kept += len as u64;
                Ok(self.number)
            }
            Err(FilesError::Full(which)) => Err(EditFault::ProjectFull(which)),
            Err(FilesError::Memory) => Err(EditFault::Memory),
        }
    }

    // Takes the file at a path away.
    fn drop_file(&mut self, path: &Text) -> Result<u32, EditFault>
        ensures number { IfOk result (λ number. number ≡ self.old.number + 1) }
        ensures journal { OnOk result (self.new ≡ after self.old (edits.Drop path.now)) }
        ensures free { OnOk result (edit_fault self.old (edits.Drop path.now) ≡ None) }
        ensures told { (fault : EditFault) → fault ≢ NoMemory → result ≡ Err fault → edit_fault self.old (edits.Drop path.now) ≡ Some fault }
        ensures err { OnErr result (self.new ≡ self.old) }
    {
        if let Some(fault) = self.drop_fault(path) {
            return Err(fault);
        }
        let _live = self.files.drop(path);
        self.number += 1;
        Ok(self.number)
    }
}
