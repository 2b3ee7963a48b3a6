//! What a check has come to, and what a command makes of it.

ghost use Rattle.std.specs.Prelude.{◌≡◌, ◌≢◌, IfOk};
ghost use Rattle.script.specs.declared.command.Command.TheVariants as commands;
ghost use Rattle.script.specs.Grammar.{Spells};
ghost use Rattle.journal.specs.Journal.{FitsEdit};
ghost use Rattle.journal.specs.declared.faults.EditFault.TheVariants as edit_faults;
ghost use Rattle.front.specs.declared.faults.ReadFault.TheVariants as read_faults;
ghost use Rattle.edit_lines.specs.Lines.{fault_line, misread_line};
ghost use Rattle.check_stream.specs.Acts.{Edits, Puts, path_of};
ghost use Rattle.check_stream.specs.Ends.{answer_status};
ghost use Rattle.check_stream.specs.Progress.{at_first};
ghost use Rattle.check_stream.specs.Turns.{Answers, IsClosing, IsNotYet, IsTaken, Refuses};

use crate::statuses::{ISSUES, NO_ISSUE, REFUSED, UNANSWERED};
use crate::turn::Turn;
use cut_form::report;
use edit_lines::{fault_line, kept_line, misread_line, not_yet_line, sync_line};
use front::{ReadFault, read_file_with};
use journal::{EditFault, Journal, ReadEdit};
use py_lexer::Scratch;
use rv_names::{Memory, Text};
use script::Command;
use std::alloc::Global;
use std::marker::Model;
use std::sync::Arc;

/// The edits of a check so far, and whether one was refused.
#[derive(Drop)]
pub struct Session {
    journal: Journal,
    refused: bool,
    scratch: Scratch,
}

impl Model for Session {
    ghost use Rattle.std.specs.Coded.{codes};
    ghost use Rattle.journal.specs.contracts.journal.Journal as journal_row;
    ghost use Rattle.check_stream.specs.Progress.{Progress};

    ghost Value = { Progress };

    ghost coded = { Prim.hlevel (codes, journal_row.the_row.coded) };

    ghost view = { λ s. record { journal = s.journal; refused = s.refused } };
}

impl Session {
    /// Before the first command. It takes no memory.
    pub fn new(alloc: Global) -> Session
        ensures { result ≡ at_first }
    {
        Session {
            journal: Journal::new(alloc),
            refused: false,
            scratch: Scratch::new(alloc),
        }
    }

    /// Acts on a command, whose own bytes these are. The cost is that of reading the file of a `put`, of its edit, and of the
    /// answer to `end`.
    pub fn act(&mut self, alloc: Global, command: Command, bytes: &[u8]) -> Result<Turn, Memory>
        requires spelled { Spells 0 bytes.now command }
        requires taken { IsTaken command }
        ensures { IfOk result (Answers self.old self.new bytes.now command) }
    {
        match command {
            Command::Put { path, from, len } => {
                Ok(Turn::Lines(self.put(alloc, path, &bytes[from..from + len])?))
            }
            Command::Drop { path } => {
                let edit = ReadEdit::Drop { path: path.copy()? };
                Ok(Turn::Lines(self.edit(alloc, &path, edit)?))
            }
            Command::Sync => Ok(Turn::Lines(sync_line(alloc, self.journal.number())?.into_bytes())),
            Command::Ask {
                session: _,
                query: _,
            } => not_yet(alloc),
            Command::End => self.finish(alloc),
            Command::Run { .. } => unreachable!(),
        }
    }

    // Puts a file at a path, and gives the line of it.
    fn put(&mut self, alloc: Global, path: Text, file: &[u8]) -> Result<Vec<u8>, Memory>
        ensures { IfOk result (λ line. Puts self.old path file.now line.items self.new) }
    {
        let item = match read_file_with(alloc, &mut self.scratch, path.as_str(), file) {
            Ok(item) => Arc::new(alloc, item)?,
            Err(fault) => return self.misread(alloc, &path, &fault),
        };
        let edit = ReadEdit::Put {
            path: path.copy()?,
            item,
            len: file.len() as u32,
        };
        self.edit(alloc, &path, edit)
    }

    // Refuses a file that is put at a path, and gives the line of it.
    fn misread(&mut self, alloc: Global, path: &Text, fault: &ReadFault) -> Result<Vec<u8>, Memory>
        ensures { IfOk result (λ line. Refuses (fault.now ≢ read_faults.Memory) (misread_line path.now fault.now) line.items self.old self.new) }
    {
        match fault {
            ReadFault::Memory => Err(Memory),
            _ => {
                self.refused = true;
                Ok(misread_line(alloc, path, fault)?.into_bytes())
            }
        }
    }

    // Does an edit at a path, and gives the line of it.
    fn edit(&mut self, alloc: Global, path: &Text, edit: ReadEdit) -> Result<Vec<u8>, Memory>
        requires fits { FitsEdit edit }
        requires path { path.now ≡ path_of edit }
        ensures { IfOk result (λ line. Edits self.old edit line.items self.new) }
    {
        match self.journal.edit(edit) {
            Ok(number) => Ok(kept_line(alloc, number)?.into_bytes()),
            Err(fault) => self.refuse(alloc, path, fault),
        }
    }

    // Refuses an edit at a path, and gives the line of it.
    fn refuse(&mut self, alloc: Global, path: &Text, fault: EditFault) -> Result<Vec<u8>, Memory>
        ensures { IfOk result (λ line. Refuses (fault ≢ edit_faults.Memory) (fault_line path.now fault) line.items self.old self.new) }
    {
        match fault {
            EditFault::Memory => Err(Memory),
            _ => {
                self.refused = true;
                Ok(fault_line(alloc, path, fault)?.into_bytes())
            }
        }
    }

    // The answer at the end of the commands.
    fn finish(&self, alloc: Global) -> Result<Turn, Memory>
        ensures { IfOk result (IsClosing self.now commands.End) }
    {
        match report(alloc, self.journal.files())? {
            Some(report) => Ok(Turn::Last {
                lines: report.lines,
                status: answer_status(self.refused, report.has_issues),
            }),
            None => not_yet(alloc),
        }
    }
}

/// The status of an answer.
fn answer_status(refused: bool, has_issues: bool) -> u8
    ensures { result ≡ answer_status refused has_issues }
{
    if refused {
        REFUSED
    } else if has_issues {
        ISSUES
    } else {
        NO_ISSUE
    }
}

/// The last lines where there is no answer yet.
fn not_yet(alloc: Global) -> Result<Turn, Memory>
    ensures { IfOk result IsNotYet }
{
    let lines = not_yet_line().as_bytes().to_vec(alloc)?;
    let status = UNANSWERED;
    Ok(Turn::Last { lines, status })
}
