//! The live files of a project.

ghost use Rattle.std.specs.Prelude.{◌≡◌, ◌≤◌, ◌↔◌, Some, None, Err, IfOk, OnOk, OnErr, IsTrue, false, nat_le};
ghost use Rattle.std.specs.Arc.{arc_value};
ghost use Rattle.std.specs.Option.{option_copied};
ghost use Rattle.std.specs.FinMap.{contains_key, empty, entries, get, insert, len, remove};
ghost use Rattle.project.specs.declared.faults.FilesError.TheVariants.{Full};
ghost use Rattle.project.specs.declared.faults.Which.{Which};
ghost use Rattle.project.specs.declared.item.Item.{Item};
ghost use Rattle.project.specs.Callables.{capped, item_callables};
ghost use Rattle.project.specs.Files.{AreFiles, first_over, given_by, given_by_all, has_room, is_hidden, text_of, with_file};
ghost use Rattle.project.specs.Items.{Fits};
ghost use Rattle.project.specs.Modules.{callables_in};
ghost use Rattle.project.specs.Sums.{beneath};

use crate::faults::{FilesError, Which};
use crate::file::File;
use crate::item::Item;
use crate::limits::{FILES_LIMIT, TEXT_LIMIT};
use crate::live::{placed, taken};
use crate::neighbour::Neighbour;
use crate::sums::{first_past, gone, replaced, shown};
use crate::together::both;
use rv_names::{Memory, Text};
use std::alloc::Global;
use std::collections::BTreeMap;
use std::collections::btree_map::Iter;
use std::marker::Model;
use std::sync::Arc;

/// The live files of a project, as a finite map from the path to the file. There are at most 4,096, and their texts have at most
/// 32 MiB.
#[derive(Drop)]
pub struct Files {
    alloc: Global,
    live: BTreeMap<Text, File>,
    text: u64,
    given: u64,
    // Whether a package's own file was ever put.
    packages: bool,
}

impl Model for Files {
    ghost use Rattle.std.specs.Coded.{coded_list, coded_ℕ};
    ghost use Rattle.std.specs.FinMap as map;
    ghost use Rattle.project.specs.contracts.file.File as file_row;
    ghost use Rattle.project.specs.Files.{FileMap, IsFlatUnless, IsProject};

    ghost Value = { FileMap };

    ghost coded = { map.code (coded_list coded_ℕ) (file_row.the_row).coded };

    ghost view = { λ f. map.from_sorted f.live.entries };

    ghost invariant = { λ f. IsProject f.live.entries f.text f.given × IsFlatUnless f.packages (map.from_sorted f.live.entries) };
}

impl Files {
    /// No files. It takes no memory.
    pub fn new(alloc: Global) -> Files
        ensures { result ≡ empty }
    {
        Files {
            alloc,
            live: BTreeMap::new(alloc),
            text: 0,
            given: 0,
            packages: false,
        }
    }

    /// The same files, which share their items. Linear in their number; it costs a few counters a file.
    pub fn copy(&self) -> Result<Files, Memory>
        ensures { IfOk result (λ files. files ≡ self.now) }
    {
        Ok(Files {
            alloc: self.alloc,
            live: self.live.clone()?,
            text: self.text,
            given: self.given,
            packages: self.packages,
        })
    }

    /// How many files are live.
    pub fn len(&self) -> usize
        ensures { result ≡ len self.now }
    {
        self.live.len()
    }

    /// Whether no file is live.
    pub fn is_empty(&self) -> bool
        ensures { IsTrue result ↔ (self.now ≡ empty) }
    {
        self.live.is_empty()
    }

    /// The bytes of all live texts.
    pub fn text_len(&self) -> u64
        ensures { result ≡ text_of self.now }
    {
        self.text
    }

    /// The file at a path: `None` exactly where none is live. It compares with about log n paths of n.
    pub fn get(&self, path: &Text) -> Option<&File>
        ensures { option_copied result ≡ get self.now path.now }
    {
        self.live.get(path)
    }

    /// The files with their paths, in the order of the paths.
    pub fn iter(&self) -> Iter<'_, Text, File>
        ensures { result ≡ entries self.now }
    {
        self.live.iter()
    }

    /// What holds of the files of every project: each stands at its path, which is one of such an item, and they are within the
    /// limits. A proof that counts them may use it.
    pub fn know(&self)
        ensures { AreFiles self.now }
    {
        let _live = &self.live;
    }

    /// The first of the counts of files and of text that a put would take past its limit, for a text of `len` bytes. It compares with
    /// about log n paths of n where one of them is near its limit, and else with none. It takes no memory.
    pub fn over_with(&self, path: &Text, len: u32) -> Option<Which>
        ensures { (item : Item) → result ≡ first_over (with_file self.now path.now item len) }
    {
        if self.has_room(len) {
            return None;
        }
        match self.live.get(path) {
            None => first_past(self.live.len() + 1, self.text + len as u64),
            Some(old) => first_past(self.live.len(), self.text + len as u64 - old.len() as u64),
        }
    }

    /// Puts an item at a path, in place of what stands there, where its text has `len` bytes.
    ///
    /// * `Full(Which::Files)` exactly where the path is new and 4,096 files are live;
    /// * `Full(Which::Text)` exactly where it isn't so and the live texts would have more than 32 MiB, the old text at the path left
    ///   out;
    /// * `Memory` where there is no memory left.
    ///
    /// After each of them nothing has changed. It searches the paths for the path, for the neighbour where a package's own file was ever put, and once more for the path
    /// where a count is near its limit; each search compares with about log n paths of n. It is linear in the path and in the top level of
    /// a module and the bodies of its classes.
    pub fn put(&mut self, path: Text, item: Arc<Item>, len: u32) -> Result<(), FilesError>
        requires fits { Fits path (arc_value item) }
        ensures files { OnOk result (self.new ≡ with_file self.old path (arc_value item) len) }
        ensures full { (which : Which) → (result ≡ Err (Full which)) ↔ (first_over (with_file self.old path (arc_value item) len) ≡ Some which) }
        ensures err { OnErr result (self.new ≡ self.old) }
    {
        if let Some(which) = self.over_with(&path, len) {
            return Err(FilesError::Full(which));
        }
        let key = path.copy();
        let (key, file) = both(key, File::new(self.alloc, path, item, len))?;
        Ok(self.put_file(key, file)?)
    }

    // Puts a file at its path, where that passes no limit.
    fn put_file(&mut self, path: Text, file: File) -> Result<(), Memory>
        requires path { path ≡ file.path }
        requires fits { Fits file.path file.item }
        requires within { first_over (insert self.old path file) ≡ None }
        ensures files { OnOk result (self.new ≡ insert self.old path file) }
        ensures err { OnErr result (self.new ≡ self.old) }
    {
        let hidden = self.is_hidden(&file);
        let beneath = self.beneath(&file);
        let text = self.text + file.len() as u64;
        let given = self.given + shown(hidden, &file);
        let packages = self.packages | file.hides();
        let old = placed(&mut self.live, path, file)?;
        let (old_text, old_given) = gone(hidden, beneath, old);
        self.text = text - old_text;
        self.given = given - old_given;
        self.packages = packages;
        Ok(())
    }

    /// Takes the file at a path away: false exactly where none is live, and then nothing changes. It compares with about log n paths
    /// of n, and takes no memory.
    pub fn drop(&mut self, path: &Text) -> bool
        ensures files { self.new ≡ remove self.old path.now }
        ensures live { result ≡ contains_key self.old path.now }
        ensures absent { result ≡ false → self.new ≡ self.old }
    {
        let text = self.text_without(path);
        let given = self.given_without(path);
        let dropped = taken(&mut self.live, path);
        self.text = text;
        self.given = given;
        dropped
    }

    /// How many callables the modules have, and at most the greatest `u32`: one for the top level of each, one for each function, and
    /// one for each method. It takes no time.
    pub fn callables(&self) -> u32
        ensures { result ≡ capped (callables_in self.now) }
    {
        self.given.min(u32::MAX as u64) as u32
    }

    /// How many callables they would have after a put, and at most the greatest `u32`. It costs what a put does.
    pub fn callables_with(&self, path: &Text, item: &Arc<Item>, len: u32) -> Result<u32, Memory>
        requires fits { Fits path.now (arc_value item.now) }
        ensures { IfOk result (λ count. count ≡ capped (callables_in (with_file self.now path.now (arc_value item.now) len))) }
    {
        let file = File::shared(self.alloc, path, item, len)?;
        Ok(self.given_with(&file).min(u32::MAX as u64) as u32)
    }

    /// Whether they would have at most `most` callables after a put. Where their counts alone tell, it is linear in the top level of a
    /// module and the bodies of its classes, and else it costs what a put does.
    pub fn callables_within(
        &self,
        path: &Text,
        item: &Arc<Item>,
        len: u32,
        most: u32,
    ) -> Result<bool, Memory>
        requires fits { Fits path.now (arc_value item.now) }
        ensures { IfOk result (λ within. within ≡ nat_le (capped (callables_in (with_file self.now path.now (arc_value item.now) len))) most) }
    {
        if self.given + item.callables() as u64 <= most as u64 {
            return Ok(true);
        }
        Ok(self.callables_with(path, item, len)? <= most)
    }

    /// How many callables they would have after a drop, which may show a file that was hidden, and at most the greatest `u32`. It
    /// compares with about log n paths of n, and takes no memory.
    pub fn callables_without(&self, path: &Text) -> u32
        ensures { result ≡ capped (callables_in (remove self.now path.now)) }
    {
        self.given_without(path).min(u32::MAX as u64) as u32
    }

    /// Whether a file is hidden, by its neighbour. It is looked for only where a package's own file was ever put.
    pub(crate) fn is_hidden(&self, file: &File) -> bool
        ensures { result ≡ is_hidden self.now file.now.path }
    {
        if !self.packages {
            return false;
        }
        match file.neighbour() {
            Neighbour::Hider(init) => self.live.contains_key(init),
            Neighbour::Hidden(_) => false,
            Neighbour::Nobody => false,
        }
    }

    // Whether the counts alone show that a put of so much text passes no limit, whatever stands at its path.
    fn has_room(&self, len: u32) -> bool
        ensures { result ≡ has_room self.now len }
    {
        self.live.len() < FILES_LIMIT && self.text + len as u64 <= TEXT_LIMIT
    }

    // The bytes of all texts after a drop.
    fn text_without(&self, path: &Text) -> u64
        ensures { result ≡ text_of (remove self.now path.now) }
    {
        match self.live.get(path) {
            None => self.text,
            Some(file) => self.text - file.len() as u64,
        }
    }

    // The callables that a file gives the project.
    fn given_by(&self, file: &File) -> u64
        ensures value { result ≡ given_by self.now file.now.path file.now.item }
        ensures small { result ≤ 4294967295 }
    {
        shown(self.is_hidden(file), file)
    }

    // The callables of the file that this one would hide, where that is live.
    fn beneath(&self, file: &File) -> u64
        ensures value { result ≡ beneath self.now file.now.path }
        ensures small { result ≤ 4294967295 }
    {
        match file.neighbour() {
            Neighbour::Hider(_) => 0,
            Neighbour::Nobody => 0,
            Neighbour::Hidden(plain) => match self.live.get(plain) {
                None => 0,
                Some(file) => file.callables() as u64,
            },
        }
    }

    // The callables of all files once this one stands at its path.
    fn given_with(&self, file: &File) -> u64
        ensures { result ≡ given_by_all (insert self.now file.now.path file.now) }
    {
        let hidden = self.is_hidden(file);
        let beneath = self.beneath(file);
        let old = self.live.get(file.path());
        self.given + shown(hidden, file) - replaced(hidden, beneath, old)
    }

    // The callables of all files once none stands at a path.
    fn given_without(&self, path: &Text) -> u64
        ensures { result ≡ given_by_all (remove self.now path.now) }
    {
        match self.live.get(path) {
            None => self.given,
            Some(file) => self.given - self.given_by(file) + self.beneath(file),
        }
    }
}
