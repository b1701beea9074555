//! Files in memory.
ghost use Rattle.std.specs.Prelude.{◌≡◌, ◌≤◌, [], ◌∷◌, ◌++◌, ◌&&◌, not, Some, bytes_eq, option_copied, length, take, IfOk, OnOk, OnErr, IfSome, IsTrue, option_map};
ghost use Rattle.cx_base.specs.Faults.{HasCause};
ghost use Rattle.cx_base.specs.Folders.{IsOrdered, is_folder};
ghost use Rattle.cx_base.specs.Memory.{FailsByNumber, are_distinct, can_be_file, can_stand, files_state, next_call_fails};
ghost use Rattle.cx_base.specs.Shapes.MemoryCalls.{with_call, FailsAt};
ghost use Rattle.cx_base.specs.Simple.{is_simple};
ghost use Rattle.std.specs.List.{list_all};
ghost use Rattle.cx_base.specs.Outside.{ReadTells, ListTells, GivesFolder, FilesTold, file_at, bytes_at, calls_after, failed_paths};

use crate::answers::{Entry, Stored};
use crate::bytes::Bytes;
use crate::calls::contains;
use crate::errors::{Lost, NoMemory};
use crate::file_calls::{FileCall, FileRequest};
use crate::folders::is_folder;
use crate::list::List;
use crate::members::members_of;
use crate::outside::Files;
use crate::path::Path;
use crate::simple_form::is_simple;
use std::alloc::Global;
use std::marker::Model;

/// Files in memory, of which the calls with given numbers fail. All calls are counted together,
/// from 0. They tell their contents and their calls.
#[derive(Debug, Drop)]
pub struct MemoryFiles {
    stored: List<Stored>,
    answered: List<FileCall>,
    failing: List<u64>,
}

impl Model for MemoryFiles {
    ghost use Rattle.cx_base.specs.Memory.{MemoryFilesState};

    ghost Value = { MemoryFilesState };

    ghost view = { λ f. record {
      told = record { stored = f.stored; calls = f.answered };
      failing = f.failing;
    } };
}

impl MemoryFiles {
    /// These files, whose calls with the given numbers fail. Their paths are distinct and simple,
    /// and none is a folder: `can_stand` tests that.
    pub fn new(alloc: Global, stored: List<Stored>, failing: List<u64>) -> MemoryFiles
        requires { IsTrue (can_stand stored) }
        ensures { result ≡ record {
          told = record { stored = stored; calls = [] };
          failing = failing;
        } }
    {
        MemoryFiles {
            stored,
            answered: List::new(alloc),
            failing,
        }
    }

    /// The calls that were answered, in order.
    pub fn calls(&self) -> &[FileCall]
        ensures { result.now ≡ self.now.told.calls }
    {
        self.answered.as_slice()
    }

    // Whether the next call is to fail.
    fn next_fails(&self) -> bool
        ensures { result ≡ next_call_fails self.now }
    {
        contains(self.failing.as_slice(), self.answered.len() as u64)
    }

    // Notes a call that is answered, unless memory runs out.
    fn note(&mut self, path: &Path, request: FileRequest, failed: bool) -> Result<(), NoMemory>
        ensures ok { OnOk result (self.new ≡ with_call self.old path.now request failed) }
        ensures err { OnErr result (self.new ≡ self.old) }
    {
        let path = path.copy()?;
        let call = FileCall {
            path,
            request,
            failed,
        };
        self.answered.push(call)
    }

    // A call that fails, unless memory runs out.
    fn fail(&mut self, path: &Path, request: FileRequest) -> Lost
        ensures { FailsAt self.old self.new path.now request result }
    {
        match self.note(path, request, true) {
            Ok(()) => Lost::Failed,
            Err(_) => Lost::NoMemory,
        }
    }
}

fn bytes_at<'a>(stored: &'a [Stored], path: &str) -> Option<&'a Bytes>
    ensures { option_copied result ≡ bytes_at stored.now path.now }
{
    for file in stored {
        if file.path.as_str() == path {
            return Some(&file.bytes);
        }
    }
    None
}

fn file_at<'a>(stored: &'a [Stored], path: &str) -> Option<&'a Bytes>
    ensures { option_copied result ≡ file_at stored.now path.now }
{
    if is_folder(stored, path) {
        return None;
    }
    bytes_at(stored, path)
}

// The first bytes of a file, at most so many.
fn front_of(alloc: Global, file: Option<&Bytes>, most: u64) -> Result<Option<Bytes>, NoMemory>
    ensures { IfOk result (λ got. got ≡ option_map (take most) (option_copied file.entry)) }
{
    match file {
        Some(bytes) => {
            let bytes = bytes.as_slice();
            let length = bytes.len().min(most as usize);
            let front = Bytes::from_slice(alloc, &bytes[..length])?;
            Ok(Some(front))
        }
        None => Ok(None),
    }
}

#[tactic(auto, using(crate::proofs::MemberLaws::members_ordered))]
fn entries_at(alloc: Global, stored: &[Stored], path: &str) -> Result<Option<List<Entry>>, NoMemory>
    ensures lists { IfOk result (GivesFolder stored.now path.now) }
    ensures ordered { IfOk result (λ got. IfSome got IsOrdered) }
{
    if !is_folder(stored, path) {
        return Ok(None);
    }
    let entries = members_of(alloc, stored, path)?;
    Ok(Some(List::from_vec(entries)))
}

impl Files for MemoryFiles {
    ghost state = { files_state };

    fn read(&mut self, path: &Path, most: u64) -> Result<Option<Bytes>, Lost>
        ensures bound { IfOk result (λ got. IfSome got (λ bytes. length bytes ≤ most)) }
        ensures tells { ReadTells
            (files_state self.old) (files_state self.new) path.now most result }
        ensures cause { HasCause
            (files_state self.old).faults (files_state self.new).faults result }

        // A call fails exactly where its number says so.
        ensures number { FailsByNumber self.old result }
        ensures failing { self.new.failing ≡ self.old.failing }
    {
        if self.next_fails() {
            return Err(self.fail(path, FileRequest::Read { most }));
        }
        let alloc = self.stored.allocator();
        let file = file_at(self.stored.as_slice(), path.as_str());
        let got = front_of(alloc, file, most)?;
        self.note(path, FileRequest::Read { most }, false)?;
        Ok(got)
    }

    fn list(&mut self, path: &Path) -> Result<Option<List<Entry>>, Lost>
        ensures tells { ListTells (files_state self.old) (files_state self.new) path.now result }
        ensures cause { HasCause
            (files_state self.old).faults (files_state self.new).faults result }

        // A call fails exactly where its number says so.
        ensures number { FailsByNumber self.old result }
        ensures failing { self.new.failing ≡ self.old.failing }

        // Each member is given once, by the bytes of the names.
        ensures ordered { IfOk result (λ got. IfSome got IsOrdered) }
    {
        if self.next_fails() {
            return Err(self.fail(path, FileRequest::List));
        }
        let alloc = self.stored.allocator();
        let got = entries_at(alloc, self.stored.as_slice(), path.as_str())?;
        self.note(path, FileRequest::List, false)?;
        Ok(got)
    }
}

// Whether no path of these files is the given one.
fn is_new(stored: &[Stored], path: &str) -> bool
    ensures { result ≡ list_all (λ other. not (bytes_eq other.path path.now)) stored.now }
{
    stored.iter().all(|other| other.path.as_str() != path)
}

fn are_distinct(stored: &[Stored]) -> bool
    ensures { result ≡ are_distinct stored.now }
{
    for (at, file) in stored.iter().enumerate() {
        if !is_new(&stored[at + 1..], file.path.as_str()) {
            return false;
        }
    }
    true
}

fn can_be_file(stored: &[Stored], path: &Path) -> bool
    ensures { result ≡ can_be_file stored.now path.now }
{
    is_simple(path) && !is_folder(stored, path.as_str())
}

fn can_be_files(stored: &[Stored], files: &[Stored]) -> bool
    ensures { result ≡ list_all (λ file. can_be_file stored.now file.path) files.now }
{
    files.iter().all(|file| can_be_file(stored, &file.path))
}

/// Whether files can stand side by side in memory, as `MemoryFiles::new` asks: their paths are
/// distinct and simple, and none is a folder of the others.
pub fn can_stand(stored: &[Stored]) -> bool
    ensures { result ≡ can_stand stored.now }
{
    are_distinct(stored) && can_be_files(stored, stored)
}
