ghost use Rattle.std.specs.Prelude.{◌≡◌, [], ◌∷◌, ◌++◌, Some, IfSome, IsSomeAnd, ◌<◌, ◌≤◌, ◌⊎◌, IfOk, OnOk, OnErr, IsErrOf, IsTrue, if◌then◌else◌, length, vec_len, option_copied, position, find, map, string_bytes};
ghost use Rattle.std.specs.Str.{bytes_eq};
ghost use Rattle.tp_world.specs.Counts.{one_more};
ghost use Rattle.tp_world.specs.Contents.{FilesView, KeepsOthers, Stores, content_of, file_of, fails_next};
ghost use Rattle.tp_world.specs.Faults.{CountsLoad, CountsSave, load_faults_after};
ghost use Rattle.tp_world.specs.Requests.{Load, Save};

use crate::requests::Requests;
use std::alloc::Global;
use std::marker::Model;
use tp_spec::NoMemory;

/// Why a load was refused: the files failed; the content is longer than asked for; or memory was
/// refused.
#[derive(Clone, Copy, Debug, PartialEq, Eq)]
pub enum LoadFault {
    Failed,
    TooLong,
    NoMemory,
}

/// Why a save was refused: the files failed, or memory was refused.
#[derive(Clone, Copy, Debug, PartialEq, Eq)]
pub enum SaveFault {
    Failed,
    NoMemory,
}

/// Files by their names.
pub trait Files {
    /// The contents by name, where the files say them, how often a load and a save failed, and what
    /// they were asked for.
    ghost view: { Self → FilesView };

    /// The content of a name, of at most `most` bytes. It changes no content. A load that fails
    /// raises the count of failed loads; every other leaves it.
    fn load(&mut self, alloc: Global, name: &str, most: u64) -> Result<Vec<u8>, LoadFault>
        ensures within { IfOk result (λ text. vec_len text ≤ most) }
        ensures content { IfOk result (λ text. IfSome (view self.old).contents
            (λ content. content name.now ≡ Some text.items)) }

        // With `within` and `content`: exactly where it is too long, unless it failed.
        ensures too_long { IsErrOf result LoadFault.TooLong
            → IfSome (view self.old).contents
            (λ content. IsSomeAnd (content name.now) (λ bytes. most < length bytes)) }
        ensures contents { (view self.new).contents ≡ (view self.old).contents }
        ensures load_faults { CountsLoad result (view self.old).load_faults
            (view self.new).load_faults }
        ensures save_faults { (view self.new).save_faults ≡ (view self.old).save_faults }
        ensures requests { (view self.new).requests ≡ (view self.old).requests ++ Load name.now
            ∷ [] };

    /// Gives a name these bytes as its content. A save that fails raises the count of failed saves,
    /// and the name may then have any content; every other leaves the count.
    fn save(&mut self, alloc: Global, name: &str, bytes: &[u8]) -> Result<(), SaveFault>
        ensures ok { OnOk result
            (Stores (view self.old).contents (view self.new).contents name.now bytes.now) }
        ensures others { IsErrOf result SaveFault.Failed
            → KeepsOthers (view self.old).contents (view self.new).contents name.now }
        ensures no_memory { IsErrOf result SaveFault.NoMemory
            → (view self.new).contents ≡ (view self.old).contents }
        ensures save_faults { CountsSave result (view self.old).save_faults
            (view self.new).save_faults }
        ensures load_faults { (view self.new).load_faults ≡ (view self.old).load_faults }
        ensures requests { (view self.new).requests
            ≡ (view self.old).requests ++ Save name.now bytes.now ∷ [] };
}

/// Files in memory. Some of the loads and saves fail.
#[derive(Debug, Drop)]
pub struct MemoryFiles {
    entries: Vec<(String, Vec<u8>)>,
    failing: Vec<u64>,
    calls: u64,
    load_faults: u64,
    save_faults: u64,
    requests: Requests,
}

impl Model for MemoryFiles {
    ghost use Rattle.std.specs.Prelude.{map};
    ghost use Rattle.tp_world.specs.Contents.{FilesState, file_of};

    ghost Value = { FilesState };

    ghost view = { λ f. record {
      files = map file_of f.entries.items;
      failing = f.failing.items;
      calls = f.calls;
      load_faults = f.load_faults;
      save_faults = f.save_faults;
      requests = f.requests.made;
    } };
}

impl MemoryFiles {
    /// Files with these contents by name; where a name stands twice, the first counts. `failing`
    /// has the numbers of the calls that fail, loads and saves counted together from 0.
    pub fn new(contents: Vec<(String, Vec<u8>)>, failing: Vec<u64>) -> MemoryFiles
        ensures { result ≡ record {
          files = map file_of contents.items;
          failing = failing.items;
          calls = 0;
          load_faults = 0;
          save_faults = 0;
          requests = [];
        } }
    {
        MemoryFiles {
            entries: contents,
            failing,
            calls: 0,
            load_faults: 0,
            save_faults: 0,
            requests: Requests::new(),
        }
    }

    /// The content of a name, if it has one.
    pub fn content(&self, name: &str) -> Option<&[u8]>
        ensures { option_copied result ≡ content_of self.now.files name.now }
    {
        content_in(&self.entries, name)
    }

    /// Counts a call, and says whether it is one of those that fail.
    fn fails_now(&mut self) -> bool
        ensures fails { result ≡ fails_next self.old }
        ensures counted { self.new ≡ record self.old { calls = one_more self.old.calls } }
    {
        let fails = self.failing.contains(&self.calls);
        self.calls = self.calls.saturating_add(1);
        fails
    }
}

impl Files for MemoryFiles {
    ghost view = { λ f. record {
      contents = Some (content_of f.files);
      load_faults = f.load_faults;
      save_faults = f.save_faults;
      requests = f.requests;
    } };

    /// Memory may be refused wherever there is a content to give.
    fn load(&mut self, alloc: Global, name: &str, most: u64) -> Result<Vec<u8>, LoadFault>
        ensures ok { IfOk result (λ text. (content_of self.old.files name.now ≡ Some text.items)
            × (vec_len text ≤ most)) }
        ensures too_long { IsErrOf result LoadFault.TooLong
            → IsSomeAnd (content_of self.old.files name.now) (λ bytes. most < length bytes) }
        ensures fails { IsTrue (fails_next self.old) → result ≡ Err LoadFault.Failed }
        ensures absent { content_of self.old.files name.now ≡ None → result ≡ Err LoadFault.Failed }
        ensures failed { IsErrOf result LoadFault.Failed
            → IsTrue (fails_next self.old) ⊎ (content_of self.old.files name.now ≡ None) }
        ensures counted { self.new ≡ record self.old {
          calls = one_more self.old.calls;
          load_faults = load_faults_after self.old.load_faults result;
          requests = self.old.requests ++ Load name.now ∷ [];
        } }
    {
        let fails = self.fails_now();
        self.requests.note_load(name.as_bytes());
        if fails {
            self.load_faults = self.load_faults.saturating_add(1);
            return Err(LoadFault::Failed);
        }
        match content_in(&self.entries, name) {
            None => {
                self.load_faults = self.load_faults.saturating_add(1);
                Err(LoadFault::Failed)
            }
            Some(bytes) if bytes.len() as u64 > most => Err(LoadFault::TooLong),
            Some(bytes) => match Vec::from_slice(alloc, bytes) {
                Ok(text) => Ok(text),
                Err(_) => Err(LoadFault::NoMemory),
            },
        }
    }

    /// A save that fails changes no content. Memory may be refused at any other.
    fn save(&mut self, alloc: Global, name: &str, bytes: &[u8]) -> Result<(), SaveFault>
        ensures ok { OnOk result (Stores (Some (content_of self.old.files))
            (Some (content_of self.new.files)) name.now bytes.now) }
        ensures fails { IsTrue (fails_next self.old) → result ≡ Err SaveFault.Failed }
        ensures failed { IsErrOf result SaveFault.Failed → IsTrue (fails_next self.old) }
        ensures no_change { OnErr result (self.new.files ≡ self.old.files) }
        ensures counted { self.new ≡ record self.old {
          files = self.new.files;
          calls = one_more self.old.calls;
          save_faults =
              (if fails_next self.old then one_more self.old.save_faults else self.old.save_faults);
          requests = self.old.requests ++ Save name.now bytes.now ∷ [];
        } }
    {
        let fails = self.fails_now();
        self.requests.note_save(name.as_bytes(), bytes);
        if fails {
            self.save_faults = self.save_faults.saturating_add(1);
            return Err(SaveFault::Failed);
        }
        match store(alloc, &mut self.entries, name, bytes) {
            Ok(()) => Ok(()),
            Err(NoMemory) => Err(SaveFault::NoMemory),
        }
    }
}

/// The content of a name among these entries.
fn content_in<'a>(entries: &'a [(String, Vec<u8>)], name: &str) -> Option<&'a [u8]>
    ensures { option_copied result ≡ content_of (map file_of entries.now) name.now }
{
    let entry = entry_of(entries, name)?;
    Some(entry.1.as_slice())
}

/// A name's first entry.
fn entry_of<'a>(entries: &'a [(String, Vec<u8>)], name: &str) -> Option<&'a (String, Vec<u8>)>
    ensures { option_copied result
        ≡ find (λ entry. bytes_eq (string_bytes entry.0) name.now) entries.now }
{
    entries.iter().find(|entry| entry.0.as_str() == name)
}

/// The place of a name's first entry.
fn place_of(entries: &[(String, Vec<u8>)], name: &str) -> Option<usize>
    ensures { result ≡ position (λ entry. bytes_eq (string_bytes entry.0) name.now) entries.now }
{
    entries.iter().position(|entry| entry.0.as_str() == name)
}

/// Gives a name these bytes as its content.
fn store(
    alloc: Global,
    entries: &mut Vec<(String, Vec<u8>)>,
    name: &str,
    bytes: &[u8],
) -> Result<(), NoMemory>
    ensures ok { OnOk result (Stores (Some (content_of (map file_of entries.old.items)))
        (Some (content_of (map file_of entries.new.items))) name.now bytes.now) }
    ensures err { OnErr result (entries.new.items ≡ entries.old.items) }
{
    let Ok(content) = Vec::from_slice(alloc, bytes) else {
        return Err(NoMemory);
    };
    match place_of(entries, name) {
        Some(at) => {
            entries[at].1 = content;
            Ok(())
        }
        None => append(alloc, entries, name, content),
    }
}

/// Puts an entry behind the others.
fn append(
    alloc: Global,
    entries: &mut Vec<(String, Vec<u8>)>,
    name: &str,
    content: Vec<u8>,
) -> Result<(), NoMemory>
    ensures ok { OnOk result (map file_of entries.new.items ≡ map file_of entries.old.items
        ++ (name.now, content.items) ∷ []) }
    ensures err { OnErr result (entries.new.items ≡ entries.old.items) }
{
    let Ok(name) = String::from_str(alloc, name) else {
        return Err(NoMemory);
    };
    let Ok(()) = entries.push((name, content)) else {
        return Err(NoMemory);
    };
    Ok(())
}
