//! A shelf: folders of files, and one draft at a time that becomes a folder in one step.
ghost use Rattle.std.specs.Prelude.{◌≡◌, ◌<◌, ◌≤◌, ℕ, true, List, Option, length, take, IfOk, IfSome, OnOk, OnErr, IsErrOf, IsTrue};
ghost use Rattle.std.specs.Option.{option_map};
ghost use Rattle.std.specs.FinMap.{get};
ghost use Rattle.mt_shelf.specs.Causes.{HasCause, grown_count};
ghost use Rattle.mt_shelf.specs.Paths.{is_path, is_relative};
ghost use Rattle.mt_shelf.specs.Files.{stands, entries_below, listing_of, IsListing, IsOffsetIn, IsSliceOf, HasPaths};
ghost use Rattle.mt_shelf.specs.Bytes.{HasBytes};
ghost use Rattle.mt_shelf.specs.State.{State, Closes, Drops, AllOrNone, after_begin, after_put, after_read, files_of, published_files};

use crate::{CallError, Entry};
use mt_types::List;

/// Files by their paths, and one draft of files that are to be published below a target.
///
/// Each call leaves what its clauses don't name. A path has names with `/` between them.
pub trait Shelf {
    /// The files and the draft where they are known, whether a draft is open, and how many bytes
    /// reads gave.
    ghost state: { Self → State };

    /// How often it failed. The count stands still at its last value.
    ghost faults: { Self → ℕ };

    /// The size of a file in bytes, or `None` where no file has the path.
    fn size(&mut self, path: &str) -> Result<Option<u64>, CallError>
        requires { IsTrue (is_path path.now) }
        ensures known { IfOk result (λ size. IfSome (files_of (state self.old)) (λ files. size ≡ option_map length (get files path.now))) }
        ensures state { state self.new ≡ state self.old }
        ensures cause { HasCause (faults self.old) (faults self.new) result };

    /// The files below a part, in the byte order of their names, or `None` where there is none.
    fn list(&mut self, part: &str) -> Result<Option<List<Entry>>, CallError>
        requires { IsTrue (is_path part.now) }
        ensures known { IfOk result (λ listing. IfSome (files_of (state self.old)) (λ files. listing ≡ listing_of (entries_below part.now files))) }
        ensures form { IfOk result (λ listing. IfSome listing IsListing) }
        ensures state { state self.new ≡ state self.old }
        ensures cause { HasCause (faults self.old) (faults self.new) result };

    /// Whether a file has the path or lies below it.
    fn exists(&mut self, part: &str) -> Result<bool, CallError>
        requires { IsTrue (is_path part.now) }
        ensures known { IfOk result (λ found. IfSome (files_of (state self.old)) (λ files. found ≡ stands part.now files)) }
        ensures state { state self.new ≡ state self.old }
        ensures cause { HasCause (faults self.old) (faults self.new) result };

    /// Gives bytes of a file from an offset on, at least one. Where the files aren't known, an offset
    /// that isn't there is a fault.
    fn read(&mut self, path: &str, at: u64, into: &mut [u8]) -> Result<usize, CallError>
        requires path { IsTrue (is_path path.now) }
        requires room { 0 < length into.old }
        requires there { IfSome (files_of (state self.old)) (λ files. IsOffsetIn files path.now at) }
        ensures some { IfOk result (λ n. 0 < n) }
        ensures bound { IfOk result (λ n. n ≤ length into.new) }
        ensures known { IfOk result (λ n. IfSome (files_of (state self.old)) (λ files. IfSome (get files path.now) (λ bytes. IsSliceOf bytes at (take n into.new)))) }
        ensures state { IfOk result (λ n. state self.new ≡ after_read n (state self.old)) }
        ensures err { OnErr result (state self.new ≡ state self.old) }
        ensures cause { HasCause (faults self.old) (faults self.new) result };

    /// Opens an empty draft for a part, and drops an older one. After an error none is open.
    fn begin(&mut self, part: &str) -> Result<(), CallError>
        requires { IsTrue (is_path part.now) }
        ensures ok { OnOk result (state self.new ≡ after_begin part.now (state self.old)) }
        ensures err { OnErr result (Drops (state self.old) (state self.new)) }
        ensures cause { HasCause (faults self.old) (faults self.new) result };

    /// Adds a file to the draft. After an error none is open.
    fn put(&mut self, name: &str, bytes: &[u8]) -> Result<(), CallError>
        requires name { IsTrue (is_relative name.now) }
        requires begun { (state self.old).begun ≡ true }
        ensures ok { OnOk result (state self.new ≡ after_put name.now bytes.now (state self.old)) }
        ensures err { OnErr result (Drops (state self.old) (state self.new)) }
        ensures cause { HasCause (faults self.old) (faults self.new) result };

    /// The files gain the draft's below its target in one step, in the place of those of the same
    /// paths. After `Failed` they have gained all or none, after `NoMemory` none.
    fn publish(&mut self) -> Result<(), CallError>
        requires { (state self.old).begun ≡ true }
        ensures ok { OnOk result (Closes (state self.old) (state self.new) (option_map published_files (state self.old).content)) }
        ensures failed { IsErrOf result CallError.Failed → AllOrNone (state self.old) (state self.new) }
        ensures memory { IsErrOf result CallError.NoMemory → Drops (state self.old) (state self.new) }
        ensures cause { HasCause (faults self.old) (faults self.new) result };

    /// The known files stand at paths.
    ghost paths: { (shelf : Self) → IfSome (files_of (state shelf)) HasPaths };

    /// The known files hold bytes.
    ghost bytes: { (shelf : Self) → IfSome (files_of (state shelf)) HasBytes };
}
