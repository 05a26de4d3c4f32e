//! Writing whole: bytes into a sink, and files onto a shelf.
ghost use Rattle.std.specs.Prelude.{◌≡◌, ◌<◌, ◌≤◌, ◌⊎◌, length, map, OnOk, OnErr, IsErrOf, IsTrue, true, All};
ghost use Rattle.std.specs.Option.{option_map};
ghost use Rattle.std.specs.List.{list_all};
ghost use Rattle.std.specs.Str.{IsUtf8};
ghost use Rattle.std.specs.Io.KnownBytes.{append_known};
ghost use Rattle.mt_shelf.specs.Causes.{HasCause};
ghost use Rattle.mt_shelf.specs.Paths.{is_path, is_relative};
ghost use Rattle.mt_shelf.specs.Files.{gained_files, is_file_name};
ghost use Rattle.mt_shelf.specs.State.{files_of, after_put, after_puts, Drops, Stores};
ghost use Rattle.mt_shelf.specs.Held.{pair_of, HasName};
ghost use Rattle.mt_shelf.specs.Streams.{GrowsByPrefix};

use crate::bytes::rest_from;
use crate::paths::is_file_name;
use crate::{CallError, Shelf, Sink};
use mt_fault::FileBytes;

/// Writes all bytes. After an error the first of them are written.
pub fn write_all<K: Sink>(sink: &mut K, bytes: &[u8]) -> Result<(), CallError>
    ensures ok { OnOk result (K.written sink.new ≡ append_known (K.written sink.old) bytes.now) }
    ensures err { OnErr result (GrowsByPrefix bytes.now (K.written sink.old) (K.written sink.new)) }
    ensures cause { HasCause (K.faults sink.old) (K.faults sink.new) result }
{
    let mut at = 0;
    while at < bytes.len() {
        at += sink.write(rest_from(bytes, at))?;
    }
    Ok(())
}

fn put_file<F: Shelf>(shelf: &mut F, file: &FileBytes) -> Result<(), CallError>
    requires utf8 { IsUtf8 file.now.name }
    requires name { IsTrue (is_relative file.now.name) }
    requires begun { (F.state shelf.old).begun ≡ true }
    ensures ok { OnOk result (F.state shelf.new ≡ after_put file.now.name file.now.bytes (F.state shelf.old)) }
    ensures err { OnErr result (Drops (F.state shelf.old) (F.state shelf.new)) }
    ensures cause { HasCause (F.faults shelf.old) (F.faults shelf.new) result }
{
    match str::from_utf8(file.name.as_slice()) {
        Ok(name) => shelf.put(name, file.bytes.as_slice()),
        Err(_) => unreachable!(),
    }
}

fn put_all<F: Shelf>(shelf: &mut F, files: &[FileBytes]) -> Result<(), CallError>
    requires names { All HasName files.now }
    requires begun { (F.state shelf.old).begun ≡ true }
    ensures ok { OnOk result (F.state shelf.new ≡ after_puts (map pair_of files.now) (F.state shelf.old)) }
    ensures err { OnErr result (Drops (F.state shelf.old) (F.state shelf.new)) }
    ensures cause { HasCause (F.faults shelf.old) (F.faults shelf.new) result }
{
    for file in files {
        put_file(shelf, file)?;
    }
    Ok(())
}

/// Whether the files' names are ones that `store` takes.
pub fn have_names(files: &[FileBytes]) -> bool
    ensures found { result ≡ true → All HasName files.now }
    ensures only { All HasName files.now → result ≡ true }
{
    all_file_names(files)
}

fn all_file_names(files: &[FileBytes]) -> bool
    ensures { result ≡ list_all (λ file. is_file_name file.name) files.now }
{
    files.iter().all(|file| is_file_name(file.name.as_slice()))
}

/// Publishes files below a part in one step. After `Failed` they may stand, after `NoMemory` not.
pub fn store<F: Shelf>(shelf: &mut F, part: &str, files: &[FileBytes]) -> Result<(), CallError>
    requires part { IsTrue (is_path part.now) }
    requires names { All HasName files.now }
    ensures stored { Stores (option_map (gained_files part.now (map pair_of files.now)) (files_of (F.state shelf.old))) (F.state shelf.old) (F.state shelf.new) result }
    ensures cause { HasCause (F.faults shelf.old) (F.faults shelf.new) result }
{
    shelf.begin(part)?;
    put_all(shelf, files)?;
    shelf.publish()
}
