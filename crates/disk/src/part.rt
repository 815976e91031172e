// The part file, which stands beside a file until it is whole.
ghost use Rattle.std.specs.Prelude.{◌+◌, ◌≤◌, ◌≡◌, ◌++◌, length, take};
ghost use Rattle.disk.specs.Load.{IsPrefixLen};
ghost use Rattle.disk.specs.Part.{suffix};

use crate::System;
use std::fs::{OpenFile, OpenOptions};
use std::io::Write;
use std::rt::Files;
use std::{fs, io};

// The longest path, with the 0 that C adds.
pub const PATH_MAX: usize = 4096;

// The longest path whose part file has a path too: five bytes of suffix, and the 0 that C adds.
pub const LONGEST: usize = PATH_MAX - 6;

// The path with `.part` after it, at the start of `to`.
pub fn name(path: &[u8], to: &mut [u8]) -> usize
    requires { length path.now + 5 ≤ length to.old }
    ensures prefix_len { IsPrefixLen result to.new }
    ensures to_after { take result to.new ≡ path.now ++ suffix }
{
    let n = path.len();
    let end = n + 5;
    to[..n].copy_from_slice(path);
    to[n..end].copy_from_slice(b".part");
    end
}

// Makes the file with these bytes, or says why not and leaves none. A file that is there already
// is left alone: it may be another program's, at work on the same file.
pub fn make<R: Files, E: Print>(system: &System<R, E>, path: &str, bytes: &[u8]) -> Option<()> {
    let made = OpenOptions::new()
        .write(true)
        .create_new(true)
        .open(system.rt, path);
    let mut file = system.told(path.as_bytes(), made)?;
    let filled = system.told(path.as_bytes(), reached(&mut file, bytes));
    drop(file);
    if filled.is_none() {
        let _ = fs::remove_file(system.rt, path);
    }
    filled
}

// Whether all the bytes were written and have reached the device.
fn reached<F: Write + OpenFile>(file: &mut F, bytes: &[u8]) -> io::Result<()> {
    file.write_all(bytes)?;
    file.sync_all()
}
