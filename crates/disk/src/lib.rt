// Files by name: a whole file, or standard input, into a lent buffer, and a file that is written
// whole or not at all. What went wrong is said on standard error, as `NAME: reason`.
#![tactic(auto)]

mod part;

ghost use Rattle.std.specs.Prelude.{◌≡◌, None, Ok, IfSome};
ghost use Rattle.disk.specs.Load.{Holds, HoldBoth, Takes};

pub use part::PATH_MAX;
use std::env::FillError;
use std::fmt::InlineText;
use std::io::Read;
use std::rt::{Env, Files};
use std::{fs, io};

// Errors of the system's, by their numbers, so that they are said in its own words: no such word, a
// word longer than its buffer, and a name that is no text.
const EINVAL: i32 = 22;

const ENAMETOOLONG: i32 = 36;

const EILSEQ: i32 = 84;

// The system that a program runs on, and where the program says what went wrong.
#[derive(Drop)]
pub struct System<'a, R, E> {
    pub rt: &'a R,
    pub err: &'a E,
}

impl<R: Files, E: Print> System<'_, R, E> {
    // The file's bytes, as many as the buffer has room for: how many stand at the buffer's start, or
    // None once the failure has been said. The buffer is the caller's, and `Holds` speaks of it, so
    // the answer is a count. A file that may be too long is told by one byte of room more than it
    // may have.
    pub fn load(&self, path: &[u8], buf: &mut [u8]) -> Option<usize>
        ensures { Holds result buf.new }
    {
        let name = self.text(path)?;
        let mut file = self.told(path, fs::open(self.rt, name))?;
        self.fill(&mut file, path, buf)
    }

    // Writes the bytes beside the file, under its name with `.part` after it, and renames that over
    // it, so that a reader finds the old bytes or the new and never a part. Where that fails, it says
    // why, and the file is as it was. The mode is that of a file newly made.
    //
    // Here and below None means that the failure has been said: no error is left to hand on, and `?`
    // ends the rest.
    pub fn save(&self, path: &[u8], bytes: &[u8]) -> Option<()> {
        if path.len() > part::LONGEST {
            self.say(path);
            self.say(b": the name is too long\n");
            return None;
        }
        let mut name = [0u8; part::PATH_MAX];
        let n = part::name(path, &mut name);
        let whole = self.text(path)?;
        let part = std::str::from_utf8(&name[..n]).ok()?;
        part::make(self, part, bytes)?;
        self.moved(part, whole)
    }

    // Renames the part file over the file; where that fails, it says why and removes the part.
    fn moved(&self, part: &str, whole: &str) -> Option<()> {
        let renamed = self.told(whole.as_bytes(), fs::rename(self.rt, part, whole));
        if renamed.is_none() {
            let _ = fs::remove_file(self.rt, part);
        }
        renamed
    }
}

impl<R: Files + Env, E: Print> System<'_, R, E> {
    // The same as `load` of the file that the program's argument i names.
    pub fn load_argument(&self, i: usize, buf: &mut [u8]) -> Option<usize>
        ensures { Holds result buf.new }
    {
        let mut path = [0u8; part::PATH_MAX];
        let n = self.argument(i, &mut path)?;
        self.load(&path[..n], buf)
    }

    // The same of the files that argument i and the one after it name: the second only once the
    // first is loaded.
    pub fn load_two(&self, i: usize, first: &mut [u8], second: &mut [u8]) -> Option<(usize, usize)>
        ensures { HoldBoth result first.new second.new }
    {
        let n = self.load_argument(i, first)?;
        let m = self.load_argument(i.saturating_add(1), second)?;
        Some((n, m))
    }
}

impl<R: Env, E: Print> System<'_, R, E> {
    // The program's argument i. One that is not there, or has no room in the buffer, is said.
    pub fn argument(&self, i: usize, buf: &mut [u8]) -> Option<usize>
        ensures { Holds result buf.new }
    {
        match self.rt.arg(i, buf) {
            Ok(n) => Some(n),
            Err(FillError::NotPresent) => self.failed(b"argument", EINVAL),
            Err(FillError::TooLong) => self.failed(b"argument", ENAMETOOLONG),
        }
    }
}

impl<R: Env, E> System<'_, R, E> {
    // How many words the program was started with, its own name among them.
    pub fn words(&self) -> usize {
        let mut room = [0u8; 1];
        (0..usize::MAX)
            .find(|i| matches!(self.rt.arg(*i, &mut room), Err(FillError::NotPresent)))
            .unwrap_or(usize::MAX)
    }
}

impl<R, E: Print> System<'_, R, E> {
    // The same as `load` of standard input.
    pub fn read_input<I: Read>(&self, input: &mut I, buf: &mut [u8]) -> Option<usize>
        ensures within { Holds result buf.new }
        ensures bytes { Takes result (I.remaining input.old) (I.remaining input.new) buf.new }
    {
        self.fill(input, b"standard input", buf)
    }

    // Reads until the buffer is full or the input ends: a pipe may hand over less than was asked for.
    // Each turn leaves less room, so the loop ends; no range counts the turns, since a read says
    // itself how far it came.
    fn fill<I: Read>(&self, input: &mut I, name: &[u8], buf: &mut [u8]) -> Option<usize>
        ensures within { Holds result buf.new }
        ensures bytes { Takes result (I.remaining input.old) (I.remaining input.new) buf.new }
    {
        let mut done: usize = 0;
        while done < buf.len() {
            let more = self.told(name, input.read(&mut buf[done..]))?;
            if more == 0 {
                return Some(done);
            }
            done += more;
        }
        Some(done)
    }

    // The name as text: by no other can std find a file. One that is no text is said.
    fn text<'a>(&self, name: &'a [u8]) -> Option<&'a str> {
        match std::str::from_utf8(name) {
            Ok(text) => Some(text),
            Err(_) => self.failed(name, EILSEQ),
        }
    }

    // What the system gave, or None once its error has been said.
    fn told<T: Drop>(&self, name: &[u8], given: io::Result<T>) -> Option<T>
        ensures { IfSome result (λ value. given ≡ Ok value) }
    {
        given.map_err(|error| self.fail(name, error)).ok()
    }

    // None, once the error of this number has been said.
    fn failed<T>(&self, name: &[u8], number: i32) -> Option<T>
        ensures { result ≡ None }
    {
        self.fail(name, io::Error::from_raw_os_error(number));
        None
    }

    // Says on standard error what failed and why, as `NAME: reason`.
    pub fn fail(&self, name: &[u8], error: io::Error) {
        let said = InlineText::<128>::of(error);
        let whole = said.as_str();
        let reason = whole
            .split_once(" (os error ")
            .map_or(whole, |(reason, _)| reason);
        self.say(name);
        self.say(b": ");
        self.say(reason.as_bytes());
        self.say(b"\n");
    }

    // Writes the bytes to standard error, as far as it takes them.
    pub fn say(&self, bytes: &[u8]) {
        let _ = self.err.write_all(bytes);
    }
}
