//! Files in memory, of which one at a time is open.
ghost use Rattle.std.specs.Prelude.{◌≡◌, ◌+◌, ◌<◌, ◌≤◌, ◌++◌, ◌^◌, [], true, false, drop, take, length, min, position};
ghost use Rattle.w_outside.specs.Outside.{holds, missing};
ghost use Rattle.w_outside.specs.Files.{known_in, bytes_at, has_name};

use crate::offer::after;

// The place of the first file with a name.
fn place_of(files: &Vec<(String, Vec<u8>)>, name: &str) -> Option<usize>
    ensures { result ≡ position (has_name name.now) files.now.items }
{
    files.iter().position(|file| file.0.as_str() == name)
}

// Copies bytes to the front of a buffer, as many as it takes.
fn copy_to(rest: &[u8], buf: &mut [u8]) -> usize
    ensures bound { result ≤ length buf.new }
    ensures within { result ≤ length rest.now }
    ensures whole { result ≡ min (length buf.new) (length rest.now) }
    ensures bytes { rest.now ≡ take result buf.new ++ drop result rest.now }
    ensures end { result ≡ 0 → 0 < length buf.new → rest.now ≡ [] }
{
    let count = buf.len().min(rest.len());
    buf[..count].copy_from_slice(&rest[..count]);
    count
}

// Reads on in the file at a place, of which `at` bytes were read.
fn read_at(files: &Vec<(String, Vec<u8>)>, place: usize, at: usize, buf: &mut [u8]) -> usize
    ensures bound { result ≤ length buf.new }
    ensures fits { at + result < 2 ^ 64 }
    ensures whole { result ≡ min (length buf.new) (length (drop at (bytes_at files.now.items place))) }
    ensures bytes { drop at (bytes_at files.now.items place)
        ≡ take result buf.new ++ drop (at + result) (bytes_at files.now.items place) }
    ensures end { result ≡ 0 → 0 < length buf.new → drop (at + result) (bytes_at files.now.items place) ≡ [] }
{
    match files.get(place) {
        Some(file) if at < file.1.len() => copy_to(after(file.1.as_slice(), at), buf),
        _ => 0,
    }
}

/// Files in memory. Of two with one name the first counts.
#[derive(Drop)]
pub(crate) struct Files {
    pub(crate) files: Vec<(String, Vec<u8>)>,
    // The place of the open file, past the last where none is open, and how many bytes of it were read.
    pub(crate) place: usize,
    pub(crate) at: usize,
}

impl Files {
    /// The files, with none open.
    pub(crate) fn new(files: Vec<(String, Vec<u8>)>) -> Files
        ensures files { result.files ≡ files }
        ensures closed { drop result.at (bytes_at result.files.items result.place) ≡ [] }
    {
        let place = files.len();
        Files {
            files,
            place,
            at: 0,
        }
    }

    /// Leaves nothing open.
    pub(crate) fn close(&mut self)
        ensures files { self.new.files ≡ self.old.files }
        ensures closed { drop self.new.at (bytes_at self.new.files.items self.new.place) ≡ [] }
    {
        self.at = 0;
        self.place = self.files.len();
    }

    /// Opens the first file with a name, or says that there is none.
    pub(crate) fn open(&mut self, name: &str) -> bool
        ensures files { self.new.files ≡ self.old.files }
        ensures found { result ≡ true → known_in self.new.files.items name.now
            ≡ holds (drop self.new.at (bytes_at self.new.files.items self.new.place)) }
        ensures none { result ≡ false → known_in self.new.files.items name.now ≡ missing }
        ensures closed { result ≡ false → drop self.new.at (bytes_at self.new.files.items self.new.place) ≡ [] }
    {
        self.close();
        match place_of(&self.files, name) {
            Some(place) => {
                self.at = 0;
                self.place = place;
                true
            }
            None => false,
        }
    }

    /// Reads the next bytes of the open file to the front of a buffer, as many as it takes.
    pub(crate) fn read(&mut self, buf: &mut [u8]) -> usize
        ensures files { self.new.files ≡ self.old.files }
        ensures bound { result ≤ length buf.new }
        ensures whole { result ≡ min (length buf.new) (length (drop self.old.at (bytes_at self.old.files.items self.old.place))) }
        ensures bytes { drop self.old.at (bytes_at self.old.files.items self.old.place)
            ≡ take result buf.new ++ drop self.new.at (bytes_at self.new.files.items self.new.place) }
        ensures end { result ≡ 0 → 0 < length buf.new
            → drop self.new.at (bytes_at self.new.files.items self.new.place) ≡ [] }
    {
        let count = read_at(&self.files, self.place, self.at, buf);
        self.at += count;
        count
    }
}
