//! Paths of files in one directory, made with no memory.

ghost use Rattle.std.specs.Prelude.{◌≡◌, ◌+◌, ◌≤◌, ◌++◌, ◌∷◌, [], IfOk, length, string_len, string_bytes};
ghost use Rattle.std.specs.String.{string_capacity};

use file_trait::FileName;
use std::alloc::{AllocError, Global};
use std::io;

/// Makes the path of a file in the room that it took when it was made.
#[derive(Drop)]
pub struct FilePath {
    dir: String,
    text: String,
    ghost room: { string_len dir + 81 ≤ string_capacity text },
}

impl FilePath {
    pub fn new(alloc: Global, dir: &str) -> Result<FilePath, AllocError>
        requires { length dir.now ≤ 4096 }
        ensures { IfOk result (λ path. string_bytes path.dir ≡ dir.now) }
    {
        Ok(FilePath {
            dir: String::from_str(alloc, dir)?,
            text: String::with_capacity(alloc, dir.len() + 81)?,
        })
    }

    /// The path of the directory.
    pub fn dir(&self) -> &str
        ensures { result.now ≡ string_bytes self.now.dir }
    {
        self.dir.as_str()
    }

    /// The path of this file: the directory, a slash and the name. A name is plain ASCII, so this doesn't fail.
    pub fn of(&mut self, name: &FileName) -> io::Result<&str>
        ensures { IfOk result (λ path. path.now ≡ string_bytes self.old.dir ++ 47 ∷ [] ++ name.now) }
    {
        let name = match str::from_utf8(name.bytes()) {
            Ok(name) => name,
            Err(_) => return Err(io::ErrorKind::InvalidInput.into()),
        };
        self.text.clear();
        put(&mut self.text, self.dir.as_str());
        put(&mut self.text, "/");
        put(&mut self.text, name);
        Ok(self.text.as_str())
    }
}

// Puts a text behind another, in room that is there.
fn put(text: &mut String, more: &str)
    requires { string_len text.old + length more.now ≤ string_capacity text.old }
    ensures bytes { string_bytes text.new ≡ string_bytes text.old ++ more.now }
    ensures len { string_len text.new ≡ string_len text.old + length more.now }
    ensures capacity { string_capacity text.old ≤ string_capacity text.new }
{
    match text.push_str(more) {
        Ok(()) => {}
        Err(_) => unreachable!(),
    }
}
