//! The words of the command line.

ghost use Rattle.std.specs.Prelude.{◌↔◌, ◌∷◌, [], map, string_bytes, IsTrue};
ghost use Rattle.mn_run.specs.Words.{HasForm};

pub fn has_form(words: &[String]) -> bool
    ensures { IsTrue result ↔ HasForm (map string_bytes words.now) }
{
    match words {
        [dir] => is_dir(dir.as_bytes()),
        _ => false,
    }
}

fn is_dir(dir: &[u8]) -> bool
    ensures { IsTrue result ↔ HasForm (dir.now ∷ []) }
{
    !dir.is_empty() && dir.len() <= 4096 && dir[0] != b'-'
}
