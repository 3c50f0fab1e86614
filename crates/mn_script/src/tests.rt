//! Lines of other tables of forms, which no script shows. What the program's lines ask for, and where others are
//! refused, is shown by scripts.

use crate::{Form, Kind, LineErr, read_line};
use std::alloc::Global;
use std::test::Fail;

/// Forms with names of backups and with numbers.
const FORMS: [Form<'static>; 3] = [
    Form {
        word: b"backup",
        kinds: &[Kind::Atom, Kind::Name],
    },
    Form {
        word: b"back",
        kinds: &[Kind::Name],
    },
    Form {
        word: b"generate",
        kinds: &[
            Kind::Atom,
            Kind::Number(0, 4_294_967_295),
            Kind::Number(1, 1_000_000),
        ],
    },
];

// The number of its form and of its arguments, or where the line is refused.
fn formed(alloc: Global, line: &[u8]) -> Result<Option<(usize, usize)>, LineErr> {
    let later: [&[u8]; 1] = [b"traverse"];
    match read_line(alloc, &FORMS, &later, line) {
        Ok(Some((number, arguments))) => Ok(Some((number, arguments.len()))),
        Ok(None) => Ok(None),
        Err(error) => Err(error),
    }
}

/// Each line, and its form or where it is refused.
const FORMED: [(&str, Result<Option<(usize, usize)>, LineErr>); 21] = [
    ("backup c 'F@1'", Ok(Some((0, 2)))),
    ("back c", Ok(Some((1, 1)))),
    ("generate t 4294967295 1000000", Ok(Some((2, 3)))),
    ("generate t 0 1", Ok(Some((2, 3)))),
    ("backup c 'a b'", Err(LineErr::Badarg(9))),
    ("backup c 'a b", Err(LineErr::Badarg(13))),
    ("backup c ''", Err(LineErr::Badarg(9))),
    ("backup c FALLBACK", Err(LineErr::Badarg(9))),
    ("back 'FALLBACK'", Err(LineErr::Badarg(5))),
    ("backu c", Err(LineErr::Badarg(5))),
    ("bac", Err(LineErr::Badarg(3))),
    ("backx", Err(LineErr::Badarg(4))),
    ("generate t 4294967296 1", Err(LineErr::Badarg(11))),
    ("generate t 1 0", Err(LineErr::Badarg(13))),
    ("generate t 1 01", Err(LineErr::Badarg(13))),
    ("generate t 01 1", Err(LineErr::Badarg(12))),
    ("generate t -1 1", Err(LineErr::Badarg(11))),
    ("generate t 1 1000001", Err(LineErr::Badarg(13))),
    (
        "generate t 1 999999999999999999999999999999999999999999999999x",
        Err(LineErr::Badarg(13)),
    ),
    ("traverse t", Err(LineErr::Badarg(0))),
    ("  traverse t", Err(LineErr::Badarg(0))),
];

#[test]
fn lines_have_forms(rt: HostRuntime) -> Result<(), Fail> {
    for (line, form) in FORMED {
        assert_eq!(rt; formed(rt.alloc(), line.as_bytes()), form, "{line}");
    }
    Ok(())
}
