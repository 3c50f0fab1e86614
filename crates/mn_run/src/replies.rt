//! Replies as lines.

ghost use Rattle.std.specs.Prelude.{◌≡◌, ◌++◌, ◌∷◌, [], OnOk, OnErr, IfOk, map, codes, decimal};
ghost use Rattle.term_core.specs.Tree as trees;
ghost use Rattle.term_core.specs.View.{tree_of, forest_of};
ghost use Rattle.term_text.specs.Appends.{Appends};
ghost use Rattle.term_text.specs.Printing.{comma_before, printed, trees_text};
ghost use Rattle.mn_node.specs.Effects as effects;
ghost use Rattle.mn_node.specs.Effects.{fault, found};
ghost use Rattle.mn_node.specs.Seen.{answer};
ghost use Rattle.mn_run.specs.Replies as replies;
ghost use Rattle.mn_run.specs.Replies.{text_of, line_of_reply};

use crate::terms::{atom, copied, named, number};
use file_trait::FileName;
use itoa::Buffer;
use mn_node::Reply;
use sqlite_items::Items;
use std::alloc::{AllocError, Global};
use term_core::{Atom, Term};
use term_text::print_term;

/// Adds the reply's line at the end of `out`, and nothing for damage. An error leaves `out` as it was.
pub fn print_reply(reply: &Reply, out: &mut Vec<u8>) -> Result<(), AllocError>
    ensures ok { OnOk result (out.new.items ≡ out.old.items ++ text_of (answer reply.now)) }
    ensures err { OnErr result (out.new.items ≡ out.old.items) }
{
    let before = out.len();
    match put_reply(reply, out) {
        Ok(()) => Ok(()),
        Err(AllocError) => {
            out.truncate(before);
            Err(AllocError)
        }
    }
}

fn put_reply(reply: &Reply, out: &mut Vec<u8>) -> Result<(), AllocError>
    ensures { Appends result out.old.items out.new.items (text_of (answer reply.now)) }
{
    match reply {
        Reply::Started(count) => put_count(b"{started,", *count, out),
        Reply::Done => out.extend_from_slice(b"{atomic,ok}\n"),
        Reply::Ok => out.extend_from_slice(b"ok\n"),
        Reply::Found(terms) => put_list(terms.as_slice(), out),
        Reply::Badarg(at) => put_count(b"{badarg,", *at, out),
        Reply::Synced => out.extend_from_slice(b"ok\n"),
        Reply::Stopped => out.extend_from_slice(b"stopped\n"),
        Reply::NoTable(name) => put_named("no_exists", name, out),
        Reply::Exists(name) => put_named("already_exists", name, out),
        Reply::BadRecord(item) => put_bad_record(item, out),
        Reply::BadName(name) => put_named("bad_name", name, out),
        Reply::BadOption(place) => put_bad_option(*place, out),
        Reply::NoTransaction(name) => put_named("no_transaction", name, out),
        Reply::Locked(by) => put_named("locked", by, out),
        Reply::TooManyTables => put_limit("tables", out),
        Reply::TooManyVersions => put_limit("versions", out),
        Reply::TooLong => put_limit("commit", out),
        Reply::TooManyTransactions => put_limit("transactions", out),
        Reply::TooManyCalls => put_limit("calls", out),
        Reply::Down => out.extend_from_slice(b"{error,down}\n"),
        Reply::Up => out.extend_from_slice(b"{error,up}\n"),
        Reply::Memory => out.extend_from_slice(b"{error,memory}\n"),
        Reply::Fault(name) => put_fault(name, out),
        Reply::Damaged(_, _) => Ok(()),
    }
}

fn put_count(front: &[u8], count: u64, out: &mut Vec<u8>) -> Result<(), AllocError>
    ensures { Appends result out.old.items out.new.items (front.now ++ (decimal count ++ codes "}\n")) }
{
    out.extend_from_slice(front)?;
    out.extend_from_slice(Buffer::new().format(count).as_bytes())?;
    out.extend_from_slice(b"}\n")
}

/// The line of the list of these terms, of which no term is made.
fn put_list(terms: &[Term], out: &mut Vec<u8>) -> Result<(), AllocError>
    ensures { Appends result out.old.items out.new.items (text_of (found (map tree_of terms.now))) }
{
    out.extend_from_slice(b"[")?;
    put_all(terms, out)?;
    out.extend_from_slice(b"]\n")
}

/// The terms, with commas between.
fn put_all(terms: &[Term], out: &mut Vec<u8>) -> Result<(), AllocError>
    ensures { Appends result out.old.items out.new.items (trees_text (forest_of terms.now)) }
{
    for (i, term) in terms.iter().enumerate() {
        put_next(i, term, out)?;
    }
    Ok(())
}

/// A term, and the comma before it, unless it is the first.
fn put_next(i: usize, term: &Term, out: &mut Vec<u8>) -> Result<(), AllocError>
    ensures { Appends result out.old.items out.new.items (comma_before i ++ printed (tree_of term.now)) }
{
    if i > 0 {
        out.push(b',')?;
    }
    put_term(term, out)
}

/// The line of a fault at the file of this name.
fn put_fault(name: &FileName, out: &mut Vec<u8>) -> Result<(), AllocError>
    ensures { Appends result out.old.items out.new.items (text_of (fault name.now)) }
{
    let error = file_error(*out.allocator(), name)?;
    put_term(&error, out)?;
    out.extend_from_slice(b"\n")
}

/// The line of a refusal that names a table or a transaction.
fn put_named(word: &str, name: &Atom, out: &mut Vec<u8>) -> Result<(), AllocError>
    ensures { Appends result out.old.items out.new.items
        (line_of_reply (Some (replies.refusal word.now (trees.atom name.now)))) }
{
    let name = named(*out.allocator(), name)?;
    put_refusal(word, name, out)
}

/// The line of a refusal where as many of these are as there may be.
fn put_limit(what: &str, out: &mut Vec<u8>) -> Result<(), AllocError>
    ensures { Appends result out.old.items out.new.items
        (line_of_reply (Some (replies.refusal (codes "limit") (trees.atom what.now)))) }
{
    let what = atom(*out.allocator(), what)?;
    put_refusal("limit", what, out)
}

fn put_bad_record(item: &Term, out: &mut Vec<u8>) -> Result<(), AllocError>
    ensures { Appends result out.old.items out.new.items (text_of (effects.bad_record (tree_of item.now))) }
{
    let item = copied(*out.allocator(), item)?;
    put_refusal("bad_type", item, out)
}

fn put_bad_option(place: u64, out: &mut Vec<u8>) -> Result<(), AllocError>
    ensures { Appends result out.old.items out.new.items (text_of (effects.bad_option place)) }
{
    put_refusal("bad_option", number(place), out)
}

/// The line of a refusal, `{aborted,{Word,Value}}`.
fn put_refusal(word: &str, value: Term, out: &mut Vec<u8>) -> Result<(), AllocError>
    ensures { Appends result out.old.items out.new.items
        (line_of_reply (Some (replies.refusal word.now (tree_of value)))) }
{
    let alloc = *out.allocator();
    let reason = tagged(alloc, word, value)?;
    let refusal = tagged(alloc, "aborted", reason)?;
    put_term(&refusal, out)?;
    out.extend_from_slice(b"\n")
}

/// `{error,{file,Name}}`. The bytes of a name are ASCII, so that only memory may be wanting.
fn file_error(alloc: Global, name: &FileName) -> Result<Term, AllocError>
    ensures { IfOk result (λ term. tree_of term ≡ replies.file_error name.now) }
{
    let Ok(text) = std::str::from_utf8(name.bytes()) else {
        return Err(AllocError);
    };
    let file = tagged(alloc, "file", atom(alloc, text)?)?;
    tagged(alloc, "error", file)
}

/// `{Name,Value}`
fn tagged(alloc: Global, name: &str, value: Term) -> Result<Term, AllocError>
    ensures { IfOk result (λ term. tree_of term ≡ replies.tagged name.now (tree_of value)) }
{
    let mut items = Items::new(alloc);
    items.push(atom(alloc, name)?)?;
    items.push(value)?;
    Ok(Term::Tuple(items))
}

fn put_term(term: &Term, out: &mut Vec<u8>) -> Result<(), AllocError>
    ensures { Appends result out.old.items out.new.items (printed (tree_of term.now)) }
{
    match print_term(term, out) {
        Ok(()) => Ok(()),
        // Only memory may be wanting.
        Err(_) => Err(AllocError),
    }
}
