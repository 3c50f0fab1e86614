//! The arguments of a line taken apart.

ghost use Rattle.std.specs.Prelude.{◌≡◌, ℕ, List, [], ◌∷◌, map};
ghost use Rattle.std.specs.Option.{option_map};
ghost use Rattle.term_core.specs.Tree.{Tree};
ghost use Rattle.term_core.specs.View.{tree_of};
ghost use Rattle.mn_script.specs.declared.forms.Kind.TheVariants as kind;
ghost use Rattle.mn_script.specs.Commands.{Command, first_atom, first_tree, made_of};

use sqlite_items::Items;
use term_core::{Atom, Term};

/// `Some` where there are no arguments.
pub fn no_argument(arguments: &Items<Term>) -> Option<()>
    ensures { (command : Command) → option_map (λ _. command) result ≡ made_of [] command (map tree_of arguments.now) }
{
    if !arguments.is_empty() {
        return None;
    }
    Some(())
}

/// The atom, where it is the argument.
pub fn one_atom(arguments: Items<Term>) -> Option<Atom>
    ensures { (make : List ℕ → Command)
        → option_map (λ a. make a) result ≡ made_of (kind.Atom ∷ []) make (map tree_of arguments) }
{
    let mut rest = arguments;
    let atom = next_atom(&mut rest)?;
    if !rest.is_empty() {
        return None;
    }
    Some(atom)
}

/// The atom and the term, where they are the arguments.
pub fn atom_and_term(arguments: Items<Term>) -> Option<(Atom, Term)>
    ensures { (make : List ℕ → Tree → Command)
        → option_map (λ x. make x.0 (tree_of x.1)) result
        ≡ made_of (kind.Atom ∷ kind.Term ∷ []) make (map tree_of arguments) }
{
    let mut rest = arguments;
    let atom = next_atom(&mut rest)?;
    let term = next_term(&mut rest)?;
    if !rest.is_empty() {
        return None;
    }
    Some((atom, term))
}

/// The two atoms, where they are the arguments.
pub fn two_atoms(arguments: Items<Term>) -> Option<(Atom, Atom)>
    ensures { (make : List ℕ → List ℕ → Command)
        → option_map (λ x. make x.0 x.1) result ≡ made_of (kind.Atom ∷ kind.Atom ∷ []) make (map tree_of arguments) }
{
    let mut rest = arguments;
    let first = next_atom(&mut rest)?;
    let second = next_atom(&mut rest)?;
    if !rest.is_empty() {
        return None;
    }
    Some((first, second))
}

/// The two atoms and the term, where they are the arguments.
pub fn two_atoms_and_term(arguments: Items<Term>) -> Option<(Atom, Atom, Term)>
    ensures { (make : List ℕ → List ℕ → Tree → Command)
        → option_map (λ x. make x.0 x.1 (tree_of x.2)) result
        ≡ made_of (kind.Atom ∷ kind.Atom ∷ kind.Term ∷ []) make (map tree_of arguments) }
{
    let mut rest = arguments;
    let first = next_atom(&mut rest)?;
    let (second, term) = atom_and_term(rest)?;
    Some((first, second, term))
}

/// The first argument, where it is an atom.
fn next_atom(arguments: &mut Items<Term>) -> Option<Atom>
    ensures { option_map (λ a. (a, map tree_of arguments.new)) result ≡ first_atom (map tree_of arguments.old) }
{
    match next_term(arguments)? {
        Term::Atom(atom) => Some(atom),
        _ => None,
    }
}

/// The first argument.
fn next_term(arguments: &mut Items<Term>) -> Option<Term>
    ensures { option_map (λ t. (tree_of t, map tree_of arguments.new)) result ≡ first_tree (map tree_of arguments.old) }
{
    if arguments.is_empty() {
        return None;
    }
    Some(arguments.remove(0))
}
