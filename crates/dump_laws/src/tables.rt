//! One table: its ops, what they do to each record, and contents that are between.

ghost use Rattle.std.specs.Prelude.{◌≡◌, ◌⊎◌, Bool, true, false, List, [], ◌∷◌, ◌++◌};
ghost use Rattle.std.specs.List.{AllByRecursion};
ghost use Rattle.term_core.specs.Tree.{Tree};
ghost use Rattle.db_model.specs.Database.{Contents, put_op};
ghost use Rattle.db_model.specs.Ops.{Operation};
ghost use Rattle.db_model.specs.declared.definition.Kind.{Kind};
ghost use Rattle.dump_laws.specs.Contents.{has, AreOrdered, IsKeyed};
ghost use Rattle.dump_laws.specs.Effects.{Rows, nothing, put, after, Between, IsAmong, IsCarried, AreIdle, IsDraft, IsRight};

/// Contents as lists: an op has on each record just its effect, and keeps the records in order. Lists in order are told
/// by the records that are there, so ops done over a list that is between give the very list that they give over the
/// first one.
#[tactic(none)]
pub fn contents_laws()
    ensures one_op { (kind : Kind) (op : Operation) (contents : Contents) (row : Tree)
        → has (put_op kind op contents) row ≡ put kind op (has contents) row }
    ensures ordered { (kind : Kind) (op : Operation) (contents : Contents)
        → IsKeyed op → AreOrdered contents → AreOrdered (put_op kind op contents) }
    ensures same { (one other : Contents) → AreOrdered one → AreOrdered other
        → ((row : Tree) → has one row ≡ has other row) → one ≡ other }
    ensures again { (kind : Kind) (first contents : Contents) (ops : List Operation) → AllByRecursion IsKeyed ops
        → AreOrdered first → AreOrdered contents → Between kind (has first) ops (has contents)
        → after put_op kind ops contents ≡ after put_op kind ops first }
{}

/// Contents that are between: what keeps them so, and that ops done over them give what they give over the first
/// contents.
#[tactic(none)]
pub fn between_laws()
    ensures again { (kind : Kind) (first rows : Rows) (ops : List Operation) → Between kind first ops rows
        → (row : Tree) → after put kind ops rows row ≡ after put kind ops first row }
    ensures still { (kind : Kind) (first : Rows) (ops : List Operation) → Between kind first ops first }

    // When ops are appended to the log.
    ensures appended { (kind : Kind) (first rows : Rows) (ops more : List Operation)
        → Between kind first ops rows → Between kind first (ops ++ more) rows }

    // When any one of the ops is done on the files, whatever ops are in them already.
    ensures carried { (kind : Kind) (first rows : Rows) (ops : List Operation) (op : Operation) → IsAmong op ops
        → Between kind first ops rows → Between kind first ops (put kind op rows) }
    ensures through { (kind : Kind) (first rows others : Rows) (ops : List Operation)
        → Between kind first ops rows → Between kind rows ops others → Between kind first ops others }
    ensures either { (kind : Kind) (first rows others mixed : Rows) (ops : List Operation)
        → Between kind first ops rows → Between kind first ops others
        → ((row : Tree) → (mixed row ≡ rows row) ⊎ (mixed row ≡ others row)) → Between kind first ops mixed }
{}

/// The ops of PREVIOUS.LOG, done one by one on the files.
#[tactic(none)]
pub fn carrying_laws()
    // The ops carried so far can be left out; with the next one done they can be left out with it.
    ensures next { (kind : Kind) (rows : Rows) (gone : List Operation) (op : Operation) (left : List Operation)
        → AreIdle kind gone (op ∷ left) rows → AreIdle kind (gone ++ op ∷ []) left (put kind op rows) }
    ensures appended { (kind : Kind) (rows : Rows) (gone left more : List Operation)
        → AreIdle kind gone left rows → AreIdle kind gone (left ++ more) rows }

    // All of them done, over files that are between.
    ensures all { (kind : Kind) (first rows : Rows) (previous latest : List Operation)
        → Between kind first (previous ++ latest) rows
        → IsCarried kind first previous latest (after put kind previous rows) }

    // What is carried is between, can be left out, and gives what all ops give over the first contents.
    ensures between { (kind : Kind) (first rows : Rows) (previous latest : List Operation)
        → IsCarried kind first previous latest rows → Between kind first (previous ++ latest) rows }
    ensures idle { (kind : Kind) (first rows : Rows) (previous latest : List Operation)
        → IsCarried kind first previous latest rows → AreIdle kind previous latest rows }
    ensures gives { (kind : Kind) (first rows : Rows) (previous latest : List Operation)
        → IsCarried kind first previous latest rows
        → (row : Tree) → after put kind latest rows row ≡ after put kind (previous ++ latest) first row }
{}

/// A draft that is written from the live table while ops come, and is swapped in.
#[tactic(none)]
pub fn draft_laws()
    ensures begun { (kind : Kind) (rows : Rows) (previous latest : List Operation)
        → IsRight kind rows previous latest nothing (λ row. false) }

    // A walk goes on to a place further on, and writes of each record what the live table has now.
    ensures walked { (kind : Kind) (rows : Rows) (previous latest : List Operation) (draft longer live : Rows)
        (upto further : Tree → Bool)
        → ((row : Tree) → live row ≡ after put kind (previous ++ latest) rows row)
        → ((row : Tree) → upto row ≡ true → longer row ≡ draft row)
        → ((row : Tree) → upto row ≡ false → further row ≡ true → longer row ≡ live row)
        → ((row : Tree) → further row ≡ false → longer row ≡ false)
        → IsRight kind rows previous latest draft upto → IsRight kind rows previous latest longer further }
    ensures appended { (kind : Kind) (rows : Rows) (previous latest more : List Operation) (draft : Rows)
        (upto : Tree → Bool)
        → IsRight kind rows previous latest draft upto → IsRight kind rows previous (latest ++ more) draft upto }
    ensures carried { (kind : Kind) (rows : Rows) (previous latest : List Operation) (op : Operation) (draft : Rows)
        (upto : Tree → Bool) → IsAmong op previous
        → IsRight kind rows previous latest draft upto → IsRight kind (put kind op rows) previous latest draft upto }
    ensures whole { (kind : Kind) (rows : Rows) (previous latest : List Operation) (draft : Rows) (upto : Tree → Bool)
        → ((row : Tree) → upto row ≡ true)
        → IsRight kind rows previous latest draft upto → IsDraft kind rows previous latest draft }

    // Swapped in, a draft is between, and PREVIOUS.LOG can be left out.
    ensures between { (kind : Kind) (rows draft : Rows) (previous latest : List Operation)
        → IsDraft kind rows previous latest draft → Between kind rows (previous ++ latest) draft }
    ensures swapped { (kind : Kind) (first rows draft : Rows) (previous latest : List Operation)
        → Between kind first (previous ++ latest) rows → IsDraft kind rows previous latest draft
        → IsCarried kind first previous latest draft }
    ensures idle { (kind : Kind) (rows draft : Rows) (previous latest : List Operation)
        → IsDraft kind rows previous latest draft → AreIdle kind previous latest draft }

    // The new file beside the old one of ops, which are done over it: each record is as before or as in the draft, and
    // the draft is one still.
    ensures beside { (kind : Kind) (base rows draft : Rows) (history : List Operation)
        → ((row : Tree) → rows row ≡ after put kind history base row)
        → (row : Tree) → (after put kind history draft row ≡ rows row)
        ⊎ (after put kind history draft row ≡ draft row) }
    ensures over { (kind : Kind) (rows draft mixed : Rows) (previous latest : List Operation)
        → ((row : Tree) → (mixed row ≡ rows row) ⊎ (mixed row ≡ draft row))
        → IsDraft kind rows previous latest draft → IsDraft kind mixed previous latest draft }
    ensures idle_either { (kind : Kind) (rows draft mixed : Rows) (gone left : List Operation)
        → ((row : Tree) → (mixed row ≡ rows row) ⊎ (mixed row ≡ draft row))
        → AreIdle kind gone left rows → AreIdle kind gone left draft → AreIdle kind gone left mixed }
{}
