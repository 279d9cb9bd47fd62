ghost use Rattle.std.specs.Prelude.{◌≡◌};
ghost use Rattle.sc_script.specs.Step.{kind_of, size_of};

/// The kinds of steps.
#[derive(Clone, Copy, Debug, PartialEq, Eq)]
pub(crate) enum Kind {
    Add,
    Drop,
    Insert,
    Upsert,
    Replace,
    Patch,
    Delete,
    Snapshot,
    Look,
    Install,
    Search,
}

/// The kind for which a word stands.
pub(crate) fn kind_of(word: &str) -> Option<Kind>
    ensures { result ≡ kind_of word.now }
{
    match word {
        "add" => Some(Kind::Add),
        "drop" => Some(Kind::Drop),
        "insert" => Some(Kind::Insert),
        "upsert" => Some(Kind::Upsert),
        "replace" => Some(Kind::Replace),
        "patch" => Some(Kind::Patch),
        "delete" => Some(Kind::Delete),
        "snapshot" => Some(Kind::Snapshot),
        "look" => Some(Kind::Look),
        "install" => Some(Kind::Install),
        "search" => Some(Kind::Search),
        _ => None,
    }
}

/// How many members the objects of a kind have.
pub(crate) fn size_of(kind: Kind) -> usize
    ensures { result ≡ size_of kind }
{
    match kind {
        Kind::Snapshot | Kind::Install => 2,
        Kind::Add | Kind::Drop | Kind::Search => 3,
        Kind::Insert | Kind::Upsert | Kind::Replace | Kind::Delete | Kind::Look => 4,
        Kind::Patch => 5,
    }
}
