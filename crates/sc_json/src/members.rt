ghost use Rattle.std.specs.Prelude.{◌≡◌, [], ◌∷◌, ◌++◌, OnOk, IfOk};
ghost use Rattle.sc_json.specs.Names.{has_name, Agree, AgreeIfAny};

use crate::tree::Member;
use sc_base::{Seq, Text};
use std::alloc::{AllocError, Global};
use std::collections::BTreeSet;
use std::marker::Model;

/// From this number of members on a name is looked up in a set.
const MANY: usize = 24;

/// The members so far of an object, which contracts see as their list. Where there are many, their names are in a set
/// beside it, so that a name is found without a look at each.
#[derive(Drop)]
pub struct Members {
    items: Vec<Member>,
    names: Option<BTreeSet<Text>>,
}

impl Model for Members {
    ghost use Rattle.std.specs.Prelude.{List};
    ghost use Rattle.sc_json.specs.declared.tree.Member.{Member};
    ghost use Rattle.sc_json.specs.contracts.tree.Json as e;
    ghost use Rattle.std.specs.Coded.{codes};

    ghost Value = { List Member };

    ghost coded = { Prim.hlevel (codes, e.the_row.coded) };

    ghost use Rattle.sc_json.specs.Names.{AgreeIfAny};

    ghost view = { λ m. m.items.items };

    ghost invariant = { λ m. AgreeIfAny m.names m.items.items };
}

impl Members {
    /// No members. Takes no memory.
    pub fn new(alloc: Global) -> Members
        ensures { result ≡ [] }
    {
        Members {
            items: Vec::new(alloc),
            names: None,
        }
    }

    /// Whether a member has the name.
    pub fn has(&self, name: &Text) -> bool
        ensures { result ≡ has_name self.now name.now }
    {
        match &self.names {
            None => has_name(self.items.as_slice(), name),
            Some(names) => names.contains(name),
        }
    }

    /// Adds a member at the end.
    pub fn push(&mut self, alloc: Global, member: Member) -> Result<(), AllocError>
        ensures { OnOk result (self.new ≡ self.old ++ member ∷ []) }
    {
        let names = self.names.take();
        let names = with_name(alloc, names, self.items.as_slice(), &member)?;
        self.items.push(member)?;
        self.names = names;
        Ok(())
    }

    /// The members in their order.
    pub fn into_seq(self) -> Seq<Member>
        ensures { result ≡ self }
    {
        let Members {
            items,
            names: _names,
        } = self;
        Seq::of(items)
    }
}

fn has_name(members: &[Member], name: &Text) -> bool
    ensures { result ≡ has_name members.now name.now }
{
    members.iter().any(|member| member.name == *name)
}

/// The set with one more name, or a new set of all names where there are many.
fn with_name(
    alloc: Global,
    names: Option<BTreeSet<Text>>,
    items: &[Member],
    member: &Member,
) -> Result<Option<BTreeSet<Text>>, AllocError>
    requires { AgreeIfAny names items.now }
    ensures { IfOk result (λ more. AgreeIfAny more (items.now ++ member.now ∷ [])) }
{
    match names {
        Some(names) => Ok(Some(insert_name(alloc, names, items, member)?)),
        None => {
            if items.len() < MANY {
                return Ok(None);
            }
            let names = names_of(alloc, items)?;
            Ok(Some(insert_name(alloc, names, items, member)?))
        }
    }
}

fn insert_name(
    alloc: Global,
    mut names: BTreeSet<Text>,
    items: &[Member],
    member: &Member,
) -> Result<BTreeSet<Text>, AllocError>
    requires { Agree names items.now }
    ensures { IfOk result (λ more. Agree more (items.now ++ member.now ∷ [])) }
{
    let name = member.name.try_clone(alloc)?;
    names.insert(name)?;
    Ok(names)
}

fn names_of(alloc: Global, members: &[Member]) -> Result<BTreeSet<Text>, AllocError>
    ensures { IfOk result (λ names. Agree names members.now) }
{
    let mut names = BTreeSet::new(alloc);
    for (i, member) in members.iter().enumerate() {
        names = insert_name(alloc, names, &members[..i], member)?;
    }
    Ok(names)
}
