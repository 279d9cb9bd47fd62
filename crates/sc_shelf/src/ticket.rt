ghost use Rattle.std.specs.Prelude.{◌≡◌};
ghost use Rattle.sc_shelf.specs.Ticket.{hull_at};

use crate::version::SharedVersion;
use sc_bounds::Bounds;
use sc_cut::PartName;
use std::marker::Model;

/// A version of a part as it was looked at: the part's name, its stamp and its items, however the catalogue changes since.
#[derive(Drop)]
pub struct Ticket {
    version: SharedVersion,
}

impl Model for Ticket {
    ghost use Rattle.sc_part.specs.Version.{Version};
    ghost use Rattle.std.specs.Coded.{codes};
    ghost use Rattle.sc_json.specs.contracts.tree.Json as e;

    ghost Value = { Version };

    ghost coded = { Prim.hlevel (codes, e.the_row.coded) };

    ghost view = { λ t. t.version };
}

/// A ticket that was tightened: the hull of its items, with the part's name and stamp. Contracts see it as a `Hull`.
#[derive(Drop)]
pub struct Tight {
    version: SharedVersion,
}

impl Model for Tight {
    ghost use Rattle.sc_shelf.specs.Ticket.{Hull, hull_at};

    ghost Value = { Hull };

    ghost view = { λ t. hull_at t.version };
}

impl Ticket {
    /// A ticket of a version.
    pub(crate) fn of(version: SharedVersion) -> Ticket
        ensures { result ≡ version }
    {
        Ticket { version }
    }

    /// The part's name.
    pub fn name(&self) -> &PartName
        ensures { result.now ≡ self.now.name }
    {
        self.version.get().name()
    }

    /// The revision that made the version.
    pub fn stamp(&self) -> u64
        ensures { result ≡ self.now.stamp }
    {
        self.version.get().stamp()
    }

    /// The hull of the ticket's items. It keeps the ticket's version, so no name is copied and no memory is taken.
    pub fn tighten(self) -> Tight
        ensures { result ≡ hull_at self }
    {
        let Ticket { version } = self;
        Tight { version }
    }
}

impl Tight {
    /// The part's name.
    pub fn name(&self) -> &PartName
        ensures { result.now ≡ self.now.name }
    {
        self.version.get().name()
    }

    /// The revision at which the part had this hull.
    pub fn stamp(&self) -> u64
        ensures { result ≡ self.now.stamp }
    {
        self.version.get().stamp()
    }

    /// The hull.
    pub fn bounds(&self) -> Bounds
        ensures { result ≡ self.now.bounds }
    {
        self.version.hull()
    }
}
