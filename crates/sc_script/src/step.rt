ghost use Rattle.std.specs.Prelude.{◌≡◌};
ghost use Rattle.sc_script.specs.declared.step.StepFault.TheVariants.{OutOfMemory};

use sc_base::{Seq, Text};
use sc_json::Json;
use std::alloc::AllocError;

/// A load as a step tells it. Its trees weren't read yet.
#[derive(Drop)]
pub enum Draft {
    /// A collection is added, with this document, which is an object.
    Add {
        collection: Json,
    },
    /// A collection goes.
    Drop {
        collection: Text,
    },
    /// The items that these trees are are inserted, or upserted.
    Items {
        collection: Text,
        upsert: bool,
        items: Seq<Json>,
    },
    /// An item is put into the place of the one with its id.
    Replace {
        collection: Text,
        item: Json,
    },
    /// An item is patched.
    Patch {
        collection: Text,
        id: Text,
        patch: Json,
    },
    /// An item goes.
    Delete {
        collection: Text,
        id: Text,
    },
}

/// A step of a script. Names have 1 to 64 bytes.
#[derive(Drop)]
pub enum Step {
    /// The publisher with this number publishes a load.
    Publish {
        by: u32,
        load: Draft,
    },
    /// A snapshot is taken, and gets a name.
    Snapshot {
        name: Text,
    },
    /// The part of a collection with this key is looked at, and the ticket gets a name.
    Look {
        name: Text,
        collection: Text,
        key: i32,
    },
    /// The hull of the ticket with this name is installed.
    Install {
        ticket: Text,
    },
    /// A search over the snapshot with this name. Its body wasn't read yet.
    Search {
        on: Text,
        query: Json,
    },
}

/// Why no step is read of a line.
#[derive(Clone, Copy, Debug, PartialEq, Eq)]
pub enum StepFault {
    /// The line isn't of the grammar of steps.
    BadStep,
    /// There wasn't enough memory. It may come in place of any other answer.
    OutOfMemory,
}

impl From<AllocError> for StepFault {
    ghost from_gives = { λ _ e. e ≡ OutOfMemory };

    fn from(_: AllocError) -> Self {
        StepFault::OutOfMemory
    }
}
