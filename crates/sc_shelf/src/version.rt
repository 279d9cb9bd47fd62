ghost use Rattle.std.specs.Prelude.{◌≡◌, IfOk};
ghost use Rattle.sc_history.specs.Names.{hull_of};

use sc_bounds::Bounds;
use sc_part::PartVersion;
use std::alloc::{AllocError, Global};
use std::marker::Model;
use std::sync::Arc;

/// A version of a part that is shared by pointer, which contracts see as the version.
#[derive(Drop)]
pub(crate) struct SharedVersion {
    inner: Arc<PartVersion>,
}

impl Model for SharedVersion {
    ghost use Rattle.std.specs.Arc.{arc_value};
    ghost use Rattle.sc_part.specs.Version.{Version};
    ghost use Rattle.std.specs.Coded.{codes};
    ghost use Rattle.sc_json.specs.contracts.tree.Json as e;

    ghost Value = { Version };

    ghost coded = { Prim.hlevel (codes, e.the_row.coded) };

    ghost view = { λ s. arc_value s.inner };
}

impl SharedVersion {
    /// The version, to be shared.
    pub fn of(alloc: Global, version: PartVersion) -> Result<SharedVersion, AllocError>
        ensures { IfOk result (λ s. s ≡ version) }
    {
        Ok(SharedVersion {
            inner: Arc::new(alloc, version)?,
        })
    }

    /// The same version by one more pointer.
    pub fn share(&self) -> Result<SharedVersion, AllocError>
        ensures { IfOk result (λ s. s ≡ self.now) }
    {
        Ok(SharedVersion {
            inner: Arc::try_clone(&self.inner)?,
        })
    }

    /// The version itself.
    pub fn get(&self) -> &PartVersion
        ensures { result.now ≡ self.now }
    {
        &self.inner
    }

    /// The smallest bounds that cover all items. They are kept, so this takes no time.
    pub fn hull(&self) -> Bounds
        ensures { result ≡ hull_of self.now.items }
    {
        self.inner.hull()
    }
}
