ghost use Rattle.std.specs.Prelude.{◌≡◌, ◌+◌, ◌<◌, ◌^◌, length, MatchResult};
ghost use Rattle.sc_load.specs.declared.fault.LoadFault.TheVariants.{OutOfMemory};

use sc_catalog::LoadFault;
use sc_journal::Sealed;

/// The bytes of a journal's records, which would be too many.
pub(crate) const TOO_MANY: u64 = 1 << 63;

/// The bytes of a record beside its payload: a gate and a length.
const FRAME: u64 = 9;

/// The bytes of a journal's records with one more. Where they would be 2^63 or more, memory is wanting.
pub(crate) fn size_with(size: u64, sealed: &Sealed) -> Result<u64, LoadFault>
    requires { size < 2 ^ 63 }
    ensures { MatchResult result (λ new. (new ≡ size + 9 + length sealed.now) × (new < 2 ^ 63)) (λ fault. fault ≡ OutOfMemory) }
{
    let room = TOO_MANY - size;
    let payload = sealed.payload().len() as u64;
    if room <= FRAME || payload >= room - FRAME {
        return Err(LoadFault::OutOfMemory);
    }
    Ok(size + FRAME + payload)
}
