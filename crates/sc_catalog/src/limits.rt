//! The limits of a catalogue.
ghost use Rattle.sc_catalog.specs.Answers.{AnswersCollections, AnswersFull, AnswersParts};

use sc_load::LoadFault;

/// The most entries of a history.
const MOST_ENTRIES: u64 = 1_000_000;

/// The most bytes of the loads of a history.
const MOST_BYTES: u64 = 536_870_912;

/// The most parts.
const MOST_PARTS: u64 = 65_536;

/// The most collections.
const MOST_COLLECTIONS: u64 = 1_024;

/// Refuses a history of more than 1,000,000 entries or 2^29 bytes.
pub(crate) fn refuse_full(entries: u64, bytes: u64) -> Result<(), LoadFault>
    ensures { AnswersFull entries bytes result }
{
    if entries > MOST_ENTRIES || bytes > MOST_BYTES {
        return Err(LoadFault::HistoryFull { entries, bytes });
    }
    Ok(())
}

/// Refuses more than 65,536 parts.
pub(crate) fn refuse_parts(count: u64) -> Result<(), LoadFault>
    ensures { AnswersParts count result }
{
    if count > MOST_PARTS {
        return Err(LoadFault::PartitionsFull { count });
    }
    Ok(())
}

/// Refuses more than 1,024 collections.
pub(crate) fn refuse_collections(count: u64) -> Result<(), LoadFault>
    ensures { AnswersCollections count result }
{
    if count > MOST_COLLECTIONS {
        return Err(LoadFault::CollectionsFull { count });
    }
    Ok(())
}
