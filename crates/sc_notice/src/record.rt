//! The list of a pass's calls, which no memory holds.
ghost use Rattle.std.specs.Prelude.{◌≡◌};

use crate::notice::{Call, Notice};
use atomic_table::{Play, Seat, Split, Table, TableRule};
use std::alloc::{AllocError, Global};
use std::collections::LinkedList;
use std::snapshot::Snapshot;

/// The rule of the record: each pen writes its own list, which begins empty.
pub struct AnyCalls;

impl TableRule<Snapshot<Notice>, LinkedList<Call>, ()> for AnyCalls {
    ghost use Rattle.std.specs.Prelude.{[]};

    ghost holds = { λ _ _. Unit {0} };

    ghost first = { λ _. [] };
}

/// A pen writes that a notice was told.
pub struct WritesTold;

impl Play<Snapshot<Notice>, LinkedList<Call>> for WritesTold {
    ghost use Rattle.sc_notice.specs.declared.notice.Call.TheVariants.{Told};
    ghost use Rattle.sc_notice.specs.Written.{wrote};

    ghost then = { wrote Told };
}

/// A pen writes that a notice was handed back.
pub struct WritesBack;

impl Play<Snapshot<Notice>, LinkedList<Call>> for WritesBack {
    ghost use Rattle.sc_notice.specs.declared.notice.Call.TheVariants.{HandedBack};
    ghost use Rattle.sc_notice.specs.Written.{wrote};

    ghost then = { wrote HandedBack };
}

/// A pen writes that a notice was heard.
pub struct WritesHeard;

impl Play<Snapshot<Notice>, LinkedList<Call>> for WritesHeard {
    ghost use Rattle.sc_notice.specs.declared.notice.Call.TheVariants.{Heard};
    ghost use Rattle.sc_notice.specs.Written.{wrote};

    ghost then = { wrote Heard };
}

/// A pen writes that none was heard.
pub struct WritesNone;

impl Play<Snapshot<Notice>, LinkedList<Call>> for WritesNone {
    ghost use Rattle.std.specs.Prelude.{◌≡◌, [], ◌∷◌, ◌++◌};
    ghost use Rattle.sc_notice.specs.declared.notice.Call.TheVariants.{HeardNone};

    ghost then = { λ st me found after. after ≡ (me.0 ++ HeardNone ∷ [], me.1) };
}

/// A further pen has written nothing.
pub struct BeginsAnew;

impl Split<LinkedList<Call>> for BeginsAnew {
    ghost use Rattle.std.specs.Prelude.{[]};

    ghost left = { λ v. v };

    ghost right = { λ v. [] };
}

/// What all pens of a queue write on.
#[derive(Drop)]
pub struct Record {
    table: Table<Snapshot<Notice>, LinkedList<Call>, (), AnyCalls, Global>,
    ghost sized: { table.shared.table_id.words ≡ 1 },
}

/// What one pass writes with.
pub type Pen = Seat<Snapshot<Notice>, LinkedList<Call>>;

impl Record {
    ghost use Rattle.std.specs.Prelude.{[], ◌∷◌, ◌++◌, IfOk};
    ghost use Rattle.sc_notice.specs.declared.notice.Call.TheVariants.{Told, HandedBack, Heard, HeardNone};
    ghost use Rattle.sc_notice.specs.Written.{record_id};

    /// A record, and a pen that has written nothing.
    pub fn new(alloc: Global) -> Result<(Record, Pen), AllocError>
        ensures { IfOk result (λ r. (r.1.table_id ≡ record_id r.0) × (r.1.me ≡ ([], []))) }
    {
        let (table, pen) = Table::of_words(alloc, &[0], &())?;
        Ok((Record { table }, pen))
    }

    /// A further pen.
    pub fn another(&self, pen: &mut Pen) -> Pen
        requires { pen.old.table_id ≡ record_id self.now }
        ensures old { (pen.new.table_id ≡ pen.old.table_id) × (pen.new.me ≡ pen.old.me) }
        ensures new { (result.table_id ≡ pen.old.table_id) × (result.me ≡ ([], [])) }
    {
        self.table.shared.split_seat::<BeginsAnew>(pen)
    }

    /// Writes that a notice was told.
    pub fn told(&self, pen: &mut Pen, notice: &Snapshot<Notice>)
        requires { pen.old.table_id ≡ record_id self.now }
        ensures { (pen.new.table_id ≡ pen.old.table_id) × (pen.new.me ≡ (pen.old.me.0 ++ Told notice.now.value ∷ [], pen.old.me.1)) }
    {
        self.table
            .shared
            .compare_exchange_with::<WritesTold>(pen, 0, 0, 0, notice);
    }

    /// Writes that a notice was handed back.
    pub fn handed_back(&self, pen: &mut Pen, notice: &Snapshot<Notice>)
        requires { pen.old.table_id ≡ record_id self.now }
        ensures { (pen.new.table_id ≡ pen.old.table_id) × (pen.new.me ≡ (pen.old.me.0 ++ HandedBack notice.now.value ∷ [], pen.old.me.1)) }
    {
        self.table
            .shared
            .compare_exchange_with::<WritesBack>(pen, 0, 0, 0, notice);
    }

    /// Writes that a notice was heard.
    pub fn heard(&self, pen: &mut Pen, notice: &Snapshot<Notice>)
        requires { pen.old.table_id ≡ record_id self.now }
        ensures { (pen.new.table_id ≡ pen.old.table_id) × (pen.new.me ≡ (pen.old.me.0 ++ Heard notice.now.value ∷ [], pen.old.me.1)) }
    {
        self.table
            .shared
            .compare_exchange_with::<WritesHeard>(pen, 0, 0, 0, notice);
    }

    /// Writes that none was heard.
    pub fn heard_none(&self, pen: &mut Pen)
        requires { pen.old.table_id ≡ record_id self.now }
        ensures { (pen.new.table_id ≡ pen.old.table_id) × (pen.new.me ≡ (pen.old.me.0 ++ HeardNone ∷ [], pen.old.me.1)) }
    {
        self.table.shared.load::<WritesNone>(pen, 0);
    }
}
