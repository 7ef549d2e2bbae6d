//! What a transaction replaced, the newest first.
ghost use Rattle.std.specs.Prelude.{◌≡◌, ◌-◌, ◌<◌, ◌≤◌, [], ◌∷◌, OnOk, OnErr, IfSome, IfNone};

use amm_model::PairRecord;
use amm_names::{Asset, Holder, Memory, PoolName, UserName};
use std::alloc::Global;
use std::marker::Model;

/// What takes back one change of the ledger.
#[derive(Clone, Copy, Drop)]
pub enum Undo {
    Balance(Asset, Holder, u64),
    Token,
    NewPair,
    Pair(PoolName, PairRecord),
    NewQuote,
    NewObservation,
    FeeTo(Holder),
    Setter(UserName),
    Time(u64),
}

/// An entry of the journal: one closed type, so that the vector's calls need not know what it is
/// made of.
#[derive(Drop)]
struct Entry {
    undo: Undo,
}

impl Model for Entry {
    ghost use Rattle.amm_state.specs.declared.journal.Undo.{Undo};
    ghost use Rattle.amm_state.specs.Journal.{undo_code};

    ghost Value = { Undo };

    ghost coded = { undo_code };

    ghost view = { λ entry. entry.undo };
}

/// The changes that were made since the opening ledger.
#[derive(Drop)]
pub struct Journal {
    entries: Vec<Entry>,
}

impl Model for Journal {
    ghost use Rattle.std.specs.Prelude.{◌-◌, reverse, length};
    ghost use Rattle.amm_state.specs.Journal.{Notes, notes_code};

    ghost Value = { Notes };

    ghost coded = { notes_code };

    ghost view = { λ journal. record { changes = reverse journal.entries.items; room = journal.entries.cap - journal.entries.len } };
}

impl Journal {
    pub fn new(alloc: Global) -> Journal
        ensures { result.changes ≡ [] }
    {
        Journal {
            entries: Vec::new(alloc),
        }
    }

    /// Makes room for n more changes, so that noting them cannot fail once they are made.
    pub fn reserve(&mut self, n: usize) -> Result<(), Memory>
        ensures room { OnOk result (n ≤ self.new.room) }
        ensures full { OnErr result (self.old.room < n) }
        ensures same { self.new.changes ≡ self.old.changes }
    {
        self.entries.reserve(n)?;
        Ok(())
    }

    /// Notes a change, for which there is room.
    pub fn note(&mut self, undo: Undo)
        requires { 0 < self.old.room }
        ensures noted { self.new.changes ≡ undo ∷ self.old.changes }
        ensures room { self.new.room ≡ self.old.room - 1 }
    {
        self.entries.push_reserved(Entry { undo });
    }

    /// Takes the newest change out.
    pub fn pop(&mut self) -> Option<Undo>
        ensures some { IfSome result (λ undo. self.old.changes ≡ undo ∷ self.new.changes) }
        ensures none { IfNone result (self.old.changes ≡ []) }
        ensures left { IfNone result (self.new.changes ≡ []) }
    {
        match self.entries.pop() {
            Some(entry) => Some(entry.undo),
            None => None,
        }
    }

    /// Forgets all changes, and keeps the room for the next ones.
    pub fn clear(&mut self)
        ensures forgotten { self.new.changes ≡ [] }
        ensures room { self.old.room ≤ self.new.room }
    {
        self.entries.clear();
    }
}
