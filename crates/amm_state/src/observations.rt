//! The kept observations, and beside them when each pool's were made, to search by time.
ghost use Rattle.std.specs.Prelude.{◌≡◌, ◌-◌, ◌≤◌, ◌++◌, ◌∷◌, [], take, length, AllPairs, OnOk, OnErr, IfSome, IfNone, Some, None, if◌then◌else◌};
ghost use Rattle.std.specs.List.Sorted.{IsNonDecreasingBy};
ghost use Rattle.std.specs.Option.{option_map};
ghost use Rattle.amm_names.specs.Names.{Name};
ghost use Rattle.amm_model.specs.declared.observation.Observation.{Observation as Kept};
ghost use Rattle.amm_model.specs.Ledger.{observation_at};
ghost use Rattle.amm_model.specs.Observations.{is_before};
ghost use Rattle.amm_model.specs.Oracle.{last_from};
ghost use Rattle.amm_model.specs.Pools.{same_name};
ghost use Rattle.amm_state.specs.Observations.{last_by, moments_of};

use crate::Seed;
use amm_model::Observation;
use amm_names::{Memory, PoolName};
use indexmap::IndexMap;
use std::alloc::Global;
use std::marker::Model;

/// When an observation was made, and its number.
#[derive(Clone, Copy, Drop)]
pub(crate) struct Moment {
    time: u64,
    number: u64,
}

/// The moments of one pool, in the order of their numbers.
#[derive(Drop)]
struct Moments {
    moments: Vec<Moment>,
}

impl Model for Moments {
    ghost use Rattle.std.specs.Prelude.{List};
    ghost use Rattle.amm_state.specs.declared.observations.Moment.{Moment};
    ghost use Rattle.amm_state.specs.Observations.{moments_code};

    ghost Value = { List Moment };

    ghost coded = { moments_code };

    ghost view = { λ m. m.moments.items };
}

impl Moments {
    fn new(alloc: Global) -> Moments
        ensures { result ≡ [] }
    {
        Moments {
            moments: Vec::new(alloc),
        }
    }

    fn push(&mut self, moment: Moment) -> Result<(), Memory>
        ensures ok { OnOk result (self.new ≡ self.old ++ moment ∷ []) }
        ensures err { OnErr result (self.new ≡ self.old) }
    {
        self.moments.push(moment)?;
        Ok(())
    }

    fn pop(&mut self)
        ensures { self.new ≡ take (length self.old - 1) self.old }
    {
        let _ = self.moments.pop();
    }

    // The number of the last one at this time or before.
    fn last_by(&self, latest: u64) -> Option<u64>
        requires { IsNonDecreasingBy (λ m. m.time) self.now }
        ensures { result ≡ last_by latest self.now }
    {
        let count = self
            .moments
            .as_slice()
            .partition_point(|m| m.time <= latest);
        if count == 0 {
            return None;
        }
        Some(self.moments[count - 1].number)
    }
}

// Notes a moment of a pool, the last.
fn note(
    rows: &mut IndexMap<PoolName, Moments, Seed>,
    alloc: Global,
    pool: &PoolName,
    moment: Moment,
) -> Result<(), Memory>
    ensures ok { OnOk result ((q : Name) → moments_of rows.new.entries q ≡ (if same_name q pool.now then moments_of rows.old.entries q ++ moment ∷ [] else moments_of rows.old.entries q)) }
    ensures err { OnErr result ((q : Name) → moments_of rows.new.entries q ≡ moments_of rows.old.entries q) }
{
    if let Some(moments) = rows.get_mut(pool) {
        return moments.push(moment);
    }
    let mut moments = Moments::new(alloc);
    moments.push(moment)?;
    rows.insert(*pool, moments)?;
    Ok(())
}

// Strikes out the last moment of a pool.
fn strike(rows: &mut IndexMap<PoolName, Moments, Seed>, pool: &PoolName)
    ensures { (q : Name) → moments_of rows.new.entries q ≡ (if same_name q pool.now then take (length (moments_of rows.old.entries q) - 1) (moments_of rows.old.entries q) else moments_of rows.old.entries q) }
{
    if let Some(moments) = rows.get_mut(pool) {
        moments.pop();
    }
}

/// Observations in the order in which they were made. Contracts see their list.
#[derive(Drop)]
pub(crate) struct Observations {
    kept: Vec<Observation>,
    rows: IndexMap<PoolName, Moments, Seed>,
}

impl Model for Observations {
    ghost use Rattle.std.specs.Prelude.{List};
    ghost use Rattle.amm_model.specs.declared.observation.Observation.{Observation};
    ghost use Rattle.amm_state.specs.Observations.{observations_code, AreFiled};

    ghost Value = { List Observation };

    ghost coded = { observations_code };

    ghost view = { λ o. o.kept.items };

    ghost invariant = { λ o. AreFiled o.rows.entries o.kept.items };
}

impl Observations {
    /// None.
    pub fn new(alloc: Global, seed: Seed) -> Observations
        ensures { result ≡ [] }
    {
        Observations {
            kept: Vec::new(alloc),
            rows: IndexMap::with_hasher(alloc, seed),
        }
    }

    /// How many there are.
    pub fn len(&self) -> usize
        ensures { result ≡ length self.now }
    {
        self.kept.len()
    }

    /// The one with this number, counted from 1, if it is kept.
    pub fn get(&self, number: u64) -> Option<&Observation>
        ensures some { IfSome result (λ observation. observation_at self.now number ≡ Some observation.now) }
        ensures none { IfNone result (observation_at self.now number ≡ None) }
    {
        let before = number.checked_sub(1)?;
        self.kept.get(before as usize)
    }

    /// The number of a pool's last one at this time or before.
    pub fn last_by(&self, pool: &PoolName, latest: u64) -> Option<u64>
        requires { AllPairs (λ (a b : Kept). a.time ≤ b.time) self.now }
        ensures { result ≡ option_map (λ found. found.0) (last_from 1 (is_before pool.now 0 latest) self.now) }
    {
        match self.rows.get(pool) {
            Some(moments) => moments.last_by(latest),
            None => None,
        }
    }

    /// Keeps one more, the last.
    pub fn push(&mut self, alloc: Global, observation: Observation) -> Result<(), Memory>
        ensures ok { OnOk result (self.new ≡ self.old ++ observation ∷ []) }
        ensures err { OnErr result (self.new ≡ self.old) }
    {
        // With room for the observation nothing can fail once its moment is noted.
        self.kept.reserve(1)?;
        let moment = Moment {
            time: observation.time,
            number: self.kept.len() as u64 + 1,
        };
        note(&mut self.rows, alloc, &observation.pool, moment)?;
        self.kept.push_reserved(observation);
        Ok(())
    }

    /// Gives up the last one.
    pub fn pop(&mut self)
        ensures { self.new ≡ take (length self.old - 1) self.old }
    {
        if let Some(last) = self.kept.pop() {
            strike(&mut self.rows, &last.pool);
        }
    }
}
