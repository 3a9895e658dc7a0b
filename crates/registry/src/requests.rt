//! Requests.

ghost use Rattle.std.specs.Prelude.{◌≡◌, None};
ghost use Rattle.std.specs.Map.{lookup};
ghost use Rattle.std.specs.Option.{option_copied};
ghost use Rattle.std.specs.Str.{bytes_eq};
ghost use Rattle.versions.specs.Refusals.{Gives};
ghost use Rattle.versions.specs.Words.{Text};
ghost use Rattle.registry.specs.Preference.{admits, meets_needs};
ghost use Rattle.registry.specs.Requests.{is_locked, locks, request_in, request_refusal};

use crate::by_name::{find, places_by_name, repeats};
use crate::registry::NEED_LIMIT;
use std::alloc::Global;
use std::marker::Model;
use versions::{Name, Need, Published, Refusal, order};

/// The most lines of a request's lock.
pub const LOCK_LIMIT: usize = 65_535;

/// What is asked for: packages with requirements, and the versions that a lock names.
///
/// The places of both lists in the order of their names are kept with them, so that the line of a
/// package is found without a look at each.
#[derive(Drop)]
pub struct Request {
    needs: Vec<(Name, Need)>,
    lock: Vec<(Name, Published)>,
    needs_by_name: Vec<usize>,
    lock_by_name: Vec<usize>,
}

impl Model for Request {
    ghost use Rattle.registry.specs.Requests.{Wanted, IsRequest};

    ghost Value = { Wanted };

    ghost view = { λ r. record { needs = r.needs.items; lock = r.lock.items } };

    ghost invariant = { λ r. IsRequest (record { needs = r.needs.items; lock = r.lock.items }) r.needs_by_name.items r.lock_by_name.items };
}

impl Request {
    /// A request of these needs under this lock: [`Refusal::RepeatedDependency`] if either names a package twice,
    /// [`Refusal::TooManyDependencies`] beyond [`NEED_LIMIT`](crate::NEED_LIMIT) needs or [`LOCK_LIMIT`] lines. The cost
    /// grows with n log n of the needs and lines.
    pub fn new(
        alloc: Global,
        needs: Vec<(Name, Need)>,
        lock: Vec<(Name, Published)>,
    ) -> Result<Request, Refusal>
        ensures { Gives (λ request. request) result (request_in needs.items lock.items) }
    {
        let needs_by_name = places_by_name(alloc, &needs)?;
        let lock_by_name = places_by_name(alloc, &lock)?;
        if repeats(&needs, &needs_by_name) || repeats(&lock, &lock_by_name) {
            return Err(Refusal::RepeatedDependency);
        }
        if needs.len() > NEED_LIMIT || lock.len() > LOCK_LIMIT {
            return Err(Refusal::TooManyDependencies);
        }
        Ok(Request {
            needs,
            lock,
            needs_by_name,
            lock_by_name,
        })
    }

    /// The needs, in the order that was given.
    pub fn needs(&self) -> &[(Name, Need)]
        ensures needs { result.now ≡ self.now.needs }
        ensures lawful { request_refusal self.now ≡ None }
    {
        &self.needs
    }

    /// The lock's lines, in the order that was given.
    pub fn lock(&self) -> &[(Name, Published)]
        ensures lock { result.now ≡ self.now.lock }
        ensures lawful { request_refusal self.now ≡ None }
    {
        &self.lock
    }

    /// The lock's lines, in the order that was given, of a request that is given up.
    pub fn into_lock(self) -> Vec<(Name, Published)>
        ensures { result.items ≡ self.lock }
    {
        self.lock
    }

    /// The need on a package. The cost grows with the logarithm of the number of needs.
    pub fn need_on(&self, name: &Name) -> Option<&Need>
        ensures need { option_copied result ≡ lookup (bytes_eq name.now) self.now.needs }
        ensures met { (version : Text) → meets_needs self.now.needs name.now version ≡ admits (option_copied result) version }
    {
        find(&self.needs, &self.needs_by_name, name)
    }

    /// The version that the lock names of a package. The cost grows with the logarithm of the
    /// number of lines.
    pub fn locked(&self, name: &Name) -> Option<&Published>
        ensures line { option_copied result ≡ lookup (bytes_eq name.now) self.now.lock }
        ensures named { (version : Text) → is_locked self.now.lock name.now version ≡ locks (option_copied result) version }
    {
        find(&self.lock, &self.lock_by_name, name)
    }

    /// Whether the lock names this version of a package, by equal precedence.
    pub fn is_locked(&self, name: &Name, version: &Published) -> bool
        ensures { result ≡ is_locked self.now.lock name.now version.now }
    {
        locks(self.locked(name), version)
    }

    /// Whether a version of a package meets the need on it, where there is one.
    pub fn admits(&self, name: &Name, version: &Published) -> bool
        ensures { result ≡ meets_needs self.now.needs name.now version.now }
    {
        admits(self.need_on(name), version)
    }
}

/// Whether a lock's line of the package, if there is one, names a version.
pub fn locks(line: Option<&Published>, version: &Published) -> bool
    ensures { result ≡ locks (option_copied line.entry) version.now }
{
    match line {
        None => false,
        Some(locked) => order(locked, version).is_eq(),
    }
}

/// Whether a version meets a need on its package, if there is one.
pub fn admits(need: Option<&Need>, version: &Published) -> bool
    ensures { result ≡ admits (option_copied need.entry) version.now }
{
    match need {
        None => true,
        Some(need) => need.admits(version),
    }
}
