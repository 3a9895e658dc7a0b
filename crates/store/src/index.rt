//! Lists of places by number.

ghost use Rattle.std.specs.Prelude.{◌≡◌, ◌<◌, ◌-◌, ◌∷◌, ◌++◌, [], true, false, All, Some, length, IfOk, IfNone, IfSome, OnErr, OnOk, slice_get};
ghost use Rattle.store.specs.Indexes.{chain_of, AreChained, AreZero, Extends, HasNone, IsNewest, IsUnder};

use std::alloc::{AllocError, Global};
use std::marker::Model;

/// How many chains an index has.
/// Measured at half and at twice this value: docs/BENCHMARKS.md, Constants.
const CHAINS: usize = 16_384;

/// What the places and the links of an index stay below.
const MOST_LINKS: usize = 4_294_967_295;

/// A place that was added under a number, and the link before it in its chain.
#[derive(Clone, Copy)]
pub struct Link {
    pub number: u64,
    pub place: u32,
    /// The number of that link, counted from 1; 0 where there is none.
    pub before: u32,
}

/// For each number the places that were added under it, newest first.
///
/// Numbers share chains, so who walks one looks at each link's number. An index takes no memory until
/// it is begun. Where there is no memory for a place, the index is whole no more: then every place has
/// to be looked at, until it is begun anew.
#[derive(Drop)]
pub struct Index {
    whole: bool,
    // the newest link of each chain
    heads: Vec<u32>,
    links: Vec<Link>,
    alloc: Global,
}

impl Model for Index {
    ghost use Rattle.store.specs.Indexes.{Indexed, IsIndex};

    ghost Value = { Indexed };

    ghost view = { λ s. record { whole = s.whole; links = s.links.items } };

    ghost invariant = { λ s. IsIndex s.whole s.heads.items s.links.items };
}

impl Index {
    /// An index that is not begun.
    pub(crate) fn new(alloc: Global) -> Index
        ensures { result.whole ≡ false }
    {
        Index {
            whole: false,
            heads: Vec::new(alloc),
            links: Vec::new(alloc),
            alloc,
        }
    }

    /// Whether it has each place that was added since it was begun.
    pub(crate) fn is_whole(&self) -> bool
        ensures { result ≡ self.now.whole }
    {
        self.whole
    }

    /// Begins it, or begins it anew, without a place.
    pub(crate) fn begin(&mut self) -> Result<(), AllocError>
        ensures empty { self.new.whole ≡ true → self.new.links ≡ [] }
        ensures lost { OnErr result (self.new.whole ≡ false) }
    {
        self.whole = false;
        self.heads = heads_at_zero(self.alloc)?;
        self.links.clear();
        self.whole = true;
        Ok(())
    }

    /// Lets go of all places. Takes no memory.
    pub(crate) fn clear(&mut self)
        ensures { self.new.links ≡ [] }
    {
        self.heads.fill(0);
        self.links.clear();
    }

    /// Counts as not whole from now on, until it is begun anew.
    pub(crate) fn lose(&mut self)
        ensures lost { self.new.whole ≡ false }
        ensures kept { self.new.links ≡ self.old.links }
    {
        self.whole = false;
    }

    /// Makes room for so many more places.
    pub(crate) fn reserve(&mut self, more: usize) -> Result<(), AllocError>
        ensures { self.new ≡ self.old }
    {
        self.links.reserve(more)
    }

    /// Adds a place under a number, if the index is whole. Where there is room, it takes no memory.
    pub(crate) fn add(&mut self, number: u64, place: usize)
        ensures whole { self.new.whole ≡ true → self.old.whole ≡ true }
        ensures kept { Extends self.old.links self.new.links }
        ensures there { self.new.whole ≡ true → IsUnder self.new.links number place }
    {
        if self.whole {
            self.whole = push_link(&mut self.heads, &mut self.links, number, place);
        }
    }

    /// The newest link of the chain that has the places under a number, counted from 1. Where there
    /// is none, or the index is not whole, it is 0.
    pub fn first(&self, number: u64) -> u32
        ensures { self.now.whole ≡ true → IsNewest self.now.links (length self.now.links) (chain_of number) result }
    {
        if !self.whole {
            return 0;
        }
        self.heads[chain_of(number)]
    }

    /// The link with this number, counted from 1.
    pub fn link(&self, at: u32) -> Option<Link>
        ensures is { IfSome result (λ link. (0 < at) × (slice_get self.now.links (at - 1) ≡ Some link)) }
        ensures before { IfSome result (λ link. link.before < at) }
        ensures step { IfSome result (λ link. IsNewest self.now.links (at - 1) (chain_of link.number) link.before) }
        ensures none { self.now.whole ≡ true → IfNone result (HasNone self.now.links at) }
    {
        if !self.whole || at == 0 {
            return None;
        }
        self.links.get(at as usize - 1).copied()
    }
}

/// The chain that a number's places stand in.
#[tactic(auto, unfolding(crate::specs::Indexes::chain_of))]
fn chain_of(number: u64) -> usize
    ensures same { result ≡ chain_of number }
    ensures few { result < CHAINS }
{
    (number % CHAINS as u64) as usize
}

/// The heads of chains that have no link.
fn heads_at_zero(alloc: Global) -> Result<Vec<u32>, AllocError>
    ensures { IfOk result (λ heads. AreZero heads.items) }
{
    let mut heads = Vec::with_capacity(alloc, CHAINS)?;
    'fill: while heads.len() < CHAINS {
        heads.push(0)?;
    }
    Ok(heads)
}

/// Adds a link at the head of its chain. Where it answers no, there was no room for it.
fn push_link(heads: &mut [u32], links: &mut Vec<Link>, number: u64, place: usize) -> bool
    requires few { length heads.old ≡ CHAINS }
    requires chained { AreChained heads.old links.old.items }
    ensures kept { Extends links.old.items links.new.items }
    ensures there { result ≡ true → IsUnder links.new.items number place }
    ensures chained { result ≡ true → AreChained heads.new links.new.items }
{
    if place >= MOST_LINKS || links.len() >= MOST_LINKS {
        return false;
    }
    let chain = chain_of(number);
    let link = Link {
        number,
        place: place as u32,
        before: heads[chain],
    };
    let Ok(()) = links.push(link) else {
        return false;
    };
    heads[chain] = links.len() as u32;
    true
}
