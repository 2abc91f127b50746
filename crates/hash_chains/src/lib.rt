//! Chains of places over arrays: a head for each chain, and after each place the next of its chain.
//!
//! A place is on one chain at most, and what comes last comes first. No call but `new` takes memory.
#![tactic(auto)]

mod slots;

ghost use Rattle.std.specs.Prelude.{◌≡◌, ℕ, ◌<◌, ◌∷◌, [], length, replicate, true, false, Option, Some, None, IfOk, IfSome, slice_set, slice_index_or, vec_len};
ghost use Rattle.hash_chains.specs.Order.{AreSeparate, chain_at, is_among, first_in, after_in, without_place};
ghost use Rattle.hash_chains.specs.Links.{before_in, heads_led, next_led};

use filled::filled;
pub use slots::slot_of_pair;
use std::alloc::{AllocError, Global};
use std::marker::Model;

/// Chains by number, each a list of places.
#[derive(Drop)]
pub struct Chains {
    heads: Vec<Option<u32>>,
    next: Vec<Option<u32>>,
}

impl Model for Chains {
    ghost use Rattle.std.specs.Prelude.{length};
    ghost use Rattle.hash_chains.specs.Order.{ChainsSeen};
    ghost use Rattle.hash_chains.specs.Links.{order_of, AreSoundChains};

    ghost Value = { ChainsSeen };

    ghost view = { λ c. record { order = order_of c.heads.items c.next.items; size = length c.next.items } };

    ghost invariant = { λ c. AreSoundChains c.heads.items c.next.items (order_of c.heads.items c.next.items) };
}

impl Chains {
    /// That many chains without a place, over that many places.
    pub fn new(alloc: Global, chains: u32, places: u32) -> Result<Chains, AllocError>
        ensures order { IfOk result (λ c. c.order ≡ replicate chains []) }
        ensures size { IfOk result (λ c. c.size ≡ places) }
        ensures apart { IfOk result (λ c. AreSeparate c.order) }
    {
        Ok(Chains {
            heads: filled(alloc, None, chains as usize)?,
            next: filled(alloc, None, places as usize)?,
        })
    }

    /// The first place of a chain.
    #[inline]
    pub fn first(&self, chain: u32) -> Option<u32>
        requires { chain < length self.now.order }
        ensures first { result ≡ first_in (chain_at self.now.order chain) }
        ensures apart { AreSeparate self.now.order }
    {
        self.heads[chain as usize]
    }

    /// The place behind another on its chain.
    #[inline]
    pub fn after(&self, place: u32) -> Option<u32>
        requires { (chain : ℕ) × (is_among place (chain_at self.now.order chain) ≡ true) }
        ensures after { (chain : ℕ) → is_among place (chain_at self.now.order chain) ≡ true
            → result ≡ after_in place (chain_at self.now.order chain) }
        ensures apart { AreSeparate self.now.order }
    {
        self.next[place as usize]
    }

    // The place before another on its chain. Time: the places before it.
    fn before(&self, place: u32, chain: u32) -> Option<u32>
        requires { is_among place (chain_at self.now.order chain) ≡ true }
        ensures { result ≡ before_in None place (chain_at self.now.order chain) }
    {
        let mut before = None;
        let mut at = self.first(chain);
        while let Some(other) = at {
            if other == place {
                return before;
            }
            before = at;
            at = self.after(other);
        }
        before
    }

    /// Puts a place that is on no chain on this one, as its first. Constant time.
    #[inline]
    pub fn link(&mut self, place: u32, chain: u32)
        requires chain { chain < length self.old.order }
        requires place { place < self.old.size }
        requires off { (c : ℕ) → is_among place (chain_at self.old.order c) ≡ false }
        // What it leaves.
        ensures order { self.new.order
            ≡ slice_set self.old.order chain (place ∷ chain_at self.old.order chain) }
        ensures size { self.new.size ≡ self.old.size }
        ensures apart { AreSeparate self.new.order }
    {
        let (head, link) = (chain as usize, place as usize);
        let after = self.heads[head];
        self.next[link] = after;
        self.heads[head] = Some(place);
    }

    /// Takes a place off its chain. Time: the places of the chain before it.
    pub fn unlink(&mut self, place: u32, chain: u32)
        requires { is_among place (chain_at self.old.order chain) ≡ true }
        ensures order { self.new.order
            ≡ slice_set self.old.order chain (without_place place (chain_at self.old.order chain)) }
        ensures size { self.new.size ≡ self.old.size }
        ensures apart { AreSeparate self.new.order }
    {
        let before = self.before(place, chain);
        let after = self.next[place as usize];
        lead(&mut self.heads, &mut self.next, chain, before, after);
    }
}

// Sets the link after a place of the chain, or the chain's head.
fn lead(
    heads: &mut Vec<Option<u32>>,
    next: &mut Vec<Option<u32>>,
    chain: u32,
    before: Option<u32>,
    to: Option<u32>,
)
    requires chain { chain < vec_len heads.old }
    requires before { IfSome before (λ p. p < vec_len next.old) }
    ensures heads { heads.new.items ≡ heads_led before heads.old.items chain to }
    ensures next { next.new.items ≡ next_led before next.old.items to }
{
    match before {
        None => heads[chain as usize] = to,
        Some(place) => next[place as usize] = to,
    }
}
