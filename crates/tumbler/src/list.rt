//! Lists that can keep room for items to come.
ghost use Rattle.std.specs.Prelude.{◌≡◌, ℕ, ◌+◌, ◌-◌, ◌^◌, ◌<◌, ◌≤◌, ◌==◌, max, [], ◌∷◌, ◌++◌, length, take, insert, slice_get, IsOk, IfOk, OnOk, OnErr};
ghost use Rattle.std.specs.Option.{option_copied};
ghost use Rattle.std.specs.Slice.{IsItemAt};
ghost use Rattle.std.specs.Slice.Iter.{iter_rest, iter_steps};
ghost use Rattle.std.specs.Iterator.Runs.{EveryRun, ItemsMapTo};
ghost use Rattle.std.specs.Iterator.Adapters.{IterYieldsInOrder};
ghost use Rattle.std.specs.List.Retain.{IsFiltered};
ghost use Rattle.std.specs.Fn.{CalledAt};
ghost use Rattle.std.specs.Borrow.{sem};
ghost use Rattle.tumbler.specs.ListLends.{lends_slice};

use crate::memory::Memory;
use std::alloc::Global;
use std::marker::Model;
use std::{fmt, slice};

/// A growable list that can keep room for items to come.
///
/// Its spare is the number of items that can still come in without memory being taken. It rises only by
/// `reserve`, and falls by one with each item that comes in, until it is 0. Beyond it memory may be refused.
#[derive(Drop)]
pub struct List<T> {
    held: Vec<T>,
    spare: usize,
}

/// Bytes in order.
pub type Text = List<u8>;

impl<T> Model for List<T> {
    ghost use Rattle.std.specs.Prelude.{◌+◌, ◌≤◌, vec_len, vec_capacity};
    ghost use Rattle.tumbler.specs.ListView.{ListView, list_code};

    ghost Value = { ListView T };

    ghost coded = { list_code T.code };

    ghost view = { λ l. record { items = l.held.items; spare = l.spare } };

    ghost invariant = { λ l. vec_len l.held + l.spare ≤ vec_capacity l.held };
}

impl<T> List<T> {
    /// An empty list. It takes no memory until an item comes in.
    pub fn new(alloc: Global) -> List<T>
        ensures items { result.items ≡ [] }
        ensures spare { result.spare ≡ 0 }
    {
        List {
            held: Vec::new(alloc),
            spare: 0,
        }
    }

    /// The number of items.
    pub fn len(&self) -> usize
        ensures { result ≡ length self.now.items }
    {
        self.held.len()
    }

    /// The number of items that can still come in without memory being taken.
    pub fn spare(&self) -> usize
        ensures value { result ≡ self.now.spare }
        ensures in_memory { length self.now.items + result < 2 ^ 64 }
    {
        self.is_in_memory();
        self.spare
    }

    /// Tells the prover that items and spare lie in memory, so that they are fewer than 2^64.
    fn is_in_memory(&self)
        ensures { length self.now.items + self.now.spare < 2 ^ 64 }
    {
        let _ = self.held.len();
    }

    /// Whether there is no item.
    pub fn is_empty(&self) -> bool
        ensures { result ≡ (length self.now.items == 0) }
    {
        self.held.is_empty()
    }

    /// The item at `k`, counted from 0.
    pub fn get(&self, k: usize) -> Option<&T>
        ensures value { option_copied result ≡ slice_get self.now.items k }
        ensures item { IsItemAt self.now.items k result }
    {
        self.held.get(k)
    }

    /// The items as a slice.
    pub fn as_slice(&self) -> &[T]
        ensures { result.now ≡ self.now.items }
    {
        self.held.as_slice()
    }

    /// The items as a slice, to be changed in place. The spare stays.
    pub fn as_mut_slice(&mut self) -> &mut [T]
        ensures* writes_back { sem 𝓛 (lends_slice T.row self.entry result) }
        ensures value { result.now ≡ self.old.items }
    {
        self.held.as_mut_slice()
    }

    /// The items, one after another.
    pub fn iter(&self) -> slice::Iter<'_, T>
        ensures rest { iter_rest result ≡ self.now.items }
        ensures len { length (iter_rest result) ≡ length self.now.items }
        ensures bound { length (iter_rest result) < 2 ^ 64 }
        ensures runs { IterYieldsInOrder T }
    {
        self.held.iter()
    }

    /// Makes room for `n` more items: the spare is `n` or more then.
    pub fn reserve(&mut self, n: usize) -> Result<(), Memory>
        ensures items { self.new.items ≡ self.old.items }
        ensures ok { OnOk result (self.new.spare ≡ max self.old.spare n) }
        ensures err { OnErr result (self.new ≡ self.old) }
        ensures succeeds { n ≤ self.old.spare → IsOk result }
    {
        if n <= self.spare {
            return Ok(());
        }
        self.held.reserve(n)?;
        self.spare = n;
        Ok(())
    }

    /// Adds an item at the end. It takes no memory where the spare is not 0.
    pub fn push(&mut self, item: T) -> Result<(), Memory>
    where
        T: Drop,
        ensures ok { OnOk result (self.new.items ≡ self.old.items ++ item ∷ []) }
        ensures spare { OnOk result (self.new.spare ≡ self.old.spare - 1) }
        ensures err { OnErr result (self.new ≡ self.old) }
        ensures succeeds { 0 < self.old.spare → IsOk result }
    {
        self.held.push(item)?;
        self.spare = self.spare.saturating_sub(1);
        Ok(())
    }

    /// Adds an item at the end where the spare is not 0. It takes no memory.
    pub fn push_reserved(&mut self, item: T)
        requires { 0 < self.old.spare }
        ensures items { self.new.items ≡ self.old.items ++ item ∷ [] }
        ensures spare { self.new.spare ≡ self.old.spare - 1 }
    {
        self.held.push_reserved(item);
        self.spare -= 1;
    }

    /// Puts an item before the one at `k`, or at the end where `k` is the length.
    pub fn insert(&mut self, k: usize, item: T) -> Result<(), Memory>
    where
        T: Drop,
        requires { k ≤ length self.old.items }
        ensures ok { OnOk result (self.new.items ≡ insert self.old.items k item) }
        ensures spare { OnOk result (self.new.spare ≡ self.old.spare - 1) }
        ensures err { OnErr result (self.new ≡ self.old) }
        ensures succeeds { 0 < self.old.spare → IsOk result }
    {
        self.held.insert(k, item)?;
        self.spare = self.spare.saturating_sub(1);
        Ok(())
    }

    /// Keeps the first `n` items, or all where there are fewer. The spare stays.
    pub fn truncate(&mut self, n: usize)
    where
        T: Drop,
        ensures items { self.new.items ≡ take n self.old.items }
        ensures spare { self.new.spare ≡ self.old.spare }
    {
        self.held.truncate(n);
    }

    /// Keeps the items that pass the test, in their order. The spare stays.
    pub fn retain<F: FnMut(&T) -> bool>(&mut self, f: F)
    where
        T: Drop,
        requires { F.IsAlwaysCallable f }
        ensures filtered { IsFiltered (CalledAt F.FnMut) f self.old.items self.new.items }
        ensures spare { self.new.spare ≡ self.old.spare }
    {
        self.held.retain(f);
    }
}

impl<T: Copy> List<T> {
    /// A list of these items, with no spare.
    pub fn from_slice(alloc: Global, items: &[T]) -> Result<List<T>, Memory>
        ensures items { IfOk result (λ list. list.items ≡ items.now) }
        ensures spare { IfOk result (λ list. list.spare ≡ 0) }
    {
        Ok(List {
            held: Vec::from_slice(alloc, items)?,
            spare: 0,
        })
    }

    /// Adds all these items at the end, or none where memory is refused. The spare falls as by `push`.
    pub fn extend_from_slice(&mut self, items: &[T]) -> Result<(), Memory>
        ensures ok { OnOk result (self.new.items ≡ self.old.items ++ items.now) }
        ensures spare { OnOk result (self.new.spare ≡ self.old.spare - length items.now) }
        ensures err { OnErr result (self.new ≡ self.old) }
        ensures succeeds { length items.now ≤ self.old.spare → IsOk result }
    {
        self.held.extend_from_slice(items)?;
        self.spare = self.spare.saturating_sub(items.len());
        Ok(())
    }
}

impl<'a, T> IntoIterator for &'a List<T> {
    type Item = &'a T;

    type IntoIter = slice::Iter<'a, T>;

    ghost into_iter_gives = { λ list it. (iter_rest it ≡ list.now.items) × (length (iter_rest it) < 2 ^ 64)
        × EveryRun (iter_steps {A = T}) (λ p. ItemsMapTo p (λ x. x.now) (iter_rest p.from)) };

    fn into_iter(self) -> slice::Iter<'a, T> {
        self.iter()
    }
}

impl<T: fmt::Debug> fmt::Debug for List<T> {
    fn fmt<W: fmt::Write>(&self, f: &mut fmt::Formatter<W>) -> fmt::Result {
        self.held.fmt(f)
    }
}
